//! Replies.
use fs_request::Message;

/// What a session is told of its commit.
#[derive(Drop)]
pub struct Reply {
    pub session: u32,
    pub message: Message,
}
