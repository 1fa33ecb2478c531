//! Requests that wait.
use fs_request::Envelope;
use fs_status::Id;

/// A request that is held by a commit which isn't released yet, or by a transaction that is open. It waits, and is tried again.
#[derive(Drop)]
pub struct ParkedRequest {
    /// The session that asked.
    pub session: u32,
    /// That of its transaction, or the one that it drew as it came.
    pub id: Id,
    /// The write stream that took it as its next batch, if it is one. It is a commit then.
    pub stream: Option<u64>,
    pub envelope: Envelope,
}
