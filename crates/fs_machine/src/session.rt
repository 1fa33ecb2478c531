//! Sessions.
use crate::messages::Messages;

/// A session that is open. (v1 reference, "Listen" and "Write": the streams of one client.)
#[derive(Drop)]
pub struct Session {
    /// Its number in the order of opening, counted from 0 and never given again.
    pub number: u32,
    /// The messages that it has still to be sent.
    pub outbox: Messages,
    /// Whether it ever owned a write stream.
    pub has_owned: bool,
}
