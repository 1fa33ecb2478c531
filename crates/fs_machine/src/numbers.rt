//! Numbers that were given.

/// How many numbers a server has given so far. None is given twice.
#[derive(Clone, Copy, PartialEq, Eq)]
pub struct Numbers {
    /// The last that a commit or a transaction drew. They count from 1.
    pub ids: u64,
    /// How many sessions were opened: the number of the next.
    pub sessions: u64,
    /// How many targets were added: the number of the last.
    pub targets: u64,
}
