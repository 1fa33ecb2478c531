//! How far the targets of a session are together.
use fs_time::Micros;

/// How far the targets of a session are together: the time up to which each of them has been told each of its shards.
#[derive(Clone, Copy, PartialEq, Eq)]
pub enum Cut {
    At(Micros),
    /// This target, the first of them, isn't loaded yet.
    Loading(u32),
    /// The session listens to nothing.
    NoTarget,
}
