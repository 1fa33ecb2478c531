//! What an accepted commit brings.
use fs_write::{TimedChange, WriteResults};

/// The results of an accepted commit's writes, and what they change.
#[derive(Drop)]
pub(crate) struct Accepted {
    pub(crate) results: WriteResults,
    pub(crate) change: TimedChange,
}
