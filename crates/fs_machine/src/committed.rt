//! Commits that are let into the history.
use crate::asker::Asker;
use fs_time::Micros;
use fs_write::WriteResults;

/// A commit that is let into the history, by what it is answered and who is.
#[derive(Drop)]
pub struct Committed {
    pub asker: Asker,
    pub time: Micros,
    pub results: WriteResults,
}
