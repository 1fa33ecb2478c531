//! Commits that are under way.
use crate::asker::Asker;
use fs_history::Batch;
use fs_time::Micros;
use fs_write::WriteResults;

/// A commit that isn't in the history yet.
#[derive(Drop)]
pub struct Unreleased {
    /// What it is to be there.
    pub batch: Batch,
    /// Who is answered.
    pub asker: Asker,
    /// Those of its writes, once it is accepted. It is pending before that.
    pub results: Option<WriteResults>,
}

impl Unreleased {
    ghost use Rattle.std.specs.Prelude.{◌≡◌};

    /// Its commit time.
    pub fn time(&self) -> Micros
        ensures { result ≡ self.now.batch.time }
    {
        self.batch.time
    }
}
