//! The changes of a commit with its time, for those who follow a database.
use crate::change::Changes;
use fs_path::{Copied, List};
use fs_status::Id;
use fs_time::Micros;
use std::alloc::{AllocError, Global};

/// What a commit changed, with its time and its number.
#[derive(Drop)]
pub struct TimedChange {
    /// The commit time.
    pub time: Micros,
    /// The number of the commit.
    pub id: Id,
    /// None where each document is as it was.
    pub changes: Changes,
}

impl TimedChange {
    ghost use Rattle.std.specs.Prelude.{◌≡◌, IfOk};

    /// The same once more. Its documents share their fields with those here.
    pub fn copy(&self, alloc: Global) -> Result<TimedChange, AllocError>
        ensures { IfOk result (λ c. c ≡ self.now) }
    {
        Ok(TimedChange {
            time: self.time,
            id: self.id,
            changes: self.changes.copy(alloc)?,
        })
    }
}

/// The changes of several commits, by rising time.
pub type TimedChanges = List<TimedChange>;

impl Copied for TimedChange {
    fn copy(&self, alloc: Global) -> Result<TimedChange, AllocError> {
        self.copy(alloc)
    }
}
