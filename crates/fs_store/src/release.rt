//! Releases.
use fs_time::Micros;
use fs_write::TimedChanges;
use std::alloc::{AllocError, Global};

/// What comes to be seen when the released time goes from one time to another: the changes of the commits in between.
#[derive(Drop)]
pub struct Release {
    /// The released time before.
    pub from: Micros,
    /// The released time afterwards. No later commit will be at this time or before it.
    pub to: Micros,
    /// The commits behind `from`, up to and with `to`.
    pub changes: TimedChanges,
}

impl Release {
    ghost use Rattle.std.specs.Prelude.{◌≡◌, IfOk};

    /// A copy, whose documents share their fields with those of this one.
    pub fn copy(&self, alloc: Global) -> Result<Release, AllocError>
        ensures { IfOk result (λ r. r ≡ self.now) }
    {
        Ok(Release {
            from: self.from,
            to: self.to,
            changes: self.changes.copy(alloc)?,
        })
    }
}
