//! Batches.
use crate::read::Reads;
use fs_status::Id;
use fs_time::Micros;
use fs_write::Writes;
use std::alloc::{AllocError, Global};

/// A commit that was carried out. (v1 reference, "Commit".)
#[derive(Drop)]
pub struct Batch {
    /// Its commit time, at which its changes are seen. No two batches have the same.
    pub time: Micros,
    /// Its number, in the order in which commits came.
    pub id: Id,
    pub writes: Writes,
    /// What its transaction had read, if it was that of one.
    pub reads: Reads,
}

impl Batch {
    ghost use Rattle.std.specs.Prelude.{◌≡◌, IfOk};

    /// A copy, whose documents share their fields with those of this one.
    pub fn copy(&self, alloc: Global) -> Result<Batch, AllocError>
        ensures { IfOk result (λ b. b ≡ self.now) }
    {
        Ok(Batch {
            time: self.time,
            id: self.id,
            reads: self.reads.copy(alloc)?,
            writes: self.writes.copy(alloc)?,
        })
    }
}
