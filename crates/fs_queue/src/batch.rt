//! The batches of a client.
use fs_time::Micros;
use fs_write::Writes;
use std::alloc::{AllocError, Global};

/// A batch of writes, and the moment at which the client made it, by its own clock.
#[derive(Drop)]
pub struct LocalBatch {
    pub writes: Writes,
    pub moment: Micros,
}

impl LocalBatch {
    ghost use Rattle.std.specs.Prelude.{◌≡◌, IfOk};

    pub fn copy(&self, alloc: Global) -> Result<LocalBatch, AllocError>
        ensures { IfOk result (λ b. b ≡ self.now) }
    {
        Ok(LocalBatch {
            writes: self.writes.copy(alloc)?,
            moment: self.moment,
        })
    }
}

/// A batch that was committed, whose effect no snapshot of the client has yet.
#[derive(Drop)]
pub struct Acknowledged {
    pub number: u64,
    pub batch: LocalBatch,
    /// When it was committed.
    pub at: Micros,
}

/// How far a batch is.
#[derive(Clone, Copy, PartialEq, Eq)]
pub enum Phase {
    /// It isn't sent.
    Waiting,
    /// It is sent, and not answered.
    Sent,
    /// It was committed at this time.
    Acknowledged(Micros),
}
