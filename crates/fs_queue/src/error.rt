//! Why a client doesn't take a batch.
use std::alloc::{AllocError, AllocFailed};
use thiserror::Error;

/// Why a client doesn't take a batch.
#[derive(Debug, Drop, Error)]
pub enum QueueError {
    /// As many batches as may be aren't covered yet, which is told, or no number is left.
    #[error("more than {0} batches")]
    Full(u64),
    /// It has so many writes: none, or more than `MOST_WRITES`.
    #[error("{0} writes")]
    Count(u64),
    /// The rule of writes that the write of a number breaks, counted from 0.
    #[error("write {1}: E{0}")]
    Rule(u8, u32),
    /// There was no memory left.
    #[error("out of memory")]
    Memory(AllocError),
}

impl<T: Drop> From<AllocFailed<T>> for QueueError {
    ghost use Rattle.std.specs.Prelude.{◌≡◌, alloc_error};
    ghost use Rattle.fs_queue.specs.declared.error.QueueError.TheVariants.{Memory};

    ghost from_gives = { λ _ b. b ≡ Memory alloc_error };

    fn from(_: AllocFailed<T>) -> QueueError {
        QueueError::Memory(AllocError)
    }
}

impl From<AllocError> for QueueError {
    ghost use Rattle.std.specs.Prelude.{◌≡◌};
    ghost use Rattle.fs_queue.specs.declared.error.QueueError.TheVariants.{Memory};

    ghost from_gives = { λ e b. b ≡ Memory e };

    fn from(e: AllocError) -> QueueError {
        QueueError::Memory(e)
    }
}
