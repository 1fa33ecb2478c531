//! Why a write stream doesn't take a request.
use std::alloc::{AllocError, AllocFailed};

/// Why a write stream doesn't take a request.
#[derive(Drop)]
pub enum StreamError {
    /// No stream of this number was opened.
    Unknown(u64),
    /// The session owns no stream.
    NotOwner,
    /// The token, which is more than one batch behind, and how many batches are finished.
    Stale(u64, u64),
    /// The token, which no response had yet, and how many batches are finished.
    Ahead(u64, u64),
    /// As many streams were opened as may be.
    TooMany(u64),
    /// The session owns a stream, and can't have another.
    Second,
    /// There was no memory left.
    Memory(AllocError),
}

impl<T: Drop> From<AllocFailed<T>> for StreamError {
    ghost use Rattle.std.specs.Prelude.{◌≡◌, alloc_error};
    ghost use Rattle.fs_stream.specs.declared.error.StreamError.TheVariants.{Memory};

    ghost from_gives = { λ _ b. b ≡ Memory alloc_error };

    fn from(_: AllocFailed<T>) -> StreamError {
        StreamError::Memory(AllocError)
    }
}

impl From<AllocError> for StreamError {
    ghost use Rattle.std.specs.Prelude.{◌≡◌};
    ghost use Rattle.fs_stream.specs.declared.error.StreamError.TheVariants.{Memory};

    ghost from_gives = { λ e b. b ≡ Memory e };

    fn from(e: AllocError) -> StreamError {
        StreamError::Memory(e)
    }
}
