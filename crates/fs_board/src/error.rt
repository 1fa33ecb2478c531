//! Why a commit gets no time.

use std::alloc::{AllocError, AllocFailed};
use thiserror::Error;

/// Why a commit gets no time.
#[derive(Debug, Drop, Error)]
pub enum BoardError {
    /// The last moment that Firestore has, 9999-12-31T23:59:59.999999Z, was issued (`google.protobuf.Timestamp`).
    #[error("no time is left")]
    EndOfTime,
    /// There was no memory left.
    #[error("out of memory")]
    Memory(AllocError),
}

impl<T: Drop> From<AllocFailed<T>> for BoardError {
    ghost use Rattle.std.specs.Prelude.{◌≡◌, alloc_error};
    ghost use Rattle.fs_board.specs.declared.error.BoardError.TheVariants.{Memory};

    ghost from_gives = { λ _ b. b ≡ Memory alloc_error };

    fn from(_: AllocFailed<T>) -> BoardError {
        BoardError::Memory(AllocError)
    }
}
