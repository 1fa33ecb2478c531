//! Why a text is no moment of Firestore's.

use std::alloc::{AllocError, AllocFailed};
use thiserror::Error;

/// Why a text isn't read as a moment (`google.protobuf.Timestamp` in JSON).
#[derive(Debug, Drop, Error)]
pub enum TimeError {
    /// It isn't a time in RFC 3339, or its day or its time of day doesn't exist.
    #[error("not a time in RFC 3339")]
    BadText,
    /// It shows a time that Firestore doesn't have, before 0001-01-01T00:00:00Z or after 9999-12-31T23:59:59.999999Z.
    #[error("a time out of range")]
    OutOfRange,
    /// There was no memory left.
    #[error("out of memory")]
    Memory(AllocError),
}

impl From<AllocError> for TimeError {
    ghost use Rattle.std.specs.Prelude.{◌≡◌};
    ghost use Rattle.fs_time.specs.declared.error.TimeError.TheVariants.{Memory};

    ghost from_gives = { λ e t. t ≡ Memory e };

    fn from(e: AllocError) -> TimeError {
        TimeError::Memory(e)
    }
}

impl<T: Drop> From<AllocFailed<T>> for TimeError {
    ghost use Rattle.std.specs.Prelude.{◌≡◌, alloc_error};
    ghost use Rattle.fs_time.specs.declared.error.TimeError.TheVariants.{Memory};

    ghost from_gives = { λ _ t. t ≡ Memory alloc_error };

    fn from(_: AllocFailed<T>) -> TimeError {
        TimeError::Memory(AllocError)
    }
}
