//! Why the targets of a session stay as they are.
use std::alloc::{AllocError, AllocFailed};
use thiserror::Error;

/// Why the targets of a session stay as they are.
#[derive(Debug, Drop, Error)]
pub enum TargetError {
    /// A target of this id is there.
    #[error("target {0} in use")]
    InUse(u32),
    /// There is no target of this id.
    #[error("target {0} unknown")]
    Unknown(u32),
    /// There are as many targets as there may be.
    #[error("more than {0} targets")]
    TooMany(u64),
    /// There was no memory left.
    #[error("out of memory")]
    Memory(AllocError),
}

impl<T: Drop> From<AllocFailed<T>> for TargetError {
    ghost use Rattle.std.specs.Prelude.{◌≡◌, alloc_error};
    ghost use Rattle.fs_target.specs.declared.error.TargetError.TheVariants.{Memory};

    ghost from_gives = { λ _ b. b ≡ Memory alloc_error };

    fn from(_: AllocFailed<T>) -> TargetError {
        TargetError::Memory(AllocError)
    }
}

impl From<AllocError> for TargetError {
    ghost use Rattle.std.specs.Prelude.{◌≡◌};
    ghost use Rattle.fs_target.specs.declared.error.TargetError.TheVariants.{Memory};

    ghost from_gives = { λ e b. b ≡ Memory e };

    fn from(e: AllocError) -> TargetError {
        TargetError::Memory(e)
    }
}
