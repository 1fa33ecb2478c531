//! Why a client doesn't do what it is asked for.
use fs_query::QueryRule;
use std::alloc::{AllocError, AllocFailed};
use thiserror::Error;

/// Why a client doesn't listen to a target, or doesn't show it.
#[derive(Debug, Drop, Error)]
pub enum ClientError {
    /// The id isn't above the one beside it, the greatest that the client ever listened to.
    #[error("target {0} isn't above {1}")]
    NotRising(u32, u32),
    /// The client listens to no target of this id.
    #[error("target {0} unknown")]
    Unknown(u32),
    /// The client listens to as many targets as it may.
    #[error("more than {0} targets")]
    TooMany(u64),
    /// The query breaks a rule of queries.
    #[error("a rule of queries is broken")]
    Rule(QueryRule),
    /// There was no memory left.
    #[error("out of memory")]
    Memory(AllocError),
}

impl<T: Drop> From<AllocFailed<T>> for ClientError {
    ghost use Rattle.std.specs.Prelude.{◌≡◌, alloc_error};
    ghost use Rattle.fs_local.specs.declared.error.ClientError.TheVariants.{Memory};

    ghost from_gives = { λ _ b. b ≡ Memory alloc_error };

    fn from(_: AllocFailed<T>) -> ClientError {
        ClientError::Memory(AllocError)
    }
}

impl From<AllocError> for ClientError {
    ghost use Rattle.std.specs.Prelude.{◌≡◌};
    ghost use Rattle.fs_local.specs.declared.error.ClientError.TheVariants.{Memory};

    ghost from_gives = { λ e b. b ≡ Memory e };

    fn from(e: AllocError) -> ClientError {
        ClientError::Memory(e)
    }
}
