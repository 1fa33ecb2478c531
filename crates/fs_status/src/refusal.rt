//! The answer to a request that is refused.
ghost use Rattle.std.specs.Prelude.{◌≡◌, IfOk};
ghost use Rattle.fs_status.specs.Refusal.{refusal_of, at_limit, conflict_with};

use crate::code::Code;
use crate::id::Id;
use crate::reason::Reason;
use fs_path::Text;
use std::alloc::{AllocError, AllocFailed, Global};

/// The answer to a request that isn't carried out.
#[derive(Drop)]
pub struct Refusal {
    pub code: Code,
    pub reason: Reason,
    /// The write of the request that is refused, counted from 0.
    pub index: Option<u32>,
    /// The commit or the transaction that the request conflicts with.
    pub conflict: Option<Id>,
    /// The limit that the request would pass.
    pub limit: Option<Limit>,
}

/// A limit by its name, and the number that it allows.
#[derive(Drop)]
pub struct Limit {
    pub name: Text,
    pub number: u64,
}

impl Refusal {
    /// The refusal for a reason, with the reason's status and the write that it names.
    pub fn of(reason: Reason) -> Refusal
        ensures { result ≡ refusal_of reason }
    {
        Refusal {
            code: reason.code(),
            index: reason.index(),
            reason,
            conflict: None,
            limit: None,
        }
    }

    /// The refusal of a request that would pass a limit: the limit by its name, and the number that it allows.
    pub fn at_limit(alloc: Global, name: &str, number: u64) -> Result<Refusal, AllocError>
        ensures { IfOk result (λ r. r ≡ at_limit name.now number) }
    {
        let limit = Limit {
            name: Text::from_str(alloc, name)?,
            number,
        };
        let reason = Reason::AtLimit(Text::from_str(alloc, name)?, number);
        Ok(Refusal {
            limit: Some(limit),
            ..Refusal::of(reason)
        })
    }

    /// The refusal of a transaction that is aborted, since it conflicts with the commit or the transaction of this number.
    /// (Cloud Firestore documentation, "Transaction serializability and isolation".)
    pub fn conflict_with(other: Id) -> Refusal
        ensures { result ≡ conflict_with other }
    {
        Refusal {
            conflict: Some(other),
            ..Refusal::of(Reason::Conflict(other))
        }
    }

    pub fn copy(&self, alloc: Global) -> Result<Refusal, AllocError>
        ensures { IfOk result (λ r. r ≡ self.now) }
    {
        Ok(Refusal {
            code: self.code,
            reason: self.reason.copy(alloc)?,
            index: self.index,
            conflict: self.conflict,
            limit: copy_of(alloc, &self.limit)?,
        })
    }
}

fn copy_of(alloc: Global, limit: &Option<Limit>) -> Result<Option<Limit>, AllocError>
    ensures { IfOk result (λ l. l ≡ limit.now) }
{
    match limit {
        Some(limit) => Ok(Some(limit.copy(alloc)?)),
        None => Ok(None),
    }
}

impl Limit {
    pub fn copy(&self, alloc: Global) -> Result<Limit, AllocError>
        ensures { IfOk result (λ l. l ≡ self.now) }
    {
        Ok(Limit {
            name: self.name.copy(alloc)?,
            number: self.number,
        })
    }
}

impl From<AllocError> for Refusal {
    ghost use Rattle.std.specs.Prelude.{◌≡◌};
    ghost use Rattle.fs_status.specs.declared.reason.Reason.TheVariants.{Memory};
    ghost use Rattle.fs_status.specs.Refusal.{refusal_of};

    ghost from_gives = { λ _ r. r ≡ refusal_of Memory };

    fn from(_: AllocError) -> Refusal {
        Refusal::of(Reason::Memory)
    }
}

impl<T: Drop> From<AllocFailed<T>> for Refusal {
    ghost use Rattle.std.specs.Prelude.{◌≡◌};
    ghost use Rattle.fs_status.specs.declared.reason.Reason.TheVariants.{Memory};
    ghost use Rattle.fs_status.specs.Refusal.{refusal_of};

    ghost from_gives = { λ _ r. r ≡ refusal_of Memory };

    fn from(_: AllocFailed<T>) -> Refusal {
        Refusal::of(Reason::Memory)
    }
}
