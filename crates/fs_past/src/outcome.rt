//! What the writes of a commit come to.
ghost use Rattle.std.specs.Prelude.{◌≡◌, ◌≢◌, IfOk, OnOk, List};
ghost use Rattle.fs_history.specs.History.{whole};
ghost use Rattle.fs_history.specs.declared.batch.Batch.{Batch};
ghost use Rattle.fs_status.specs.Refusal.{refusal_of};
ghost use Rattle.fs_status.specs.declared.reason.Reason.TheVariants.{Memory};
ghost use Rattle.fs_store.specs.Shows.{Shows};
ghost use Rattle.fs_machine.specs.Settle.{IsOutcomeOn};

use crate::named::named_by;
use fs_machine::Outcome;
use fs_status::{Reason, Refusal};
use fs_store::Store;
use fs_time::Micros;
use fs_write::{Writes, apply_batch, batches_are_lawful};
use std::alloc::{AllocError, Global};

// A refusal for another reason than want of memory.
fn unless_memory(refusal: Refusal) -> Result<Refusal, AllocError>
    ensures same { IfOk result (λ r. r ≡ refusal) }
    ensures other { OnOk result (refusal ≢ refusal_of Memory) }
{
    match &refusal.reason {
        Reason::Memory => Err(AllocError),
        _ => Ok(refusal),
    }
}

/// What writes come to on the newest documents of a store. Where memory runs out, and where they are more than a `u32` can
/// number, it isn't known.
pub(crate) fn outcome_among(
    alloc: Global,
    store: &Store,
    writes: &Writes,
    time: Micros,
) -> Result<Outcome, AllocError>
    ensures { IfOk result (λ o. (h : List Batch) → Shows h store.now.stored → IsOutcomeOn (whole h) writes.now time o) }
{
    if writes.len() > u32::MAX as usize {
        return Err(AllocError);
    }
    let there = named_by(alloc, store, writes.as_slice())?;
    batches_are_lawful();
    match apply_batch(alloc, &there, writes, time) {
        Ok((changes, results)) => Ok(Outcome::Effects(changes, results)),
        Err(refusal) => Ok(Outcome::Refused(unless_memory(refusal)?)),
    }
}
