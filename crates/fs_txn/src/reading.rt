//! What transactions have read.
ghost use Rattle.std.specs.Prelude.{◌≡◌, ◌||◌, ◌&&◌, ◌==◌, ◌∷◌, ℕ, [], IfOk, OnOk, OnErr, length};
ghost use Rattle.std.specs.List.{list_any};
ghost use Rattle.fs_history.specs.Touches.{touches as touches_one};
ghost use Rattle.fs_locks.specs.Shares.{is_shared, is_touched, without_last_share};
ghost use Rattle.fs_path.specs.declared.name.DocName.{DocName};
ghost use Rattle.fs_txn.specs.Kept.{without_lasts};

use fs_history::{Read, Reads};
use fs_locks::{Held, Locks};
use fs_status::Id;
use std::alloc::{AllocError, Global};

/// One read alone.
pub(crate) fn one(alloc: Global, r: Read) -> Result<Reads, AllocError>
    ensures { IfOk result (λ rs. rs ≡ r ∷ []) }
{
    let mut reads = Reads::new(alloc);
    reads.push(r)?;
    Ok(reads)
}

// What a read-write transaction holds shared by a read: the name, or the scope of the query.
fn held_of(alloc: Global, r: &Read) -> Result<Held, AllocError>
    ensures { IfOk result (λ held. (n : DocName) → is_touched held n ≡ touches_one n r.now) }
{
    match r {
        Read::Name { name, .. } => Ok(Held::Name(name.copy(alloc)?)),
        Read::Query { query, .. } => Ok(Held::Scope(query.scope.copy(alloc)?)),
    }
}

// From now on an id holds shared what a read-write transaction does by this read.
fn hold_one(alloc: Global, holds: &mut Locks, id: Id, r: &Read) -> Result<(), AllocError>
    ensures ok { OnOk result ((i : ℕ) (n : DocName) → is_shared holds.new.shared i n ≡ (is_shared holds.old.shared i n || (i == id && touches_one n r.now))) }
    ensures back { OnOk result (without_last_share holds.new.shared id ≡ holds.old.shared) }
    ensures err { OnErr result (holds.new.shared ≡ holds.old.shared) }
{
    let held = held_of(alloc, r)?;
    holds.hold(alloc, id, held)
}

// From now on an id holds shared what a read-write transaction does by these reads. Where memory runs out, nothing is changed.
pub(crate) fn hold_all(
    alloc: Global,
    holds: &mut Locks,
    id: Id,
    reads: &[Read],
) -> Result<(), AllocError>
    ensures ok { OnOk result ((i : ℕ) (n : DocName) → is_shared holds.new.shared i n ≡ (is_shared holds.old.shared i n || (i == id && list_any (touches_one n) reads.now))) }
    ensures back { OnOk result (without_lasts (length reads.now) holds.new.shared id ≡ holds.old.shared) }
    ensures err { OnErr result (holds.new.shared ≡ holds.old.shared) }
{
    for (count, r) in reads.iter().enumerate() {
        if let Err(error) = hold_one(alloc, holds, id, r) {
            take_back_all(holds, id, count);
            return Err(error);
        }
    }
    Ok(())
}

// What an id came to hold last is taken back, and so on, so many times.
pub(crate) fn take_back_all(holds: &mut Locks, id: Id, count: usize)
    ensures { holds.new.shared ≡ without_lasts count holds.old.shared id }
{
    for _done in 0..count {
        holds.take_back(id);
    }
}
