//! Releases of a store.
ghost use Rattle.std.specs.Prelude.{◌≡◌, ◌-◌, ◌≤◌, ◌++◌, ◌∷◌, List, [], IfOk, IfSome, OnOk, length};
ghost use Rattle.std.specs.List.{All, sum_by};
ghost use Rattle.std.specs.Vec.{vec_len, vec_capacity};
ghost use Rattle.fs_history.specs.declared.batch.Batch.{Batch};
ghost use Rattle.fs_history.specs.Brings.{Brings};
ghost use Rattle.fs_store.specs.Fits.{Fits};
ghost use Rattle.fs_store.specs.Room.{HasPlaces, HasRoomFor, change_count};
ghost use Rattle.fs_store.specs.Shows.{Shows};
ghost use Rattle.fs_store.specs.Stored.{absorbed};
ghost use Rattle.fs_versions.specs.Room.{HasRoom};
ghost use Rattle.fs_past.specs.Kept.{AreHeld, AreNumbered, GoOn, all_history, bytes_of, changes_of, kept_on_board};
ghost use Rattle.fs_store.specs.Next.{next_release};

use crate::accepted::Accepted;
use crate::commits::{batch_of, bytes_left, change_of, id_of};
use crate::holds::Holds;
use fs_board::Board;
use fs_history::Journal;
use fs_machine::Unreleased;
use fs_store::{Release, Store};
use fs_time::Micros;
use fs_write::{TimedChange, TimedChanges};
use std::alloc::{AllocError, Global};

// How many changes commits have, if memory may have so many.
fn count_of(ready: &[(&Unreleased, &Accepted)]) -> Option<usize>
    ensures { IfSome result (λ n. n ≡ sum_by (λ r. length r.1.now.change.changes) ready.now) }
{
    let mut count = 0_usize;
    for commit in ready {
        count = count.checked_add(commit.1.change.changes.len())?;
    }
    Some(count)
}

/// Makes room for the changes of the accepted commits before which none is pending: in a store, one version at each name and a place
/// for each change, and in a list, which is empty yet. Where memory runs out, nothing is changed that is stored.
pub(crate) fn make_room(
    alloc: Global,
    store: &mut Store,
    board: &Board<Unreleased, Accepted>,
) -> Result<Vec<TimedChange>, AllocError>
    ensures same { store.new.stored ≡ store.old.stored }
    ensures room { OnOk result (All (λ c. HasRoom store.new.room 1 c.changes) (changes_of board.now.commits)) }
    ensures noted { OnOk result (HasPlaces store.new (change_count (changes_of board.now.commits))) }
    ensures none { IfOk result (λ v. v.items ≡ []) }
    ensures places { IfOk result (λ v. length (changes_of board.now.commits) ≤ vec_capacity v - vec_len v) }
{
    let ready = board.all_ready(alloc)?;
    for commit in ready.as_slice() {
        store.make_room_for(alloc, &commit.1.change.changes)?;
    }
    let Some(count) = count_of(ready.as_slice()) else {
        return Err(AllocError);
    };
    store.make_places(count)?;
    Ok(Vec::with_capacity(alloc, ready.len())?)
}

/// What the accepted commit changes before which none is pending, where that is one alone and has one change, as most have.
pub(crate) fn one_ready(board: &Board<Unreleased, Accepted>) -> Option<&TimedChange>
    ensures alone { IfSome result (λ c. changes_of board.now.commits ≡ c.now ∷ []) }
    ensures one { IfSome result (λ c. length c.now.changes ≡ 1) }
{
    match board.only_ready() {
        Some((_, accepted)) if accepted.change.changes.len() == 1 => Some(&accepted.change),
        _ => None,
    }
}

/// Lets the accepted commits into a journal before which none is pending, the first of them first. They hold no names any more, and
/// what they change comes into a list. It takes no memory.
pub(crate) fn let_in(
    journal: &mut Journal,
    board: &mut Board<Unreleased, Accepted>,
    holds: &mut Holds,
    waiting: &mut u128,
    changes: &mut Vec<TimedChange>,
)
    requires room { length board.old.commits ≤ journal.old.room }
    requires times { GoOn journal.old.history board.old.commits }
    requires numbered { AreNumbered board.old.commits }
    requires held { AreHeld holds.old board.old.commits }
    requires waiting { waiting.old ≡ bytes_of board.old.commits }
    requires places { length (changes_of board.old.commits) ≤ vec_capacity changes.old - vec_len changes.old }
    ensures history { journal.new.history ≡ all_history journal.old.history board.old.commits }
    ensures board { board.new ≡ record board.old { commits = kept_on_board board.old.commits } }
    ensures room { length board.new.commits ≤ journal.new.room }
    ensures held { AreHeld holds.new board.new.commits }
    ensures waiting { waiting.new ≡ bytes_of board.new.commits }
    ensures changes { changes.new.items ≡ changes.old.items ++ changes_of board.old.commits }
{
    while let Some((_, commit, accepted)) = board.take_ready() {
        holds.release(id_of(&commit));
        *waiting = bytes_left(board, *waiting, &commit);
        journal.push(batch_of(commit));
        changes.push_reserved(change_of(accepted));
    }
}

/// Brings a store up to a time, with the changes of the commits up to it, for which it has room. It takes no memory.
pub(crate) fn bring(store: &mut Store, to: Micros, changes: TimedChanges)
    requires fits { Fits store.old.stored (next_release store.old.stored to changes) }
    requires room { HasRoomFor store.old.room changes }
    requires places { HasPlaces store.old (change_count changes) }
    ensures value { store.new.stored ≡ absorbed store.old.stored (next_release store.old.stored to changes) }
    ensures shows { (h : List Batch) (k : List Batch) → Shows h store.old.stored → Brings h changes k → Shows k store.new.stored }
{
    let from = store.absorbed();
    store.absorb(Release { from, to, changes });
}
