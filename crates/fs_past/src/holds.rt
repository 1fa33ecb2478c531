//! The names that commits hold, and whom they wait for.
ghost use Rattle.std.specs.Prelude.{◌≡◌, ◌||◌, ◌&&◌, ◌==◌, ℕ, IfOk, OnOk, OnErr, map};
ghost use Rattle.std.specs.List.{list_any};
ghost use Rattle.fs_board.specs.Rising.{Differ};
ghost use Rattle.fs_locks.specs.Holds.{is_held, IsLeastOther};
ghost use Rattle.fs_path.specs.declared.name.DocName.{DocName};
ghost use Rattle.fs_write.specs.WrittenName.{is_written, written_name};
ghost use Rattle.fs_machine.specs.Behind.{write_same};
ghost use Rattle.fs_past.specs.Kept.{HoldsWritten, writes_name};

use crate::accepted::Accepted;
use fs_board::Board;
use fs_locks::{Locks, lesser};
use fs_machine::Unreleased;
use fs_path::{DocName, Names};
use fs_status::Id;
use fs_write::Write;
use std::alloc::{AllocError, Global};

/// The names that the commits on a board hold. The newest may hold nothing yet: most are released before another asks, and then
/// their names were never held.
///
///     1 comes, which writes c/a      nothing is held, and 1 is late
///     2 comes, which writes c/b      1 holds c/a, and 2 is late
///     2 is gone                      1 holds c/a, and none is late
/// (docs/DECISIONS.md, "The newest commit holds its names once another asks".)
#[derive(Drop)]
pub(crate) struct Holds {
    locks: Locks,
    late: Option<Id>,
}

impl Holds {
    ghost use Rattle.std.specs.Prelude.{◌≡◌, ◌&&◌, ℕ, [], IsTrue, None, Some, OnOk, OnErr, not};
    ghost use Rattle.std.specs.List.{list_any};
    ghost use Rattle.fs_board.specs.Rising.{Differ};
    ghost use Rattle.fs_locks.specs.Holds.{is_held, IsLeastOther};
    ghost use Rattle.fs_path.specs.declared.name.DocName.{DocName};
    ghost use Rattle.fs_write.specs.WrittenName.{written_name};
    ghost use Rattle.fs_past.specs.Kept.{AreHeld, HoldLess, is_late, writes_name};

    /// Nothing is held. The allocator serves the holds that come.
    pub(crate) fn new(alloc: Global) -> Holds
        ensures held { result.locks.exclusive ≡ [] }
        ensures late { result.late ≡ None }
    {
        Holds {
            locks: Locks::new(alloc),
            late: None,
        }
    }

    /// All that are on the board hold their names from now on, the newest too. Where memory runs out, nothing is changed.
    pub(crate) fn hold_all(
        &mut self,
        alloc: Global,
        board: &Board<Unreleased, Accepted>,
    ) -> Result<(), AllocError>
        requires differ { Differ board.now.commits }
        requires held { AreHeld self.old board.now.commits }
        ensures held { AreHeld self.new board.now.commits }
        ensures none { OnOk result (self.new.late ≡ None) }
    {
        let Some(id) = self.late else {
            return Ok(());
        };
        hold(alloc, &mut self.locks, board, id)?;
        self.late = None;
        Ok(())
    }

    /// A commit is the newest, where all others hold their names. It takes no memory.
    pub(crate) fn add(&mut self, id: Id)
        ensures { self.new ≡ record self.old { late = Some id } }
    {
        self.late = Some(id);
    }

    /// A commit holds nothing any more. It takes no memory.
    pub(crate) fn release(&mut self, id: Id)
        ensures { HoldLess self.old self.new id }
    {
        self.locks.release_all(id);
        if self.is_late(id) {
            self.late = None;
        }
    }

    /// The least number of a commit other than `by` that writes a name which one of these writes. It takes no memory. Each name is
    /// searched for, and compared with those of the newest commit where that holds nothing yet.
    pub(crate) fn first_behind(
        &self,
        board: &Board<Unreleased, Accepted>,
        writes: &[Write],
        by: Id,
    ) -> Option<Id>
        requires differ { Differ board.now.commits }
        requires held { AreHeld self.now board.now.commits }
        ensures { IsLeastOther (λ i. IsTrue (list_any (λ w. writes_name i (written_name w) board.now.commits) writes.now)) by result }
    {
        lesser(
            first_holder(&self.locks, writes, by),
            self.late_behind(board, writes, by),
        )
    }

    // The newest commit, if it holds nothing yet and writes a name which one of these writes.
    fn late_behind(
        &self,
        board: &Board<Unreleased, Accepted>,
        writes: &[Write],
        by: Id,
    ) -> Option<Id>
        requires { Differ board.now.commits }
        ensures { IsLeastOther (λ i. IsTrue (is_late self.now.late i && list_any (λ w. writes_name i (written_name w) board.now.commits) writes.now)) by result }
    {
        let Some(id) = self.late else {
            return None;
        };
        if id == by {
            return None;
        }
        if writes_one(board, id, writes) {
            Some(id)
        } else {
            None
        }
    }

    fn is_late(&self, id: Id) -> bool
        ensures { result ≡ is_late self.now.late id }
    {
        match self.late {
            Some(late) => id == late,
            None => false,
        }
    }
}

/// The names that writes write, in their order.
pub fn names_of(alloc: Global, writes: &[Write]) -> Result<Names, AllocError>
    ensures { IfOk result (λ ns. ns ≡ map written_name writes.now) }
{
    let mut names = Names::new(alloc);
    for write in writes {
        names.push(write.name().copy(alloc)?)?;
    }
    Ok(names)
}

// What these writes write is held by an id from now on.
fn hold_written(
    alloc: Global,
    locks: &mut Locks,
    id: Id,
    writes: &[Write],
) -> Result<(), AllocError>
    ensures ok { OnOk result ((i : ℕ) (n : DocName) → is_held locks.new.exclusive i n ≡ (is_held locks.old.exclusive i n || (i == id && is_written n writes.now))) }
    ensures err { OnErr result (locks.new ≡ locks.old) }
{
    let names = names_of(alloc, writes)?;
    locks.hold_exclusive(alloc, id, names)
}

// The commit of an id holds what it writes from now on, if it is on the board.
fn hold(
    alloc: Global,
    locks: &mut Locks,
    board: &Board<Unreleased, Accepted>,
    id: Id,
) -> Result<(), AllocError>
    requires { Differ board.now.commits }
    ensures ok { OnOk result ((i : ℕ) (n : DocName) → is_held locks.new.exclusive i n ≡ (is_held locks.old.exclusive i n || (i == id && writes_name id n board.now.commits))) }
    ensures err { OnErr result (locks.new ≡ locks.old) }
{
    match board.asked(id) {
        Some(commit) => hold_written(alloc, locks, id, commit.batch.writes.as_slice()),
        None => Ok(()),
    }
}

// The least id other than `by` that holds a name which one of these writes.
fn first_holder(locks: &Locks, writes: &[Write], by: Id) -> Option<Id>
    ensures { IsLeastOther (HoldsWritten locks.now.exclusive writes.now) by result }
{
    let mut first = None;
    for write in writes {
        first = lesser(first, locks.behind_name(write.name(), by));
    }
    first
}

// Whether the commit of an id is on the board and writes a name which one of these writes.
fn writes_one(board: &Board<Unreleased, Accepted>, id: Id, writes: &[Write]) -> bool
    requires { Differ board.now.commits }
    ensures { result ≡ list_any (λ w. writes_name id (written_name w) board.now.commits) writes.now }
{
    match board.asked(id) {
        Some(commit) => meet(writes, commit.batch.writes.as_slice()),
        None => false,
    }
}

// Whether one of these writes a name which one of those writes.
fn meet(writes: &[Write], others: &[Write]) -> bool
    ensures { result ≡ write_same writes.now others.now }
{
    for write in writes {
        if is_written(write.name(), others) {
            return true;
        }
    }
    false
}

fn is_written(name: &DocName, writes: &[Write]) -> bool
    ensures { result ≡ is_written name.now writes.now }
{
    for write in writes {
        if write.name() == name {
            return true;
        }
    }
    false
}
