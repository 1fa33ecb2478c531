//! The past of a database.
ghost use Rattle.std.specs.Prelude.{◌≡◌, ◌≤ℤ◌};
ghost use Rattle.fs_board.specs.Rising.{Differ};
ghost use Rattle.fs_txn.specs.Reading.{earlier as earlier_of};

use crate::accepted::Accepted;
use crate::answer::answer_at;
use crate::commits::{bytes_in, bytes_left, id_of};
use crate::committed::all_committed;
use crate::holds::Holds;
use crate::outcome::outcome_among;
use crate::release::{bring, let_in, make_room, one_ready};
use crate::touching::{first_in_journal, first_on_board};
use fs_board::Board;
use fs_history::{Journal, Reads, histories_are_lawful};
use fs_locks::lesser;
use fs_machine::{Committed, Outcome, Unreleased};
use fs_path::DocName;
use fs_query::{Query, Target};
use fs_status::Id;
use fs_store::{Store, Version};
use fs_time::Micros;
use fs_value::{Document, Documents};
use fs_write::{Changes, TimedChange, TimedChanges, Write, WriteResults};
use std::alloc::{AllocError, Global};
use std::marker::Model;

/// The history of a database and the documents of its times, with the commits that aren't in it yet: those that are pending, and
/// those that are accepted and wait for an earlier one that is pending. They may be accepted and dropped in any order.
///
///     prepare 1 at 5, 2 at 6, 3 at 7     all are pending, and 4 is what can be read
///     accept 2                           6 waits for 5
///     accept 1, release                  the history has 5 and 6, and 6 can be read
///     reject 3, advance to 9, release    the history is the same, and 9 can be read
#[derive(Drop)]
pub struct Past {
    // it has room for all that are on the board
    journal: Journal,
    // the commits that aren't in it
    board: Board<Unreleased, Accepted>,
    // what these count in the limit of the journal, in bytes
    waiting: u128,
    // the names that they write, which each holds until it leaves the board
    holds: Holds,
    // its absorbed time is the released time, and its floor that of the past
    store: Store,
    moment: Micros,
}

impl Model for Past {
    ghost use Rattle.fs_machine.specs.Past.{Past as Held, past_code};

    ghost Value = { Held };

    ghost coded = { past_code };

    ghost use Rattle.fs_past.specs.Kept.{past_of, IsKept};

    ghost view = { λ p. past_of p.journal.history p.board p.store.stored p.moment };

    ghost invariant = { λ p. IsKept p.journal p.board p.holds p.store.stored p.moment p.waiting };
}

// That no two commits on a board have one id is known of it once it is read.
fn ids_differ(board: &Board<Unreleased, Accepted>)
    ensures { Differ board.now.commits }
{
    let _ = board.last();
}

// The earlier of two times, or the one that is there.
fn earlier(other: Option<Micros>, time: Micros) -> Micros
    ensures value { result ≡ earlier_of other time }
    ensures within { result ≤ℤ time }
{
    match other {
        Some(other) if other < time => other,
        _ => time,
    }
}

impl Past {
    ghost use Rattle.std.specs.Prelude.{◌≡◌, ◌↔◌, ℤ, ◌<◌, ◌≤◌, ◌≤ℤ◌, ◌+◌, ◌-◌, ◌^◌, min, List, [], None, IsTrue, IsNone, IsSome, IfOk, IfSome, OnOk, OnErr, is_some, map};
    ghost use Rattle.std.specs.FinMap.{get, is_sorted, values};
    ghost use Rattle.std.specs.Option.{option_copied};
    ghost use Rattle.fs_history.specs.Brings.{AreChangesIn};
    ghost use Rattle.fs_history.specs.Bytes.{batch_size as bytes_of_batch};
    ghost use Rattle.fs_history.specs.History.{at};
    ghost use Rattle.fs_history.specs.Versions.{chain as chain_from};
    ghost use Rattle.fs_listen.specs.View.{is_listened, view};
    ghost use Rattle.fs_match.specs.Followed.{docs_fitting};
    ghost use Rattle.fs_path.specs.NameOrder.{name_cmp};
    ghost use Rattle.fs_path.specs.Scope.{AreShards, in_shard};
    ghost use Rattle.fs_query.specs.AnswerTo.{answer_to};
    ghost use Rattle.fs_time.specs.Moment.{IsMoment};
    ghost use Rattle.fs_value.specs.Named.{by_name};
    ghost use Rattle.fs_write.specs.Batch.{docs_of};
    ghost use Rattle.fs_machine.specs.Behind.{behind, least};
    ghost use Rattle.fs_machine.specs.Commit.{past_prepared};
    ghost use Rattle.fs_machine.specs.Compact.{floor_after, past_compacted};
    ghost use Rattle.fs_machine.specs.Conflict.{touching, touching_since};
    ghost use Rattle.fs_machine.specs.Facts.{PastFacts};
    ghost use Rattle.fs_machine.specs.IdsAreDrawn.{times_in};
    ghost use Rattle.fs_machine.specs.Limits.{greatest};
    ghost use Rattle.fs_machine.specs.Past.{batches, past_from};
    ghost use Rattle.fs_machine.specs.Pending.{next_pending as next_in};
    ghost use Rattle.fs_machine.specs.ReadsHold.{MayRead};
    ghost use Rattle.fs_machine.specs.Refusing.{journal_count as counted_in, journal_size as size_of, next_time as time_after};
    ghost use Rattle.fs_machine.specs.Release.{committed_out, past_released};
    ghost use Rattle.fs_machine.specs.Settle.{ComesTo, accepted_in, dropped_from, pending_of};
    ghost use Rattle.fs_machine.specs.Tick.{past_advanced};
    ghost use Rattle.fs_machine.specs.declared.answer.Outcome.TheVariants.{Effects};
    ghost use Rattle.fs_past.specs.Bringing.{BringsMore, IsBrought};

    /// No commits, at a moment, which can be read, of a number of shards from 1 to 16. The allocator serves those that come.
    pub fn new(alloc: Global, start: Micros, shards: u32) -> Past
        requires { AreShards shards }
        ensures { result ≡ past_from shards start }
    {
        Past {
            journal: Journal::new(alloc),
            board: Board::new(alloc, start),
            waiting: 0,
            holds: Holds::new(alloc),
            store: Store::new(alloc, start, shards),
            moment: start,
        }
    }

    /// The greatest time that was issued.
    pub fn last(&self) -> Micros
        ensures value { result ≡ self.now.last }
        ensures facts { PastFacts self.now }
        ensures brought { IsBrought self.now.history }
    {
        self.board.last()
    }

    /// The time up to which all that is committed can be read.
    pub fn released(&self) -> Micros
        ensures value { result ≡ self.now.released }
        ensures facts { PastFacts self.now }
    {
        self.store.absorbed()
    }

    /// The earliest time that can be read.
    pub fn floor(&self) -> Micros
        ensures value { result ≡ self.now.floor }
        ensures facts { PastFacts self.now }
    {
        self.store.floor()
    }

    /// The moment of the last tick.
    pub fn moment(&self) -> Micros
        ensures { result ≡ self.now.moment }
    {
        self.moment
    }

    /// How many commits there are.
    pub fn count(&self) -> u128
        ensures { result ≡ counted_in self.now }
    {
        u128::from(self.journal.count()) + self.board.len() as u128
    }

    /// What they count in the limit of the journal, in bytes. A number that no `u128` holds is told as the greatest.
    pub fn size(&self) -> u128
        ensures { result ≡ min (size_of self.now) (2 ^ 128 - 1) }
    {
        self.journal.bytes().saturating_add(self.waiting)
    }

    /// The time that the next commit gets, one microsecond after the last.
    pub fn next_time(&self) -> Micros
        requires { IsMoment (time_after self.now) }
        ensures { result ≡ time_after self.now }
    {
        Micros::new(self.board.last().get() + 1).unwrap()
    }

    /// Whether the commit of a number is pending.
    pub fn is_pending(&self, id: Id) -> bool
        ensures { result ≡ is_some (pending_of self.now id) }
    {
        ids_differ(&self.board);
        self.board.is_pending(id)
    }

    /// The pending commit of the least time.
    pub fn next_pending(&self) -> Option<Id>
        ensures { result ≡ next_in self.now }
    {
        self.board.next_pending()
    }

    /// The pending commit of a number.
    pub fn commit(&self, id: Id) -> Option<&Unreleased>
        ensures { option_copied result ≡ pending_of self.now id }
    {
        ids_differ(&self.board);
        self.board.pending(id)
    }

    /// What these writes of a new commit wait behind: the least number of a commit that isn't released and writes a name that they
    /// write. It takes no memory. Each name costs a search, and where `hold_all` wasn't called since the newest commit came, a
    /// comparison with each name that this writes.
    pub fn behind(&self, writes: &[Write], by: Id) -> Option<Id>
        requires { times_in by (batches self.now.unreleased) ≡ 0 }
        ensures { result ≡ behind self.now writes.now }
    {
        if self.board.is_empty() {
            return None;
        }
        ids_differ(&self.board);
        self.holds.first_behind(&self.board, writes, by)
    }

    /// Whom reads in a transaction wait for where they are held: the least number of a commit that isn't released and writes what one of
    /// them goes over. It takes no memory, and goes over all that aren't released.
    pub fn read_behind(&self, reads: &Reads) -> Option<Id>
        ensures { result ≡ least (touching self.now.unreleased reads.now) }
    {
        first_on_board(&self.board, self.released(), reads)
    }

    /// The least number of a commit later than a time, released or not, that writes what one of these reads goes over. It takes no memory,
    /// and goes over those that are later.
    pub fn touching_since(&self, time: Micros, reads: &Reads) -> Option<Id>
        ensures { result ≡ least (touching_since time self.now reads.now) }
    {
        lesser(
            first_on_board(&self.board, time, reads),
            first_in_journal(&self.journal, time, reads),
        )
    }

    /// Makes whom a commit waits for a search for each of its names. It changes nothing that can be told, and is of use where more
    /// than one commit isn't released.
    pub fn hold_all(&mut self, alloc: Global) -> Result<(), AllocError>
        ensures { self.new ≡ self.old }
    {
        ids_differ(&self.board);
        self.holds.hold_all(alloc, &self.board)
    }

    /// A commit is pending from now on, at the next time. It writes no name that a commit writes which isn't released, and what its
    /// transaction had read is released and written by none of those. Where memory runs out, nothing is changed.
    pub fn prepare(&mut self, alloc: Global, commit: Unreleased) -> Result<(), AllocError>
        requires pending { IsNone commit.results }
        requires time { commit.batch.time ≡ time_after self.old }
        requires fresh { times_in commit.batch.id (batches self.old.unreleased) ≡ 0 }
        requires free { behind self.old commit.batch.writes ≡ None }
        requires reads { MayRead self.old commit.batch.reads }
        requires room { size_of self.old + bytes_of_batch commit.batch ≤ greatest.journal }
        ensures ok { OnOk result (self.new ≡ past_prepared self.old commit) }
        ensures err { OnErr result (self.new ≡ self.old) }
    {
        ids_differ(&self.board);
        let id = id_of(&commit);
        let waiting = self.waiting + bytes_in(&commit);
        let Some(more) = (self.board.len() as u64).checked_add(1) else {
            return Err(AllocError);
        };
        self.journal.reserve(more)?;
        self.holds.hold_all(alloc, &self.board)?;
        // A time is left, since the commit has it.
        if let Err(_) = self.board.prepare(id, commit) {
            return Err(AllocError);
        }
        self.holds.add(id);
        self.waiting = waiting;
        Ok(())
    }

    /// The clock goes on to a moment. It takes no memory.
    pub fn advance(&mut self, now: Micros)
        ensures { self.new ≡ past_advanced self.old now }
    {
        self.board.tick(now);
        self.moment = now;
    }

    /// What the writes of a pending commit come to, on the newest documents: no other commit that isn't released writes their names.
    pub fn outcome(&self, alloc: Global, id: Id) -> Result<Outcome, AllocError>
        requires { IsSome (pending_of self.now id) }
        ensures { IfOk result (λ o. ComesTo self.now id o) }
    {
        match self.commit(id) {
            Some(commit) => outcome_among(
                alloc,
                &self.store,
                &commit.batch.writes,
                commit.batch.time,
            ),
            None => unreachable!(),
        }
    }

    /// A pending commit is accepted, with these changes and results. It waits for the next release. It takes no memory.
    pub fn accept(&mut self, id: Id, changes: Changes, results: WriteResults)
        requires { ComesTo self.old id (Effects changes results) }
        ensures { self.new ≡ record self.old { unreleased = accepted_in id results self.old.unreleased } }
    {
        ids_differ(&self.board);
        let time = self.board.asked(id).unwrap().time();
        let change = TimedChange { time, id, changes };
        self.board.accept(id, Accepted { results, change });
    }

    /// A pending commit is dropped, and its time is used up. It takes no memory.
    pub fn reject(&mut self, id: Id)
        requires { IsSome (pending_of self.old id) }
        ensures { self.new ≡ record self.old { unreleased = dropped_from id self.old.unreleased } }
    {
        ids_differ(&self.board);
        let gone = self.board.drop(id);
        self.holds.release(id);
        self.waiting = bytes_left(&self.board, self.waiting, &gone);
    }

    /// Releases what can be: the accepted commits before which none is pending are in the history, and the times before the first that
    /// is pending can be read, or the last one. Where memory runs out, nothing is changed.
    pub fn release(&mut self, alloc: Global) -> Result<(), AllocError>
        ensures ok { OnOk result (self.new ≡ past_released self.old) }
        ensures err { OnErr result (self.new ≡ self.old) }

        // The commits that it lets out bring the batches that the history has more.
        ensures brings { OnOk result (BringsMore self.old self.new) }
    {
        histories_are_lawful();
        let to = self.board.released();
        if let Some(commit) = one_ready(&self.board) {
            let mut changes = Vec::with_capacity(alloc, 1)?;
            self.store.absorb_one(alloc, to, commit)?;
            let_in(
                &mut self.journal,
                &mut self.board,
                &mut self.holds,
                &mut self.waiting,
                &mut changes,
            );
            return Ok(());
        }
        let mut changes = make_room(alloc, &mut self.store, &self.board)?;
        let_in(
            &mut self.journal,
            &mut self.board,
            &mut self.holds,
            &mut self.waiting,
            &mut changes,
        );
        bring(&mut self.store, to, TimedChanges::of(changes));
        Ok(())
    }

    /// The commits that the next release lets into the history, by what they are answered, the first of them first.
    pub fn committed(&self, alloc: Global) -> Result<Vec<Committed>, AllocError>
        ensures { IfOk result (λ cs. cs.items ≡ committed_out self.now) }
    {
        all_committed(alloc, &self.board)
    }

    /// The floor rises to a time, as far as that is released and `first`, the least time at which an open transaction reads. It takes no
    /// memory, and tells the floor.
    pub fn compact(&mut self, to: Micros, first: Option<Micros>) -> Micros
        ensures state { self.new ≡ past_compacted self.old first to }
        ensures floor { result ≡ self.new.floor }
    {
        let floor = self.floor_after(to, first);
        self.store.compact(floor);
        floor
    }

    /// The document of a name at a time that can be read.
    pub fn get(&self, name: &DocName, time: Micros) -> Option<&Document>
        requires from { self.now.floor ≤ℤ time }
        requires to { time ≤ℤ self.now.released }
        ensures { option_copied result ≡ get (at self.now.history time) name.now }
    {
        self.store.get(name, time)
    }

    /// The answer to a query at a time that can be read. The documents share their fields with those here.
    pub fn run(&self, alloc: Global, query: &Query, time: Micros) -> Result<Documents, AllocError>
        requires from { self.now.floor ≤ℤ time }
        requires to { time ≤ℤ self.now.released }
        ensures { IfOk result (λ ds. ds ≡ answer_to query.now (values (at self.now.history time))) }
    {
        answer_at(alloc, &self.store, query, time)
    }

    /// All documents that a target listens to at a time that can be read, by rising names. They share their fields with those here.
    pub fn listened(
        &self,
        alloc: Global,
        target: &Target,
        time: Micros,
    ) -> Result<Documents, AllocError>
        requires from { self.now.floor ≤ℤ time }
        requires to { time ≤ℤ self.now.released }
        ensures sorted { IfOk result (λ ds. IsTrue (is_sorted name_cmp (by_name ds))) }
        ensures value { IfOk result (λ ds. docs_of ds ≡ docs_fitting (is_listened target.now) (at self.now.history time)) }
    {
        self.store.listened(alloc, target, time)
    }

    /// The view of a target at a time that can be read, by rising names.
    pub fn view(
        &self,
        alloc: Global,
        target: &Target,
        time: Micros,
    ) -> Result<Documents, AllocError>
        requires from { self.now.floor ≤ℤ time }
        requires to { time ≤ℤ self.now.released }
        ensures sorted { IfOk result (λ ds. IsTrue (is_sorted name_cmp (by_name ds))) }
        ensures value { IfOk result (λ ds. docs_of ds ≡ view target.now (at self.now.history time)) }
    {
        self.store.view(alloc, target, time)
    }

    /// What commits changed in a shard behind a time that can be read, up to what is released. It costs what it gives.
    pub fn changes(
        &self,
        alloc: Global,
        shard: u32,
        from: Micros,
    ) -> Result<TimedChanges, AllocError>
        requires shard { shard < self.now.shards }
        requires from { self.now.floor ≤ℤ from }
        requires to { from ≤ℤ self.now.released }
        ensures { IfOk result (λ cs. AreChangesIn self.now.history (in_shard self.now.shards shard) from self.now.released cs) }
    {
        self.store.changes(alloc, shard, from, self.released())
    }

    /// The versions of a name from the floor on, and `None` where there are none.
    pub fn chain(&self, name: &DocName) -> Option<&[Version]>
        ensures some { IfSome result (λ c. c.now ≡ chain_from self.now.history self.now.floor name.now) }
        ensures none { IsNone result ↔ (chain_from self.now.history self.now.floor name.now ≡ []) }
    {
        self.store.chain(name)
    }

    // Where the floor is to rise to.
    fn floor_after(&self, to: Micros, first: Option<Micros>) -> Micros
        ensures value { result ≡ floor_after self.now first to }
        ensures from { self.now.floor ≤ℤ result }
        ensures within { result ≤ℤ self.now.released }
    {
        let released = self.released();
        let floor = self.floor();
        let top = earlier(first, if to < released { to } else { released });
        if floor < top { top } else { floor }
    }
}
