//! The board of commit times.
use crate::entry::Entry;
use crate::error::BoardError;
use fs_status::Id;
use fs_time::Micros;
use std::alloc::{AllocError, Global};
use std::collections::BTreeMap;
use std::collections::btree_map::Iter;
use std::marker::Model;

/// The commits that have a time and aren't released, each pending or accepted, with what each has from the beginning, `A`, and
/// what an accepted one brings, `B`. A commit gets the microsecond after the last time that was issued. What is accepted is
/// handed out once no earlier commit is pending, so that it is handed out by rising time (v1 reference, "Commit": `commitTime`).
///
///     new at 4                    no commits                            last 4, released 4
///     prepare 1, 2, 3             5 pending, 6 pending, 7 pending       last 7, released 4
///     accept 2                    5 pending, 6 accepted, 7 pending      released 4: 6 waits for 5
///     accept 1                    5 accepted, 6 accepted, 7 pending     released 6
///     take_ready, take_ready      7 pending                             5 and then 6 were handed out
///     drop 3, tick to 9           no commits                            last 9, released 9; no commit gets 7 again
///
/// One map has the commits by their times, another the times by their ids. A call costs a logarithm of the number of commits,
/// but for `released`, `next_pending` and `all_ready`, which go over those that are accepted before the first pending one.
#[derive(Drop)]
pub struct Board<A, B> {
    by_time: BTreeMap<Micros, Entry<A, B>>,
    // the time at which each of them stands
    times: BTreeMap<Id, Micros>,
    last: Micros,
}

impl<A, B> Model for Board<A, B> {
    ghost use Rattle.fs_board.specs.Board.{Posted, posted_code, posted};

    ghost Value = { Posted A B };

    ghost coded = { posted_code A.code B.code };

    ghost use Rattle.fs_board.specs.Held.{IsKept};

    ghost view = { λ b. record { commits = posted b.by_time.entries; last = b.last } };

    ghost invariant = { λ b. IsKept (posted b.by_time.entries) b.times.entries b.last };
}

impl<A: Drop, B: Drop> Board<A, B> {
    ghost use Rattle.std.specs.Prelude.{◌≡◌, ◌↔◌, pos, ◌+ℤ◌, ◌<ℤ◌, ◌≤ℤ◌, List, [], true, false, None, Some, Ok, Err, IfOk, OnOk, OnErr, IfSome, IsNone, IsTrue, is_some, length, map};
    ghost use Rattle.std.specs.List.{All};
    ghost use Rattle.std.specs.Option.{option_copied, option_map};
    ghost use Rattle.fs_time.specs.Moment.{last_moment};
    ghost use Rattle.fs_board.specs.Board.{Posted, HasNo, asked_in, free_to, is_pending, is_ready, next_pending_in, pending_in, asked_pending, time_in, prepared, accepted_with, without, ticked, ready, rest_of, all_ready, only_ready, posted};
    ghost use Rattle.fs_board.specs.Rising.{IsRising};
    ghost use Rattle.fs_board.specs.Held.{entry_in, first_pending_in};

    /// No commits, and a moment as the last time that was issued. The allocator serves the commits that come.
    pub fn new(alloc: Global, start: Micros) -> Board<A, B>
        ensures { result ≡ record { commits = []; last = start } }
    {
        Board {
            by_time: BTreeMap::new(alloc),
            times: BTreeMap::new(alloc),
            last: start,
        }
    }

    /// The greatest time that was issued.
    pub fn last(&self) -> Micros
        ensures value { result ≡ self.now.last }
        ensures rising { IsRising self.now }
    {
        self.last
    }

    /// The time up to which each commit is accepted or dropped: one microsecond before the first pending commit, else the last.
    pub fn released(&self) -> Micros
        ensures value { result ≡ free_to self.now.last self.now.commits }
        ensures rising { IsRising self.now }
        ensures within { result ≤ℤ self.now.last }
        ensures above { All (λ c. is_pending c ≡ true → result <ℤ c.time) self.now.commits }
    {
        let last = self.last;
        match self.first_pending() {
            // No commit has the first moment that there is.
            Some(first) => Micros::new(first.0.get() - 1).unwrap(),
            None => last,
        }
    }

    /// Whether the commit of an id is pending.
    pub fn is_pending(&self, id: Id) -> bool
        ensures { result ≡ pending_in id self.now.commits }
    {
        match self.entry(id) {
            Some(entry) => entry.batch.is_none(),
            None => false,
        }
    }

    /// What the pending commit of an id has from the beginning.
    pub fn pending(&self, id: Id) -> Option<&A>
        ensures { option_copied result ≡ asked_pending id self.now.commits }
    {
        match self.entry(id) {
            Some(entry) if entry.batch.is_none() => Some(&entry.asked),
            _ => None,
        }
    }

    /// The pending commit of the least time.
    pub fn next_pending(&self) -> Option<Id>
        ensures { result ≡ next_pending_in self.now.commits }
    {
        match self.first_pending() {
            Some(first) => Some(first.1),
            None => None,
        }
    }

    /// The time of the commit of an id, pending or accepted.
    pub fn time_of(&self, id: Id) -> Option<Micros>
        ensures { result ≡ time_in id self.now.commits }
    {
        self.times.get(&id).copied()
    }

    /// What the commit of an id has from the beginning, pending or accepted.
    pub fn asked(&self, id: Id) -> Option<&A>
        ensures { option_copied result ≡ asked_in id self.now.commits }
    {
        match self.entry(id) {
            Some(entry) => Some(&entry.asked),
            None => None,
        }
    }

    /// How many commits there are.
    pub fn len(&self) -> usize
        ensures { result ≡ length self.now.commits }
    {
        self.by_time.len()
    }

    /// Whether there is no commit.
    pub fn is_empty(&self) -> bool
        ensures { IsTrue result ↔ (self.now.commits ≡ []) }
    {
        self.by_time.is_empty()
    }

    /// The commits, pending and accepted, by rising time. It takes no memory.
    pub fn commits(&self) -> Iter<'_, Micros, Entry<A, B>>
        ensures { posted result ≡ self.now.commits }
    {
        self.by_time.iter()
    }

    /// What the accepted commits have and bring before which none is pending, by rising time: what `take_ready` would hand out,
    /// one after another. An error is a want of memory for the list, which has two pointers for each of them.
    pub fn all_ready(&self, alloc: Global) -> Result<Vec<(&A, &B)>, AllocError>
        ensures { IfOk result (λ v. map (λ r. (r.0.now, r.1.now)) v.items ≡ all_ready self.now.commits) }
    {
        let mut ready = Vec::new(alloc);
        for (_, entry) in &self.by_time {
            match &entry.batch {
                Some(batch) => ready.push((&entry.asked, batch))?,
                None => return Ok(ready),
            }
        }
        Ok(ready)
    }

    /// What the accepted commit has and brings before which none is pending, where that is one alone: what `all_ready` would give, without
    /// a list of it.
    pub fn only_ready(&self) -> Option<(&A, &B)>
        ensures { option_map (λ r. (r.0.now, r.1.now)) result ≡ only_ready (all_ready self.now.commits) }
    {
        let mut found = None;
        for (_, entry) in &self.by_time {
            let Some(batch) = &entry.batch else {
                return found;
            };
            if found.is_some() {
                return None;
            }
            found = Some((&entry.asked, batch));
        }
        found
    }

    /// A commit is pending from now on, at the microsecond after the last time that was issued, which is the answer.
    pub fn prepare(&mut self, id: Id, asked: A) -> Result<Micros, BoardError>
        requires { HasNo id self.old.commits }
        ensures time { IfOk result (λ time. time ≡ self.old.last +ℤ pos 1) }
        ensures ok { OnOk result (self.new ≡ prepared self.old id asked) }
        ensures end { (result ≡ Err BoardError.EndOfTime) ↔ (self.old.last ≡ last_moment) }
        ensures err { OnErr result (self.new ≡ self.old) }
    {
        let Some(time) = Micros::new(self.last.get() + 1) else {
            return Err(BoardError::EndOfTime);
        };
        self.times.insert(id, time)?;
        let entry = Entry {
            id,
            asked,
            batch: None,
        };
        if let Err(_) = self.by_time.insert(time, entry) {
            self.times.remove(&id);
            return Err(BoardError::Memory(AllocError));
        }
        self.last = time;
        Ok(time)
    }

    /// A pending commit is accepted, with what it brings. It takes no memory.
    pub fn accept(&mut self, id: Id, batch: B)
        requires { pending_in id self.old.commits ≡ true }
        ensures { self.new ≡ record self.old { commits = accepted_with id batch self.old.commits } }
    {
        let time = self.time_of(id).unwrap();
        self.by_time.get_mut(&time).unwrap().batch = Some(batch);
    }

    /// A pending commit is gone, and its time is used up. What it had from the beginning is the answer. It takes no memory.
    pub fn drop(&mut self, id: Id) -> A
        requires { pending_in id self.old.commits ≡ true }
        ensures value { Some result ≡ asked_in id self.old.commits }
        ensures rest { self.new ≡ record self.old { commits = without id self.old.commits } }
    {
        let time = self.times.remove(&id).unwrap();
        self.by_time.remove(&time).unwrap().asked
    }

    /// The clock goes on to a moment: no later commit gets that moment or an earlier one. It takes no memory.
    pub fn tick(&mut self, now: Micros)
        ensures { self.new ≡ ticked self.old now }
    {
        if self.last < now {
            self.last = now;
        }
    }

    /// The accepted commit of the least time, if no earlier one is pending, with what it has and brings. It is gone from here then.
    /// It takes no memory.
    pub fn take_ready(&mut self) -> Option<(Micros, A, B)>
        ensures value { result ≡ ready self.old.commits }
        ensures rest { self.new ≡ record self.old { commits = rest_of self.old.commits } }
        ensures within { IfSome result (λ r. r.0 ≤ℤ free_to self.old.last self.old.commits) }
        ensures least { IfSome result (λ r. All (λ c. r.0 <ℤ c.time) self.new.commits) }
        ensures none { IsNone result ↔ All (λ c. is_ready (free_to self.old.last self.old.commits) c ≡ false) self.old.commits }
    {
        if !self.starts_accepted() {
            return None;
        }
        let (time, entry) = self.by_time.pop_first().unwrap();
        let Entry { id, asked, batch } = entry;
        self.times.remove(&id);
        match batch {
            Some(batch) => Some((time, asked, batch)),
            None => unreachable!(),
        }
    }

    // What stands at the commit of an id.
    fn entry(&self, id: Id) -> Option<&Entry<A, B>>
        ensures { option_copied result ≡ entry_in id self.now.commits }
    {
        match self.time_of(id) {
            Some(time) => self.by_time.get(&time),
            None => None,
        }
    }

    // Whether the commit of the least time is accepted.
    fn starts_accepted(&self) -> bool
        ensures { result ≡ is_some (ready self.now.commits) }
    {
        match self.by_time.first_key_value() {
            Some((_, entry)) => entry.batch.is_some(),
            None => false,
        }
    }

    // The pending commit of the least time, with that time.
    fn first_pending(&self) -> Option<(Micros, Id)>
        ensures { result ≡ first_pending_in self.now.commits }
    {
        for (time, entry) in &self.by_time {
            if entry.batch.is_none() {
                return Some((*time, entry.id));
            }
        }
        None
    }
}
