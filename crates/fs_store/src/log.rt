//! What was changed in a shard.
ghost use Rattle.std.specs.Prelude.{◌≡◌, ◌<◌, ◌≤◌};

use crate::noted::Noted;
use fs_time::Micros;
use std::alloc::{AllocError, Global};
use std::marker::Model;

// The end of a stretch, if it isn't before its start.
fn end_from(start: usize, end: usize) -> usize
    ensures wide { start < end → result ≡ end }
    ensures narrow { end ≤ start → result ≡ start }
{
    if start < end { end } else { start }
}

/// The changes of one shard's documents, by commit time, and room for more of them. Contracts see both:
///
///     after pushes of c/a at 5 and of c/a and c/b at 7     5 c/a, 7 c/a, 7 c/b, and room for none
///     after reserve(1)                                     the same, and room for one or more
///     between 5 and 7                                      7 c/a, 7 c/b
///     after cut(5)                                         7 c/a, 7 c/b
///
/// They are one block of memory, in which a time is found by a binary search.
#[derive(Drop)]
pub(crate) struct Log {
    entries: Vec<Noted>,
}

impl Model for Log {
    ghost use Rattle.std.specs.Prelude.{◌-◌};
    ghost use Rattle.std.specs.Vec.{vec_len, vec_capacity};
    ghost use Rattle.fs_store.specs.Logged.{Logged, logged_code};

    ghost Value = { Logged };

    ghost coded = { logged_code };

    ghost use Rattle.fs_store.specs.Logged.{AreInOrder};

    ghost view = { λ l. record { entries = l.entries.items; room = vec_capacity l.entries - vec_len l.entries } };

    ghost invariant = { λ l. AreInOrder l.entries.items };
}

impl Log {
    ghost use Rattle.std.specs.Prelude.{◌≡◌, ◌-◌, ◌<◌, ◌≤◌, ◌∷◌, ◌++◌, [], OnOk, drop};
    ghost use Rattle.fs_store.specs.Logged.{AreBy, IsSplit, noted_after, noted_between};

    // Nothing changed yet.
    pub(crate) fn new(alloc: Global) -> Log
        ensures { result.entries ≡ [] }
    {
        Log {
            entries: Vec::new(alloc),
        }
    }

    // Makes room for more changes, after which so many pushes take no memory.
    pub(crate) fn reserve(&mut self, more: usize) -> Result<(), AllocError>
        ensures ok { OnOk result (more ≤ self.new.room) }
        ensures same { self.new.entries ≡ self.old.entries }
        ensures kept { self.old.room ≤ self.new.room }
    {
        self.entries.reserve(more)
    }

    // Adds a change that is no earlier than any that is there, where there is room.
    pub(crate) fn push(&mut self, noted: Noted)
        requires later { AreBy self.old.entries noted.time }
        requires room { 0 < self.old.room }
        ensures { self.new ≡ record { entries = self.old.entries ++ noted ∷ []; room = self.old.room - 1 } }
    {
        self.entries.push_reserved(noted);
    }

    // How many are at or before a time.
    fn count_by(&self, time: Micros) -> usize
        ensures split { IsSplit self.now.entries time result }
        ensures others { noted_after time self.now.entries ≡ drop result self.now.entries }
    {
        self.entries
            .as_slice()
            .partition_point(|noted| noted.time <= time)
    }

    // Those behind a time, up to another.
    pub(crate) fn between(&self, from: Micros, to: Micros) -> &[Noted]
        ensures { result.now ≡ noted_between from to self.now.entries }
    {
        let start = self.count_by(from);
        let end = end_from(start, self.count_by(to));
        &self.entries.as_slice()[start..end]
    }

    // Drops those up to a time.
    pub(crate) fn cut(&mut self, floor: Micros)
        ensures { self.new.entries ≡ noted_after floor self.old.entries }
    {
        let gone = self.count_by(floor);
        if gone > 0 {
            let left = self.entries.len() - gone;
            self.entries.rotate_left(gone);
            self.entries.truncate(left);
        }
    }
}
