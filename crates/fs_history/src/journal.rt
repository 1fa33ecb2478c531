//! The journal.
use crate::batch::Batch;
use crate::sizes::batch_size;
use fs_time::Micros;
use std::alloc::{AllocError, Global};
use std::marker::Model;

/// The batches that were committed, each later than those before it. Contracts see the history that they are, with the
/// newest in front, and for how many more there is room:
///
///     after pushes at 5, 7 and 9     the batches 0, 1 and 2 are those of 5, 7 and 9
///                                    the history is 9, 7, 5
/// (docs/DECISIONS.md, "A history has its newest batch in front".)
#[derive(Drop)]
pub struct Journal {
    // by rising time
    batches: Vec<Batch>,
    // what they count together, at most the last u128
    bytes: u128,
}

impl Model for Journal {
    ghost use Rattle.std.specs.Prelude.{◌-◌, reverse};
    ghost use Rattle.std.specs.Vec.{vec_len, vec_capacity};
    ghost use Rattle.fs_history.specs.Journal.{Recorded, recorded_code};

    ghost Value = { Recorded };

    ghost coded = { recorded_code };

    ghost use Rattle.fs_history.specs.Kept.{IsKept};

    ghost view = { λ j. record { history = reverse j.batches.items; room = vec_capacity j.batches - vec_len j.batches } };

    ghost invariant = { λ j. IsKept (reverse j.batches.items) j.bytes };
}

impl Journal {
    ghost use Rattle.std.specs.Prelude.{◌≡◌, ◌↔◌, ◌-◌, ◌^◌, ◌<◌, ◌≤◌, ◌∷◌, [], IsTrue, OnOk, Some, min, length, reverse, slice_get};
    ghost use Rattle.fs_history.specs.Bytes.{history_size};
    ghost use Rattle.fs_history.specs.History.{EndsBefore, IsRising};

    /// A journal without batches. The allocator serves those that are pushed.
    pub fn new(alloc: Global) -> Journal
        ensures { result.history ≡ [] }
    {
        Journal {
            batches: Vec::new(alloc),
            bytes: 0,
        }
    }

    /// Makes room for more batches, after which so many pushes take no memory.
    pub fn reserve(&mut self, more: u64) -> Result<(), AllocError>
        ensures ok { OnOk result (more ≤ self.new.room) }
        ensures same { self.new.history ≡ self.old.history }
        ensures room { self.old.room ≤ self.new.room }
    {
        self.batches.reserve(more as usize)
    }

    /// Whether the last batch, if there is one, is before a time, so that a batch of that time may come next.
    pub fn ends_before(&self, time: Micros) -> bool
        ensures { IsTrue result ↔ EndsBefore self.now.history time }
    {
        match self.batches.as_slice() {
            [] => true,
            [.., last] => last.time < time,
        }
    }

    /// Adds a batch at its time, which is after that of the last, where there is room. It takes no memory.
    pub fn push(&mut self, b: Batch)
        requires later { EndsBefore self.old.history b.time }
        requires room { 0 < self.old.room }
        ensures { self.new ≡ record { history = b ∷ self.old.history; room = self.old.room - 1 } }
    {
        self.bytes = self.bytes.saturating_add(batch_size(&b));
        self.batches.push_reserved(b);
    }

    /// How many batches there are.
    pub fn count(&self) -> u64
        ensures value { result ≡ length self.now.history }
        ensures rising { IsRising self.now.history }
    {
        self.batches.len() as u64
    }

    /// What the batches count in the limit of the journal, in bytes: 64 each, and the sizes of the documents that they sent
    /// and that their transactions were shown. A number that no `u128` holds is told as the greatest.
    pub fn bytes(&self) -> u128
        ensures { result ≡ min (history_size self.now.history) (2 ^ 128 - 1) }
    {
        self.bytes
    }

    /// The batch of this number, counted from 0 in the order of times.
    pub fn batch(&self, i: u64) -> &Batch
        requires { i < length self.now.history }
        ensures { slice_get (reverse self.now.history) i ≡ Some result.now }
    {
        &self.batches[i as usize]
    }
}
