//! A sink of bytes in memory.
ghost use Rattle.std.specs.Prelude.{◌≡◌, ◌≢◌, ◌≤◌, [], drop, length, Some};
ghost use Rattle.fs_edge.specs.Count.{one_more};
ghost use Rattle.fs_edge.specs.Paces.{next_pace, IsPacedWrite};
ghost use Rattle.fs_edge.specs.Sink.{WriteAdds, Takes};

use crate::count::count;
use crate::memory::pace::{Pace, Paces};
use crate::memory::source::moved;
use crate::sink::{Gave, Sink};
use fs_path::Bytes;
use std::alloc::Global;
use std::marker::Model;

/// A sink in memory. It tells what it took, and the paces of its next writes. A write that may take no byte of a
/// piece fails, and so does one that finds no memory.
#[derive(Drop)]
pub struct MemorySink {
    taken: Bytes,
    paces: Paces,
    // how many writes went by a pace of the list
    calls: usize,
    faults: u64,
}

impl Model for MemorySink {
    ghost use Rattle.std.specs.Prelude.{drop};
    ghost use Rattle.fs_edge.specs.Memory.{SinkState};

    ghost Value = { SinkState };

    ghost view = { λ s. record { given = s.taken; paces = drop s.calls s.paces; faults = s.faults } };
}

impl MemorySink {
    /// A sink that took nothing yet.
    pub fn new(alloc: Global, paces: Paces) -> MemorySink
        ensures { result ≡ record { given = []; paces = paces; faults = 0 } }
    {
        MemorySink {
            taken: Bytes::new(alloc),
            paces,
            calls: 0,
            faults: 0,
        }
    }

    /// The bytes that it took.
    pub fn given(&self) -> &Bytes
        ensures { result.now ≡ self.now.given }
    {
        &self.taken
    }
}

impl Sink for MemorySink {
    ghost given = { λ s. Some s.given };

    ghost faults = { λ s. s.faults };

    fn write(&mut self, from: &[u8]) -> Gave
        ensures writes { WriteAdds result from.now (Some self.old.given) (Some self.new.given) }
        ensures takes { Takes result from.now }
        ensures faults { self.old.faults ≤ self.new.faults }
        ensures failed { result ≡ Gave.Failed → self.new.faults ≡ one_more self.old.faults }
        ensures no_fault { result ≢ Gave.Failed → self.new.faults ≡ self.old.faults }

        // One pace is used up, and the write goes by it.
        ensures paces { self.new.paces ≡ drop 1 self.old.paces }
        ensures paced { IsPacedWrite (next_pace self.old.paces) (length from.now) result }
    {
        let pace = self.paces.next(&mut self.calls);
        if from.is_empty() && pace != Pace::Fail {
            return Gave::Bytes(0);
        }
        let most = moved(pace, from.len());
        if most == 0 || self.taken.append(&from[..most]).is_err() {
            count(&mut self.faults);
            return Gave::Failed;
        }
        Gave::Bytes(most)
    }
}
