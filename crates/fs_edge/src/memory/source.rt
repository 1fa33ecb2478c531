//! A source of bytes in memory.
ghost use Rattle.std.specs.Prelude.{◌≡◌, ◌≢◌, ◌≤◌, ◌+◌, ◌++◌, drop, take, length, IsTrue, Some};
ghost use Rattle.fs_edge.specs.Count.{one_more};
ghost use Rattle.fs_edge.specs.Paces.{all_let_through, moved_of, next_pace, paced_read};
ghost use Rattle.fs_edge.specs.Source.{ReadGives, Fills};

use crate::count::count;
use crate::memory::pace::{Pace, Paces};
use crate::source::{Source, Took};
use fs_path::Bytes;
use std::marker::Model;

/// A source of bytes in memory. It tells what it has left, and the paces of its next reads.
#[derive(Drop)]
pub struct MemorySource {
    bytes: Bytes,
    // how many bytes were taken
    at: usize,
    paces: Paces,
    // how many reads went by a pace of the list
    calls: usize,
    faults: u64,
    ends: u64,
}

impl Model for MemorySource {
    ghost use Rattle.std.specs.Prelude.{drop, length, ◌≤◌, IsTrue};
    ghost use Rattle.fs_edge.specs.Memory.{SourceState};
    ghost use Rattle.fs_edge.specs.Paces.{all_let_through};

    ghost Value = { SourceState };

    ghost view = { λ s. record { left = drop s.at s.bytes; paces = drop s.calls s.paces; faults = s.faults; ends = s.ends } };

    ghost invariant = { λ s. (s.at ≤ length s.bytes) × IsTrue (all_let_through (drop s.calls s.paces)) };
}

impl MemorySource {
    /// A source with these bytes. Each pace lets at least one byte through.
    pub fn new(bytes: Bytes, paces: Paces) -> MemorySource
        requires { IsTrue (all_let_through paces) }
        ensures { result ≡ record { left = bytes; paces = paces; faults = 0; ends = 0 } }
    {
        MemorySource {
            bytes,
            at: 0,
            paces,
            calls: 0,
            faults: 0,
            ends: 0,
        }
    }
}

// How many bytes a call at this pace moves of those that there are.
pub(crate) fn moved(pace: Pace, there: usize) -> usize
    ensures value { result ≡ moved_of pace there }
    ensures within { result ≤ there }
{
    match pace {
        Pace::Free => there,
        Pace::AtMost(most) => there.min(most as usize),
        Pace::Fail => 0,
    }
}

// Copies so many bytes from a place on to the front of a buffer.
fn copy_part(bytes: &Bytes, at: usize, most: usize, into: &mut [u8])
    requires there { at + most ≤ length bytes.now }
    requires room { most ≤ length into.old }
    ensures { drop at bytes.now ≡ take most into.new ++ drop (at + most) bytes.now }
{
    into[..most].copy_from_slice(&bytes.as_slice()[at..at + most]);
}

impl Source for MemorySource {
    ghost left = { λ s. Some s.left };

    ghost faults = { λ s. s.faults };

    ghost ends = { λ s. s.ends };

    fn read(&mut self, into: &mut [u8]) -> Took
        ensures reads { ReadGives result into.new (Some self.old.left) (Some self.new.left) }
        ensures fills { Fills result into.old }
        ensures faults { self.old.faults ≤ self.new.faults }
        ensures failed { result ≡ Took.Failed → self.new.faults ≡ one_more self.old.faults }
        ensures no_fault { result ≢ Took.Failed → self.new.faults ≡ self.old.faults }
        ensures ends { self.old.ends ≤ self.new.ends }
        ensures ended { result ≡ Took.End → self.new.ends ≡ one_more self.old.ends }
        ensures no_end { result ≢ Took.End → self.new.ends ≡ self.old.ends }

        // One pace is used up, and the read goes by it.
        ensures paces { self.new.paces ≡ drop 1 self.old.paces }
        ensures paced { result ≡ paced_read (next_pace self.old.paces) (length self.old.left) (length into.old) }
    {
        let pace = self.paces.next(&mut self.calls);
        if pace == Pace::Fail {
            count(&mut self.faults);
            return Took::Failed;
        }
        let there = self.bytes.len() - self.at;
        if into.is_empty() {
            return Took::Bytes(0);
        }
        if there == 0 {
            count(&mut self.ends);
            return Took::End;
        }
        let most = moved(pace, there.min(into.len()));
        copy_part(&self.bytes, self.at, most, into);
        self.at += most;
        Took::Bytes(most)
    }
}
