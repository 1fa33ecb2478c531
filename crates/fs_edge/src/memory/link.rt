//! A link in memory: messages to hear, and those that were sent.
ghost use Rattle.std.specs.Prelude.{◌≡◌, ◌≢◌, ◌≤◌, ◌↔◌, [], List, drop, Some, IsTrue, IsOk, IfOk, OnErr, length};
ghost use Rattle.fs_edge.specs.Count.{one_more};
ghost use Rattle.fs_edge.specs.Link.{hearings_of, none_fails, Hears, Sends};
ghost use Rattle.fs_edge.specs.Paces.{next_pace};

use crate::count::count;
use crate::link::{Heard, Link, Sent};
use crate::memory::pace::{Pace, Paces};
use fs_path::{Text, Texts};
use std::alloc::{AllocError, Global};
use std::marker::Model;
use std::mem;

/// What a link in memory will hear, in order. After the last it is closed. `Failed` has no place here: a link fails
/// by its paces.
#[derive(Drop)]
pub struct Hearings {
    items: Vec<Heard>,
}

impl Model for Hearings {
    ghost use Rattle.std.specs.Prelude.{List};
    ghost use Rattle.fs_edge.specs.Link.{Hearing, hearings_of};

    ghost Value = { List Hearing };

    ghost view = { λ h. hearings_of h.items.items };
}

impl Hearings {
    /// What is heard, the first first. None of it is a failure.
    pub fn of(items: Vec<Heard>) -> Hearings
        requires { IsTrue (none_fails items.items) }
        ensures { result ≡ hearings_of items.items }
    {
        Hearings { items }
    }
}

/// A link in memory. It tells what it will hear, what was sent over it, and the paces of its next calls.
#[derive(Drop)]
pub struct MemoryLink {
    alloc: Global,
    hearings: Vec<Heard>,
    // how many were heard
    at: usize,
    sent: Texts,
    paces: Paces,
    // how many calls went by a pace of the list
    calls: usize,
    faults: u64,
}

impl Model for MemoryLink {
    ghost use Rattle.std.specs.Prelude.{drop, length, ◌≤◌};
    ghost use Rattle.fs_edge.specs.Link.{hearings_of};
    ghost use Rattle.fs_edge.specs.Memory.{LinkState};

    ghost Value = { LinkState };

    ghost view = { λ l. record { to_hear = hearings_of (drop l.at l.hearings.items); sent = l.sent; paces = drop l.calls l.paces; faults = l.faults } };

    ghost invariant = { λ l. l.at ≤ length l.hearings.items };
}

impl MemoryLink {
    /// A link over which nothing was sent yet.
    pub fn new(alloc: Global, heard: Hearings, paces: Paces) -> MemoryLink
        ensures { result ≡ record { to_hear = heard; sent = []; paces = paces; faults = 0 } }
    {
        MemoryLink {
            alloc,
            hearings: heard.items,
            at: 0,
            sent: Texts::new(alloc),
            paces,
            calls: 0,
            faults: 0,
        }
    }

    /// The messages that were sent over it, in order.
    pub fn sent(&self) -> &Texts
        ensures { result.now ≡ self.now.sent }
    {
        &self.sent
    }
}

// What is heard next, where so many were heard. It counts what it takes.
fn heard_next(hearings: &mut Vec<Heard>, at: &mut usize) -> Heard
    requires { at.old ≤ length hearings.old.items }
    ensures hears { Hears result (Some (hearings_of (drop at.old hearings.old.items))) (Some (hearings_of (drop at.new hearings.new.items))) }
    ensures within { at.new ≤ length hearings.new.items }
    ensures no_fault { result ≢ Heard.Failed }
{
    if *at >= hearings.len() {
        return Heard::Closed;
    }
    match mem::replace(&mut hearings[*at], Heard::Closed) {
        Heard::Message(text) => {
            *at += 1;
            Heard::Message(text)
        }
        Heard::Quiet => {
            *at += 1;
            Heard::Quiet
        }
        Heard::Closed | Heard::Failed => Heard::Closed,
    }
}

impl Link for MemoryLink {
    ghost to_hear = { λ l. Some l.to_hear };

    ghost sent = { λ l. Some l.sent };

    ghost faults = { λ l. l.faults };

    fn receive(&mut self) -> Result<Heard, AllocError>
        ensures hears { IfOk result (λ heard. Hears heard (Some self.old.to_hear) (Some self.new.to_hear)) }
        ensures hears_err { OnErr result (Some self.new.to_hear ≡ Some self.old.to_hear) }
        ensures sent { Some self.new.sent ≡ Some self.old.sent }
        ensures faults { self.old.faults ≤ self.new.faults }
        ensures failed { result ≡ Ok Heard.Failed → self.new.faults ≡ one_more self.old.faults }
        ensures no_fault { result ≢ Ok Heard.Failed → self.new.faults ≡ self.old.faults }

        // One pace is used up, and the call fails exactly where it says so. It wants no memory.
        ensures paces { self.new.paces ≡ drop 1 self.old.paces }
        ensures paced { (result ≡ Ok Heard.Failed) ↔ (next_pace self.old.paces ≡ Pace.Fail) }
        ensures told { IsOk result }
    {
        if self.paces.next(&mut self.calls) == Pace::Fail {
            count(&mut self.faults);
            return Ok(Heard::Failed);
        }
        Ok(heard_next(&mut self.hearings, &mut self.at))
    }

    fn send(&mut self, text: &str) -> Result<Sent, AllocError>
        ensures sends { IfOk result (λ done. Sends done text.now (Some self.old.sent) (Some self.new.sent)) }
        ensures sends_err { OnErr result (Some self.new.sent ≡ Some self.old.sent) }
        ensures to_hear { Some self.new.to_hear ≡ Some self.old.to_hear }
        ensures faults { self.old.faults ≤ self.new.faults }
        ensures failed { result ≡ Ok Sent.Failed → self.new.faults ≡ one_more self.old.faults }
        ensures no_fault { result ≢ Ok Sent.Failed → self.new.faults ≡ self.old.faults }

        // One pace is used up, and the call fails exactly where it says so.
        ensures paces { self.new.paces ≡ drop 1 self.old.paces }
        ensures paced { (result ≡ Ok Sent.Failed) ↔ (next_pace self.old.paces ≡ Pace.Fail) }
    {
        if self.paces.next(&mut self.calls) == Pace::Fail {
            count(&mut self.faults);
            return Ok(Sent::Failed);
        }
        self.sent.push(Text::from_str(self.alloc, text)?)?;
        Ok(Sent::Done)
    }
}
