//! How what was changed in a shard comes to the targets of all sessions: first what it is to each of them is made ready, and then it is taken in
//! without memory.
ghost use Rattle.std.specs.Prelude.{◌≡◌, List, IfOk, OnErr, OnOk, map};
ghost use Rattle.std.specs.List.{AllByRecursion, filter_map};
ghost use Rattle.fs_target.specs.Staged.{IsNamed};
ghost use Rattle.fs_sessions.specs.Heard.{heard_fed, heard_of, picked};
ghost use Rattle.fs_sessions.specs.Matching.{IsEarReady};

use crate::listeners::{Ear, Listeners};
use fs_target::TimedEvent;
use fs_time::Micros;
use std::alloc::{AllocError, Global};

// ---- whose an event is

// An event once more, as that of a target of this id.
fn renamed(alloc: Global, event: &TimedEvent, id: u32) -> Result<TimedEvent, AllocError>
    ensures { IfOk result (λ e. e ≡ record event.now { target = id }) }
{
    let mut copy = event.copy(alloc)?;
    copy.target = u64::from(id);
    Ok(copy)
}

// An event as its target takes it, if that is told it.
fn pick(
    alloc: Global,
    ear: &Ear,
    shard: u32,
    event: &TimedEvent,
) -> Result<Option<TimedEvent>, AllocError>
    ensures { IfOk result (λ e. e ≡ picked shard (heard_of ear.now) event.now) }
{
    let Some(id) = ear.numbers.key_of(event.target) else {
        return Ok(None);
    };
    match ear.targets.position(id, shard) {
        Some(position) if position < event.time => Ok(Some(renamed(alloc, event, id)?)),
        _ => Ok(None),
    }
}

// Those that the targets of a session are told.
fn pick_all(
    alloc: Global,
    ear: &Ear,
    shard: u32,
    events: &[TimedEvent],
) -> Result<Vec<TimedEvent>, AllocError>
    ensures { IfOk result (λ v. v.items ≡ filter_map (picked shard (heard_of ear.now)) events.now) }
{
    let mut own = Vec::new(alloc);
    for event in events {
        if let Some(event) = pick(alloc, ear, shard, event)? {
            own.push(event)?;
        }
    }
    Ok(own)
}

// ---- first

// Makes the events ready that the targets of a session are told.
fn prepare(
    alloc: Global,
    ear: &mut Ear,
    shard: u32,
    events: &[TimedEvent],
) -> Result<(), AllocError>
    requires { AllByRecursion IsNamed events.now }
    ensures same { heard_of ear.new ≡ heard_of ear.old }
    ensures ok { OnOk result (IsEarReady shard events.now ear.new) }
{
    let own = pick_all(alloc, ear, shard, events)?;
    ear.targets.prepare(alloc, shard, own.as_slice())
}

fn prepare_all(
    alloc: Global,
    ears: &mut [Ear],
    shard: u32,
    events: &[TimedEvent],
) -> Result<(), AllocError>
    requires { AllByRecursion IsNamed events.now }
    ensures same { map heard_of ears.new ≡ map heard_of ears.old }
    ensures ok { OnOk result (AllByRecursion (IsEarReady shard events.now) ears.new) }
{
    for i in 0..ears.len() {
        prepare(alloc, &mut ears[i], shard, events)?;
    }
    Ok(())
}

// ---- then

// Takes in what was made ready for the targets of a session.
fn take_in(ear: &mut Ear, shard: u32, to: Micros)
    ensures { (es : List TimedEvent) → IsEarReady shard es ear.old → heard_of ear.new ≡ heard_fed shard es to (heard_of ear.old) }
{
    ear.targets.take_in(shard, to);
}

fn take_all_in(ears: &mut [Ear], shard: u32, to: Micros)
    ensures { (es : List TimedEvent) → AllByRecursion (IsEarReady shard es) ears.old
        → map heard_of ears.new ≡ map (heard_fed shard es to) (map heard_of ears.old) }
{
    for i in 0..ears.len() {
        take_in(&mut ears[i], shard, to);
    }
}

impl Listeners {
    ghost use Rattle.std.specs.Prelude.{◌≡◌, OnErr, OnOk, map};
    ghost use Rattle.std.specs.List.{AllByRecursion};
    ghost use Rattle.fs_target.specs.Staged.{IsNamed};
    ghost use Rattle.fs_sessions.specs.Heard.{heard_fed};

    /// Each target that is loaded takes the events of its number in a shard up to a time that are behind its position there, which becomes
    /// that time where it was below it. Where memory runs out, no target takes any.
    pub fn feed(
        &mut self,
        alloc: Global,
        shard: u32,
        events: &[TimedEvent],
        to: Micros,
    ) -> Result<(), AllocError>
        requires { AllByRecursion IsNamed events.now }
        ensures ok { OnOk result (self.new ≡ map (heard_fed shard events.now to) self.old) }
        ensures err { OnErr result (self.new ≡ self.old) }
    {
        prepare_all(alloc, self.list.as_mut_slice(), shard, events)?;
        take_all_in(self.list.as_mut_slice(), shard, to);
        Ok(())
    }
}
