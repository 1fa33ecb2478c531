//! What was changed in a shard, as the targets of all sessions are told it.
ghost use Rattle.std.specs.Prelude.{◌≡◌, ◌++◌, IfOk, IsFalse, OnOk, map};
ghost use Rattle.std.specs.List.{AllByRecursion, filter_map, flat_map};
ghost use Rattle.fs_listen.specs.View.{is_listened};
ghost use Rattle.fs_match.specs.Event.{event_for};
ghost use Rattle.fs_target.specs.Keeps.{event_of};
ghost use Rattle.fs_sessions.specs.Heard.{heard_of};
ghost use Rattle.fs_sessions.specs.Matched.{AreNoMatter, IsNoMatter, IsUnlistened, ear_events, lesser, numbered_events, target_events};

use crate::listeners::{Ear, Listeners};
use fs_match::{Event, event, event_names};
use fs_query::Target;
use fs_target::{TimedEvent, TimedEvents};
use fs_time::Micros;
use fs_value::Document;
use fs_write::{Change, TimedChange, copy_document};
use std::alloc::{AllocError, Global};

// ---- what a change is to a target

fn event_for(target: &Target, before: &Option<Document>, after: &Option<Document>) -> Event
    ensures { result ≡ event_for (is_listened target.now) before.now after.now }
{
    match target {
        Target::Query(query) => event(query, before.as_ref(), after.as_ref()),
        Target::Documents(names) => event_names(names, before.as_ref(), after.as_ref()),
    }
}

// The event that a change is to the target of a number, if it is one.
fn event_of(
    alloc: Global,
    number: u64,
    target: &Target,
    time: Micros,
    change: &Change,
) -> Result<Option<TimedEvent>, AllocError>
    ensures { IfOk result (λ e. e ≡ event_of number target.now time change.now) }
{
    let inside = match event_for(target, &change.before, &change.after) {
        Event::Enter => true,
        Event::Change => true,
        Event::Leave => false,
        Event::None => return Ok(None),
    };
    Ok(Some(TimedEvent {
        time,
        target: number,
        name: change.name.copy(alloc)?,
        after: copy_document(alloc, &change.after)?,
        inside,
    }))
}

// Adds the events that a commit is to a target.
fn push_commit(
    alloc: Global,
    events: &mut Vec<TimedEvent>,
    number: u64,
    target: &Target,
    commit: &TimedChange,
) -> Result<(), AllocError>
    ensures { OnOk result (events.new.items ≡ events.old.items ++ filter_map (event_of number target.now commit.now.time) commit.now.changes) }
{
    for change in commit.changes.as_slice() {
        if let Some(event) = event_of(alloc, number, target, commit.time, change)? {
            events.push(event)?;
        }
    }
    Ok(())
}

// Adds those of the commits behind a time.
fn push_behind(
    alloc: Global,
    events: &mut Vec<TimedEvent>,
    number: u64,
    target: &Target,
    from: Micros,
    commits: &[TimedChange],
) -> Result<(), AllocError>
    ensures { OnOk result (events.new.items ≡ events.old.items ++ target_events number target.now from commits.now) }
{
    for commit in commits {
        if from < commit.time {
            push_commit(alloc, events, number, target, commit)?;
        }
    }
    Ok(())
}

// Adds those of a target of a session, behind what it was told.
fn push_of(
    alloc: Global,
    events: &mut Vec<TimedEvent>,
    ear: &Ear,
    shard: u32,
    id: u32,
    number: u64,
    commits: &[TimedChange],
) -> Result<(), AllocError>
    ensures { OnOk result (events.new.items ≡ events.old.items ++ numbered_events shard commits.now (heard_of ear.now) (id, number)) }
{
    match (ear.targets.position(id, shard), ear.targets.target(id)) {
        (Some(from), Some(target)) => push_behind(alloc, events, number, target, from, commits),
        _ => Ok(()),
    }
}

// ---- whether a change concerns a session

fn may_be(ear: &Ear, document: &Option<Document>) -> bool
    ensures { IsFalse result → IsUnlistened (heard_of ear.now).held document.now }
{
    match document {
        Some(document) => ear.targets.may_listen(&document.name),
        None => false,
    }
}

fn may_concern(ear: &Ear, change: &Change) -> bool
    ensures { IsFalse result → IsNoMatter (heard_of ear.now).held change.now }
{
    may_be(ear, &change.before) || may_be(ear, &change.after)
}

fn one_may(ear: &Ear, changes: &[Change]) -> bool
    ensures { IsFalse result → AllByRecursion (IsNoMatter (heard_of ear.now).held) changes.now }
{
    for change in changes {
        if may_concern(ear, change) {
            return true;
        }
    }
    false
}

// Whether one of the changes of commits may be an event of a target of a session.
fn some_may(ear: &Ear, commits: &[TimedChange]) -> bool
    ensures { IsFalse result → AreNoMatter (heard_of ear.now).held commits.now }
{
    for commit in commits {
        if one_may(ear, commit.changes.as_slice()) {
            return true;
        }
    }
    false
}

// ---- the events of all targets

// Adds those of all targets of a session. None is looked at where no change concerns the session.
fn push_ear(
    alloc: Global,
    events: &mut Vec<TimedEvent>,
    ear: &Ear,
    shard: u32,
    commits: &[TimedChange],
) -> Result<(), AllocError>
    ensures { OnOk result (events.new.items ≡ events.old.items ++ ear_events shard commits.now (heard_of ear.now)) }
{
    if !some_may(ear, commits) {
        return Ok(());
    }
    for (id, number) in ear.numbers.by_key().iter() {
        push_of(alloc, events, ear, shard, *id, *number, commits)?;
    }
    Ok(())
}

fn push_all(
    alloc: Global,
    ears: &[Ear],
    shard: u32,
    commits: &[TimedChange],
) -> Result<Vec<TimedEvent>, AllocError>
    ensures { IfOk result (λ v. v.items ≡ flat_map (ear_events shard commits.now) (map heard_of ears.now)) }
{
    let mut events = Vec::new(alloc);
    for ear in ears {
        push_ear(alloc, &mut events, ear, shard, commits)?;
    }
    Ok(events)
}

// ---- how far a shard was told

/// The lesser of two times, or the one that is there.
pub fn lesser(time: Option<Micros>, other: Option<Micros>) -> Option<Micros>
    ensures { result ≡ lesser time other }
{
    match (time, other) {
        (None, other) => other,
        (time, None) => time,
        (Some(time), Some(other)) => Some(if other < time { other } else { time }),
    }
}

impl Listeners {
    ghost use Rattle.std.specs.Prelude.{◌≡◌, IfOk};
    ghost use Rattle.std.specs.List.{flat_map};
    ghost use Rattle.fs_sessions.specs.Matched.{ear_events, least_in};

    /// The least time up to which a target was told a shard.
    pub fn least_in(&self, shard: u32) -> Option<Micros>
        ensures { result ≡ least_in shard self.now }
    {
        let mut least = None;
        for ear in self.list.as_slice() {
            least = lesser(least, ear.targets.least_in(shard));
        }
        least
    }

    /// What commits are to each target that is loaded, behind what it was told of a shard.
    pub fn events(
        &self,
        alloc: Global,
        shard: u32,
        commits: &[TimedChange],
    ) -> Result<TimedEvents, AllocError>
        ensures { IfOk result (λ es. es ≡ flat_map (ear_events shard commits.now) self.now) }
    {
        Ok(TimedEvents::of(push_all(alloc, self.list.as_slice(), shard, commits)?))
    }
}
