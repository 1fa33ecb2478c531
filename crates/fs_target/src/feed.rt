//! How the events of a shard are taken in: first copies of them are made ready, and then they are taken in without memory.
ghost use Rattle.std.specs.Prelude.{◌≡◌, ◌∷◌, ◌++◌, [], ℕ, List, None, OnOk, map, slice_index_or};
ghost use Rattle.std.specs.List.{AllByRecursion};
ghost use Rattle.fs_listen.specs.Listening.{moved};
ghost use Rattle.fs_target.specs.Entries.{Rises, kept_taken, taken};
ghost use Rattle.fs_target.specs.Held.{events_behind};
ghost use Rattle.fs_target.specs.Prepared.{IsPrepared};
ghost use Rattle.fs_target.specs.Seen.{loaded_in, seen};
ghost use Rattle.fs_target.specs.Staged.{IsNamed};
ghost use Rattle.fs_target.specs.declared.event.TimedEvent.{TimedEvent};

use crate::entry::{Entry, Loaded, place_of};
use crate::event::TimedEvent;
use crate::positions::{move_position, position_in};
use fs_time::Micros;
use std::alloc::{AllocError, Global};

// ---- first

// Forgets what was made ready of a target.
fn forget(entry: &mut Entry)
    ensures same { seen entry.new ≡ seen entry.old }
    ensures none { (shard : ℕ) → IsPrepared shard [] entry.new }
{
    if let Some(loaded) = &mut entry.loaded {
        loaded.kept.forget();
    }
}

fn forget_all(entries: &mut [Entry])
    ensures same { map seen entries.new ≡ map seen entries.old }
    ensures none { (shard : ℕ) → AllByRecursion (IsPrepared shard []) entries.new }
{
    for i in 0..entries.len() {
        forget(&mut entries[i]);
    }
}

fn prepare_loaded(
    alloc: Global,
    loaded: &mut Loaded,
    shard: u32,
    event: &TimedEvent,
) -> Result<(), AllocError>
    requires { IsNamed event.now }
    ensures loaded { loaded_in loaded.new ≡ loaded_in loaded.old }
    ensures kept { loaded.new.kept.kept ≡ loaded.old.kept.kept }
    ensures ok { OnOk result (loaded.new.kept.coming
        ≡ loaded.old.kept.coming ++ events_behind event.now.target (slice_index_or loaded.old.positions.items shard None) (event.now ∷ [])) }
{
    match position_in(loaded.positions.as_slice(), shard) {
        Some(position) if position < event.time => loaded.kept.prepare(alloc, event),
        _ => Ok(()),
    }
}

// Makes an event of a target ready, if it is behind its position in a shard.
fn prepare(
    alloc: Global,
    entry: &mut Entry,
    shard: u32,
    event: &TimedEvent,
) -> Result<(), AllocError>
    requires target { entry.old.id ≡ event.now.target }
    requires named { IsNamed event.now }
    ensures same { seen entry.new ≡ seen entry.old }
    ensures ok { OnOk result ((es : List TimedEvent) → IsPrepared shard es entry.old → IsPrepared shard (es ++ event.now ∷ []) entry.new) }
{
    match &mut entry.loaded {
        Some(loaded) => prepare_loaded(alloc, loaded, shard, event),
        None => Ok(()),
    }
}

// The same of its target, if there is one.
fn prepare_event(
    alloc: Global,
    entries: &mut [Entry],
    shard: u32,
    event: &TimedEvent,
) -> Result<(), AllocError>
    requires rise { Rises (map seen entries.old) }
    requires named { IsNamed event.now }
    ensures same { map seen entries.new ≡ map seen entries.old }
    ensures ok { OnOk result ((es : List TimedEvent) → AllByRecursion (IsPrepared shard es) entries.old
        → AllByRecursion (IsPrepared shard (es ++ event.now ∷ [])) entries.new) }
{
    match place_of(entries, event.target) {
        Ok(i) => prepare(alloc, &mut entries[i], shard, event),
        Err(_) => Ok(()),
    }
}

/// Makes the events of each target ready that are behind its position in a shard, and no others.
pub(crate) fn prepare_all(
    alloc: Global,
    entries: &mut [Entry],
    shard: u32,
    events: &[TimedEvent],
) -> Result<(), AllocError>
    requires rise { Rises (map seen entries.old) }
    requires named { AllByRecursion IsNamed events.now }
    ensures same { map seen entries.new ≡ map seen entries.old }
    ensures ok { OnOk result (AllByRecursion (IsPrepared shard events.now) entries.new) }
{
    forget_all(entries);
    for event in events {
        prepare_event(alloc, entries, shard, event)?;
    }
    Ok(())
}

// ---- then

fn take_loaded(loaded: &mut Loaded, shard: u32, to: Micros)
    ensures loaded { loaded_in loaded.new ≡ moved shard to (loaded_in loaded.old) }
    ensures kept { loaded.new.kept.kept ≡ kept_taken loaded.old.kept }
{
    loaded.kept.take_in();
    move_position(loaded.positions.as_mut_slice(), shard, to);
}

// Takes in the events of a target that were made ready, and moves its position in a shard.
fn take(entry: &mut Entry, shard: u32, to: Micros)
    ensures { seen entry.new ≡ taken shard to entry.old }
{
    if let Some(loaded) = &mut entry.loaded {
        take_loaded(loaded, shard, to);
    }
}

/// Takes in the events of each target that were made ready, and moves its position in a shard.
pub(crate) fn take_all(entries: &mut [Entry], shard: u32, to: Micros)
    ensures { map seen entries.new ≡ map (taken shard to) entries.old }
{
    for i in 0..entries.len() {
        take(&mut entries[i], shard, to);
    }
}
