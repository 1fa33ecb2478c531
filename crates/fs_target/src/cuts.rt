//! How far the targets of a session are together, and whether it can be raised.
ghost use Rattle.std.specs.Prelude.{◌≡◌, ◌||◌, ℤ, Option, map, not, option_map};
ghost use Rattle.std.specs.List.{flat_map, list_any};
ghost use Rattle.fs_listen.specs.Cuts.{base, cut, cut_at, first_loading, greatest_before, is_behind, is_current, is_from, is_ready, is_ready_at, least, least_before, load_time, positions_of, some_new};
ghost use Rattle.fs_target.specs.declared.entry.Entry.{Entry};
ghost use Rattle.fs_target.specs.Entries.{Rises};
ghost use Rattle.fs_target.specs.Held.{position_of};
ghost use Rattle.fs_target.specs.Seen.{Seen, listed_in, listening_of, loaded_in, seen};

use crate::entry::{Entry, Loaded};
use crate::positions::position_in;
use fs_listen::Cut;
use fs_time::Micros;

// ---- of times that may be there

fn lesser(a: Option<Micros>, b: Option<Micros>) -> Option<Micros>
    ensures { result ≡ least_before a b }
{
    match (a, b) {
        (Some(a), Some(b)) => Some(if b < a { b } else { a }),
        (Some(a), None) => Some(a),
        (None, b) => b,
    }
}

pub(crate) fn greater(a: Option<Micros>, b: Option<Micros>) -> Option<Micros>
    ensures { result ≡ greatest_before a b }
{
    match (a, b) {
        (Some(a), Some(b)) => Some(if a < b { b } else { a }),
        (Some(a), None) => Some(a),
        (None, b) => b,
    }
}

// ---- the cut

/// The first target that isn't loaded.
pub(crate) fn first_loading(entries: &[Entry]) -> Option<u32>
    ensures { result ≡ first_loading (map listed_in (map seen entries.now)) }
{
    for entry in entries {
        if entry.loaded.is_none() {
            return Some(entry.id);
        }
    }
    None
}

pub(crate) fn least_of(positions: &[Option<Micros>]) -> Option<Micros>
    ensures { result ≡ least positions.now }
{
    let mut least = None;
    for position in positions {
        least = lesser(least, *position);
    }
    least
}

// The least position of a target.
fn least_position(loaded: &Option<Loaded>) -> Option<Micros>
    ensures { result ≡ least (positions_of (option_map loaded_in loaded.now)) }
{
    match loaded {
        Some(loaded) => least_of(loaded.positions.as_slice()),
        None => None,
    }
}

// The position of a target in a shard.
fn position_of(loaded: &Option<Loaded>, shard: u32) -> Option<Micros>
    ensures { result ≡ position_of shard (option_map loaded_in loaded.now) }
{
    match loaded {
        Some(loaded) => position_in(loaded.positions.as_slice(), shard),
        None => None,
    }
}

/// The least position of all targets.
pub(crate) fn least_of_all(entries: &[Entry]) -> Option<Micros>
    ensures { result ≡ least (flat_map (λ (s : Seen). positions_of s.listened.loaded) (map seen entries.now)) }
{
    let mut least = None;
    for entry in entries {
        least = lesser(least, least_position(&entry.loaded));
    }
    least
}

/// The least position of all targets in a shard.
pub(crate) fn least_in(entries: &[Entry], shard: u32) -> Option<Micros>
    ensures { result ≡ least (map (λ (s : Seen). position_of shard s.listened.loaded) (map seen entries.now)) }
{
    let mut least = None;
    for entry in entries {
        least = lesser(least, position_of(&entry.loaded, shard));
    }
    least
}

// By the least position of all targets, where they are loaded.
pub(crate) fn cut_at(position: Option<Micros>) -> Cut
    ensures { result ≡ cut_at position }
{
    match position {
        Some(time) => Cut::At(time),
        None => Cut::NoTarget,
    }
}

/// The time up to which each of the targets has been told each of its shards.
pub(crate) fn cut(entries: &[Entry]) -> Cut
    requires { Rises (map seen entries.now) }
    ensures { (raised : Option ℤ) → result ≡ cut (listening_of raised (map seen entries.now)) }
{
    match first_loading(entries) {
        Some(id) => Cut::Loading(id),
        None => cut_at(least_of_all(entries)),
    }
}

// ---- a raise

// The time that a target was loaded at.
fn load_time(loaded: &Option<Loaded>) -> Option<Micros>
    ensures { result ≡ load_time (option_map loaded_in loaded.now) }
{
    match loaded {
        Some(loaded) => Some(loaded.time),
        None => None,
    }
}

/// The time below which no raise is.
pub(crate) fn base(raised: &Option<Micros>, entries: &[Entry]) -> Option<Micros>
    requires { Rises (map seen entries.now) }
    ensures { result ≡ base (listening_of raised.now (map seen entries.now)) }
{
    let mut base = *raised;
    for entry in entries {
        base = greater(base, greater(entry.token, load_time(&entry.loaded)));
    }
    base
}

// Whether a target has the view of the last raise.
pub(crate) fn is_current(loaded: &Option<Loaded>) -> bool
    ensures { result ≡ is_current (option_map loaded_in loaded.now) }
{
    match loaded {
        Some(loaded) => loaded.current,
        None => false,
    }
}

// Whether a target hasn't the view of the last raise.
fn some_new(entries: &[Entry]) -> bool
    ensures { result ≡ list_any (λ (e : Entry). not (is_current (option_map loaded_in e.loaded))) entries.now }
{
    entries.iter().any(|entry| !is_current(&entry.loaded))
}

pub(crate) fn is_from(base: Option<Micros>, time: Micros) -> bool
    ensures { result ≡ is_from base time }
{
    match base {
        Some(base) => base <= time,
        None => true,
    }
}

pub(crate) fn is_behind(raised: &Option<Micros>, time: Micros) -> bool
    ensures { result ≡ is_behind raised.now time }
{
    match raised {
        Some(raised) => *raised < time,
        None => true,
    }
}

// Whether a raise at a time has something new.
fn is_new(raised: &Option<Micros>, entries: &[Entry], time: Micros) -> bool
    requires { Rises (map seen entries.now) }
    ensures { result ≡ (is_behind raised.now time || some_new (listening_of raised.now (map seen entries.now))) }
{
    is_behind(raised, time) || some_new(entries)
}

// Whether the session can be raised at a time.
fn ready_at(raised: &Option<Micros>, entries: &[Entry], time: Micros) -> bool
    requires { Rises (map seen entries.now) }
    ensures { result ≡ is_ready_at (listening_of raised.now (map seen entries.now)) (Cut.At time) }
{
    is_from(base(raised, entries), time) && is_new(raised, entries, time)
}

/// Whether the session can be raised.
pub(crate) fn ready(raised: &Option<Micros>, entries: &[Entry]) -> bool
    requires { Rises (map seen entries.now) }
    ensures { result ≡ is_ready (listening_of raised.now (map seen entries.now)) }
{
    match cut(entries) {
        Cut::At(time) => ready_at(raised, entries, time),
        Cut::Loading(_) => false,
        Cut::NoTarget => false,
    }
}
