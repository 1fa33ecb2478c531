//! Targets that stand still, so that a commit that concerns none of them costs no look at them.
ghost use Rattle.std.specs.Prelude.{◌≡◌, false, IfOk, IfSome, IsTrue, Some, map, option_map};
ghost use Rattle.std.specs.List.{AllByRecursion};
ghost use Rattle.fs_listen.specs.Cuts.{positions_of};
ghost use Rattle.fs_target.specs.Seen.{loaded_in, seen};
ghost use Rattle.fs_target.specs.Still.{WillBe, all_joined, first_of, in_all, in_own, joined, nones, seen_at};

use crate::cuts::{cut_at, greater, is_behind, is_from, least_of};
use crate::entry::{Entry, Loaded};
use crate::positions::position_at_place;
use fs_listen::Cut;
use fs_time::Micros;
use std::alloc::{AllocError, Global};

/// What stands for the positions of all targets of a session, while each is loaded and current, nothing is staged, and those that have a shard
/// are at one position there.
///
///     two shards; 1 is the query of c, in shard 1, and 2 the documents c/a and d/a, in both
///     both raised at 5            positions 5, 5
///     shard 0 taken in up to 8    positions 8, 5, which are those of 2, and 1 is at 5
///     events for 1                8 and 5 are written to 2, and 5 to 1: it is still no longer
#[derive(Drop)]
pub(crate) struct Still {
    /// By shard, and none in one that no target has.
    pub(crate) positions: Vec<Option<Micros>>,
    /// The greatest time that a token shows, or that a target was loaded at.
    pub(crate) base: Option<Micros>,
}

/// What a session is to stand still with, once it is raised at a time for which its views were made ready.
#[derive(Drop)]
pub(crate) struct Next {
    pub(crate) time: Micros,
    pub(crate) still: Still,
}

impl Still {
    ghost use Rattle.std.specs.Prelude.{◌≡◌};
    ghost use Rattle.fs_listen.specs.Cuts.{cut_at, greatest_before, least};
    ghost use Rattle.fs_target.specs.Still.{is_ready_still};

    /// The least position.
    pub(crate) fn least(&self) -> Option<Micros>
        ensures { result ≡ least self.now.positions.items }
    {
        least_of(self.positions.as_slice())
    }

    /// The time up to which all targets were told each shard.
    pub(crate) fn cut(&self) -> Cut
        ensures { result ≡ cut_at (least self.now.positions.items) }
    {
        cut_at(self.least())
    }

    /// The time below which no raise is, by the last one.
    pub(crate) fn base(&self, raised: Option<Micros>) -> Option<Micros>
        ensures { result ≡ greatest_before raised self.now.base }
    {
        greater(raised, self.base)
    }

    /// Whether the session can be raised, by the last raise.
    pub(crate) fn ready(&self, raised: Option<Micros>) -> bool
        ensures { result ≡ is_ready_still (least self.now.positions.items) self.now.base raised }
    {
        match self.least() {
            Some(time) => is_from(self.base(raised), time) && is_behind(&raised, time),
            None => false,
        }
    }
}

/// What a session is still with at a time, if it was made ready for that.
pub(crate) fn still_at(next: Option<Next>, time: Micros) -> Option<Still>
    ensures { IfSome result (λ s. next ≡ Some (record { time = time; still = s })) }
{
    match next {
        Some(next) if next.time == time => Some(next.still),
        _ => None,
    }
}

// ---- positions

fn first_of(position: Option<Micros>, other: Option<Micros>) -> Option<Micros>
    ensures { result ≡ first_of position other }
{
    match position {
        Some(time) => Some(time),
        None => other,
    }
}

fn in_own(own: Option<Micros>, position: Option<Micros>) -> Option<Micros>
    ensures { result ≡ in_own own position }
{
    match own {
        Some(_) => position,
        None => None,
    }
}

// Takes the positions of a target where there is none.
fn join(own: &[Option<Micros>], positions: &mut [Option<Micros>])
    ensures { positions.new ≡ joined own.now positions.old }
{
    for i in 0..positions.len() {
        positions[i] = first_of(positions[i], position_at_place(own, i));
    }
}

fn join_loaded(loaded: &Option<Loaded>, positions: &mut [Option<Micros>])
    ensures { positions.new ≡ joined (positions_of (option_map loaded_in loaded.now)) positions.old }
{
    if let Some(loaded) = loaded {
        join(loaded.positions.as_slice(), positions);
    }
}

// A place for each shard.
fn none_each(alloc: Global, shards: u32) -> Result<Vec<Option<Micros>>, AllocError>
    ensures { IfOk result (λ v. v.items ≡ nones v.items) }
{
    let mut positions = Vec::with_capacity(alloc, shards as usize)?;
    for _ in 0..shards {
        positions.push(None)?;
    }
    Ok(positions)
}

/// By shard, the position of the first target that has it.
pub(crate) fn all_joined(
    alloc: Global,
    shards: u32,
    entries: &[Entry],
) -> Result<Vec<Option<Micros>>, AllocError>
    ensures { IfOk result (λ v. v.items ≡ all_joined (nones v.items) (map seen entries.now)) }
{
    let mut positions = none_each(alloc, shards)?;
    for entry in entries {
        join_loaded(&entry.loaded, positions.as_mut_slice());
    }
    Ok(positions)
}

// Writes the positions of the shards into those of a target that has them.
fn write_positions(own: &mut [Option<Micros>], positions: &[Option<Micros>])
    ensures { own.new ≡ in_all own.old positions.now }
{
    for i in 0..own.len() {
        own[i] = in_own(own[i], position_at_place(positions, i));
    }
}

fn write_to(entry: &mut Entry, positions: &[Option<Micros>])
    ensures { seen entry.new ≡ seen_at positions.now (seen entry.old) }
{
    if let Some(loaded) = &mut entry.loaded {
        write_positions(loaded.positions.as_mut_slice(), positions);
    }
}

/// Writes the positions of the shards into those of each target.
pub(crate) fn write_all(entries: &mut [Entry], positions: &[Option<Micros>])
    ensures { map seen entries.new ≡ map (λ e. seen_at positions.now (seen e)) entries.old }
{
    for i in 0..entries.len() {
        write_to(&mut entries[i], positions);
    }
}

// ---- whether targets will be still

fn same(a: Option<Micros>, b: Option<Micros>) -> bool
    ensures { IsTrue result → a ≡ b }
{
    match (a, b) {
        (Some(a), Some(b)) => a == b,
        (None, None) => true,
        _ => false,
    }
}

// Whether a target is where the shards are that it has.
fn agree(own: &[Option<Micros>], positions: &[Option<Micros>]) -> bool
    ensures { IsTrue result → in_all own.now positions.now ≡ own.now }
{
    for i in 0..own.len() {
        if !same(in_own(own[i], position_at_place(positions, i)), own[i]) {
            return false;
        }
    }
    true
}

fn will_be(entry: &Entry, positions: &[Option<Micros>], time: Micros) -> bool
    ensures { IsTrue result → WillBe time positions.now (seen entry.now) }
{
    match &entry.loaded {
        Some(loaded) => {
            agree(loaded.positions.as_slice(), positions) && !loaded.kept.are_behind(time)
        }
        None => false,
    }
}

/// Whether targets will be still at positions once they are raised at a time.
pub(crate) fn all_will_be(entries: &[Entry], positions: &[Option<Micros>], time: Micros) -> bool
    ensures { IsTrue result → AllByRecursion (WillBe time positions.now) (map seen entries.now) }
{
    for entry in entries {
        if !will_be(entry, positions, time) {
            return false;
        }
    }
    true
}
