//! How far a target that is loaded is in each shard.
ghost use Rattle.std.specs.Prelude.{◌≡◌, None, Some, IfOk, if◌then◌else◌, slice_index_or, slice_set};
ghost use Rattle.std.specs.List.{list_any};
ghost use Rattle.fs_path.specs.Scope.{AreShards, in_shard};
ghost use Rattle.fs_listen.specs.Listening.{has_shard, later_of, positions_at};

use fs_path::{DocName, shard_of, shard_of_document};
use fs_query::Target;
use fs_time::Micros;
use std::alloc::{AllocError, Global};

// Whether one of the names is in a shard.
fn some_in(shards: u32, names: &[DocName], shard: u32) -> bool
    requires { AreShards shards }
    ensures { result ≡ list_any (in_shard shards shard) names.now }
{
    names
        .iter()
        .any(|name| shard_of_document(name, shards) == shard)
}

// Whether documents of a target may be in a shard.
fn has_shard(shards: u32, target: &Target, shard: u32) -> bool
    requires { AreShards shards }
    ensures { result ≡ has_shard shards target.now shard }
{
    match target {
        Target::Query(query) => shard_of(query.scope.id(), shards) == shard,
        Target::Documents(names) => some_in(shards, names.as_slice(), shard),
    }
}

// The position in a shard of a target that is loaded at a time.
fn position_at(shards: u32, target: &Target, shard: u32, time: Micros) -> Option<Micros>
    requires { AreShards shards }
    ensures { result ≡ if has_shard shards target.now shard then Some time else None }
{
    if has_shard(shards, target, shard) {
        Some(time)
    } else {
        None
    }
}

/// The positions of a target that is loaded at a time.
pub(crate) fn positions_at(
    alloc: Global,
    shards: u32,
    target: &Target,
    time: Micros,
) -> Result<Vec<Option<Micros>>, AllocError>
    requires { AreShards shards }
    ensures { IfOk result (λ v. v.items ≡ positions_at shards target.now time) }
{
    let mut positions = Vec::with_capacity(alloc, shards as usize)?;
    for shard in 0..shards {
        positions.push(position_at(shards, target, shard, time))?;
    }
    Ok(positions)
}

/// What is at a place of a list, if there is anything.
pub(crate) fn position_at_place(positions: &[Option<Micros>], i: usize) -> Option<Micros>
    ensures { result ≡ slice_index_or positions.now i None }
{
    match positions.get(i) {
        Some(position) => *position,
        None => None,
    }
}

/// The position in a shard, if there is one.
pub(crate) fn position_in(positions: &[Option<Micros>], shard: u32) -> Option<Micros>
    ensures { result ≡ slice_index_or positions.now shard None }
{
    position_at_place(positions, shard as usize)
}

// A position that was below a time becomes it.
fn later_of(to: Micros, position: Option<Micros>) -> Option<Micros>
    ensures { result ≡ later_of to position }
{
    match position {
        Some(position) => Some(if position < to { to } else { position }),
        None => None,
    }
}

/// Moves the position in a shard to a time, where it was below it.
pub(crate) fn move_position(positions: &mut [Option<Micros>], shard: u32, to: Micros)
    ensures { positions.new ≡ slice_set positions.old shard (later_of to (slice_index_or positions.old shard None)) }
{
    let i = shard as usize;
    if i < positions.len() {
        positions[i] = later_of(to, positions[i]);
    }
}
