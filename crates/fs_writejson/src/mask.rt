//! Masks: the field paths that an update changes, or a read shows.
ghost use Rattle.std.specs.Prelude.{◌≡◌, ℕ, List, false, Ok, IfOk, OnOk};
ghost use Rattle.std.specs.List.{AllByRecursion};
ghost use Rattle.fs_path.specs.Way.{place_of};
ghost use Rattle.serde_json.specs.View.{items_view, view as json};
ghost use Rattle.serde_json.specs.Written.{has_float};
ghost use Rattle.fs_json.specs.Answer.{Gives};
ghost use Rattle.fs_json.specs.Paths.{field_path_at, IsPathHeld};
ghost use Rattle.fs_writejson.specs.Mask.{mask_at, mask_json, paths_in, paths_json};

use crate::names::{FIELD_PATHS, MASK_MEMBERS};
use fs_json::{Bad, ReadsItem, member, only, read_each, read_field_path, write_field_path};
use fs_path::{FieldPath, Paths, Way};
use serde_json::{Map, Value};
use std::alloc::{AllocError, Global};

/// Reads a mask: an object whose one member is a list of field paths, which may be absent. (v1 reference, "DocumentMask".)
pub fn read_mask(alloc: Global, v: &Value, way: &Way<'_>) -> Result<Paths, Bad>
    ensures { Gives (λ ps. ps) result (mask_at (json v.now) (place_of way.now)) }
{
    only(alloc, v, &MASK_MEMBERS, way)?;
    read_paths_of(alloc, v, way)
}

fn read_paths_of(alloc: Global, mask: &Value, way: &Way<'_>) -> Result<Paths, Bad>
    ensures { Gives (λ ps. ps) result (paths_in (json mask.now) (place_of way.now)) }
{
    match member(alloc, mask, FIELD_PATHS, way)? {
        Some(paths) => read_each(alloc, &PathReader, paths, &way.member(FIELD_PATHS)),
        None => Ok(Paths::new(alloc)),
    }
}

/// Reads a field path of a list.
struct PathReader;

impl ReadsItem for PathReader {
    type Item = FieldPath;

    ghost reading = { λ _. field_path_at };

    fn read(&self, alloc: Global, item: &Value, way: &Way<'_>) -> Result<FieldPath, Bad> {
        read_field_path(alloc, item, way)
    }
}

/// Writes a mask. One without paths is an empty object.
pub fn write_mask(alloc: Global, paths: &Paths) -> Result<Value, AllocError>
    ensures value { IfOk result (λ j. json j ≡ mask_json paths.now) }
    ensures no_float { IfOk result (λ j. has_float (json j) ≡ false) }

    // It is read back as the same mask, at any place.
    ensures reads_back { IfOk result (λ j. (place : List ℕ) → mask_at (json j) place ≡ Ok paths.now) }
{
    let mut members = Map::new(alloc);
    if paths.is_empty() {
        return Ok(Value::Object(members));
    }
    let written = write_paths(alloc, paths.as_slice())?;
    serde_json::put(&mut members, alloc, FIELD_PATHS, Value::Array(written))?;
    Ok(Value::Object(members))
}

fn write_paths(alloc: Global, paths: &[FieldPath]) -> Result<Vec<Value>, AllocError>
    ensures value { IfOk result (λ l. items_view l.items ≡ paths_json paths.now) }
    ensures held { OnOk result (AllByRecursion IsPathHeld paths.now) }
{
    let mut items = Vec::with_capacity(alloc, paths.len())?;
    for path in paths {
        items.push(write_field_path(alloc, path)?)?;
    }
    Ok(items)
}
