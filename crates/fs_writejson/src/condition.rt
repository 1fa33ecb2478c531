//! Preconditions.
ghost use Rattle.std.specs.Prelude.{ℕ, List, Option, option_map};
ghost use Rattle.fs_path.specs.Way.{place_of};
ghost use Rattle.serde_json.specs.Data.{Data};
ghost use Rattle.serde_json.specs.View.{view as json};
ghost use Rattle.fs_json.specs.Answer.{Gives};
ghost use Rattle.fs_writejson.specs.Condition.{condition_at, condition_of, condition_in};
ghost use Rattle.fs_writejson.specs.Steps.{the_condition};

use crate::names::{CONDITION_MEMBERS, CURRENT_DOCUMENT, EXISTS};
use fs_json::{Bad, at_most_one_of, member, only, read_time, read_truth};
use fs_path::Way;
use fs_write::Precondition;
use serde_json::Value;
use std::alloc::Global;

/// The precondition of a write, which has none where the member is absent.
/// (docs/DECISIONS.md, "An empty `currentDocument` asks for nothing".)
pub(crate) fn read_condition_of(
    alloc: Global,
    write: &Value,
    way: &Way<'_>,
) -> Result<Precondition, Bad>
    ensures { Gives (λ c. c) result (condition_in (json write.now) (place_of way.now)) }
{
    match member(alloc, write, CURRENT_DOCUMENT, way)? {
        Some(condition) => read_condition(alloc, condition, &way.member(CURRENT_DOCUMENT)),
        None => Ok(Precondition::None),
    }
}

/// Reads a precondition: an object of at most one member. An empty one asks for nothing. (v1 reference, "Precondition".)
fn read_condition(alloc: Global, v: &Value, way: &Way<'_>) -> Result<Precondition, Bad>
    ensures { Gives (λ c. c) result (condition_at (json v.now) (place_of way.now)) }
{
    match the_condition(alloc, v, way)? {
        Some((name, content)) => read_one(alloc, name, content, &(*way).member(name)),
        None => Ok(Precondition::None),
    }
}

/// The member that is there, if any is, where no other is.
fn the_condition<'a>(
    alloc: Global,
    v: &'a Value,
    way: &Way<'_>,
) -> Result<Option<(&'static str, &'a Value)>, Bad>
    ensures { Gives {Y = Option (List ℕ × Data)}
        (λ found. option_map (λ one. (one.0.now, json one.1.now)) found) result
        (the_condition (json v.now) (place_of way.now)) }
{
    only(alloc, v, &CONDITION_MEMBERS, way)?;
    at_most_one_of(alloc, v, &CONDITION_MEMBERS, way)
}

fn read_one(alloc: Global, name: &str, v: &Value, way: &Way<'_>) -> Result<Precondition, Bad>
    ensures { Gives (λ c. c) result (condition_of name.now (json v.now) (place_of way.now)) }
{
    match name {
        EXISTS => Ok(Precondition::Exists(read_truth(alloc, v, way)?)),
        _ => Ok(Precondition::UpdateTime(read_time(alloc, v, way)?)),
    }
}
