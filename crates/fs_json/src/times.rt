//! Times, as strings of RFC 3339 (proto3 JSON of `google.protobuf.Timestamp`).
ghost use Rattle.std.specs.Prelude.{◌≡◌, ℕ, ℤ, List, Option, Ok, IfOk, OnOk};
ghost use Rattle.fs_path.specs.Way.{place_of};
ghost use Rattle.serde_json.specs.View.{view as json};
ghost use Rattle.fs_json.specs.Answer.{Gives};
ghost use Rattle.fs_json.specs.Time.{optional_time_at, required_time_at, time_at, time_json, IsTimeHeld};

use crate::bad::Bad;
use crate::members::{member, required};
use fs_path::{Rule, Way};
use fs_time::{Micros, TimeError, print, read_rfc3339};
use serde_json::Value;
use std::alloc::{AllocError, Global};

/// A time, as a string of RFC 3339. A string that is none breaks rule 1 of times, and one out of range rule 2.
pub fn read_time(alloc: Global, v: &Value, way: &Way<'_>) -> Result<Micros, Bad>
    ensures { Gives (λ t. t) result (time_at (json v.now) (place_of way.now)) }
{
    let Some(text) = v.as_str() else {
        return Err(Bad::at(alloc, Rule::G, way));
    };
    match read_rfc3339(alloc, text) {
        Ok(t) => Ok(t),
        Err(TimeError::BadText) => Err(Bad::at(alloc, Rule::T(1), way)),
        Err(TimeError::OutOfRange) => Err(Bad::at(alloc, Rule::T(2), way)),
        Err(TimeError::Memory(e)) => Err(Bad::Memory(e)),
    }
}

/// A time that has to be a member. Where it is absent, its own place is at fault.
pub fn read_required_time(
    alloc: Global,
    v: &Value,
    name: &str,
    way: &Way<'_>,
) -> Result<Micros, Bad>
    ensures { Gives (λ t. t) result (required_time_at name.now (json v.now) (place_of way.now)) }
{
    let moment = required(alloc, v, name, way)?;
    read_time(alloc, moment, &way.member(name))
}

/// A time that is a member, and may be absent.
pub fn read_optional_time(
    alloc: Global,
    v: &Value,
    name: &str,
    way: &Way<'_>,
) -> Result<Option<Micros>, Bad>
    ensures { Gives {Y = Option ℤ} (λ t. t) result (optional_time_at name.now (json v.now) (place_of way.now)) }
{
    match member(alloc, v, name, way)? {
        Some(moment) => Ok(Some(read_time(alloc, moment, &way.member(name))?)),
        None => Ok(None),
    }
}

/// A time in UTC, with 0, 3 or 6 decimals, the least that are exact.
pub fn write_time(alloc: Global, t: Micros) -> Result<Value, AllocError>
    ensures value { IfOk result (λ v. json v ≡ time_json t) }
    ensures reads_back { IfOk result (λ v. (place : List ℕ) → time_at (json v) place ≡ Ok t) }
    ensures held { OnOk result (IsTimeHeld t) }
{
    Ok(Value::String(print(alloc, t)?))
}
