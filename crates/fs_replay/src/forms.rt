//! Reading the lines of a script that are no requests: the members of each form.
ghost use Rattle.serde_json.specs.View.{view as json};
ghost use Rattle.fs_path.specs.Way.{place_of};
ghost use Rattle.fs_json.specs.Answer.{Gives};
ghost use Rattle.fs_json.specs.Scalars.{text_at, truth_at};
ghost use Rattle.fs_json.specs.Time.{time_at};
ghost use Rattle.fs_rpc.specs.Decimal.{decimal_at};
ghost use Rattle.fs_replay.specs.Forms.{leave_at, load_at, number_at, sole_as, sole_at, true_at};

use crate::request::Line;
use fs_json::{
    Bad, only, read_integer, read_optional_time, read_required_text, read_text, read_time,
    read_truth, required,
};
use fs_path::{Rule, Text, Way};
use fs_rpc::read_decimal;
use fs_status::Id;
use fs_time::Micros;
use serde_json::Value;
use std::alloc::Global;

pub const SESSION: &str = "session";

pub const LEAVE: &str = "leave";

const TARGET: &str = "target";

const AT: &str = "at";

// The member of a line that has no other.
fn sole<'a>(alloc: Global, v: &'a Value, name: &str) -> Result<&'a Value, Bad>
    ensures { Gives (λ found. json found.now) result (sole_at name.now (json v.now)) }
{
    let top = Way::method("");
    only(alloc, v, &[name], &top)?;
    required(alloc, v, name, &top)
}

/// The time of a line that has nothing else.
pub fn time_in(alloc: Global, v: &Value, name: &str) -> Result<Micros, Bad>
    ensures { Gives (λ t. t) result (sole_as time_at name.now (json v.now)) }
{
    let found = sole(alloc, v, name)?;
    read_time(alloc, found, &Way::method(name))
}

/// The truth value of a line that has nothing else.
pub fn truth_in(alloc: Global, v: &Value, name: &str) -> Result<bool, Bad>
    ensures { Gives (λ b. b) result (sole_as truth_at name.now (json v.now)) }
{
    let found = sole(alloc, v, name)?;
    read_truth(alloc, found, &Way::method(name))
}

/// The number of a commit on a line that has nothing else.
pub fn id_in(alloc: Global, v: &Value, name: &str) -> Result<Id, Bad>
    ensures { Gives (λ id. id) result (sole_as decimal_at name.now (json v.now)) }
{
    let found = sole(alloc, v, name)?;
    read_id(alloc, found, &Way::method(name))
}

/// A line that has `true` under one name, and nothing else.
pub fn true_in(alloc: Global, v: &Value, name: &str) -> Result<(), Bad>
    ensures { Gives (λ u. u) result (sole_as true_at name.now (json v.now)) }
{
    let found = sole(alloc, v, name)?;
    read_true(alloc, found, &Way::method(name))
}

/// A number of 32 bits on a line that has nothing else.
pub fn number_in(alloc: Global, v: &Value, name: &str) -> Result<u32, Bad>
    ensures { Gives (λ n. n) result (sole_as number_at name.now (json v.now)) }
{
    let found = sole(alloc, v, name)?;
    read_number(alloc, found, &Way::method(name))
}

/// The text of a line that has nothing else.
pub fn text_in(alloc: Global, v: &Value, name: &str) -> Result<Text, Bad>
    ensures { Gives (λ t. t) result (sole_as text_at name.now (json v.now)) }
{
    let found = sole(alloc, v, name)?;
    read_text(alloc, found, &Way::method(name))
}

/// A target that is to be loaded, on a line that has nothing else.
pub fn load_in(alloc: Global, v: &Value, name: &str) -> Result<Line, Bad>
    ensures { Gives (λ l. l) result (sole_as load_at name.now (json v.now)) }
{
    let found = sole(alloc, v, name)?;
    read_load(alloc, found, &Way::method(name))
}

#[tactic(auto, unfolding(crate::specs::Forms::load_at))]
fn read_load(alloc: Global, v: &Value, way: &Way<'_>) -> Result<Line, Bad>
    ensures { Gives (λ l. l) result (load_at (json v.now) (place_of way.now)) }
{
    only(alloc, v, &[SESSION, TARGET, AT], way)?;
    let session = read_required_text(alloc, v, SESSION, way)?;
    let target = required(alloc, v, TARGET, way)?;
    let target = read_number(alloc, target, &way.member(TARGET))?;
    let at = read_optional_time(alloc, v, AT, way)?;
    Ok(Line::Load {
        session,
        target,
        at,
    })
}

fn read_number(alloc: Global, v: &Value, way: &Way<'_>) -> Result<u32, Bad>
    ensures { Gives (λ n. n) result (number_at (json v.now) (place_of way.now)) }
{
    match u32::try_from(read_integer(alloc, v, way)?) {
        Ok(n) => Ok(n),
        Err(_) => Err(Bad::at(alloc, Rule::G, way)),
    }
}

/// The name of a session that leaves. (docs/DECISIONS.md, "A line with `session` and `leave`".)
pub fn leaving_in(alloc: Global, v: &Value) -> Result<Text, Bad>
    ensures { Gives (λ t. t) result (leave_at (json v.now)) }
{
    let top = Way::method("");
    only(alloc, v, &[SESSION, LEAVE], &top)?;
    let name = read_required_text(alloc, v, SESSION, &top)?;
    let leave = required(alloc, v, LEAVE, &top)?;
    read_true(alloc, leave, &top.member(LEAVE))?;
    Ok(name)
}

fn read_true(alloc: Global, v: &Value, way: &Way<'_>) -> Result<(), Bad>
    ensures { Gives (λ u. u) result (true_at (json v.now) (place_of way.now)) }
{
    match v.as_bool() {
        Some(true) => Ok(()),
        _ => Err(Bad::at(alloc, Rule::G, way)),
    }
}

fn read_id(alloc: Global, v: &Value, way: &Way<'_>) -> Result<Id, Bad>
    ensures { Gives (λ id. id) result (decimal_at (json v.now) (place_of way.now)) }
{
    Ok(Id::new(read_decimal(alloc, v, way)?))
}
