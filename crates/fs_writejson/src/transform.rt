//! Reads transforms.
ghost use Rattle.std.specs.Prelude.{◌≡◌, ℕ, Bool, List};
ghost use Rattle.fs_path.specs.Way.{place_of};
ghost use Rattle.fs_path.specs.declared.place.Rule.TheVariants.{G};
ghost use Rattle.fs_json.specs.Answer.{Gives, or_fault, made};
ghost use Rattle.fs_json.specs.Members.{one_of_at};
ghost use Rattle.fs_value.specs.View.{view};
ghost use Rattle.serde_json.specs.Data.{Data};
ghost use Rattle.serde_json.specs.View.{items_view, view as json};
ghost use Rattle.fs_valjson.specs.Reading.{value_at};
ghost use Rattle.fs_write.specs.declared.transform.Operation.{Operation as Done};
ghost use Rattle.fs_write.specs.declared.transform.Transform.{Transform as Step};
ghost use Rattle.fs_writejson.specs.Transform.{number_of, operation_at, operation_in, operations, server_value, together, transform_at, transforms_at, transforms_in};
ghost use Rattle.fs_json.specs.Walk.{each_at};

use crate::names::{
    APPEND_MISSING_ELEMENTS, FIELD_PATH, INCREMENT, MAXIMUM, OPERATIONS, PATH_MEMBERS,
    REMOVE_ALL_FROM_ARRAY, REQUEST_TIME, SET_TO_SERVER_VALUE, UPDATE_TRANSFORMS,
};
use fs_json::{Bad, member, one_of, only_of_two, read_field_path, read_json_list, required};
use fs_path::{Rule, Way};
use fs_valjson::{read_array, read_value};
use fs_value::Value as Operand;
use fs_write::{Operation, Transform, Transforms};
use serde_json::Value;
use std::alloc::Global;

/// The transforms of a write, and whether each that wants an integer is given one. There are none where the member is
/// absent.
pub(crate) fn read_transforms_of(
    alloc: Global,
    write: &Value,
    way: &Way<'_>,
) -> Result<(Transforms, bool), Bad>
    ensures { Gives {Y = List Step × Bool} (λ ts. ts) result (transforms_in (json write.now) (place_of way.now)) }
{
    match member(alloc, write, UPDATE_TRANSFORMS, way)? {
        Some(transforms) => read_transforms(alloc, transforms, &way.member(UPDATE_TRANSFORMS)),
        None => Ok((Transforms::new(alloc), true)),
    }
}

#[tactic(auto, unfolding(crate::specs::Transform::transforms_at))]
fn read_transforms(alloc: Global, v: &Value, way: &Way<'_>) -> Result<(Transforms, bool), Bad>
    ensures { Gives {Y = List Step × Bool} (λ ts. ts) result
        (transforms_at (json v.now) (place_of way.now)) }
{
    read_items(alloc, read_json_list(alloc, v, way)?, way)
}

fn read_items(alloc: Global, items: &[Value], way: &Way<'_>) -> Result<(Transforms, bool), Bad>
    ensures { Gives {Y = List Step × Bool} (λ ts. ts) result
        (made together (each_at transform_at (items_view items.now) 0 (place_of way.now))) }
{
    let mut transforms = Transforms::new(alloc);
    let mut is_numeric = true;
    for (i, item) in items.iter().enumerate() {
        let (transform, has_number) = read_transform(alloc, item, &way.item(i as u64))?;
        transforms.push(transform)?;
        is_numeric &= has_number;
    }
    Ok((transforms, is_numeric))
}

/// Reads a transform: a field's path and just one operation. (v1 reference, "DocumentTransform.FieldTransform".)
#[tactic(auto, unfolding(crate::specs::Transform::transform_at))]
fn read_transform(alloc: Global, v: &Value, way: &Way<'_>) -> Result<(Transform, bool), Bad>
    ensures { Gives {Y = Step × Bool} (λ t. t) result (transform_at (json v.now) (place_of way.now)) }
{
    only_of_two(alloc, v, &PATH_MEMBERS, &OPERATIONS, way)?;
    let path = required(alloc, v, FIELD_PATH, way)?;
    let path = read_field_path(alloc, path, &way.member(FIELD_PATH))?;
    match read_the_operation(alloc, v, way) {
        Ok((operation, has_number)) => Ok((Transform { path, operation }, has_number)),
        Err(bad) => {
            drop(path);
            Err(bad)
        }
    }
}

/// The operation that is there, and whether it is given an integer where it wants one.
fn read_the_operation(alloc: Global, v: &Value, way: &Way<'_>) -> Result<(Operation, bool), Bad>
    ensures { Gives {Y = Done × Bool} (λ o. o) result (operation_in (json v.now) (place_of way.now)) }
{
    let (name, operand) = the_operation(alloc, v, way)?;
    read_operation(alloc, name, operand, &(*way).member(name))
}

/// The name of the operation that is there, where no other is, and what it is given.
fn the_operation<'a>(
    alloc: Global,
    v: &'a Value,
    way: &Way<'_>,
) -> Result<(&'static str, &'a Value), Bad>
    ensures { Gives {Y = List ℕ × Data} (λ one. (one.0.now, json one.1.now)) result
        (one_of_at operations (json v.now) (place_of way.now)) }
{
    one_of(alloc, v, &OPERATIONS, way)
}

/// The operation of this name, and whether it is given an integer where it wants one.
#[tactic(auto, unfolding(crate::specs::Transform::operation_at))]
fn read_operation(
    alloc: Global,
    name: &str,
    v: &Value,
    way: &Way<'_>,
) -> Result<(Operation, bool), Bad>
    ensures { Gives {Y = Done × Bool} (λ o. o) result (operation_at name.now (json v.now) (place_of way.now)) }
{
    match name {
        SET_TO_SERVER_VALUE => Ok((read_server_value(alloc, v, way)?, true)),
        APPEND_MISSING_ELEMENTS => {
            let elements = read_array(alloc, v, way)?;
            Ok((Operation::AppendMissing(elements), true))
        }
        REMOVE_ALL_FROM_ARRAY => {
            let elements = read_array(alloc, v, way)?;
            Ok((Operation::RemoveAll(elements), true))
        }
        _ => read_number(alloc, name, v, way),
    }
}

fn read_number(
    alloc: Global,
    name: &str,
    v: &Value,
    way: &Way<'_>,
) -> Result<(Operation, bool), Bad>
    ensures { Gives {Y = Done × Bool} (λ o. o) result (made (number_of name.now) (value_at (json v.now) (place_of way.now))) }
{
    let operand = read_value(alloc, v, way)?;
    let told = number_of(name, &operand);
    drop(operand);
    Ok(told)
}

/// The one value that the server sets, by its name.
fn read_server_value(alloc: Global, v: &Value, way: &Way<'_>) -> Result<Operation, Bad>
    ensures { Gives (λ o. o) result (or_fault G (place_of way.now) (server_value (json v.now))) }
{
    match v {
        Value::String(name) if name.as_str() == REQUEST_TIME => Ok(Operation::RequestTime),
        _ => Err(Bad::at(alloc, Rule::G, way)),
    }
}

/// The operation of this name on a number, with 0 where the operand isn't an integer, and whether it is one.
fn number_of(name: &str, operand: &Operand) -> (Operation, bool)
    ensures { result ≡ number_of name.now (view operand.now) }
{
    let (n, is_integer) = match operand {
        Operand::Integer(n) => (*n, true),
        _ => (0, false),
    };
    let operation = match name {
        INCREMENT => Operation::Increment(n),
        MAXIMUM => Operation::Maximum(n),
        _ => Operation::Minimum(n),
    };
    (operation, is_integer)
}
