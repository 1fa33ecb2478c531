//! Writes transforms.
ghost use Rattle.std.specs.Prelude.{◌≡◌, IfOk, OnOk};
ghost use Rattle.std.specs.List.{AllByRecursion};
ghost use Rattle.serde_json.specs.View.{items_view, members_view, view as json};
ghost use Rattle.fs_writejson.specs.Held.{IsTransformHeld, IsOperationHeld};
ghost use Rattle.fs_writejson.specs.Steps.{with_transforms_put};
ghost use Rattle.fs_writejson.specs.Transform.{operation_json, operation_name, transform_json, transforms_json};

use crate::names::{
    APPEND_MISSING_ELEMENTS, FIELD_PATH, INCREMENT, MAXIMUM, MINIMUM, REMOVE_ALL_FROM_ARRAY,
    REQUEST_TIME, SET_TO_SERVER_VALUE, UPDATE_TRANSFORMS,
};
use fs_json::write_field_path;
use fs_valjson::{write_array, write_value};
use fs_value::Value as Operand;
use fs_write::{Operation, Transform, Transforms};
use serde_json::{Map, Value};
use std::alloc::{AllocError, Global};

/// Puts in the transforms, where there are any.
pub(crate) fn put_transforms(
    alloc: Global,
    members: &mut Map<String, Value>,
    transforms: &Transforms,
) -> Result<(), AllocError>
    ensures value { OnOk result (members_view members.new.entries
        ≡ with_transforms_put transforms.now (members_view members.old.entries)) }
    ensures held { OnOk result (AllByRecursion IsTransformHeld transforms.now) }
{
    if transforms.is_empty() {
        return Ok(());
    }
    let written = write_transforms(alloc, transforms.as_slice())?;
    serde_json::put(members, alloc, UPDATE_TRANSFORMS, Value::Array(written))
}

fn write_transforms(alloc: Global, transforms: &[Transform]) -> Result<Vec<Value>, AllocError>
    ensures value { IfOk result (λ l. items_view l.items ≡ transforms_json transforms.now) }
    ensures held { OnOk result (AllByRecursion IsTransformHeld transforms.now) }
{
    let mut items = Vec::with_capacity(alloc, transforms.len())?;
    for transform in transforms {
        items.push(write_transform(alloc, transform)?)?;
    }
    Ok(items)
}

fn write_transform(alloc: Global, transform: &Transform) -> Result<Value, AllocError>
    ensures value { IfOk result (λ j. json j ≡ transform_json transform.now) }
    ensures held { OnOk result (IsTransformHeld transform.now) }
{
    let mut members = Map::new(alloc);
    let path = write_field_path(alloc, &transform.path)?;
    serde_json::put(&mut members, alloc, FIELD_PATH, path)?;
    let operand = write_operation(alloc, &transform.operation)?;
    serde_json::put(
        &mut members,
        alloc,
        operation_name(&transform.operation),
        operand,
    )?;
    Ok(Value::Object(members))
}

fn operation_name(operation: &Operation) -> &'static str
    ensures { result.now ≡ operation_name operation.now }
{
    match operation {
        Operation::RequestTime => SET_TO_SERVER_VALUE,
        Operation::Increment(_) => INCREMENT,
        Operation::Maximum(_) => MAXIMUM,
        Operation::Minimum(_) => MINIMUM,
        Operation::AppendMissing(_) => APPEND_MISSING_ELEMENTS,
        Operation::RemoveAll(_) => REMOVE_ALL_FROM_ARRAY,
    }
}

/// What an operation is given.
#[tactic(auto, unfolding(crate::specs::Transform::operation_at))]
fn write_operation(alloc: Global, operation: &Operation) -> Result<Value, AllocError>
    ensures value { IfOk result (λ j. json j ≡ operation_json operation.now) }
    ensures held { OnOk result (IsOperationHeld operation.now) }
{
    match operation {
        Operation::RequestTime => Value::try_from_str(alloc, REQUEST_TIME),
        Operation::Increment(n) => write_value(alloc, &Operand::Integer(*n)),
        Operation::Maximum(n) => write_value(alloc, &Operand::Integer(*n)),
        Operation::Minimum(n) => write_value(alloc, &Operand::Integer(*n)),
        Operation::AppendMissing(values) => write_array(alloc, values),
        Operation::RemoveAll(values) => write_array(alloc, values),
    }
}
