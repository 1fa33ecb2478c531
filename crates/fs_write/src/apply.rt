//! The transforms of a write, made in their order.
ghost use Rattle.std.specs.Prelude.{◌≡◌, IfOk};
ghost use Rattle.fs_value.specs.FieldPaths.{set_fields};
ghost use Rattle.fs_value.specs.View.{view};
ghost use Rattle.fs_write.specs.Operation.{reported};
ghost use Rattle.fs_write.specs.Transforms.{value_set, fields_after, transformed, transform_results};

use crate::operation::{incremented, larger, smaller, whole_milliseconds};
use crate::transform::{Operation, Transform, Transforms};
use fs_edit::OpenFields;
use fs_path::FieldPath;
use fs_time::Micros;
use fs_value::{Fields, Value, Values};
use std::alloc::{AllocError, Global};

/// Makes transforms of fields in their order, at the time of the commit: the fields afterwards, and the results, which are the
/// new value of a number or a time, and null for an array. (v1 reference, "Write": `updateTransforms`; "WriteResult":
/// `transformResults`.)
pub(crate) fn apply_transforms(
    alloc: Global,
    fields: Fields,
    transforms: &Transforms,
    time: Micros,
) -> Result<(Fields, Values), AllocError>
    ensures fields { IfOk result (λ r. r.0 ≡ transformed transforms.now time fields) }
    ensures results { IfOk result (λ r. r.1 ≡ transform_results transforms.now time fields) }
{
    let mut opened = OpenFields::open(alloc, fields)?;
    let mut results = Values::with_capacity(alloc, transforms.len())?;
    for transform in transforms.as_slice() {
        let (after, result) = apply(alloc, opened, transform, time)?;
        opened = after;
        results.push(result)?;
    }
    Ok((opened.close(alloc)?, results))
}

// Makes one transform, and gives its result.
fn apply(
    alloc: Global,
    fields: OpenFields,
    transform: &Transform,
    time: Micros,
) -> Result<(OpenFields, Value), AllocError>
    ensures fields { IfOk result (λ r. r.0 ≡ fields_after transform.now time fields) }
    ensures result { IfOk result (λ r. view r.1 ≡ reported transform.now.operation (value_set transform.now time fields)) }
{
    let path = &transform.path;
    match &transform.operation {
        Operation::RequestTime => {
            let now = Value::Timestamp(whole_milliseconds(time));
            set(alloc, fields, path, now)
        }
        Operation::Increment(n) => {
            let number = incremented(fields.integer_at(path), *n);
            set(alloc, fields, path, Value::Integer(number))
        }
        Operation::Maximum(n) => {
            let number = larger(fields.integer_at(path), *n);
            set(alloc, fields, path, Value::Integer(number))
        }
        Operation::Minimum(n) => {
            let number = smaller(fields.integer_at(path), *n);
            set(alloc, fields, path, Value::Integer(number))
        }
        Operation::AppendMissing(values) => {
            let after = fields.append_missing(alloc, path, values)?;
            Ok((after, Value::Null))
        }
        Operation::RemoveAll(values) => {
            let after = fields.remove_all(alloc, path, values)?;
            Ok((after, Value::Null))
        }
    }
}

// Sets a value, which is also the result.
fn set(
    alloc: Global,
    fields: OpenFields,
    path: &FieldPath,
    value: Value,
) -> Result<(OpenFields, Value), AllocError>
    ensures fields { IfOk result (λ r. r.0 ≡ set_fields path.now.parts (view value) fields) }
    ensures result { IfOk result (λ r. view r.1 ≡ view value) }
{
    let result = value.copy(alloc)?;
    Ok((fields.set(alloc, path, value)?, result))
}
