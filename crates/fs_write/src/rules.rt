//! The rules that a write may break though it was read.
ghost use Rattle.std.specs.Prelude.{◌≡◌, [], IfOk, option_map, unwrap_or};
ghost use Rattle.std.specs.List.{list_any};
ghost use Rattle.fs_write.specs.Rules.{input, masked, is_delete, operand, some_overlap, path_has_bad_name, transform_has_bad_name, write_has_bad_name, is_deep_transform, is_deep_write, transform_has_arrays, write_has_array_in_array, rule_of_write};

use crate::overlap::{some_overlap, some_overlap_with};
use crate::transform::{Operation, Transform};
use crate::value_rules::{
    are_fields_deep, are_items_deep, fields_have_array_in_array, fields_have_bad_name,
    items_have_arrays, items_have_bad_name,
};
use crate::write::{Act, Write};
use fs_path::{FieldPath, is_bad_field_name};
use fs_value::{Fields, Values};
use std::alloc::{AllocError, Global};

/// The least rule of writes that a write breaks, or none. It takes no memory, but compares each path of the mask with each:
/// `check_with` doesn't.
///
/// 2: two paths of the mask are equal, or one begins the other. 3: a delete with transforms. 5: a field has a name that no
/// document may have. 6: a value nests deeper than `DEEPEST_VALUE`. 7: an array directly holds an array. (Cloud Firestore
/// documentation, "Usage and limits"; v1 reference, "Write" and "DocumentMask".)
pub fn check(write: &Write) -> Option<u8>
    ensures { result ≡ rule_of_write write.now }
{
    least_rule(write, some_overlap(masked(&write.act)))
}

/// The least rule of writes that a write breaks, or none, as `check` tells it. The paths of the mask are sorted, for which it
/// takes memory; it refuses only for want of it.
/// (docs/DECISIONS.md, "A mask's paths are sorted before they are compared".)
pub fn check_with(alloc: Global, write: &Write) -> Result<Option<u8>, AllocError>
    ensures { IfOk result (λ r. r ≡ rule_of_write write.now) }
{
    Ok(least_rule(write, some_overlap_with(alloc, masked(&write.act))?))
}

// The least rule that a write breaks, whose mask has paths that overlap or hasn't.
fn least_rule(write: &Write, overlaps: bool) -> Option<u8>
    requires { overlaps ≡ some_overlap (masked write.now.act) }
    ensures { result ≡ rule_of_write write.now }
{
    if overlaps {
        Some(2)
    } else if is_delete(&write.act) && !write.transforms.is_empty() {
        Some(3)
    } else if has_bad_name(write) {
        Some(5)
    } else if is_deep(write) {
        Some(6)
    } else if has_array_in_array(write) {
        Some(7)
    } else {
        None
    }
}

// The fields that an update is given.
fn input(act: &Act) -> Option<&Fields>
    ensures { unwrap_or (option_map (λ f. f.now) result) [] ≡ input act.now }
{
    match act {
        Act::Set { fields, .. } => Some(fields.as_fields()),
        Act::Merge { fields, .. } => Some(fields.as_fields()),
        Act::Delete { .. } => None,
    }
}

// The paths of an update's mask.
fn masked(act: &Act) -> &[FieldPath]
    ensures { result.now ≡ masked act.now }
{
    match act {
        Act::Merge { mask, .. } => mask.as_slice(),
        _ => &[],
    }
}

fn is_delete(act: &Act) -> bool
    ensures { result ≡ is_delete act.now }
{
    match act {
        Act::Delete { .. } => true,
        _ => false,
    }
}

// The elements that an array transform is given.
fn operand(operation: &Operation) -> Option<&Values>
    ensures { unwrap_or (option_map (λ v. v.now) result) [] ≡ operand operation.now }
{
    match operation {
        Operation::AppendMissing(values) => Some(values),
        Operation::RemoveAll(values) => Some(values),
        _ => None,
    }
}

fn path_has_bad_name(path: &FieldPath) -> bool
    ensures { result ≡ path_has_bad_name path.now }
{
    path.parts
        .as_slice()
        .iter()
        .any(|name| is_bad_field_name(name.as_str()))
}

fn paths_have_bad_name(paths: &[FieldPath]) -> bool
    ensures { result ≡ list_any path_has_bad_name paths.now }
{
    paths.iter().any(|path| path_has_bad_name(path))
}

fn transform_has_bad_name(transform: &Transform) -> bool
    ensures { result ≡ transform_has_bad_name transform.now }
{
    path_has_bad_name(&transform.path)
        || operand(&transform.operation).is_some_and(|values| items_have_bad_name(values))
}

fn transforms_have_bad_name(transforms: &[Transform]) -> bool
    ensures { result ≡ list_any transform_has_bad_name transforms.now }
{
    transforms.iter().any(|t| transform_has_bad_name(t))
}

fn has_bad_name(write: &Write) -> bool
    ensures { result ≡ write_has_bad_name write.now }
{
    input(&write.act).is_some_and(|fields| fields_have_bad_name(fields))
        || paths_have_bad_name(masked(&write.act))
        || transforms_have_bad_name(write.transforms.as_slice())
}

fn is_deep_transform(transform: &Transform) -> bool
    ensures { result ≡ is_deep_transform transform.now }
{
    operand(&transform.operation).is_some_and(|values| are_items_deep(values))
}

fn are_transforms_deep(transforms: &[Transform]) -> bool
    ensures { result ≡ list_any is_deep_transform transforms.now }
{
    transforms.iter().any(|t| is_deep_transform(t))
}

fn is_deep(write: &Write) -> bool
    ensures { result ≡ is_deep_write write.now }
{
    input(&write.act).is_some_and(|fields| are_fields_deep(fields))
        || are_transforms_deep(write.transforms.as_slice())
}

fn transform_has_arrays(transform: &Transform) -> bool
    ensures { result ≡ transform_has_arrays transform.now }
{
    operand(&transform.operation).is_some_and(|values| items_have_arrays(values))
}

fn transforms_have_arrays(transforms: &[Transform]) -> bool
    ensures { result ≡ list_any transform_has_arrays transforms.now }
{
    transforms.iter().any(|t| transform_has_arrays(t))
}

fn has_array_in_array(write: &Write) -> bool
    ensures { result ≡ write_has_array_in_array write.now }
{
    input(&write.act).is_some_and(|fields| fields_have_array_in_array(fields))
        || transforms_have_arrays(write.transforms.as_slice())
}
