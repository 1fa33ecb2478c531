//! Rules of the values in a write: their fields' names, how deep they nest, and arrays in arrays.
ghost use Rattle.std.specs.Prelude.{◌≡◌, nat_lt};
ghost use Rattle.fs_value.specs.Data.{items_of, members_of, items_depth, members_depth};
ghost use Rattle.fs_value.specs.Limits.{deepest_value};
ghost use Rattle.fs_value.specs.View.{view};
ghost use Rattle.fs_write.specs.ValueRules.{has_bad_name, items_have_bad_name, members_have_bad_name, is_array, has_array_in_array, items_have_arrays, members_have_array_in_array};

use fs_path::is_bad_field_name;
use fs_value::{DEEPEST_VALUE, Fields, Value, Values, depth};

// Whether some map in a value has a field of a bad name.
#[cycle(bad_name)]
fn has_bad_name(v: &Value) -> bool
    ensures { result ≡ has_bad_name (view v.now) }
{
    match v {
        Value::Array(values) => items_have_bad_name(values),
        Value::Map(fields) => fields_have_bad_name(fields),
        _ => false,
    }
}

/// Whether some map in these elements has a field of a bad name.
#[cycle(bad_name)]
pub(crate) fn items_have_bad_name(values: &Values) -> bool
    ensures { result ≡ items_have_bad_name (items_of values.now) }
{
    for value in values.as_slice() {
        if has_bad_name(value) {
            return true;
        }
    }
    false
}

/// Whether one of these fields, or some map in one of them, has a bad name.
#[cycle(bad_name)]
pub(crate) fn fields_have_bad_name(fields: &Fields) -> bool
    ensures { result ≡ members_have_bad_name (members_of fields.now) }
{
    for field in fields.as_slice() {
        if is_bad_field_name(field.key.as_str()) || has_bad_name(&field.value) {
            return true;
        }
    }
    false
}

fn is_array(v: &Value) -> bool
    ensures { result ≡ is_array (view v.now) }
{
    match v {
        Value::Array(_) => true,
        _ => false,
    }
}

// Whether some array in a value directly holds an array.
#[cycle(array_in_array)]
fn has_array_in_array(v: &Value) -> bool
    ensures { result ≡ has_array_in_array (view v.now) }
{
    match v {
        Value::Array(values) => items_have_arrays(values),
        Value::Map(fields) => fields_have_array_in_array(fields),
        _ => false,
    }
}

/// Whether an array of these elements would directly hold an array, or some array in one of them does.
#[cycle(array_in_array)]
pub(crate) fn items_have_arrays(values: &Values) -> bool
    ensures { result ≡ items_have_arrays (items_of values.now) }
{
    for value in values.as_slice() {
        if is_array(value) || has_array_in_array(value) {
            return true;
        }
    }
    false
}

/// Whether some array in these fields directly holds an array.
#[cycle(array_in_array)]
pub(crate) fn fields_have_array_in_array(fields: &Fields) -> bool
    ensures { result ≡ members_have_array_in_array (members_of fields.now) }
{
    for field in fields.as_slice() {
        if has_array_in_array(&field.value) {
            return true;
        }
    }
    false
}

/// Whether one of these elements nests deeper than a value may.
pub(crate) fn are_items_deep(values: &Values) -> bool
    ensures { result ≡ nat_lt deepest_value (items_depth (items_of values.now)) }
{
    for value in values.as_slice() {
        if depth(value) > DEEPEST_VALUE {
            return true;
        }
    }
    false
}

/// Whether the value of one of these fields nests deeper than a value may.
pub(crate) fn are_fields_deep(fields: &Fields) -> bool
    ensures { result ≡ nat_lt deepest_value (members_depth (members_of fields.now)) }
{
    for field in fields.as_slice() {
        if depth(&field.value) > DEEPEST_VALUE {
            return true;
        }
    }
    false
}
