//! How deep arrays and maps nest in a value.
ghost use Rattle.std.specs.Prelude.{◌≡◌, ◌-◌, ◌^◌, min};
ghost use Rattle.fs_value.specs.Data.{items_of, members_of, depth as depth_of, items_depth as items_depth_of, members_depth};
ghost use Rattle.fs_value.specs.Limits.{deepest_value};
ghost use Rattle.fs_value.specs.View.{view};

use crate::fields::Fields;
use crate::limits::DEEPEST_VALUE;
use crate::value::Value;
use crate::values::Values;

/// How deep arrays and maps nest in a value: 1 where it is neither, or is an empty one. A depth that no `u32` holds is
/// told as the greatest.
#[cycle(depth)]
pub fn depth(v: &Value) -> u32
    ensures value { result ≡ min (depth_of (view v.now)) (2 ^ 32 - 1) }
    ensures limit { DEEPEST_VALUE ≡ deepest_value }
{
    match v {
        Value::Array(values) => items_depth(values).saturating_add(1),
        Value::Map(fields) => fields_depth(fields).saturating_add(1),
        _ => 1,
    }
}

#[cycle(depth)]
fn items_depth(values: &Values) -> u32
    ensures { result ≡ min (items_depth_of (items_of values.now)) (2 ^ 32 - 1) }
{
    let mut deepest = 0;
    for value in values.as_slice() {
        deepest = depth(value).max(deepest);
    }
    deepest
}

#[cycle(depth)]
fn fields_depth(fields: &Fields) -> u32
    ensures { result ≡ min (members_depth (members_of fields.now)) (2 ^ 32 - 1) }
{
    let mut deepest = 0;
    for field in fields.as_slice() {
        deepest = depth(&field.value).max(deepest);
    }
    deepest
}
