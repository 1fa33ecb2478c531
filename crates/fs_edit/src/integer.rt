//! The integer at a field path in opened fields.
ghost use Rattle.std.specs.Prelude.{◌≡◌, Some};
ghost use Rattle.fs_value.specs.FieldPaths.{get_fields};
ghost use Rattle.fs_value.specs.View.{view};
ghost use Rattle.fs_edit.specs.Below.{value_below};
ghost use Rattle.fs_edit.specs.Numbers.{integer_in};

use crate::open_fields::{Open, OpenFields};
use fs_path::{FieldPath, Text};
use fs_value::Value;

impl OpenFields {
    /// The integer at a path, or none where there is none or another value. It takes no memory.
    /// (docs/DECISIONS.md, "A look-up in opened fields finds integers only".)
    pub fn integer_at(&self, path: &FieldPath) -> Option<i64>
        ensures { result ≡ integer_in (get_fields path.now.parts self.now) }
    {
        integer_in(self, path.parts.as_slice())
    }
}

fn integer_in(fields: &OpenFields, names: &[Text]) -> Option<i64>
    ensures { result ≡ integer_in (get_fields names.now fields.now) }
{
    match names {
        [] => None,
        [key, rest @ ..] => match fields.entries.get(key)? {
            Open::Whole(value) => integer_within(value, rest),
            Open::Map(inner) => integer_in(inner, rest),
            Open::Array(_) => None,
        },
    }
}

// The same below a value that isn't opened.
fn integer_within(value: &Value, names: &[Text]) -> Option<i64>
    ensures { result ≡ integer_in (value_below names.now (view value.now)) }
{
    match names {
        [] => as_integer(value),
        [key, rest @ ..] => match value {
            Value::Map(fields) => integer_within(fields.find(key.as_str())?, rest),
            _ => None,
        },
    }
}

fn as_integer(value: &Value) -> Option<i64>
    ensures { result ≡ integer_in (Some (view value.now)) }
{
    match value {
        Value::Integer(n) => Some(*n),
        _ => None,
    }
}
