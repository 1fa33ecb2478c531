//! The value at a path of a document, where `__name__` is its name.
ghost use Rattle.std.specs.Prelude.{◌≡◌, IfOk, option_map, is_some, map};
ghost use Rattle.std.specs.Prelude.{List};
ghost use Rattle.fs_value.specs.Data.{Data};
ghost use Rattle.fs_value.specs.ValueOrder.{kind as kind_of, value_cmp};
ghost use Rattle.fs_value.specs.View.{view};
ghost use Rattle.fs_value.specs.Elements.{array_contains, elements};
ghost use Rattle.fs_query.specs.Fits.{is_null_value};
ghost use Rattle.fs_query.specs.Field.{is_name, name_path, value_at};
ghost use Rattle.fs_query.specs.Seen.{seen};

use fs_path::{DocName, FieldPath, Ids, Text};
use fs_value::{Document, Value, compare, get, kind};
use std::alloc::{AllocError, Global};
use std::cmp::Ordering;

/// The path that is the document's name.
pub(crate) const NAME: &str = "__name__";

/// A value of a document, or its name, which stands for a reference to it.
#[derive(Clone, Copy)]
pub(crate) enum Seen<'a> {
    Name(&'a DocName),
    Value(&'a Value),
}

pub(crate) fn is_name(path: &FieldPath) -> bool
    ensures { result ≡ is_name path.now }
{
    match path.parts.as_slice() {
        [name] => name.as_str() == NAME,
        _ => false,
    }
}

pub(crate) fn name_path(alloc: Global) -> Result<FieldPath, AllocError>
    ensures { IfOk result (λ p. p ≡ name_path) }
{
    let mut parts = Ids::new(alloc);
    parts.push(Text::from_str(alloc, NAME)?)?;
    Ok(FieldPath { parts })
}

/// What is at a path of a document, or none where the field is absent.
pub(crate) fn value_at<'a>(path: &FieldPath, d: &'a Document) -> Option<Seen<'a>>
    ensures { option_map seen result ≡ value_at path.now d.now }
{
    if is_name(path) {
        return Some(Seen::Name(&d.name));
    }
    match get(d.fields.as_fields(), path) {
        Some(value) => Some(Seen::Value(value)),
        None => None,
    }
}

pub(crate) fn has_field(path: &FieldPath, d: &Document) -> bool
    ensures { result ≡ is_some (value_at path.now d.now) }
{
    value_at(path, d).is_some()
}

pub(crate) fn seen_kind(v: Seen<'_>) -> u8
    ensures { result ≡ kind_of (seen v.entry) }
{
    match v {
        Seen::Name(_) => 6,
        Seen::Value(value) => kind(value),
    }
}

pub(crate) fn compare_seen(a: Seen<'_>, b: Seen<'_>) -> Ordering
    ensures { result ≡ value_cmp (seen a.entry) (seen b.entry) }
{
    match (a, b) {
        (Seen::Value(x), Seen::Value(y)) => compare(x, y),
        (Seen::Name(x), Seen::Name(y)) => x.cmp(y),
        (Seen::Name(x), Seen::Value(Value::Reference(y))) => x.cmp(y),
        (Seen::Value(Value::Reference(x)), Seen::Name(y)) => x.cmp(y),
        _ => seen_kind(a).cmp(&seen_kind(b)),
    }
}

pub(crate) fn is_null(v: Seen<'_>) -> bool
    ensures { result ≡ is_null_value (seen v.entry) }
{
    match v {
        Seen::Value(Value::Null) => true,
        _ => false,
    }
}

/// The elements of an array. What is no array has none.
pub(crate) fn elements(v: &Value) -> &[Value]
    ensures { map view result.now ≡ elements (view v.now) }
{
    match v {
        Value::Array(values) => values.as_slice(),
        _ => &[],
    }
}

pub(crate) fn seen_elements(v: Seen<'_>) -> &[Value]
    ensures { map view result.now ≡ elements (seen v.entry) }
{
    match v {
        Seen::Value(value) => elements(value),
        Seen::Name(_) => &[],
    }
}

/// Whether a value is among these.
pub(crate) fn is_among(v: Seen<'_>, values: &[Value]) -> bool
    ensures { result ≡ array_contains (map view values.now) (seen v.entry) }
{
    for value in values {
        if compare_seen(v, Seen::Value(value)) == Ordering::Equal {
            return true;
        }
    }
    false
}
