//! The counted size of a document, by which its limit and its price go.
ghost use Rattle.std.specs.Prelude.{◌≡◌, ◌-◌, ◌^◌, min};
ghost use Rattle.fs_value.specs.Data.{items_of, members_of};
ghost use Rattle.fs_value.specs.Limits.{largest_document};
ghost use Rattle.fs_value.specs.Size.{text_size as text_size_of, name_size as name_size_of, value_size as value_size_of, items_size as items_size_of, members_size, named_size as named_size_of, document_size};
ghost use Rattle.fs_value.specs.View.{view};

use crate::document::Document;
use crate::fields::Fields;
use crate::limits::LARGEST_DOCUMENT;
use crate::value::Value;
use crate::values::Values;
use fs_path::{DocName, Text};

// Bytes that count beside those which are there.
const DOCUMENT_EXTRA: u128 = 32;

const NAME_EXTRA: u128 = 16;

const TEXT_EXTRA: u128 = 1;

// Null and booleans.
const FLAG_SIZE: u128 = 1;

// Integers and timestamps.
const NUMBER_SIZE: u128 = 8;

/// The counted size of a document, in bytes: of its name, its fields, and 32. A size that no `u128` holds is told as the
/// greatest. (Cloud Firestore documentation, "Calculate storage size".)
pub fn size(d: &Document) -> u128
    ensures value { result ≡ min (document_size d.now) (2 ^ 128 - 1) }
    ensures limit { LARGEST_DOCUMENT ≡ largest_document }
{
    named_size(&d.name, d.fields.as_fields())
}

/// The counted size of the document that a name and fields make, in bytes, as `size` counts it.
pub fn named_size(name: &DocName, fields: &Fields) -> u128
    ensures { result ≡ min (named_size_of name.now fields.now) (2 ^ 128 - 1) }
{
    fields_size(fields)
        .saturating_add(name_size(name))
        .saturating_add(DOCUMENT_EXTRA)
}

fn text_size(text: &Text) -> u128
    ensures { result ≡ text_size_of text.now }
{
    text.len() as u128 + TEXT_EXTRA
}

fn name_size(name: &DocName) -> u128
    ensures { result ≡ min (name_size_of name.now) (2 ^ 128 - 1) }
{
    name.ids_size() as u128 + NAME_EXTRA
}

#[cycle(size)]
fn value_size(v: &Value) -> u128
    ensures { result ≡ min (value_size_of (view v.now)) (2 ^ 128 - 1) }
{
    match v {
        Value::Null => FLAG_SIZE,
        Value::Boolean(_) => FLAG_SIZE,
        Value::Integer(_) => NUMBER_SIZE,
        Value::Timestamp(_) => NUMBER_SIZE,
        Value::String(text) => text_size(text),
        Value::Bytes(bytes) => bytes.len() as u128,
        Value::Reference(name) => name_size(name),
        Value::Array(values) => items_size(values),
        Value::Map(fields) => fields_size(fields),
    }
}

#[cycle(size)]
fn items_size(values: &Values) -> u128
    ensures { result ≡ min (items_size_of (items_of values.now)) (2 ^ 128 - 1) }
{
    let mut size: u128 = 0;
    for value in values.as_slice() {
        size = size.saturating_add(value_size(value));
    }
    size
}

#[cycle(size)]
fn fields_size(fields: &Fields) -> u128
    ensures { result ≡ min (members_size (members_of fields.now)) (2 ^ 128 - 1) }
{
    let mut size: u128 = 0;
    for field in fields.as_slice() {
        size = size
            .saturating_add(text_size(&field.key))
            .saturating_add(value_size(&field.value));
    }
    size
}
