//! Writes values.
ghost use Rattle.std.specs.Prelude.{◌≡◌, ℕ, List, false, Ok, IfOk, OnOk};
ghost use Rattle.fs_value.specs.Data.{items_of, members_of};
ghost use Rattle.fs_value.specs.View.{view};
ghost use Rattle.serde_json.specs.Written.{has_float};
ghost use Rattle.serde_json.specs.View.{view as json, items_view, members_view};
ghost use Rattle.fs_valjson.specs.Reading.{array_at, list_at, value_at};
ghost use Rattle.fs_valjson.specs.Held.{IsHeld, ItemsAreHeld, MembersAreHeld};
ghost use Rattle.fs_valjson.specs.Writing.{value_json, items_json, members_json, list_content, fields_content, array_json, list_json, HasNames, ItemsHaveNames};
ghost use Rattle.fs_json.specs.Members.{with_one};

use crate::names::{
    ARRAY_VALUE, BOOLEAN_VALUE, BYTES_VALUE, FIELDS, INTEGER_VALUE, MAP_VALUE, NULL_VALUE,
    REFERENCE_VALUE, STRING_VALUE, TIMESTAMP_VALUE, VALUES,
};
use fs_json::{with_one, write_bytes, write_integer, write_text, write_time};
use fs_path::print_document;
use fs_value::{Fields, Value, Values};
use serde_json::Map;
use std::alloc::{AllocError, Global};

/// Writes a value.
pub fn write_value(alloc: Global, v: &Value) -> Result<serde_json::Value, AllocError>
    ensures value { IfOk result (λ j. json j ≡ value_json (view v.now)) }

    // It has no float, so what is printed of it is told byte for byte.
    ensures no_float { IfOk result (λ j. has_float (json j) ≡ false) }

    // Where its references are names of documents, it is read back as the same value, at any place.
    ensures reads_back { IfOk result (λ j. (place : List ℕ) → HasNames (view v.now)
        → value_at (json j) place ≡ Ok (view v.now)) }
{
    write(alloc, v)
}

/// Writes the content of an array: an object whose member `values` has its elements, or that is empty where there are
/// none.
pub fn write_array(alloc: Global, values: &Values) -> Result<serde_json::Value, AllocError>
    ensures value { IfOk result (λ j. json j ≡ array_json values.now) }
    ensures no_float { IfOk result (λ j. has_float (json j) ≡ false) }
    ensures reads_back { IfOk result (λ j. (place : List ℕ) → ItemsHaveNames (items_of values.now)
        → array_at (json j) place ≡ Ok values.now) }
{
    write_content(alloc, values)
}

/// Writes a list of values.
pub fn write_list(alloc: Global, values: &Values) -> Result<serde_json::Value, AllocError>
    ensures value { IfOk result (λ j. json j ≡ list_json values.now) }
    ensures no_float { IfOk result (λ j. has_float (json j) ≡ false) }
    ensures reads_back { IfOk result (λ j. (place : List ℕ) → ItemsHaveNames (items_of values.now)
        → list_at (json j) place ≡ Ok values.now) }
{
    Ok(serde_json::Value::Array(write_items(alloc, values)?))
}

#[cycle(write)]
fn write(alloc: Global, v: &Value) -> Result<serde_json::Value, AllocError>
    ensures value { IfOk result (λ j. json j ≡ value_json (view v.now)) }
    ensures held { OnOk result (IsHeld (view v.now)) }
{
    match v {
        Value::Null => with_one(alloc, NULL_VALUE, serde_json::Value::Null),
        Value::Boolean(b) => with_one(alloc, BOOLEAN_VALUE, serde_json::Value::Bool(*b)),
        Value::Integer(n) => with_one(alloc, INTEGER_VALUE, write_integer(alloc, *n)?),
        Value::Timestamp(t) => with_one(alloc, TIMESTAMP_VALUE, write_time(alloc, *t)?),
        Value::String(text) => with_one(alloc, STRING_VALUE, write_text(alloc, text)?),
        Value::Bytes(bytes) => with_one(alloc, BYTES_VALUE, write_bytes(alloc, bytes)?),
        Value::Reference(name) => {
            let text = print_document(alloc, name)?;
            with_one(
                alloc,
                REFERENCE_VALUE,
                serde_json::Value::String(text.into_string()),
            )
        }
        Value::Array(values) => with_one(alloc, ARRAY_VALUE, write_content(alloc, values)?),
        Value::Map(fields) => with_one(alloc, MAP_VALUE, write_map(alloc, fields)?),
    }
}

#[cycle(write)]
fn write_content(alloc: Global, values: &Values) -> Result<serde_json::Value, AllocError>
    ensures value { IfOk result (λ j. json j ≡ list_content (items_json (items_of values.now))) }
    ensures held { OnOk result (ItemsAreHeld (items_of values.now)) }
{
    let items = write_items(alloc, values)?;
    list_content(alloc, items)
}

#[cycle(write)]
fn write_items(alloc: Global, values: &Values) -> Result<Vec<serde_json::Value>, AllocError>
    ensures value { IfOk result (λ l. items_view l.items ≡ items_json (items_of values.now)) }
    ensures held { OnOk result (ItemsAreHeld (items_of values.now)) }
{
    let mut items = Vec::with_capacity(alloc, values.len())?;
    for value in values.as_slice() {
        items.push(write(alloc, value)?)?;
    }
    Ok(items)
}

#[cycle(write)]
fn write_map(alloc: Global, fields: &Fields) -> Result<serde_json::Value, AllocError>
    ensures value { IfOk result (λ j. json j ≡ fields_content (members_json (members_of fields.now))) }
    ensures held { OnOk result (MembersAreHeld (members_of fields.now)) }
{
    let members = write_members(alloc, fields)?;
    fields_content(alloc, members)
}

/// The members of an object that holds these fields.
#[cycle(write)]
pub(crate) fn write_members(
    alloc: Global,
    fields: &Fields,
) -> Result<Map<String, serde_json::Value>, AllocError>
    ensures value { IfOk result (λ m. members_view m.entries ≡ members_json (members_of fields.now)) }
    ensures held { OnOk result (MembersAreHeld (members_of fields.now)) }
{
    let mut members = Map::new(alloc);
    for field in fields.as_slice() {
        let value = write(alloc, &field.value)?;
        serde_json::put(&mut members, alloc, field.key.as_str(), value)?;
    }
    Ok(members)
}

/// The content of an array. An empty list is left out.
fn list_content(
    alloc: Global,
    items: Vec<serde_json::Value>,
) -> Result<serde_json::Value, AllocError>
    ensures { IfOk result (λ j. json j ≡ list_content (items_view items.items)) }
{
    if items.is_empty() {
        return Ok(serde_json::Value::Object(Map::new(alloc)));
    }
    with_one(alloc, VALUES, serde_json::Value::Array(items))
}

/// The content of a map. Empty fields are left out.
fn fields_content(
    alloc: Global,
    members: Map<String, serde_json::Value>,
) -> Result<serde_json::Value, AllocError>
    ensures { IfOk result (λ j. json j ≡ fields_content (members_view members.entries)) }
{
    if members.is_empty() {
        return Ok(serde_json::Value::Object(members));
    }
    with_one(alloc, FIELDS, serde_json::Value::Object(members))
}
