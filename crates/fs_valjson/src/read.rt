//! Reads values.
ghost use Rattle.std.specs.Prelude.{codes, map, option_map, IfOk, List, Option, ℕ};
ghost use Rattle.fs_path.specs.Way.{place_of};
ghost use Rattle.fs_value.specs.Data.{items_of};
ghost use Rattle.fs_value.specs.View.{view};
ghost use Rattle.serde_json.specs.View.{view as json, items_view, members_view};
ghost use Rattle.serde_json.specs.Data.{Data};
ghost use Rattle.fs_json.specs.Answer.{Gives};
ghost use Rattle.fs_valjson.specs.Reading.{array_at, entries_at, fields_at, items_at, kind_at, list_at, map_at, plain_at, value_at};
ghost use Rattle.fs_valjson.specs.Steps.{the_content, the_kind};
ghost use Rattle.fs_valjson.specs.Writing.{HasNames, ItemsHaveNames};

use crate::names::{
    ARRAY_MEMBERS, ARRAY_VALUE, BOOLEAN_VALUE, BYTES_VALUE, INTEGER_VALUE, KINDS, MAP_MEMBERS,
    MAP_VALUE, NULL, NULL_VALUE, REFERENCE_VALUE, STRING_VALUE, TIMESTAMP_VALUE,
};
use fs_json::{
    Bad, at_most_one_of, one_of, only, read_bytes, read_integer, read_json_list, read_reference,
    read_text, read_time, read_truth,
};
use fs_path::{Rule, Text, Way};
use fs_value::{Fields, Value, Values};
use serde_json::Map;
use std::alloc::Global;

/// Reads a value: an object of just one of the members of `google.firestore.v1.Value`.
///
/// At the way `x` the reader of `{"mapValue":{"fields":{"a":{"arrayValue":{"values":[{"integerValue":"1x"}]}}}}}` goes
/// by `x.mapValue`, `x.mapValue.fields` and `x.mapValue.fields.a` to
/// `x.mapValue.fields.a.arrayValue.values[0].integerValue`, where it refuses.
#[cycle(read)]
pub fn read_value(alloc: Global, v: &serde_json::Value, way: &Way<'_>) -> Result<Value, Bad>
    ensures gives { Gives view result (value_at (json v.now) (place_of way.now)) }

    // Its references are names of documents.
    ensures valid { IfOk result (λ x. HasNames (view x)) }
{
    let (name, content) = the_kind(alloc, v, way)?;
    read_kind(alloc, name, content, &(*way).member(name))
}

#[cycle(read)]
fn read_kind(alloc: Global, name: &str, v: &serde_json::Value, way: &Way<'_>) -> Result<Value, Bad>
    ensures { Gives view result (kind_at (json v.now) name.now (place_of way.now)) }
{
    match name {
        ARRAY_VALUE => Ok(Value::Array(read_array(alloc, v, way)?)),
        MAP_VALUE => Ok(Value::Map(read_map(alloc, v, way)?)),
        _ => read_plain(alloc, name, v, way),
    }
}

/// Reads the content of an array: an object whose member `values` is a list of values, or is absent.
#[cycle(read)]
pub fn read_array(alloc: Global, v: &serde_json::Value, way: &Way<'_>) -> Result<Values, Bad>
    ensures gives { Gives (λ vs. vs) result (array_at (json v.now) (place_of way.now)) }
    ensures valid { IfOk result (λ vs. ItemsHaveNames (items_of vs)) }
{
    match the_content(alloc, v, &ARRAY_MEMBERS, way)? {
        Some((name, content)) => read_list(alloc, content, &(*way).member(name)),
        None => Ok(Values::new(alloc)),
    }
}

/// Reads a list of values.
#[cycle(read)]
pub fn read_list(alloc: Global, v: &serde_json::Value, way: &Way<'_>) -> Result<Values, Bad>
    ensures gives { Gives (λ vs. vs) result (list_at (json v.now) (place_of way.now)) }
    ensures valid { IfOk result (λ vs. ItemsHaveNames (items_of vs)) }
{
    let items = read_json_list(alloc, v, way)?;
    read_items(alloc, items, way)
}

#[cycle(read)]
fn read_items(alloc: Global, items: &[serde_json::Value], way: &Way<'_>) -> Result<Values, Bad>
    ensures { Gives (λ vs. vs) result (items_at (items_view items.now) 0 (place_of way.now)) }
{
    let mut values = Values::with_capacity(alloc, items.len())?;
    for (i, item) in items.iter().enumerate() {
        let value = read_value(alloc, item, &(*way).item(i as u64))?;
        values.push(value)?;
    }
    Ok(values)
}

#[cycle(read)]
fn read_map(alloc: Global, v: &serde_json::Value, way: &Way<'_>) -> Result<Fields, Bad>
    ensures { Gives (λ fs. fs) result (map_at (json v.now) (place_of way.now)) }
{
    match the_content(alloc, v, &MAP_MEMBERS, way)? {
        Some((name, content)) => read_fields(alloc, content, &(*way).member(name)),
        None => Ok(Fields::new(alloc)),
    }
}

/// Reads the fields of a map or a document: an object of values. Its keys stand in places as they are.
#[cycle(read)]
pub(crate) fn read_fields(
    alloc: Global,
    v: &serde_json::Value,
    way: &Way<'_>,
) -> Result<Fields, Bad>
    ensures { Gives (λ fs. fs) result (fields_at (json v.now) (place_of way.now)) }
{
    match v {
        serde_json::Value::Object(members) => read_entries(alloc, members, way),
        _ => Err(Bad::at(alloc, Rule::G, way)),
    }
}

#[cycle(read)]
fn read_entries(
    alloc: Global,
    members: &Map<String, serde_json::Value>,
    way: &Way<'_>,
) -> Result<Fields, Bad>
    ensures { Gives (λ fs. fs) result (entries_at (members_view members.now.entries) (place_of way.now)) }
{
    let mut fields = Fields::with_capacity(alloc, members.len())?;
    for (key, content) in members.iter() {
        let value = read_value(alloc, content, &(*way).member(key.as_str()))?;
        let key = Text::from_str(alloc, key.as_str())?;
        fields.push_last(key, value)?;
    }
    Ok(fields)
}

/// The member that is there of the kinds, where no other is.
fn the_kind<'a>(
    alloc: Global,
    v: &'a serde_json::Value,
    way: &Way<'_>,
) -> Result<(&'static str, &'a serde_json::Value), Bad>
    ensures { Gives {Y = List ℕ × Data} (λ one. (one.0.now, json one.1.now)) result
        (the_kind (json v.now) (place_of way.now)) }
{
    only(alloc, v, &KINDS, way)?;
    one_of(alloc, v, &KINDS, way)
}

/// The member that is there of these names, if any is, where no other is.
fn the_content<'a>(
    alloc: Global,
    v: &'a serde_json::Value,
    names: &[&'static str],
    way: &Way<'_>,
) -> Result<Option<(&'static str, &'a serde_json::Value)>, Bad>
    ensures { Gives {Y = Option (List ℕ × Data)}
        (λ found. option_map (λ one. (one.0.now, json one.1.now)) found) result
        (the_content (map (λ n. n.now) names.now) (json v.now) (place_of way.now)) }
{
    only(alloc, v, names, way)?;
    at_most_one_of(alloc, v, names, way)
}

/// The content of a member that holds no values.
fn read_plain(alloc: Global, name: &str, v: &serde_json::Value, way: &Way<'_>) -> Result<Value, Bad>
    ensures { Gives view result (plain_at name.now (json v.now) (place_of way.now)) }
{
    match name {
        NULL_VALUE => read_null(alloc, v, way),
        BOOLEAN_VALUE => Ok(Value::Boolean(read_truth(alloc, v, way)?)),
        INTEGER_VALUE => Ok(Value::Integer(read_integer(alloc, v, way)?)),
        TIMESTAMP_VALUE => Ok(Value::Timestamp(read_time(alloc, v, way)?)),
        STRING_VALUE => Ok(Value::String(read_text(alloc, v, way)?)),
        BYTES_VALUE => Ok(Value::Bytes(read_bytes(alloc, v, way)?)),
        REFERENCE_VALUE => Ok(Value::Reference(read_reference(alloc, v, way)?)),
        _ => Err(Bad::at(alloc, Rule::G, way)),
    }
}

/// Null, or the name of the one value of `google.protobuf.NullValue`.
fn read_null(alloc: Global, v: &serde_json::Value, way: &Way<'_>) -> Result<Value, Bad>
    ensures { Gives view result (plain_at (codes "nullValue") (json v.now) (place_of way.now)) }
{
    match v {
        serde_json::Value::Null => Ok(Value::Null),
        serde_json::Value::String(name) if name.as_str() == NULL => Ok(Value::Null),
        _ => Err(Bad::at(alloc, Rule::G, way)),
    }
}
