//! Writes filters.
ghost use Rattle.std.specs.Prelude.{◌≡◌, IfOk, OnOk, option_map};
ghost use Rattle.serde_json.specs.View.{items_view, view as json};
ghost use Rattle.fs_query.specs.Condition.{conditions_of};
ghost use Rattle.fs_query.specs.View.{view};
ghost use Rattle.fs_value.specs.View.{view as value_view};
ghost use Rattle.fs_json.specs.Paths.{IsPathHeld};
ghost use Rattle.fs_queryjson.specs.Held.{AreHeld, IsHeld, IsOperandHeld};
ghost use Rattle.fs_queryjson.specs.Op.{join_name, null_name, op_name};
ghost use Rattle.fs_queryjson.specs.Steps.{with_filters};
ghost use Rattle.fs_queryjson.specs.Written.{compare_json, composite_json, filter_json, filters_json, unary_json, where_json};

use crate::names::{
    AND, ARRAY_CONTAINS, ARRAY_CONTAINS_ANY, COMPOSITE_FILTER, EQUAL, FIELD, FIELD_FILTER, FILTERS,
    GREATER_THAN, GREATER_THAN_OR_EQUAL, IN, IS_NOT_NULL, IS_NULL, LESS_THAN, LESS_THAN_OR_EQUAL,
    NOT_EQUAL, NOT_IN, OP, OR, UNARY_FILTER, VALUE,
};
use crate::write_parts::write_field;
use fs_json::with_one;
use fs_path::FieldPath;
use fs_query::{Filter, Filters, Op};
use fs_valjson::write_value;
use fs_value::Value as Operand;
use serde_json::{Map, Value};
use std::alloc::{AllocError, Global};

/// Writes the filter of a query. One that fits every document is left out.
pub(crate) fn write_where(alloc: Global, filter: &Filter) -> Result<Option<Value>, AllocError>
    ensures value { IfOk result (λ o. option_map json o ≡ where_json (view filter.now)) }
    ensures held { OnOk result (IsHeld (view filter.now)) }
{
    match filter {
        Filter::All => Ok(None),
        filter => Ok(Some(write_filter(alloc, filter)?)),
    }
}

/// Writes a filter: an object of its kind. (v1 reference, "StructuredQuery.Filter".)
#[cycle(write)]
fn write_filter(alloc: Global, filter: &Filter) -> Result<Value, AllocError>
    ensures value { IfOk result (λ j. json j ≡ filter_json (view filter.now)) }
    ensures held { OnOk result (IsHeld (view filter.now)) }
{
    match filter {
        Filter::All => Ok(Value::Object(Map::new(alloc))),
        Filter::Field { path, op, value } => {
            with_one(alloc, FIELD_FILTER, write_compare(alloc, path, *op, value)?)
        }
        Filter::IsNull { path } => with_one(alloc, UNARY_FILTER, write_unary(alloc, true, path)?),
        Filter::IsNotNull { path } => {
            with_one(alloc, UNARY_FILTER, write_unary(alloc, false, path)?)
        }
        Filter::And(filters) => {
            with_one(
                alloc,
                COMPOSITE_FILTER,
                write_composite(alloc, true, filters)?,
            )
        }
        Filter::Or(filters) => {
            with_one(
                alloc,
                COMPOSITE_FILTER,
                write_composite(alloc, false, filters)?,
            )
        }
    }
}

#[cycle(write)]
fn write_composite(alloc: Global, all: bool, filters: &Filters) -> Result<Value, AllocError>
    ensures value { IfOk result (λ j. json j ≡ composite_json all (filters_json (conditions_of filters.now))) }
    ensures held { OnOk result (AreHeld (conditions_of filters.now)) }
{
    let items = write_items(alloc, filters)?;
    composite(alloc, all, items)
}

#[cycle(write)]
fn write_items(alloc: Global, filters: &Filters) -> Result<Vec<Value>, AllocError>
    ensures value { IfOk result (λ l. items_view l.items ≡ filters_json (conditions_of filters.now)) }
    ensures held { OnOk result (AreHeld (conditions_of filters.now)) }
{
    let mut items = Vec::with_capacity(alloc, filters.len())?;
    for filter in filters.as_slice() {
        items.push(write_filter(alloc, filter)?)?;
    }
    Ok(items)
}

/// The content of a composite filter. An empty list is left out. (v1 reference, "StructuredQuery.CompositeFilter".)
fn composite(alloc: Global, all: bool, filters: Vec<Value>) -> Result<Value, AllocError>
    ensures { IfOk result (λ j. json j ≡ composite_json all (items_view filters.items)) }
{
    let op = Value::try_from_str(alloc, join_name(all))?;
    if filters.is_empty() {
        return with_one(alloc, OP, op);
    }
    with_filters(alloc, op, Value::Array(filters))
}

fn with_filters(alloc: Global, op: Value, filters: Value) -> Result<Value, AllocError>
    ensures { IfOk result (λ j. json j ≡ with_filters (json filters) (json op)) }
{
    let mut members = Map::new(alloc);
    serde_json::put(&mut members, alloc, OP, op)?;
    serde_json::put(&mut members, alloc, FILTERS, filters)?;
    Ok(Value::Object(members))
}

/// The content of a field filter. (v1 reference, "StructuredQuery.FieldFilter".)
fn write_compare(
    alloc: Global,
    path: &FieldPath,
    op: Op,
    value: &Operand,
) -> Result<Value, AllocError>
    ensures value { IfOk result (λ j. json j ≡ compare_json path.now op (value_view value.now)) }
    ensures path { OnOk result (IsPathHeld path.now) }
    ensures operand { OnOk result (IsOperandHeld (value_view value.now)) }
{
    let mut members = Map::new(alloc);
    let value = write_value(alloc, value)?;
    serde_json::put(&mut members, alloc, VALUE, value)?;
    let op = Value::try_from_str(alloc, op_name(op))?;
    serde_json::put(&mut members, alloc, OP, op)?;
    let field = write_field(alloc, path)?;
    serde_json::put(&mut members, alloc, FIELD, field)?;
    Ok(Value::Object(members))
}

/// The content of a unary filter. (v1 reference, "StructuredQuery.UnaryFilter".)
fn write_unary(alloc: Global, null: bool, path: &FieldPath) -> Result<Value, AllocError>
    ensures value { IfOk result (λ j. json j ≡ unary_json null path.now) }
    ensures held { OnOk result (IsPathHeld path.now) }
{
    let mut members = Map::new(alloc);
    let op = Value::try_from_str(alloc, null_name(null))?;
    serde_json::put(&mut members, alloc, OP, op)?;
    let field = write_field(alloc, path)?;
    serde_json::put(&mut members, alloc, FIELD, field)?;
    Ok(Value::Object(members))
}

fn op_name(op: Op) -> &'static str
    ensures { result.now ≡ op_name op }
{
    match op {
        Op::Less => LESS_THAN,
        Op::LessEqual => LESS_THAN_OR_EQUAL,
        Op::Greater => GREATER_THAN,
        Op::GreaterEqual => GREATER_THAN_OR_EQUAL,
        Op::Equal => EQUAL,
        Op::NotEqual => NOT_EQUAL,
        Op::ArrayContains => ARRAY_CONTAINS,
        Op::In => IN,
        Op::ArrayContainsAny => ARRAY_CONTAINS_ANY,
        Op::NotIn => NOT_IN,
    }
}

fn null_name(null: bool) -> &'static str
    ensures { result.now ≡ null_name null }
{
    if null { IS_NULL } else { IS_NOT_NULL }
}

fn join_name(all: bool) -> &'static str
    ensures { result.now ≡ join_name all }
{
    if all { AND } else { OR }
}
