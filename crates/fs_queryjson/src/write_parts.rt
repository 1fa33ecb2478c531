//! Writes fields, orders and cursors.
ghost use Rattle.std.specs.Prelude.{◌≡◌, Some, IfOk, OnOk, map, option_map};
ghost use Rattle.std.specs.List.{AllByRecursion};
ghost use Rattle.serde_json.specs.View.{items_of, items_view, members_view, view as json};
ghost use Rattle.fs_query.specs.Field.{name_path};
ghost use Rattle.fs_queryjson.specs.Cursor.{cursor_json, with_values};
ghost use Rattle.fs_queryjson.specs.Field.{field_json};
ghost use Rattle.fs_queryjson.specs.Held.{AreValuesHeld, IsCursorHeld, IsOrderHeld};
ghost use Rattle.fs_json.specs.Paths.{IsPathHeld};
ghost use Rattle.fs_queryjson.specs.Order.{direction_name, order_json};
ghost use Rattle.fs_queryjson.specs.Select.{fields_json, written_paths};
ghost use Rattle.fs_queryjson.specs.Written.{order_by_json};

use crate::names::{ASCENDING, BEFORE, DESCENDING, DIRECTION, FIELD, FIELD_PATH, NAME, VALUES};
use fs_json::{with_one, write_field_path};
use fs_path::FieldPath;
use fs_query::{Cursor, Order, Orders};
use fs_valjson::write_list;
use fs_value::Values;
use serde_json::{Map, Value};
use std::alloc::{AllocError, Global};

/// Writes a field: an object of its path. (v1 reference, "StructuredQuery.FieldReference".)
pub(crate) fn write_field(alloc: Global, path: &FieldPath) -> Result<Value, AllocError>
    ensures value { IfOk result (λ j. json j ≡ field_json path.now) }
    ensures held { OnOk result (IsPathHeld path.now) }
{
    with_one(alloc, FIELD_PATH, write_field_path(alloc, path)?)
}

/// Writes the fields of a selection. Where it has none, the path `__name__` stands for them, which keeps no field.
pub(crate) fn write_fields(alloc: Global, paths: &[FieldPath]) -> Result<Vec<Value>, AllocError>
    ensures value { IfOk result (λ l. items_view l.items ≡ fields_json (written_paths paths.now)) }
    ensures held { OnOk result (AllByRecursion IsPathHeld paths.now) }
{
    let mut fields = write_items(alloc, paths)?;
    if paths.is_empty() {
        fields.push(write_name(alloc)?)?;
    }
    Ok(fields)
}

fn write_items(alloc: Global, paths: &[FieldPath]) -> Result<Vec<Value>, AllocError>
    ensures value { IfOk result (λ l. items_view l.items ≡ fields_json paths.now) }
    ensures held { OnOk result (AllByRecursion IsPathHeld paths.now) }
{
    let mut items = Vec::with_capacity(alloc, paths.len())?;
    for path in paths {
        items.push(write_field(alloc, path)?)?;
    }
    Ok(items)
}

/// The path `__name__`, as a field.
fn write_name(alloc: Global) -> Result<Value, AllocError>
    ensures { IfOk result (λ j. json j ≡ field_json name_path) }
{
    with_one(alloc, FIELD_PATH, Value::try_from_str(alloc, NAME)?)
}

/// Writes the orders, where there are any.
pub(crate) fn write_orders_of(alloc: Global, orders: &Orders) -> Result<Option<Value>, AllocError>
    ensures value { IfOk result (λ o. option_map json o ≡ order_by_json orders.now) }
    ensures held { OnOk result (AllByRecursion IsOrderHeld orders.now) }
{
    if orders.is_empty() {
        return Ok(None);
    }
    let written = write_orders(alloc, orders.as_slice())?;
    Ok(Some(Value::Array(written)))
}

fn write_orders(alloc: Global, orders: &[Order]) -> Result<Vec<Value>, AllocError>
    ensures value { IfOk result (λ l. items_view l.items ≡ items_of (map order_json orders.now)) }
    ensures held { OnOk result (AllByRecursion IsOrderHeld orders.now) }
{
    let mut items = Vec::with_capacity(alloc, orders.len())?;
    for order in orders {
        items.push(write_order(alloc, order)?)?;
    }
    Ok(items)
}

/// Writes an order. The direction is always there. (v1 reference, "StructuredQuery.Order".)
fn write_order(alloc: Global, order: &Order) -> Result<Value, AllocError>
    ensures value { IfOk result (λ j. json j ≡ order_json order.now) }
    ensures held { OnOk result (IsOrderHeld order.now) }
{
    let mut members = Map::new(alloc);
    let field = write_field(alloc, &order.path)?;
    serde_json::put(&mut members, alloc, FIELD, field)?;
    let direction = Value::try_from_str(alloc, direction_name(order.descending))?;
    serde_json::put(&mut members, alloc, DIRECTION, direction)?;
    Ok(Value::Object(members))
}

fn direction_name(descending: bool) -> &'static str
    ensures { result.now ≡ direction_name descending }
{
    if descending { DESCENDING } else { ASCENDING }
}

/// Writes a cursor. `before` is there only where it is true. (v1 reference, "Cursor".)
pub(crate) fn write_cursor(alloc: Global, cursor: &Cursor) -> Result<Value, AllocError>
    ensures value { IfOk result (λ j. json j ≡ cursor_json cursor.now) }
    ensures held { OnOk result (IsCursorHeld (Some cursor.now)) }
{
    let mut members = write_values(alloc, &cursor.values)?;
    if !cursor.before {
        return Ok(Value::Object(members));
    }
    serde_json::put(&mut members, alloc, BEFORE, Value::Bool(true))?;
    Ok(Value::Object(members))
}

/// The member that has the values, where there are any.
fn write_values(alloc: Global, values: &Values) -> Result<Map<String, Value>, AllocError>
    ensures value { IfOk result (λ m. members_view m.entries ≡ with_values values.now) }
    ensures held { OnOk result (AreValuesHeld values.now) }
{
    let written = write_list(alloc, values)?;
    let mut members = Map::new(alloc);
    if values.is_empty() {
        return Ok(members);
    }
    serde_json::put(&mut members, alloc, VALUES, written)?;
    Ok(members)
}
