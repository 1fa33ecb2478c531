//! Writes queries.
ghost use Rattle.std.specs.Prelude.{◌≡◌, ℕ, pos, List, false, Ok, IfOk, OnOk, None, Some, option_map};
ghost use Rattle.serde_json.specs.Written.{has_float};
ghost use Rattle.serde_json.specs.View.{members_view, view as json};
ghost use Rattle.fs_json.specs.Integer.{small_json};
ghost use Rattle.fs_queryjson.specs.Cursor.{cursor_json};
ghost use Rattle.fs_path.specs.Scope.{scope_parent};
ghost use Rattle.fs_queryjson.specs.From.{from_json, scope_json};
ghost use Rattle.fs_queryjson.specs.Held.{AreFirstHeld, AreLastHeld, IsCursorHeld, IsLimitHeld, IsSelectHeld, IsSmallHeld};
ghost use Rattle.fs_queryjson.specs.Query.{listened_at, query_at};
ghost use Rattle.fs_queryjson.specs.Select.{select_json};
ghost use Rattle.fs_queryjson.specs.Steps.{with_first_put, with_last_put, with_put};
ghost use Rattle.fs_queryjson.specs.Valid.{IsValid};
ghost use Rattle.fs_queryjson.specs.Written.{offset_json, query_json};

use crate::names::{
    ALL_DESCENDANTS, COLLECTION_ID, END_AT, FIELDS, FROM, LIMIT, OFFSET, ORDER_BY, SELECT,
    START_AT, WHERE,
};
use crate::write_filter::write_where;
use crate::write_parts::{write_cursor, write_fields, write_orders_of};
use fs_json::{write_small, write_text};
use fs_path::{Paths, Scope};
use fs_query::{Cursor, Query};
use serde_json::{Map, Value};
use std::alloc::{AllocError, Global};

/// Writes a query without its parent, which stands beside it in a request. What is absent, empty or 0 is left out, but for a
/// limit. (v1 reference, "StructuredQuery".)
pub fn write_query(alloc: Global, q: &Query) -> Result<Value, AllocError>
    ensures value { IfOk result (λ j. json j ≡ query_json q.now) }

    // It has no float, so what is printed of it is told byte for byte.
    ensures no_float { IfOk result (λ j. has_float (json j) ≡ false) }

    // Where it is valid, it is read back as the same query below its parent, at any place.
    ensures reads_back { IfOk result (λ j. (place : List ℕ) → IsValid q.now
        → query_at (scope_parent q.now.scope) (json j) place ≡ Ok q.now) }

    // Where it also selects nothing and skips nothing, it is read back as one that is listened to.
    ensures listened { IfOk result (λ j. (place : List ℕ) → IsValid q.now → (q.now.select ≡ None) × (q.now.offset ≡ pos 0)
        → listened_at (scope_parent q.now.scope) (json j) place ≡ Ok q.now) }
{
    let mut members = Map::new(alloc);
    put_last(alloc, &mut members, q)?;
    put_first(alloc, &mut members, q)?;
    Ok(Value::Object(members))
}

/// Puts in the members whose names come last, from the last on.
fn put_last(alloc: Global, members: &mut Map<String, Value>, q: &Query) -> Result<(), AllocError>
    ensures value { OnOk result (members_view members.new.entries
        ≡ with_last_put q.now (members_view members.old.entries)) }
    ensures held { OnOk result (AreLastHeld q.now) }
{
    put_some(alloc, members, WHERE, write_where(alloc, &q.filter)?)?;
    put_some(alloc, members, START_AT, write_cursor_of(alloc, &q.start)?)?;
    put_some(alloc, members, SELECT, write_select_of(alloc, &q.select)?)?;
    put_some(alloc, members, ORDER_BY, write_orders_of(alloc, &q.orders)?)
}

/// Puts in those whose names come first.
fn put_first(alloc: Global, members: &mut Map<String, Value>, q: &Query) -> Result<(), AllocError>
    ensures value { OnOk result (members_view members.new.entries
        ≡ with_first_put q.now (members_view members.old.entries)) }
    ensures held { OnOk result (AreFirstHeld q.now) }
{
    put_some(alloc, members, OFFSET, write_offset(q.offset))?;
    put_some(alloc, members, LIMIT, write_limit(q.limit))?;
    let from = write_from(alloc, &q.scope)?;
    serde_json::put(members, alloc, FROM, from)?;
    put_some(alloc, members, END_AT, write_cursor_of(alloc, &q.end)?)
}

/// Puts in a member, if it is there.
fn put_some(
    alloc: Global,
    members: &mut Map<String, Value>,
    name: &str,
    content: Option<Value>,
) -> Result<(), AllocError>
    ensures { OnOk result (members_view members.new.entries
        ≡ with_put name.now (option_map json content) (members_view members.old.entries)) }
{
    match content {
        Some(content) => serde_json::put(members, alloc, name, content),
        None => Ok(()),
    }
}

fn write_cursor_of(alloc: Global, cursor: &Option<Cursor>) -> Result<Option<Value>, AllocError>
    ensures value { IfOk result (λ o. option_map json o ≡ option_map cursor_json cursor.now) }
    ensures held { OnOk result (IsCursorHeld cursor.now) }
{
    match cursor {
        Some(cursor) => Ok(Some(write_cursor(alloc, cursor)?)),
        None => Ok(None),
    }
}

fn write_select_of(alloc: Global, select: &Option<Paths>) -> Result<Option<Value>, AllocError>
    ensures value { IfOk result (λ o. option_map json o ≡ option_map select_json select.now) }
    ensures held { OnOk result (IsSelectHeld select.now) }
{
    match select {
        Some(paths) => Ok(Some(write_select(alloc, paths)?)),
        None => Ok(None),
    }
}

// (docs/DECISIONS.md, "A selection is kept as it was given".)
fn write_select(alloc: Global, paths: &Paths) -> Result<Value, AllocError>
    ensures value { IfOk result (λ j. json j ≡ select_json paths.now) }
    ensures held { OnOk result (IsSelectHeld (Some paths.now)) }
{
    let fields = write_fields(alloc, paths.as_slice())?;
    let mut members = Map::new(alloc);
    serde_json::put(&mut members, alloc, FIELDS, Value::Array(fields))?;
    Ok(Value::Object(members))
}

/// An offset of 0 is left out.
fn write_offset(offset: i32) -> Option<Value>
    ensures value { option_map json result ≡ offset_json offset }
    ensures held { IsSmallHeld offset }
{
    let written = write_small(offset);
    if offset == 0 { None } else { Some(written) }
}

fn write_limit(limit: Option<i32>) -> Option<Value>
    ensures value { option_map json result ≡ option_map small_json limit }
    ensures held { IsLimitHeld limit }
{
    match limit {
        Some(limit) => Some(write_small(limit)),
        None => None,
    }
}

/// The one entry of `from`, which has `allDescendants` only where it is true.
fn write_from(alloc: Global, scope: &Scope) -> Result<Value, AllocError>
    ensures { IfOk result (λ j. json j ≡ from_json scope.now) }
{
    let mut entries = Vec::with_capacity(alloc, 1)?;
    entries.push(write_scope(alloc, scope)?)?;
    Ok(Value::Array(entries))
}

fn write_scope(alloc: Global, scope: &Scope) -> Result<Value, AllocError>
    ensures { IfOk result (λ j. json j ≡ scope_json scope.now) }
{
    let mut members = Map::new(alloc);
    match scope {
        Scope::Collection { id, .. } => {
            serde_json::put(&mut members, alloc, COLLECTION_ID, write_text(alloc, id)?)?;
            Ok(Value::Object(members))
        }
        Scope::Group { id, .. } => {
            serde_json::put(&mut members, alloc, COLLECTION_ID, write_text(alloc, id)?)?;
            serde_json::put(&mut members, alloc, ALL_DESCENDANTS, Value::Bool(true))?;
            Ok(Value::Object(members))
        }
    }
}
