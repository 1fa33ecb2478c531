//! Whether the cursors of a query go with its order.
ghost use Rattle.std.specs.Prelude.{◌≡◌, ◌≤◌, ◌-◌, ◌^◌, ◌||◌, ◌&&◌, ◌==◌, false, not, IfOk, is_some, length, map, min};
ghost use Rattle.std.specs.List.{list_any, zip};
ghost use Rattle.std.specs.Option.{option_map_or};
ghost use Rattle.fs_value.specs.View.{view};
ghost use Rattle.fs_query.specs.Field.{name_path};
ghost use Rattle.fs_query.specs.Normal.{is_ordered, whole_order};
ghost use Rattle.fs_query.specs.Place.{last_is_bad};
ghost use Rattle.fs_query.specs.Rules.{is_bad_place, is_bad_cursor, has_bad_cursor};

use crate::cursor::Cursor;
use crate::field::is_name;
use crate::order::Order;
use crate::query::Query;
use crate::rules::is_reference;
use crate::whole_order::{is_ordered_by_name, order_count, order_count_with};
use fs_value::Value;
use std::alloc::{AllocError, Global};

/// Whether a cursor doesn't go with the whole order. It takes no memory, and walks the filter for each path that joins:
/// `has_bad_cursor_with` doesn't.
pub(crate) fn has_bad_cursor(q: &Query) -> bool
    ensures { result ≡ has_bad_cursor q.now }
{
    has_cursor(q) && some_is_bad(q, order_count(q))
}

/// Whether a cursor doesn't go with the whole order, by sorted paths.
pub(crate) fn has_bad_cursor_with(alloc: Global, q: &Query) -> Result<bool, AllocError>
    ensures { IfOk result (λ b. b ≡ has_bad_cursor q.now) }
{
    if !has_cursor(q) {
        return Ok(false);
    }
    Ok(some_is_bad(q, order_count_with(alloc, q)?))
}

fn has_cursor(q: &Query) -> bool
    ensures { result ≡ (is_some q.now.start || is_some q.now.end) }
{
    q.start.is_some() || q.end.is_some()
}

// Whether a cursor doesn't go with the whole order, which has so many fields.
fn some_is_bad(q: &Query, count: usize) -> bool
    requires { count ≡ min (length (whole_order q.now)) (2 ^ 64 - 1) }
    ensures { result ≡ has_bad_cursor q.now }
{
    is_bad_cursor(q, count, &q.start) || is_bad_cursor(q, count, &q.end)
}

fn is_bad_cursor(q: &Query, count: usize, cursor: &Option<Cursor>) -> bool
    requires { count ≡ min (length (whole_order q.now)) (2 ^ 64 - 1) }
    ensures { result ≡ option_map_or (is_bad_cursor (whole_order q.now)) cursor.now false }
{
    let Some(cursor) = cursor else {
        return false;
    };
    let values = cursor.values.as_slice();
    values.is_empty() || values.len() > count || misses_name(q, count, values)
}

// Whether a value in the name's place of the whole order, which has so many fields, is no reference.
fn misses_name(q: &Query, count: usize, values: &[Value]) -> bool
    requires count { count ≡ min (length (whole_order q.now)) (2 ^ 64 - 1) }
    requires within { length values.now ≤ count }
    ensures { result ≡ list_any is_bad_place (zip (whole_order q.now) (map view values.now)) }
{
    some_misses_name(q.orders.as_slice(), count, values)
}

fn some_misses_name(given: &[Order], count: usize, values: &[Value]) -> bool
    ensures { result ≡ (list_any is_bad_place (zip given.now (map view values.now))
        || (not (is_ordered given.now name_path) && (length values.now == count && last_is_bad (map view values.now)))) }
{
    given_misses_name(given, values)
        || (!is_ordered_by_name(given) && values.len() == count && last_is_no_reference(values))
}

fn last_is_no_reference(values: &[Value]) -> bool
    ensures { result ≡ last_is_bad (map view values.now) }
{
    match values.last() {
        Some(value) => !is_reference(value),
        None => false,
    }
}

fn given_misses_name(given: &[Order], values: &[Value]) -> bool
    ensures { result ≡ list_any is_bad_place (zip given.now (map view values.now)) }
{
    for (order, value) in given.iter().zip(values) {
        if is_name(&order.path) && !is_reference(value) {
            return true;
        }
    }
    false
}
