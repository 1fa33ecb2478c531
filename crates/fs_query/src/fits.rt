//! Which documents fit a query.
ghost use Rattle.std.specs.Prelude.{◌≡◌, map};
ghost use Rattle.std.specs.List.{list_all};
ghost use Rattle.fs_value.specs.View.{view as value_view};
ghost use Rattle.fs_query.specs.Condition.{conditions_of};
ghost use Rattle.fs_query.specs.Fits.{same_kind, is_outside, one_is_among, holds, meets, meets_all, meets_any, has_field, fits};
ghost use Rattle.fs_query.specs.Inequalities.{has_inequality_fields, have_inequality_fields};
ghost use Rattle.fs_query.specs.Normal.{whole_order};
ghost use Rattle.fs_query.specs.Seen.{seen};
ghost use Rattle.fs_query.specs.View.{view};

use crate::field::{
    Seen, compare_seen, elements, has_field, is_among, is_null, seen_elements, seen_kind, value_at,
};
use crate::filter::{Filter, Filters};
use crate::op::{Op, is_inequality};
use crate::order::Order;
use crate::query::Query;
use fs_path::covers;
use fs_value::{Document, Value};
use std::cmp::Ordering;

/// Whether a document fits a query: it is in its scope, has each field of its order, and meets its filter. Cursors, offset
/// and limit aside. It takes no memory. (v1 reference, "StructuredQuery"; Cloud Firestore documentation, "Query
/// operators".)
pub fn matches(q: &Query, d: &Document) -> bool
    ensures { result ≡ fits q.now d.now }
{
    covers(&q.scope, &d.name) && has_order_fields(q, d) && meets(&q.filter, d)
}

// Whether a document has each field of the whole order.
#[tactic(auto, using(crate::proofs::OrderFields::order_fields))]
fn has_order_fields(q: &Query, d: &Document) -> bool
    ensures { result ≡ list_all (has_field d.now) (whole_order q.now) }
{
    has_given_fields(q.orders.as_slice(), d) && has_inequality_fields(&q.filter, d)
}

// Whether a document has the fields of the orders that are given.
fn has_given_fields(orders: &[Order], d: &Document) -> bool
    ensures { result ≡ list_all (has_field d.now) orders.now }
{
    orders.iter().all(|order| has_field(&order.path, d))
}

// Whether a document has the fields of a filter's inequalities, which join the order.
#[cycle(inequalities)]
fn has_inequality_fields(filter: &Filter, d: &Document) -> bool
    ensures { result ≡ has_inequality_fields (view filter.now) d.now }
{
    match filter {
        Filter::Field { path, op, .. } => !is_inequality(*op) || has_field(path, d),
        Filter::IsNotNull { path } => has_field(path, d),
        Filter::And(filters) => have_inequality_fields(filters, d),
        Filter::Or(filters) => have_inequality_fields(filters, d),
        _ => true,
    }
}

#[cycle(inequalities)]
fn have_inequality_fields(filters: &Filters, d: &Document) -> bool
    ensures { result ≡ have_inequality_fields (conditions_of filters.now) d.now }
{
    for filter in filters.as_slice() {
        if !has_inequality_fields(filter, d) {
            return false;
        }
    }
    true
}

// Whether a document meets a filter.
#[cycle(meets)]
fn meets(filter: &Filter, d: &Document) -> bool
    ensures { result ≡ meets (view filter.now) d.now }
{
    match filter {
        Filter::All => true,
        Filter::Field { path, op, value } => match value_at(path, d) {
            Some(there) => holds(*op, there, value),
            None => false,
        },
        Filter::IsNull { path } => match value_at(path, d) {
            Some(there) => is_null(there),
            None => false,
        },
        Filter::IsNotNull { path } => match value_at(path, d) {
            Some(there) => !is_null(there),
            None => false,
        },
        Filter::And(filters) => meets_all(filters, d),
        Filter::Or(filters) => meets_any(filters, d),
    }
}

#[cycle(meets)]
fn meets_all(filters: &Filters, d: &Document) -> bool
    ensures { result ≡ meets_all (conditions_of filters.now) d.now }
{
    for filter in filters.as_slice() {
        if !meets(filter, d) {
            return false;
        }
    }
    true
}

#[cycle(meets)]
fn meets_any(filters: &Filters, d: &Document) -> bool
    ensures { result ≡ meets_any (conditions_of filters.now) d.now }
{
    for filter in filters.as_slice() {
        if meets(filter, d) {
            return true;
        }
    }
    false
}

// Whether a value meets an operator with an operand.
fn holds(op: Op, v: Seen<'_>, operand: &Value) -> bool
    ensures { result ≡ holds op (seen v.entry) (value_view operand.now) }
{
    let w = Seen::Value(operand);
    match op {
        Op::Less => is_like(v, w) && compare_seen(v, w).is_lt(),
        Op::LessEqual => is_like(v, w) && compare_seen(v, w).is_le(),
        Op::Greater => is_like(v, w) && compare_seen(v, w).is_gt(),
        Op::GreaterEqual => is_like(v, w) && compare_seen(v, w).is_ge(),
        Op::Equal => compare_seen(v, w).is_eq(),
        Op::NotEqual => !is_null(v) && !compare_seen(v, w).is_eq(),
        Op::In => is_among(v, elements(operand)),
        Op::NotIn => is_outside(v, elements(operand)),
        Op::ArrayContains => is_among(w, seen_elements(v)),
        Op::ArrayContainsAny => one_is_among(seen_elements(v), elements(operand)),
    }
}

fn is_like(v: Seen<'_>, w: Seen<'_>) -> bool
    ensures { result ≡ same_kind (seen v.entry) (seen w.entry) }
{
    seen_kind(v) == seen_kind(w)
}

// Whether a value meets NOT_IN.
fn is_outside(v: Seen<'_>, values: &[Value]) -> bool
    ensures { result ≡ is_outside (seen v.entry) (map value_view values.now) }
{
    !is_null(v) && !is_among(Seen::Value(&Value::Null), values) && !is_among(v, values)
}

// Whether one of these elements is among these values.
fn one_is_among(elements: &[Value], values: &[Value]) -> bool
    ensures { result ≡ one_is_among (map value_view elements.now) (map value_view values.now) }
{
    for element in elements {
        if is_among(Seen::Value(element), values) {
            return true;
        }
    }
    false
}
