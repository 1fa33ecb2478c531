//! The answer to a query.
ghost use Rattle.std.specs.Prelude.{◌≡◌, ◌<◌, ◌^◌, IfOk, IsTrue, map, drop, vec_len};
ghost use Rattle.std.specs.List.{All, filter};
ghost use Rattle.std.specs.FinMap.{is_sorted};
ghost use Rattle.fs_path.specs.NameOrder.{name_cmp};
ghost use Rattle.fs_value.specs.Named.{by_name};
ghost use Rattle.fs_value.specs.View.{view};
ghost use Rattle.fs_query.specs.Answer.{IsAnswer, count_of, limited, place_cmp, is_behind_start, is_before_end};
ghost use Rattle.fs_query.specs.DocumentOrder.{orders_cmp};
ghost use Rattle.fs_query.specs.Found.{IsHeld, IsKeyed, KeepsFirst, documents_of, is_asked, most_of};
ghost use Rattle.fs_query.specs.Normal.{whole_order};

use crate::compare::{compare_found, turned};
use crate::cursor::Cursor;
use crate::field::{Seen, value_at};
use crate::fits::matches;
use crate::found::{Found, found_at, push_found, sort_found};
use crate::order::Order;
use crate::query::Query;
use crate::whole_order::whole_order;
use fs_value::{Document, Documents, Value};
use std::alloc::{AllocError, Global};
use std::cmp::Ordering;

/// The answer to a query over documents whose names rise: those that fit, in its order, as its cursors, offset and limit
/// cut them. (v1 reference, "StructuredQuery".)
/// (docs/DECISIONS.md, "A query's answer is stated as a property, and given as a function too".)
pub fn answer(alloc: Global, q: &Query, docs: &Documents) -> Result<Documents, AllocError>
    requires { IsTrue (is_sorted name_cmp (by_name docs.now)) }
    ensures { IfOk result (λ ds. IsAnswer q.now docs.now ds) }
{
    let lent = docs.lent(alloc)?;
    answer_among(alloc, q, lent.as_slice())
}

/// The same over documents that stand elsewhere. Each is looked at once; those that fit and stand between the cursors are
/// sorted by pointers, with a limit no more at any time than twice as many as offset and limit ask for, and only those that
/// are answered are copied.
pub fn answer_among(alloc: Global, q: &Query, docs: &[&Document]) -> Result<Documents, AllocError>
    requires { IsTrue (is_sorted name_cmp (by_name (map (λ d. d.now) docs.now))) }
    ensures { IfOk result (λ ds. IsAnswer q.now (map (λ d. d.now) docs.now) ds) }
{
    let orders = whole_order(alloc, q)?;
    answer_by(alloc, q, orders.as_slice(), docs)
}

fn answer_by(
    alloc: Global,
    q: &Query,
    orders: &[Order],
    docs: &[&Document],
) -> Result<Documents, AllocError>
    requires rise { IsTrue (is_sorted name_cmp (by_name (map (λ d. d.now) docs.now))) }
    requires whole { orders.now ≡ whole_order q.now }
    ensures { IfOk result (λ ds. IsAnswer q.now (map (λ d. d.now) docs.now) ds) }
{
    let mut found = found_in(alloc, q, orders, docs)?;
    sort_found(orders, &mut found)?;
    copied(alloc, cut(q, found.as_slice()))
}

// The documents that are asked for, or as many of the first as there may be with a limit.
fn found_in<'a>(
    alloc: Global,
    q: &Query,
    orders: &[Order],
    docs: &[&'a Document],
) -> Result<Vec<Found<'a>>, AllocError>
    requires { orders.now ≡ whole_order q.now }
    ensures keyed { IfOk result (λ v. All (IsKeyed orders.now) v.items) }
    ensures kept { IfOk result (λ v. KeepsFirst (orders_cmp orders.now) (most_of q.now)
        (filter (is_asked q.now) (map (λ d. d.now) docs.now)) (documents_of v.items)) }
    ensures held { IfOk result (λ v. IsHeld (most_of q.now) (vec_len v)) }
{
    let most = most_of(q);
    let mut found = Vec::new(alloc);
    for d in docs {
        if is_asked(q, orders, *d) {
            push_found(orders, most, &mut found, found_at(orders, *d))?;
        }
    }
    Ok(found)
}

// Whether a document fits and stands between the cursors.
fn is_asked(q: &Query, orders: &[Order], d: &Document) -> bool
    requires { orders.now ≡ whole_order q.now }
    ensures { result ≡ is_asked q.now d.now }
{
    matches(q, d) && is_behind_start(orders, &q.start, d) && is_before_end(orders, &q.end, d)
}

// How many of the first are asked for, those that the offset leaves out among them.
fn most_of(q: &Query) -> Option<usize>
    ensures { result ≡ most_of q.now }
{
    match q.limit {
        Some(limit) => Some(count_of(q.offset) + count_of(limit)),
        None => None,
    }
}

// Those behind the offset, within the limit.
fn cut<'a, 'b>(q: &Query, found: &'b [Found<'a>]) -> &'b [Found<'a>]
    ensures { documents_of result.now ≡ limited q.now.limit (drop (count_of q.now.offset) (documents_of found.now)) }
{
    let from = count_of(q.offset).min(found.len());
    let kept = &found[from..];
    match q.limit {
        Some(limit) => &kept[..count_of(limit).min(kept.len())],
        None => kept,
    }
}

fn copied(alloc: Global, found: &[Found<'_>]) -> Result<Documents, AllocError>
    ensures { IfOk result (λ ds. ds ≡ documents_of found.now) }
{
    let mut items = Vec::with_capacity(alloc, found.len())?;
    for one in found {
        items.push(one.document.copy(alloc)?)?;
    }
    Ok(Documents::of(items))
}

// A number of documents.
fn count_of(n: i32) -> usize
    ensures value { result ≡ count_of n }
    ensures within { result < 2 ^ 31 }
{
    if n < 0 { 0 } else { n as usize }
}

fn is_behind_start(orders: &[Order], start: &Option<Cursor>, d: &Document) -> bool
    ensures { result ≡ is_behind_start orders.now start.now d.now }
{
    match start {
        Some(cursor) => {
            let place = compare_place(orders, cursor.values.as_slice(), d);
            if cursor.before {
                place.is_ge()
            } else {
                place.is_gt()
            }
        }
        None => true,
    }
}

fn is_before_end(orders: &[Order], end: &Option<Cursor>, d: &Document) -> bool
    ensures { result ≡ is_before_end orders.now end.now d.now }
{
    match end {
        Some(cursor) => {
            let place = compare_place(orders, cursor.values.as_slice(), d);
            if cursor.before {
                place.is_lt()
            } else {
                place.is_le()
            }
        }
        None => true,
    }
}

// A document beside values for the first fields of the order.
fn compare_place(orders: &[Order], values: &[Value], d: &Document) -> Ordering
    ensures { result ≡ place_cmp orders.now (map view values.now) d.now }
{
    for (order, value) in orders.iter().zip(values) {
        let found = compare_found(value_at(&order.path, d), Some(Seen::Value(value)));
        let by_order = turned(order.descending, found);
        if by_order != Ordering::Equal {
            return by_order;
        }
    }
    Ordering::Equal
}
