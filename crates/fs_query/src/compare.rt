//! The order of documents.
ghost use Rattle.std.specs.Prelude.{◌≡◌, option_map};
ghost use Rattle.fs_query.specs.DocumentOrder.{turned, found_cmp, order_cmp, orders_cmp};
ghost use Rattle.fs_query.specs.Seen.{seen};

use crate::field::{Seen, compare_seen, value_at};
use crate::normal::Normal;
use crate::order::Order;
use fs_value::Document;
use std::cmp::Ordering;

/// Compares two documents by the whole order of a query: the first field at which they differ decides, the other way round
/// where it descends. A document without a field comes before one with it, which no two that fit are told apart by. It
/// takes no memory. (Cloud Firestore documentation, "Order and limit data".)
pub fn compare_docs(n: &Normal, a: &Document, b: &Document) -> Ordering
    ensures { result ≡ orders_cmp n.now.orders a.now b.now }
{
    compare_by(n.orders.as_slice(), a, b)
}

pub(crate) fn compare_by(orders: &[Order], a: &Document, b: &Document) -> Ordering
    ensures { result ≡ orders_cmp orders.now a.now b.now }
{
    for order in orders {
        let by_order = compare_at(order, a, b);
        if by_order != Ordering::Equal {
            return by_order;
        }
    }
    Ordering::Equal
}

fn compare_at(order: &Order, a: &Document, b: &Document) -> Ordering
    ensures { result ≡ order_cmp order.now a.now b.now }
{
    let found = compare_found(value_at(&order.path, a), value_at(&order.path, b));
    turned(order.descending, found)
}

/// The other way round where it descends.
pub(crate) fn turned(descending: bool, by_value: Ordering) -> Ordering
    ensures { result ≡ turned descending by_value }
{
    if descending {
        by_value.reverse()
    } else {
        by_value
    }
}

/// What is absent comes first.
pub(crate) fn compare_found(a: Option<Seen<'_>>, b: Option<Seen<'_>>) -> Ordering
    ensures { result ≡ found_cmp (option_map seen a.entry) (option_map seen b.entry) }
{
    match (a, b) {
        (None, None) => Ordering::Equal,
        (None, Some(_)) => Ordering::Less,
        (Some(_), None) => Ordering::Greater,
        (Some(x), Some(y)) => compare_seen(x, y),
    }
}
