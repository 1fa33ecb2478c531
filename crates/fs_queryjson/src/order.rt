//! The orders of a query.
ghost use Rattle.std.specs.Prelude.{◌≡◌, false, codes};
ghost use Rattle.fs_path.specs.Way.{place_of};
ghost use Rattle.serde_json.specs.View.{view as json};
ghost use Rattle.fs_json.specs.Answer.{Gives};
ghost use Rattle.fs_json.specs.Members.{member_or};
ghost use Rattle.fs_queryjson.specs.Order.{descends_of, direction_at, order_at, orders_in};

use crate::field::read_field_of;
use crate::names::{ASCENDING, DESCENDING, DIRECTION, ORDER_BY, ORDER_MEMBERS};
use crate::op::or_fault;
use fs_json::{Bad, ReadsItem, member, only, read_each};
use fs_path::Way;
use fs_query::{Order, Orders};
use serde_json::Value;
use std::alloc::Global;

/// The orders of a query, which has none where the member is absent.
pub(crate) fn read_orders_of(alloc: Global, query: &Value, way: &Way<'_>) -> Result<Orders, Bad>
    ensures { Gives (λ os. os) result (orders_in (json query.now) (place_of way.now)) }
{
    match member(alloc, query, ORDER_BY, way)? {
        Some(orders) => read_each(alloc, &OrderReader, orders, &way.member(ORDER_BY)),
        None => Ok(Orders::new(alloc)),
    }
}

/// Reads an order of a list.
struct OrderReader;

impl ReadsItem for OrderReader {
    type Item = Order;

    ghost reading = { λ _. order_at };

    fn read(&self, alloc: Global, item: &Value, way: &Way<'_>) -> Result<Order, Bad> {
        read_order(alloc, item, way)
    }
}

/// Reads an order: a field and a direction. (v1 reference, "StructuredQuery.Order".)
fn read_order(alloc: Global, v: &Value, way: &Way<'_>) -> Result<Order, Bad>
    ensures { Gives (λ o. o) result (order_at (json v.now) (place_of way.now)) }
{
    only(alloc, v, &ORDER_MEMBERS, way)?;
    let path = read_field_of(alloc, v, way)?;
    let descending = read_direction_of(alloc, v, way)?;
    Ok(Order { path, descending })
}

/// Whether an order descends. Without a direction it ascends.
fn read_direction_of(alloc: Global, v: &Value, way: &Way<'_>) -> Result<bool, Bad>
    ensures { Gives (λ b. b) result
        (member_or false direction_at (codes "direction") (json v.now) (place_of way.now)) }
{
    match member(alloc, v, DIRECTION, way)? {
        Some(direction) => read_direction(alloc, direction, &way.member(DIRECTION)),
        None => Ok(false),
    }
}

fn read_direction(alloc: Global, v: &Value, way: &Way<'_>) -> Result<bool, Bad>
    ensures { Gives (λ b. b) result (direction_at (json v.now) (place_of way.now)) }
{
    or_fault(alloc, v.as_str().and_then(|name| descends_of(name)), way)
}

fn descends_of(name: &str) -> Option<bool>
    ensures { result ≡ descends_of name.now }
{
    match name {
        ASCENDING => Some(false),
        DESCENDING => Some(true),
        _ => None,
    }
}
