//! The whole order of a query's documents.
ghost use Rattle.std.specs.Prelude.{◌≡◌, ◌+◌, ◌-◌, ◌^◌, ◌++◌, IfOk, OnOk, None, length, map, min};
ghost use Rattle.std.specs.Option.{option_copied};
ghost use Rattle.fs_query.specs.Condition.{conditions_of};
ghost use Rattle.fs_query.specs.Field.{name_path};
ghost use Rattle.fs_path.specs.FieldOrder.{paths_at};
ghost use Rattle.fs_query.specs.Joining.{is_above, nearer, least_of};
ghost use Rattle.fs_query.specs.Normal.{inequality_paths, inequality_paths_of, is_ordered, joined, joining, last_descending, whole_order};
ghost use Rattle.fs_query.specs.View.{view};

use crate::field::{is_name, name_path};
use crate::filter::{Filter, Filters};
use crate::joining::joining;
use crate::op::is_inequality;
use crate::order::{Order, Orders};
use crate::query::Query;
use fs_path::FieldPath;
use std::alloc::{AllocError, Global};
use std::cmp::Ordering;

/// The orders that are given, the fields of inequalities that join them in the order of their paths, and the name, if it
/// isn't among them.
/// (docs/DECISIONS.md, "The order fields that a document has to have are those of the whole order".)
#[tactic(auto, using(crate::proofs::WholeOrdering::with_name, crate::proofs::WholeOrdering::without_name))]
pub(crate) fn whole_order(alloc: Global, q: &Query) -> Result<Orders, AllocError>
    ensures { IfOk result (λ os. os ≡ whole_order q.now) }
{
    let mut orders = given_and_joining(alloc, q)?;
    if !is_ordered_by_name(q.orders.as_slice()) {
        orders.push(joined(q, name_path(alloc)?))?;
    }
    Ok(orders)
}

fn given_and_joining(alloc: Global, q: &Query) -> Result<Orders, AllocError>
    ensures { IfOk result (λ os. os ≡ q.now.orders ++ map (joined q.now) (joining q.now)) }
{
    let paths = joining(alloc, q)?;
    let mut orders = q.orders.copy(alloc)?;
    push_joined(alloc, q, &mut orders, paths.as_slice())?;
    Ok(orders)
}

// Adds the orders by these paths, which join.
fn push_joined(
    alloc: Global,
    q: &Query,
    orders: &mut Orders,
    paths: &[&FieldPath],
) -> Result<(), AllocError>
    ensures { OnOk result (orders.new ≡ orders.old ++ map (joined q.now) (paths_at paths.now)) }
{
    for path in paths {
        orders.push(joined(q, path.copy(alloc)?))?;
    }
    Ok(())
}

// A path that joins the order.
fn joined(q: &Query, path: FieldPath) -> Order
    ensures { result ≡ joined q.now path }
{
    Order {
        path,
        descending: last_descending(q.orders.as_slice()),
    }
}

/// The number of fields in the whole order, or the greatest number there is. It takes no memory, and walks the filter for
/// each path that joins: `order_count_with` doesn't.
pub(crate) fn order_count(q: &Query) -> usize
    ensures { result ≡ min (length (whole_order q.now)) (2 ^ 64 - 1) }
{
    count_with_name(q, given_and_joining_count(q))
}

/// The number of fields in the whole order, or the greatest number there is, by sorted paths.
pub(crate) fn order_count_with(alloc: Global, q: &Query) -> Result<usize, AllocError>
    ensures { IfOk result (λ n. n ≡ min (length (whole_order q.now)) (2 ^ 64 - 1)) }
{
    let paths = joining(alloc, q)?;
    Ok(count_with_name(q, q.orders.len().saturating_add(paths.len())))
}

// The number of fields in the whole order, by the number of those that are given or join.
#[tactic(auto, using(crate::proofs::WholeOrdering::length_with_name, crate::proofs::WholeOrdering::length_without_name))]
fn count_with_name(q: &Query, count: usize) -> usize
    requires { count ≡ min (length q.now.orders + length (joining q.now)) (2 ^ 64 - 1) }
    ensures { result ≡ min (length (whole_order q.now)) (2 ^ 64 - 1) }
{
    if is_ordered_by_name(q.orders.as_slice()) {
        count
    } else {
        count.saturating_add(1)
    }
}

#[tactic(auto, using(crate::proofs::JoiningPaths::joining_next, crate::proofs::JoiningPaths::joining_end, crate::proofs::JoiningPaths::joining_all))]
fn given_and_joining_count(q: &Query) -> usize
    ensures { result ≡ min (length q.now.orders + length (joining q.now)) (2 ^ 64 - 1) }
{
    let mut count = q.orders.len();
    let mut last = None;
    while let Some(path) = next_joining(q, last) {
        count = count.saturating_add(1);
        last = Some(path);
    }
    count
}

/// Whether the name is among the orders.
pub(crate) fn is_ordered_by_name(orders: &[Order]) -> bool
    ensures { result ≡ is_ordered orders.now name_path }
{
    orders.iter().any(|order| is_name(&order.path))
}

/// Whether a path is among the orders.
pub(crate) fn is_ordered(orders: &[Order], path: &FieldPath) -> bool
    ensures { result ≡ is_ordered orders.now path.now }
{
    orders.iter().any(|order| order.path.parts == path.parts)
}

// The direction of the last order.
fn last_descending(orders: &[Order]) -> bool
    ensures { result ≡ last_descending orders.now }
{
    match orders.last() {
        Some(order) => order.descending,
        None => false,
    }
}

// The first of the paths that join the order, or the next one after a path.
fn next_joining<'a>(q: &'a Query, after: Option<&FieldPath>) -> Option<&'a FieldPath>
    ensures { option_copied result
        ≡ least_of q.now.orders (option_copied after.entry) None (inequality_paths q.now.filter) }
{
    least_joining(&q.filter, q.orders.as_slice(), after, None)
}

// The least of a path and those of a filter that join the order after another.
#[cycle(joining)]
fn least_joining<'a>(
    filter: &'a Filter,
    given: &[Order],
    after: Option<&FieldPath>,
    best: Option<&'a FieldPath>,
) -> Option<&'a FieldPath>
    ensures { option_copied result
        ≡ least_of given.now (option_copied after.entry) (option_copied best.entry) (inequality_paths (view filter.now)) }
{
    match filter {
        Filter::Field { path, op, .. } if is_inequality(*op) => nearer(path, given, after, best),
        Filter::IsNotNull { path } => nearer(path, given, after, best),
        Filter::And(filters) => least_of_all(filters, given, after, best),
        Filter::Or(filters) => least_of_all(filters, given, after, best),
        _ => best,
    }
}

#[tactic(auto, using(crate::proofs::JoiningPaths::least_rest))]
#[cycle(joining)]
fn least_of_all<'a>(
    filters: &'a Filters,
    given: &[Order],
    after: Option<&FieldPath>,
    best: Option<&'a FieldPath>,
) -> Option<&'a FieldPath>
    ensures { option_copied result
        ≡ least_of given.now (option_copied after.entry) (option_copied best.entry) (inequality_paths_of (conditions_of filters.now)) }
{
    let mut least = best;
    for filter in filters.as_slice() {
        least = least_joining(filter, given, after, least);
    }
    least
}

// The lesser of two paths, if the first joins the order after another.
fn nearer<'a>(
    path: &'a FieldPath,
    given: &[Order],
    after: Option<&FieldPath>,
    best: Option<&'a FieldPath>,
) -> Option<&'a FieldPath>
    ensures { option_copied result
        ≡ nearer given.now (option_copied after.entry) (option_copied best.entry) path.now }
{
    if is_name(path) || is_ordered(given, path) || !is_above(path, after) {
        return best;
    }
    match best {
        Some(other) if other.parts.cmp(&path.parts) != Ordering::Greater => best,
        _ => Some(path),
    }
}

fn is_above(path: &FieldPath, after: Option<&FieldPath>) -> bool
    ensures { result ≡ is_above path.now (option_copied after.entry) }
{
    match after {
        Some(other) => path.parts.cmp(&other.parts) == Ordering::Greater,
        None => true,
    }
}
