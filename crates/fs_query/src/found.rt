//! Documents that fit a query, in its order.
ghost use Rattle.std.specs.Prelude.{◌≡◌, ◌≤◌, ℕ, ◌∷◌, ◌++◌, [], OnOk, Some, option_map, vec_len};
ghost use Rattle.std.specs.List.{All};
ghost use Rattle.std.specs.List.Sorted.{IsPermutation, IsSorted};
ghost use Rattle.fs_query.specs.DocumentOrder.{orders_cmp};
ghost use Rattle.fs_query.specs.Found.{IsHeld, IsKeyed, KeepsFirst, documents_of, first_of, keyed_cmp};
ghost use Rattle.fs_query.specs.Seen.{seen};

use crate::compare::{compare_by, compare_found, turned};
use crate::field::{Seen, value_at};
use crate::order::Order;
use fs_value::Document;
use std::alloc::AllocError;
use std::cmp::Ordering;

/// A document that fits, and what stands at the first field of the order, which most comparisons go by: so it is looked up
/// once. Ordered by `n`, `{n: 2, m: 1}` of `c/a` stands with 2.
/// (docs/DECISIONS.md, "A document that is found stands with what is at the first field of the order".)
#[derive(Clone, Copy)]
pub(crate) struct Found<'a> {
    pub(crate) document: &'a Document,
    pub(crate) first: Option<Seen<'a>>,
}

pub(crate) fn found_at<'a>(orders: &[Order], d: &'a Document) -> Found<'a>
    ensures document { result.document.now ≡ d.now }
    ensures keyed { IsKeyed orders.now result }
{
    Found {
        document: d,
        first: first_of(orders, d),
    }
}

fn first_of<'a>(orders: &[Order], d: &'a Document) -> Option<Seen<'a>>
    ensures { option_map seen result ≡ first_of orders.now d.now }
{
    match orders {
        [first, ..] => value_at(&first.path, d),
        [] => None,
    }
}

fn compare_keyed(orders: &[Order], a: &Found<'_>, b: &Found<'_>) -> Ordering
    ensures { result ≡ keyed_cmp orders.now a.now b.now }
{
    match orders {
        [first, rest @ ..] => {
            let by_first = turned(first.descending, compare_found(a.first, b.first));
            if by_first != Ordering::Equal {
                by_first
            } else {
                compare_by(rest, a.document, b.document)
            }
        }
        [] => Ordering::Equal,
    }
}

/// Sorts them in the order of the query.
pub(crate) fn sort_found(orders: &[Order], found: &mut Vec<Found<'_>>) -> Result<(), AllocError>
    requires { All (IsKeyed orders.now) found.old.items }
    ensures same { IsPermutation (documents_of found.old.items) (documents_of found.new.items) }
    ensures keyed { All (IsKeyed orders.now) found.new.items }
    ensures rise { OnOk result (IsSorted (orders_cmp orders.now) (documents_of found.new.items)) }
{
    found.sort_by(|a, b| compare_keyed(orders, a, b))?;
    Ok(())
}

/// Adds one. Where so many of the first are asked for, the others are left out whenever more than twice as many are held.
pub(crate) fn push_found<'a>(
    orders: &[Order],
    most: Option<usize>,
    found: &mut Vec<Found<'a>>,
    one: Found<'a>,
) -> Result<(), AllocError>
    requires keyed { All (IsKeyed orders.now) found.old.items }
    requires one { IsKeyed orders.now one }
    ensures keyed { All (IsKeyed orders.now) found.new.items }
    ensures kept { OnOk result (KeepsFirst (orders_cmp orders.now) most
        (documents_of found.old.items ++ one.entry.document.now ∷ []) (documents_of found.new.items)) }
    ensures held { OnOk result (IsHeld most (vec_len found.old) → IsHeld most (vec_len found.new)) }
{
    found.push(one)?;
    match most {
        Some(most) if found.len() / 2 > most => keep_first(orders, most, found),
        _ => Ok(()),
    }
}

// Leaves out all but the first.
fn keep_first(orders: &[Order], most: usize, found: &mut Vec<Found<'_>>) -> Result<(), AllocError>
    requires { All (IsKeyed orders.now) found.old.items }
    ensures keyed { All (IsKeyed orders.now) found.new.items }
    ensures kept { OnOk result (KeepsFirst (orders_cmp orders.now) (Some most)
        (documents_of found.old.items) (documents_of found.new.items)) }
    ensures held { OnOk result (vec_len found.new ≤ most) }
{
    sort_found(orders, found)?;
    found.truncate(most);
    Ok(())
}
