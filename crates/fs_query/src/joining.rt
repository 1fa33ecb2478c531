//! The paths that join the order of a query, and whether a path is given twice, by sorted paths.
ghost use Rattle.std.specs.Prelude.{◌≡◌, ◌++◌, IfOk, OnOk, map};
ghost use Rattle.std.specs.List.{filter};
ghost use Rattle.std.specs.List.Sorted.{IsPermutation};
ghost use Rattle.fs_query.specs.Condition.{conditions_of};
ghost use Rattle.fs_path.specs.FieldOrder.{AreInOrder, paths_at};
ghost use Rattle.fs_query.specs.SortedPaths.{is_given, joins_given, neighbours_same, paths_of};
ghost use Rattle.fs_query.specs.Normal.{inequality_paths, inequality_paths_of, joining};
ghost use Rattle.fs_query.specs.Rules.{some_twice};
ghost use Rattle.fs_query.specs.View.{view};

use crate::field::is_name;
use crate::filter::{Filter, Filters};
use crate::op::is_inequality;
use crate::order::Order;
use crate::query::Query;
use fs_path::FieldPath;
use std::alloc::{AllocError, Global};

/// The paths that join the order of a query, in their order. Those of the inequalities are sorted, and each is searched for
/// among those that are given, which are sorted too:
///
///     a > 1 AND c != 2 AND b < 3 AND a < 9, ordered by d and b
///     sorted a, a, b, c; each once a, b, c; given b, d; what joins a, c
pub(crate) fn joining(alloc: Global, q: &Query) -> Result<Vec<&FieldPath>, AllocError>
    ensures { IfOk result (λ v. paths_at v.items ≡ joining q.now) }
{
    let given = sorted_given(alloc, q.orders.as_slice())?;
    let mut paths = Vec::new(alloc);
    push_inequalities(&mut paths, &q.filter)?;
    paths.sort()?;
    paths.dedup();
    not_given(alloc, given.as_slice(), paths.as_slice())
}

/// Whether two of the orders have one path.
pub(crate) fn some_twice_with(alloc: Global, orders: &[Order]) -> Result<bool, AllocError>
    ensures { IfOk result (λ b. b ≡ some_twice orders.now) }
{
    let given = sorted_given(alloc, orders)?;
    Ok(neighbours_same(given.as_slice()))
}

// The paths of these orders, in the order of paths.
fn sorted_given(alloc: Global, orders: &[Order]) -> Result<Vec<&FieldPath>, AllocError>
    ensures same { IfOk result (λ v. IsPermutation (paths_of orders.now) (paths_at v.items)) }
    ensures rise { IfOk result (λ v. AreInOrder v.items) }
{
    let mut given = given_paths(alloc, orders)?;
    given.sort()?;
    Ok(given)
}

fn given_paths(alloc: Global, orders: &[Order]) -> Result<Vec<&FieldPath>, AllocError>
    ensures { IfOk result (λ v. paths_at v.items ≡ paths_of orders.now) }
{
    let mut given = Vec::with_capacity(alloc, orders.len())?;
    for order in orders {
        given.push(&order.path)?;
    }
    Ok(given)
}

// Adds the paths of a filter's inequalities.
#[cycle(inequalities)]
fn push_inequalities<'a>(
    paths: &mut Vec<&'a FieldPath>,
    filter: &'a Filter,
) -> Result<(), AllocError>
    ensures { OnOk result (paths_at paths.new.items ≡ paths_at paths.old.items ++ inequality_paths (view filter.now)) }
{
    match filter {
        Filter::Field { path, op, .. } if is_inequality(*op) => Ok(paths.push(path)?),
        Filter::IsNotNull { path } => Ok(paths.push(path)?),
        Filter::And(filters) => push_all_inequalities(paths, filters),
        Filter::Or(filters) => push_all_inequalities(paths, filters),
        _ => Ok(()),
    }
}

#[cycle(inequalities)]
fn push_all_inequalities<'a>(
    paths: &mut Vec<&'a FieldPath>,
    filters: &'a Filters,
) -> Result<(), AllocError>
    ensures { OnOk result (paths_at paths.new.items
        ≡ paths_at paths.old.items ++ inequality_paths_of (conditions_of filters.now)) }
{
    for filter in filters.as_slice() {
        push_inequalities(paths, filter)?;
    }
    Ok(())
}

// Of these paths those that join an order by the paths that are given.
fn not_given<'a>(
    alloc: Global,
    given: &[&FieldPath],
    paths: &[&'a FieldPath],
) -> Result<Vec<&'a FieldPath>, AllocError>
    requires { AreInOrder given.now }
    ensures { IfOk result (λ v. paths_at v.items ≡ filter (joins_given (paths_at given.now)) (paths_at paths.now)) }
{
    let mut joining = Vec::new(alloc);
    for path in paths {
        if !is_name(*path) && !is_given(given, *path) {
            joining.push(*path)?;
        }
    }
    Ok(joining)
}

fn is_given(given: &[&FieldPath], path: &FieldPath) -> bool
    requires { AreInOrder given.now }
    ensures { result ≡ is_given (paths_at given.now) path.now }
{
    given.binary_search(&path).is_ok()
}

fn neighbours_same(paths: &[&FieldPath]) -> bool
    ensures { result ≡ neighbours_same (paths_at paths.now) }
{
    for i in 1..paths.len() {
        if paths[i].parts == paths[i - 1].parts {
            return true;
        }
    }
    false
}
