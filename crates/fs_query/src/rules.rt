//! Whether a query is valid.
ghost use Rattle.std.specs.Prelude.{◌≡◌, ◌||◌, ◌&&◌, false, IfOk, nat_lt};
ghost use Rattle.std.specs.List.{list_any};
ghost use Rattle.std.specs.Option.{option_map_or};
ghost use Rattle.fs_path.specs.FieldName.{is_bad_name};
ghost use Rattle.fs_value.specs.View.{view};
ghost use Rattle.fs_query.specs.Census.{census_in};
ghost use Rattle.fs_query.specs.RuleSteps.{rules_to_10, rules_from_5, rules_from_6, rules_from_8, rules_from_11};
ghost use Rattle.fs_query.specs.FilterParts.{parts};
ghost use Rattle.fs_query.specs.FilterRules.{is_bad_path, is_reference};
ghost use Rattle.fs_query.specs.Rules.{has_bad_collection, has_bad_path, has_bad_cursor, has_negative_number, has_order_twice, is_negative, some_twice, told, told_with, rule_of_query};

use crate::census::{Census, census_of};
use crate::count::disjunct_count;
use crate::cursor_rule::{has_bad_cursor, has_bad_cursor_with};
use crate::field::is_name;
use crate::joining::some_twice_with;
use crate::limits::MAX_DISJUNCTS;
use crate::order::Order;
use crate::peaks::{Peaks, peaks_of};
use crate::query::Query;
use crate::rule::QueryRule;
use crate::whole_order::is_ordered;
use fs_path::{FieldPath, Paths, Text, is_bad_field_name, is_bad_id};
use fs_value::Value;
use std::alloc::{AllocError, Global};

/// The least rule of queries that a query breaks, or none. It takes no memory, but compares each order with each, and where
/// there is a cursor walks the filter for each path that joins: `check_with` doesn't.
///
/// 1: no id of a collection. 2: a bad field name. 3: IN, NOT_IN or ARRAY_CONTAINS_ANY without values. 4: NOT_IN with more
/// than 10. 5: more than 30 disjuncts. 6: two ARRAY_CONTAINS in one. 7: ARRAY_CONTAINS_ANY beside another array operator.
/// 8: NOT_IN beside OR, IN, ARRAY_CONTAINS_ANY or NOT_EQUAL. 9: NOT_IN beside IS_NOT_NULL or NOT_IN. 10: `__name__`
/// compared with what is no reference. 11: a cursor that doesn't go with the order. 12: an offset or limit below 0. 13: an
/// order that is given twice. 14: an AND or OR of nothing. (Cloud Firestore documentation, "Query operators"; what excludes
/// what at 6 to 9 is this project's own.)
#[tactic(auto, using(crate::proofs::RuleParts::late_rule))]
pub fn check(q: &Query) -> Option<QueryRule>
    ensures { result ≡ rule_of_query q.now }
{
    let census = census_of(&q.filter);
    match rule_to_10(q, census) {
        Some(rule) => Some(rule),
        None => rule_from_11(
            q,
            census,
            has_bad_cursor(q),
            some_twice(q.orders.as_slice()),
        ),
    }
}

/// The least rule of queries that a query breaks, or none, as `check` tells it, in the time of a sort. The paths of the
/// orders and of inequalities are sorted, for which it takes memory; it refuses only for want of it.
/// (docs/DECISIONS.md, "The rules of a query are told twice".)
#[tactic(auto, using(crate::proofs::RuleParts::late_rule))]
pub fn check_with(alloc: Global, q: &Query) -> Result<Option<QueryRule>, AllocError>
    ensures { IfOk result (λ r. r ≡ rule_of_query q.now) }
{
    let census = census_of(&q.filter);
    match rule_to_10(q, census) {
        Some(rule) => Ok(Some(rule)),
        None => {
            let bad_cursor = has_bad_cursor_with(alloc, q)?;
            let twice = some_twice_with(alloc, q.orders.as_slice())?;
            Ok(rule_from_11(q, census, bad_cursor, twice))
        }
    }
}

fn rule(number: u8) -> Option<QueryRule>
    ensures { result ≡ told number }
{
    Some(QueryRule {
        number,
        count: None,
    })
}

fn rule_with(number: u8, count: u64) -> Option<QueryRule>
    ensures { result ≡ told_with number count }
{
    Some(QueryRule {
        number,
        count: Some(count),
    })
}

// The least of the first ten rules that a query breaks.
fn rule_to_10(q: &Query, census: Census) -> Option<QueryRule>
    requires { census ≡ census_in (parts q.now.filter) }
    ensures { result ≡ rules_to_10 q.now }
{
    if has_bad_collection(q) {
        rule(1)
    } else if has_bad_path(q, census) {
        rule(2)
    } else if census.bad_list {
        rule(3)
    } else {
        match census.long_not_in {
            Some(count) => rule_with(4, count),
            None => rule_from_5(q, census),
        }
    }
}

// The least of them from 5 on, and so on below.
fn rule_from_5(q: &Query, census: Census) -> Option<QueryRule>
    requires { census ≡ census_in (parts q.now.filter) }
    ensures { result ≡ rules_from_5 q.now }
{
    let count = disjunct_count(&q.filter);
    if count > MAX_DISJUNCTS {
        rule_with(5, count)
    } else {
        rule_from_6(q, census)
    }
}

fn rule_from_6(q: &Query, census: Census) -> Option<QueryRule>
    requires { census ≡ census_in (parts q.now.filter) }
    ensures { result ≡ rules_from_6 q.now }
{
    let peaks = peaks_of(&q.filter);
    if has_two_contains(peaks) {
        rule(6)
    } else if has_any_beside(peaks) {
        rule(7)
    } else {
        rule_from_8(q, census)
    }
}

fn rule_from_8(q: &Query, census: Census) -> Option<QueryRule>
    requires { census ≡ census_in (parts q.now.filter) }
    ensures { result ≡ rules_from_8 q.now }
{
    if is_beside_other(census) {
        rule(8)
    } else if is_beside_its_like(census) {
        rule(9)
    } else if census.misused_name {
        rule(10)
    } else {
        None
    }
}

// The least of the rules from 11 on, of a query of which a cursor is bad or not, and which has an order twice or not.
fn rule_from_11(q: &Query, census: Census, bad_cursor: bool, twice: bool) -> Option<QueryRule>
    requires parts { census ≡ census_in (parts q.now.filter) }
    requires cursor { bad_cursor ≡ has_bad_cursor q.now }
    requires twice { twice ≡ has_order_twice q.now }
    ensures { result ≡ rules_from_11 q.now }
{
    if bad_cursor {
        rule(11)
    } else if has_negative_number(q) {
        rule(12)
    } else if twice {
        rule(13)
    } else if census.without_filters {
        rule(14)
    } else {
        None
    }
}

fn has_two_contains(peaks: Option<Peaks>) -> bool
    ensures { result ≡ option_map_or (λ p. nat_lt 1 p.contains) peaks false }
{
    match peaks {
        Some(peaks) => peaks.contains > 1,
        None => false,
    }
}

fn has_any_beside(peaks: Option<Peaks>) -> bool
    ensures { result ≡ option_map_or (λ p. nat_lt 1 p.beside_any) peaks false }
{
    match peaks {
        Some(peaks) => peaks.beside_any > 1,
        None => false,
    }
}

// Whether a NOT_IN stands beside another operator that it can't stand beside.
fn is_beside_other(census: Census) -> bool
    ensures { result ≡ (census.not_in && census.kept_from_not_in) }
{
    census.not_in && census.kept_from_not_in
}

fn is_beside_its_like(census: Census) -> bool
    ensures { result ≡ (census.not_in && (census.not_null || census.second_not_in)) }
{
    census.not_in && (census.not_null || census.second_not_in)
}

fn has_negative_number(q: &Query) -> bool
    ensures { result ≡ has_negative_number q.now }
{
    is_negative(q.offset)
        || match q.limit {
            Some(limit) => is_negative(limit),
            None => false,
        }
}

fn is_negative(number: i32) -> bool
    ensures { result ≡ is_negative number }
{
    number < 0
}

fn has_bad_collection(q: &Query) -> bool
    ensures { result ≡ has_bad_collection q.now }
{
    is_bad_id(q.scope.id().as_str())
}

/// Whether a path has a bad name. `__name__` may be a whole path.
pub(crate) fn is_bad_path(path: &FieldPath) -> bool
    ensures { result ≡ is_bad_path path.now }
{
    !is_name(path) && some_bad_name(path.parts.as_slice())
}

fn some_bad_name(names: &[Text]) -> bool
    ensures { result ≡ list_any is_bad_name names.now }
{
    names.iter().any(|name| is_bad_field_name(name.as_str()))
}

fn has_bad_path(q: &Query, census: Census) -> bool
    requires { census ≡ census_in (parts q.now.filter) }
    ensures { result ≡ has_bad_path q.now }
{
    census.bad_path || some_bad_order(q.orders.as_slice()) || selects_bad_path(&q.select)
}

fn selects_bad_path(select: &Option<Paths>) -> bool
    ensures { result ≡ option_map_or (list_any is_bad_path) select.now false }
{
    match select {
        Some(paths) => some_bad_path(paths.as_slice()),
        None => false,
    }
}

fn some_bad_order(orders: &[Order]) -> bool
    ensures { result ≡ list_any (λ o. is_bad_path o.path) orders.now }
{
    orders.iter().any(|order| is_bad_path(&order.path))
}

fn some_bad_path(paths: &[FieldPath]) -> bool
    ensures { result ≡ list_any is_bad_path paths.now }
{
    paths.iter().any(|path| is_bad_path(path))
}

pub(crate) fn is_reference(v: &Value) -> bool
    ensures { result ≡ is_reference (view v.now) }
{
    match v {
        Value::Reference(_) => true,
        _ => false,
    }
}

// Whether two of the orders have one path. It compares each with each.
fn some_twice(orders: &[Order]) -> bool
    ensures { result ≡ some_twice orders.now }
{
    for (i, order) in orders.iter().enumerate() {
        if is_ordered(&orders[i + 1..], &order.path) {
            return true;
        }
    }
    false
}
