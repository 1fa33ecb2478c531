//! What the rules ask of the parts of a filter.
ghost use Rattle.std.specs.Prelude.{◌≡◌, ◌∷◌, [], map, if◌then◌else◌};
ghost use Rattle.std.specs.List.{list_all};
ghost use Rattle.fs_path.specs.declared.field.FieldPath.{FieldPath};
ghost use Rattle.fs_value.specs.Data.{Data};
ghost use Rattle.fs_value.specs.View.{view as value_view};
ghost use Rattle.fs_query.specs.Census.{census_in, joined_census};
ghost use Rattle.fs_query.specs.Condition.{compared, is_null, is_not_null, all_of, any_of, conditions_of};
ghost use Rattle.fs_query.specs.FilterParts.{parts, parts_of, is_not_in_op, is_list_op};
ghost use Rattle.fs_query.specs.FilterRules.{has_bad_list_itself, misuses_name, long_not_in_itself, is_kept_from_not_in, is_name_operand, is_reference};
ghost use Rattle.fs_query.specs.View.{view};

use crate::field::{elements, is_name};
use crate::filter::{Filter, Filters};
use crate::limits::MAX_NOT_IN;
use crate::op::Op;
use crate::rules::{is_bad_path, is_reference};
use fs_path::FieldPath;
use fs_value::Value;

/// What of the parts of a filter the rules ask, gathered in one pass.
#[derive(Clone, Copy)]
pub(crate) struct Census {
    /// Some path has a bad name.
    pub(crate) bad_path: bool,
    /// Some list operator has no values.
    pub(crate) bad_list: bool,
    /// The number of values of the first NOT_IN that has too many.
    pub(crate) long_not_in: Option<u64>,
    /// There is a NOT_IN.
    pub(crate) not_in: bool,
    /// There are two.
    pub(crate) second_not_in: bool,
    /// There is an OR, IN, ARRAY_CONTAINS_ANY or NOT_EQUAL.
    pub(crate) kept_from_not_in: bool,
    /// There is an IS_NOT_NULL.
    pub(crate) not_null: bool,
    /// `__name__` is compared with what is no reference.
    pub(crate) misused_name: bool,
    /// There is an AND or an OR without filters.
    pub(crate) without_filters: bool,
}

const NOTHING: Census = Census {
    bad_path: false,
    bad_list: false,
    long_not_in: None,
    not_in: false,
    second_not_in: false,
    kept_from_not_in: false,
    not_null: false,
    misused_name: false,
    without_filters: false,
};

#[tactic(auto, using(crate::proofs::CensusParts::census_with_own))]
#[cycle(census)]
pub(crate) fn census_of(filter: &Filter) -> Census
    ensures { result ≡ census_in (parts (view filter.now)) }
{
    match filter {
        Filter::All => NOTHING,
        Filter::Field { path, op, value } => field_census(path, *op, value),
        Filter::IsNull { path } => null_census(path),
        Filter::IsNotNull { path } => not_null_census(path),
        Filter::And(filters) => joined(composite_census(filters, false), census_of_all(filters)),
        Filter::Or(filters) => joined(composite_census(filters, true), census_of_all(filters)),
    }
}

#[tactic(auto, using(crate::proofs::CensusParts::census_more))]
#[cycle(census)]
fn census_of_all(filters: &Filters) -> Census
    ensures { result ≡ census_in (parts_of (conditions_of filters.now)) }
{
    let mut all = NOTHING;
    for filter in filters.as_slice() {
        all = joined(all, census_of(filter));
    }
    all
}

// What an AND or an OR adds to its filters.
fn composite_census(filters: &Filters, is_or: bool) -> Census
    ensures { result ≡ census_in ((if is_or then any_of (conditions_of filters.now) else all_of (conditions_of filters.now)) ∷ []) }
{
    Census {
        without_filters: filters.is_empty(),
        kept_from_not_in: is_or,
        ..NOTHING
    }
}

fn null_census(path: &FieldPath) -> Census
    ensures { result ≡ census_in (is_null path.now ∷ []) }
{
    Census {
        bad_path: is_bad_path(path),
        misused_name: is_name(path),
        ..NOTHING
    }
}

fn not_null_census(path: &FieldPath) -> Census
    ensures { result ≡ census_in (is_not_null path.now ∷ []) }
{
    Census {
        not_null: true,
        ..null_census(path)
    }
}

fn field_census(path: &FieldPath, op: Op, value: &Value) -> Census
    ensures { result ≡ census_in (compared path.now op (value_view value.now) ∷ []) }
{
    Census {
        bad_path: is_bad_path(path),
        bad_list: is_bad_list(op, value),
        long_not_in: long_not_in(op, value),
        not_in: is_not_in_op(op),
        kept_from_not_in: is_kept_from_not_in(op),
        misused_name: misuses_name(path, op, value),
        ..NOTHING
    }
}

fn joined(a: Census, b: Census) -> Census
    ensures { result ≡ joined_census a b }
{
    Census {
        bad_path: a.bad_path | b.bad_path,
        bad_list: a.bad_list | b.bad_list,
        long_not_in: a.long_not_in.or(b.long_not_in),
        not_in: a.not_in | b.not_in,
        second_not_in: a.second_not_in | b.second_not_in | (a.not_in & b.not_in),
        kept_from_not_in: a.kept_from_not_in | b.kept_from_not_in,
        not_null: a.not_null | b.not_null,
        misused_name: a.misused_name | b.misused_name,
        without_filters: a.without_filters | b.without_filters,
    }
}

// Whether the operand has no values where it has to have some.
fn is_bad_list(op: Op, value: &Value) -> bool
    ensures { (p : FieldPath) → result ≡ has_bad_list_itself (compared p op (value_view value.now)) }
{
    is_list_op(op) && elements(value).len() == 0
}

fn misuses_name(path: &FieldPath, op: Op, value: &Value) -> bool
    ensures { result ≡ misuses_name (compared path.now op (value_view value.now)) }
{
    is_name(path) && !is_name_operand(op, value)
}

// The number of values of a NOT_IN that has too many.
fn long_not_in(op: Op, value: &Value) -> Option<u64>
    ensures { (p : FieldPath) → result ≡ long_not_in_itself (compared p op (value_view value.now)) }
{
    let count = elements(value).len();
    match op {
        Op::NotIn if count > MAX_NOT_IN => Some(count as u64),
        _ => None,
    }
}

fn is_not_in_op(op: Op) -> bool
    ensures { result ≡ is_not_in_op op }
{
    match op {
        Op::NotIn => true,
        _ => false,
    }
}

// Operators that NOT_IN can't stand beside.
fn is_kept_from_not_in(op: Op) -> bool
    ensures { (p : FieldPath) (v : Data) → result ≡ is_kept_from_not_in (compared p op v) }
{
    match op {
        Op::In | Op::ArrayContainsAny | Op::NotEqual => true,
        _ => false,
    }
}

// Operators whose operand is a list.
fn is_list_op(op: Op) -> bool
    ensures { result ≡ is_list_op op }
{
    match op {
        Op::In | Op::NotIn | Op::ArrayContainsAny => true,
        _ => false,
    }
}

// Whether `__name__` may be compared so.
fn is_name_operand(op: Op, value: &Value) -> bool
    ensures { result ≡ is_name_operand op (value_view value.now) }
{
    match op {
        Op::ArrayContains | Op::ArrayContainsAny => false,
        Op::In | Op::NotIn => all_references(elements(value)),
        _ => is_reference(value),
    }
}

fn all_references(values: &[Value]) -> bool
    ensures { result ≡ list_all is_reference (map value_view values.now) }
{
    values.iter().all(|value| is_reference(value))
}
