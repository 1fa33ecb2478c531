//! The number of a filter's disjuncts.
ghost use Rattle.std.specs.Prelude.{◌≡◌, ◌+◌, ◌*◌, length, min};
ghost use Rattle.fs_path.specs.declared.field.FieldPath.{FieldPath};
ghost use Rattle.fs_value.specs.View.{view as value_view};
ghost use Rattle.fs_query.specs.Condition.{compared, conditions_of};
ghost use Rattle.fs_value.specs.Elements.{elements};
ghost use Rattle.fs_query.specs.Limits.{most_told};
ghost use Rattle.fs_query.specs.Normal.{alternatives, conjunctions, conjunctions_of_all, conjunctions_of_any};
ghost use Rattle.fs_query.specs.View.{view};

use crate::field::elements;
use crate::filter::{Filter, Filters};
use crate::limits::MOST_TOLD;
use crate::op::Op;
use fs_value::Value;

/// The number of a filter's disjuncts, but no more than `MOST_TOLD`.
#[cycle(count)]
pub(crate) fn disjunct_count(filter: &Filter) -> u64
    ensures { result ≡ min (length (conjunctions alternatives (view filter.now))) most_told }
{
    match filter {
        Filter::Field { op, value, .. } => field_count(*op, value),
        Filter::And(filters) => product_count(filters),
        Filter::Or(filters) => sum_count(filters),
        _ => 1,
    }
}

#[tactic(auto, using(crate::proofs::Counted::values_counted))]
fn field_count(op: Op, value: &Value) -> u64
    ensures { (p : FieldPath) → result ≡ min (length (conjunctions alternatives (compared p op (value_view value.now)))) most_told }
{
    match op {
        Op::In | Op::ArrayContainsAny => value_count(value),
        _ => 1,
    }
}

fn value_count(value: &Value) -> u64
    ensures { result ≡ min (length (elements (value_view value.now))) most_told }
{
    (elements(value).len() as u64).min(MOST_TOLD)
}

#[tactic(auto, using(crate::proofs::Counted::product_rest, crate::proofs::Counted::product_end))]
#[cycle(count)]
fn product_count(filters: &Filters) -> u64
    ensures { result ≡ min (length (conjunctions_of_all alternatives (conditions_of filters.now))) most_told }
{
    let mut count = 1;
    for filter in filters.as_slice() {
        count = cut_product(count, disjunct_count(filter));
    }
    count
}

#[tactic(auto, using(crate::proofs::Counted::sum_rest))]
#[cycle(count)]
fn sum_count(filters: &Filters) -> u64
    ensures { result ≡ min (length (conjunctions_of_any alternatives (conditions_of filters.now))) most_told }
{
    let mut count = 0;
    for filter in filters.as_slice() {
        count = cut_sum(count, disjunct_count(filter));
    }
    count
}

fn cut_product(a: u64, b: u64) -> u64
    ensures { result ≡ min (a * b) most_told }
{
    a.saturating_mul(b).min(MOST_TOLD)
}

fn cut_sum(a: u64, b: u64) -> u64
    ensures { result ≡ min (a + b) most_told }
{
    a.saturating_add(b).min(MOST_TOLD)
}
