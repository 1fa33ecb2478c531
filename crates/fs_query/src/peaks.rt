//! How many array operators meet in one conjunction of a filter.
ghost use Rattle.std.specs.Prelude.{◌≡◌, ◌+◌, min};
ghost use Rattle.fs_path.specs.declared.field.FieldPath.{FieldPath};
ghost use Rattle.fs_value.specs.View.{view as value_view};
ghost use Rattle.fs_query.specs.Condition.{compared, conditions_of};
ghost use Rattle.fs_query.specs.Normal.{equalities, conjunctions, conjunctions_of_all, conjunctions_of_any};
ghost use Rattle.fs_query.specs.Peaks.{peaks_in, peak_beside, both_peaks, either_peaks};
ghost use Rattle.fs_query.specs.View.{view};

use crate::field::elements;
use crate::filter::{Filter, Filters};
use crate::op::Op;
use fs_value::Value;

/// The most array operators in one of a filter's conjunctions, where 2 stands for all greater numbers.
#[derive(Clone, Copy)]
pub(crate) struct Peaks {
    /// The most ARRAY_CONTAINS.
    pub(crate) contains: u8,
    /// The most of both kinds where there is an ARRAY_CONTAINS_ANY, or 0.
    pub(crate) beside_any: u8,
}

const NO_ARRAYS: Peaks = Peaks {
    contains: 0,
    beside_any: 0,
};

/// They are none where the filter has no conjunctions.
#[cycle(peaks)]
pub(crate) fn peaks_of(filter: &Filter) -> Option<Peaks>
    ensures { result ≡ peaks_in (conjunctions equalities (view filter.now)) }
{
    match filter {
        Filter::Field { op, value, .. } => field_peaks(*op, value),
        Filter::And(filters) => peaks_of_all(filters),
        Filter::Or(filters) => peaks_of_any(filters),
        _ => Some(NO_ARRAYS),
    }
}

fn field_peaks(op: Op, value: &Value) -> Option<Peaks>
    ensures { (p : FieldPath) → result ≡ peaks_in (conjunctions equalities (compared p op (value_view value.now))) }
{
    match op {
        Op::ArrayContains => Some(Peaks {
            contains: 1,
            beside_any: 0,
        }),
        Op::ArrayContainsAny => Some(Peaks {
            contains: 0,
            beside_any: 1,
        }),
        Op::In => in_peaks(value),
        _ => Some(NO_ARRAYS),
    }
}

fn in_peaks(value: &Value) -> Option<Peaks>
    ensures { (p : FieldPath) → result ≡ peaks_in (conjunctions equalities (compared p Op.In (value_view value.now))) }
{
    if elements(value).len() == 0 {
        None
    } else {
        Some(NO_ARRAYS)
    }
}

#[cycle(peaks)]
fn peaks_of_all(filters: &Filters) -> Option<Peaks>
    ensures { result ≡ peaks_in (conjunctions_of_all equalities (conditions_of filters.now)) }
{
    let mut all = Some(NO_ARRAYS);
    for i in (0..filters.len()).rev() {
        all = both(peaks_of(filters.at(i)), all);
    }
    all
}

#[tactic(auto, using(crate::proofs::PeakProducts::peaks_more))]
#[cycle(peaks)]
fn peaks_of_any(filters: &Filters) -> Option<Peaks>
    ensures { result ≡ peaks_in (conjunctions_of_any equalities (conditions_of filters.now)) }
{
    let mut all = None;
    for filter in filters.as_slice() {
        all = either(all, peaks_of(filter));
    }
    all
}

// Those of each conjunction of the one with each of the other.
fn both(a: Option<Peaks>, b: Option<Peaks>) -> Option<Peaks>
    ensures { result ≡ both_peaks a b }
{
    match (a, b) {
        (Some(x), Some(y)) => Some(Peaks {
            contains: cut_sum(x.contains, y.contains),
            beside_any: beside(x, y).max(beside(y, x)),
        }),
        _ => None,
    }
}

// The most where the first has an ARRAY_CONTAINS_ANY.
fn beside(x: Peaks, y: Peaks) -> u8
    ensures { result ≡ peak_beside x y }
{
    if x.beside_any == 0 {
        0
    } else {
        cut_sum(x.beside_any, y.contains.max(y.beside_any))
    }
}

// Those of the conjunctions of both.
fn either(a: Option<Peaks>, b: Option<Peaks>) -> Option<Peaks>
    ensures { result ≡ either_peaks a b }
{
    match (a, b) {
        (Some(x), Some(y)) => Some(Peaks {
            contains: x.contains.max(y.contains),
            beside_any: x.beside_any.max(y.beside_any),
        }),
        (Some(x), None) => Some(x),
        (None, other) => other,
    }
}

fn cut_sum(a: u8, b: u8) -> u8
    ensures { result ≡ min (a + b) 2 }
{
    a.saturating_add(b).min(2)
}
