//! The disjuncts of a filter.
ghost use Rattle.std.specs.Prelude.{◌≡◌, ◌∷◌, ◌++◌, [], IfOk, OnOk, map};
ghost use Rattle.fs_value.specs.View.{view as value_view};
ghost use Rattle.fs_query.specs.Condition.{compared, conditions_of};
ghost use Rattle.fs_query.specs.Normal.{alternatives, products, conjunctions, conjunctions_of_all, conjunctions_of_any, disjuncts};
ghost use Rattle.fs_query.specs.View.{view};

use crate::field::elements;
use crate::filter::{Filter, Filters};
use crate::op::Op;
use fs_path::FieldPath;
use fs_value::Value;
use std::alloc::{AllocError, Global};

/// The conjunctions of simple filters that a filter is an OR of, each as an AND of them.
pub(crate) fn disjuncts(alloc: Global, filter: &Filter) -> Result<Filters, AllocError>
    ensures { IfOk result (λ fs. fs ≡ disjuncts (view filter.now)) }
{
    let mut items = Vec::new(alloc);
    for filters in conjunctions(alloc, filter)? {
        items.push(Filter::And(filters))?;
    }
    Ok(Filters::of(items))
}

#[cycle(conjunctions)]
fn conjunctions(alloc: Global, filter: &Filter) -> Result<Vec<Filters>, AllocError>
    ensures { IfOk result (λ v. v.items ≡ conjunctions alternatives (view filter.now)) }
{
    match filter {
        Filter::All => one(alloc, Filters::new(alloc)),
        Filter::Field { path, op, value } => match op {
            Op::In => equalities(alloc, path, Op::Equal, elements(value)),
            Op::ArrayContainsAny => equalities(alloc, path, Op::ArrayContains, elements(value)),
            _ => simple(alloc, filter),
        },
        Filter::IsNull { .. } => simple(alloc, filter),
        Filter::IsNotNull { .. } => simple(alloc, filter),
        Filter::And(filters) => conjunctions_of_all(alloc, filters),
        Filter::Or(filters) => conjunctions_of_any(alloc, filters),
    }
}

#[tactic(auto, using(crate::proofs::ProductLists::all_more))]
#[cycle(conjunctions)]
fn conjunctions_of_all(alloc: Global, filters: &Filters) -> Result<Vec<Filters>, AllocError>
    ensures { IfOk result (λ v. v.items ≡ conjunctions_of_all alternatives (conditions_of filters.now)) }
{
    let mut all = one(alloc, Filters::new(alloc))?;
    for filter in filters.as_slice() {
        let backs = conjunctions(alloc, filter)?;
        all = with_backs(alloc, all, backs.as_slice())?;
    }
    Ok(all)
}

#[tactic(auto, using(crate::proofs::ProductLists::any_more))]
#[cycle(conjunctions)]
fn conjunctions_of_any(alloc: Global, filters: &Filters) -> Result<Vec<Filters>, AllocError>
    ensures { IfOk result (λ v. v.items ≡ conjunctions_of_any alternatives (conditions_of filters.now)) }
{
    let mut all = Vec::new(alloc);
    for filter in filters.as_slice() {
        let mut more = conjunctions(alloc, filter)?;
        all.append(&mut more)?;
    }
    Ok(all)
}

fn one(alloc: Global, filters: Filters) -> Result<Vec<Filters>, AllocError>
    ensures { IfOk result (λ v. v.items ≡ filters ∷ []) }
{
    let mut all = Vec::new(alloc);
    all.push(filters)?;
    Ok(all)
}

// A copy of a filter, alone.
fn simple(alloc: Global, filter: &Filter) -> Result<Vec<Filters>, AllocError>
    ensures { IfOk result (λ v. v.items ≡ (view filter.now ∷ []) ∷ []) }
{
    let mut filters = Filters::new(alloc);
    filters.push_copy(alloc, filter)?;
    one(alloc, filters)
}

// One field filter for each of these values.
fn equalities(
    alloc: Global,
    path: &FieldPath,
    op: Op,
    values: &[Value],
) -> Result<Vec<Filters>, AllocError>
    ensures { IfOk result (λ v. v.items ≡ map (λ c. c ∷ []) (map (compared path.now op) (map value_view values.now))) }
{
    let mut all = Vec::new(alloc);
    for value in values {
        let mut filters = Filters::new(alloc);
        filters.push(Filter::compared(alloc, path, op, value)?)?;
        all.push(filters)?;
    }
    Ok(all)
}

// Each of the first with each of the second behind it. A second that stands alone is put behind the first where they are, so
// that an AND of simple filters costs no square of its length.
fn with_backs(
    alloc: Global,
    fronts: Vec<Filters>,
    backs: &[Filters],
) -> Result<Vec<Filters>, AllocError>
    ensures { IfOk result (λ v. v.items ≡ products fronts.items backs.now) }
{
    match backs {
        [back] => with_back(alloc, fronts, back),
        _ => products(alloc, fronts.as_slice(), backs),
    }
}

fn with_back(
    alloc: Global,
    fronts: Vec<Filters>,
    back: &Filters,
) -> Result<Vec<Filters>, AllocError>
    ensures { IfOk result (λ v. v.items ≡ map (λ front. front ++ back.now) fronts.items) }
{
    let mut all = Vec::with_capacity(alloc, fronts.len())?;
    for front in fronts {
        all.push(followed(alloc, front, back)?)?;
    }
    Ok(all)
}

fn followed(alloc: Global, front: Filters, back: &Filters) -> Result<Filters, AllocError>
    ensures { IfOk result (λ fs. fs ≡ front ++ back.now) }
{
    let mut all = front;
    for filter in back.as_slice() {
        all.push_copy(alloc, filter)?;
    }
    Ok(all)
}

fn products(
    alloc: Global,
    fronts: &[Filters],
    backs: &[Filters],
) -> Result<Vec<Filters>, AllocError>
    ensures { IfOk result (λ v. v.items ≡ products fronts.now backs.now) }
{
    let mut all = Vec::new(alloc);
    for front in fronts {
        push_products(alloc, &mut all, front, backs)?;
    }
    Ok(all)
}

fn push_products(
    alloc: Global,
    all: &mut Vec<Filters>,
    front: &Filters,
    backs: &[Filters],
) -> Result<(), AllocError>
    ensures { OnOk result (all.new.items ≡ all.old.items ++ map (λ back. front.now ++ back) backs.now) }
{
    for back in backs {
        all.push(joined(alloc, front, back)?)?;
    }
    Ok(())
}

fn joined(alloc: Global, front: &Filters, back: &Filters) -> Result<Filters, AllocError>
    ensures { IfOk result (λ fs. fs ≡ front.now ++ back.now) }
{
    followed(alloc, front.copy(alloc)?, back)
}
