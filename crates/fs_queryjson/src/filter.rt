//! Reads filters.
ghost use Rattle.std.specs.Prelude.{◌≡◌, ℕ, List, Option, codes, option_map};
ghost use Rattle.fs_path.specs.Way.{place_of};
ghost use Rattle.serde_json.specs.Data.{Data};
ghost use Rattle.serde_json.specs.View.{items_view, view as json};
ghost use Rattle.fs_json.specs.Answer.{Gives};
ghost use Rattle.fs_query.specs.View.{view};
ghost use Rattle.fs_value.specs.View.{view as value_view};
ghost use Rattle.fs_valjson.specs.Reading.{value_at};
ghost use Rattle.fs_queryjson.specs.Filter.{compare_at, each_filter_at, filter_at, filters_at, join_at, joined, kind_at, nullness, simple_at, unary_at, where_in};
ghost use Rattle.fs_json.specs.Members.{required_as};
ghost use Rattle.fs_queryjson.specs.Steps.{composite_at, inner_at, the_filter, the_inner};

use crate::field::read_field_of;
use crate::names::{
    COMPARE_MEMBERS, COMPOSITE_FILTER, COMPOSITE_MEMBERS, FIELD_FILTER, FILTER_KINDS,
    INNER_MEMBERS, UNARY_FILTER, UNARY_MEMBERS, VALUE, WHERE,
};
use crate::op::{read_and_of, read_null_of, read_op_of};
use fs_json::{Bad, at_most_one_of, member, one_of, only, read_json_list, required};
use fs_path::{FieldPath, Rule, Way};
use fs_query::{Filter, Filters};
use fs_valjson::read_value;
use fs_value::Value as Operand;
use serde_json::Value;
use std::alloc::Global;

/// The filter of a query, which is all documents' where it is absent.
pub(crate) fn read_where_of(alloc: Global, query: &Value, way: &Way<'_>) -> Result<Filter, Bad>
    ensures { Gives view result (where_in (json query.now) (place_of way.now)) }
{
    match member(alloc, query, WHERE, way)? {
        Some(filter) => read_filter(alloc, filter, &way.member(WHERE)),
        None => Ok(Filter::All),
    }
}

/// Reads a filter: an object of just one of the members of `StructuredQuery.Filter`.
///
/// At the way `x` the reader of `{"compositeFilter":{"op":"OR","filters":[{"unaryFilter":{"op":"IS_NAN"}}]}}` goes by
/// `x.compositeFilter`, `x.compositeFilter.op` and `x.compositeFilter.filters` to
/// `x.compositeFilter.filters[0].unaryFilter.op`, where it refuses.
#[cycle(filter)]
fn read_filter(alloc: Global, v: &Value, way: &Way<'_>) -> Result<Filter, Bad>
    ensures { Gives view result (filter_at (json v.now) (place_of way.now)) }
{
    let (name, content) = the_filter(alloc, v, way)?;
    read_kind(alloc, name, content, &(*way).member(name))
}

#[cycle(filter)]
fn read_kind(alloc: Global, name: &str, v: &Value, way: &Way<'_>) -> Result<Filter, Bad>
    ensures { Gives view result (kind_at (json v.now) name.now (place_of way.now)) }
{
    match name {
        COMPOSITE_FILTER => read_composite(alloc, v, way),
        _ => read_simple(alloc, name, v, way),
    }
}

/// Reads a composite filter. (v1 reference, "StructuredQuery.CompositeFilter".)
#[cycle(filter)]
fn read_composite(alloc: Global, v: &Value, way: &Way<'_>) -> Result<Filter, Bad>
    ensures { Gives view result (composite_at (json v.now) (place_of way.now)) }
{
    let all = read_join(alloc, v, way)?;
    let filters = read_inner(alloc, v, way)?;
    Ok(joined(all, filters))
}

/// The filters that it joins, which are none where they are absent.
#[cycle(filter)]
fn read_inner(alloc: Global, v: &Value, way: &Way<'_>) -> Result<Filters, Bad>
    ensures { Gives (λ fs. fs) result (inner_at (json v.now) (place_of way.now)) }
{
    match the_inner(alloc, v, way)? {
        Some((name, content)) => read_filters(alloc, content, &(*way).member(name)),
        None => Ok(Filters::new(alloc)),
    }
}

#[cycle(filter)]
fn read_filters(alloc: Global, v: &Value, way: &Way<'_>) -> Result<Filters, Bad>
    ensures { Gives (λ fs. fs) result (filters_at (json v.now) (place_of way.now)) }
{
    let items = read_json_list(alloc, v, way)?;
    read_items(alloc, items, way)
}

#[cycle(filter)]
fn read_items(alloc: Global, items: &[Value], way: &Way<'_>) -> Result<Filters, Bad>
    ensures { Gives (λ fs. fs) result (each_filter_at (items_view items.now) 0 (place_of way.now)) }
{
    let mut filters = Filters::new(alloc);
    for (i, item) in items.iter().enumerate() {
        let filter = read_filter(alloc, item, &(*way).item(i as u64))?;
        filters.push(filter)?;
    }
    Ok(filters)
}

/// The member that is there of the kinds, where no other is.
fn the_filter<'a>(
    alloc: Global,
    v: &'a Value,
    way: &Way<'_>,
) -> Result<(&'static str, &'a Value), Bad>
    ensures { Gives {Y = List ℕ × Data} (λ one. (one.0.now, json one.1.now)) result
        (the_filter (json v.now) (place_of way.now)) }
{
    only(alloc, v, &FILTER_KINDS, way)?;
    one_of(alloc, v, &FILTER_KINDS, way)
}

/// The member in which a composite filter has its filters, if it is there.
fn the_inner<'a>(
    alloc: Global,
    v: &'a Value,
    way: &Way<'_>,
) -> Result<Option<(&'static str, &'a Value)>, Bad>
    ensures { Gives {Y = Option (List ℕ × Data)}
        (λ found. option_map (λ one. (one.0.now, json one.1.now)) found) result
        (the_inner (json v.now) (place_of way.now)) }
{
    at_most_one_of(alloc, v, &INNER_MEMBERS, way)
}

/// Whether all filters of a composite one have to hold, once no other member is there.
fn read_join(alloc: Global, v: &Value, way: &Way<'_>) -> Result<bool, Bad>
    ensures { Gives (λ b. b) result (join_at (json v.now) (place_of way.now)) }
{
    only(alloc, v, &COMPOSITE_MEMBERS, way)?;
    read_and_of(alloc, v, way)
}

fn joined(all: bool, filters: Filters) -> Filter
    ensures { view result ≡ joined all filters }
{
    if all {
        Filter::And(filters)
    } else {
        Filter::Or(filters)
    }
}

/// The content of a member that joins no filters.
fn read_simple(alloc: Global, name: &str, v: &Value, way: &Way<'_>) -> Result<Filter, Bad>
    ensures { Gives view result (simple_at name.now (json v.now) (place_of way.now)) }
{
    match name {
        FIELD_FILTER => read_compare(alloc, v, way),
        UNARY_FILTER => read_unary(alloc, v, way),
        _ => Err(Bad::at(alloc, Rule::G, way)),
    }
}

/// Reads a field filter. (v1 reference, "StructuredQuery.FieldFilter".)
#[tactic(auto, unfolding(crate::specs::Filter::compare_at))]
fn read_compare(alloc: Global, v: &Value, way: &Way<'_>) -> Result<Filter, Bad>
    ensures { Gives view result (compare_at (json v.now) (place_of way.now)) }
{
    only(alloc, v, &COMPARE_MEMBERS, way)?;
    let path = read_field_of(alloc, v, way)?;
    let op = read_op_of(alloc, v, way)?;
    let value = read_operand_of(alloc, v, way)?;
    Ok(Filter::Field { path, op, value })
}

fn read_operand_of(alloc: Global, v: &Value, way: &Way<'_>) -> Result<Operand, Bad>
    ensures { Gives value_view result (required_as value_at (codes "value") (json v.now) (place_of way.now)) }
{
    let value = required(alloc, v, VALUE, way)?;
    read_value(alloc, value, &way.member(VALUE))
}

/// Reads a unary filter. (v1 reference, "StructuredQuery.UnaryFilter".)
#[tactic(auto, unfolding(crate::specs::Filter::unary_at))]
fn read_unary(alloc: Global, v: &Value, way: &Way<'_>) -> Result<Filter, Bad>
    ensures { Gives view result (unary_at (json v.now) (place_of way.now)) }
{
    only(alloc, v, &UNARY_MEMBERS, way)?;
    let null = read_null_of(alloc, v, way)?;
    let path = read_field_of(alloc, v, way)?;
    Ok(nullness(null, path))
}

fn nullness(null: bool, path: FieldPath) -> Filter
    ensures { view result ≡ nullness null path }
{
    if null {
        Filter::IsNull { path }
    } else {
        Filter::IsNotNull { path }
    }
}
