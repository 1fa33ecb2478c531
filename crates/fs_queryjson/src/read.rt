//! Reads queries.
ghost use Rattle.std.specs.Prelude.{◌≡◌, pos, IfOk, List, Option};
ghost use Rattle.fs_path.specs.Way.{place_of};
ghost use Rattle.fs_path.specs.declared.field.FieldPath.{FieldPath as Path};
ghost use Rattle.fs_path.specs.declared.scope.Scope.{Scope as Covered};
ghost use Rattle.serde_json.specs.View.{view as json};
ghost use Rattle.fs_json.specs.Answer.{Gives, made};
ghost use Rattle.fs_queryjson.specs.Cursor.{cursor_in};
ghost use Rattle.fs_queryjson.specs.Filter.{where_in};
ghost use Rattle.fs_queryjson.specs.From.{scopes_in, the_scope};
ghost use Rattle.fs_queryjson.specs.Order.{orders_in};
ghost use Rattle.fs_queryjson.specs.Select.{select_in};
ghost use Rattle.fs_queryjson.specs.Query.{listened_at, offset_in, permitted_at, query_at, walked_at};
ghost use Rattle.fs_queryjson.specs.Steps.{listened_into, parts_into, walked_into};
ghost use Rattle.fs_queryjson.specs.Valid.{IsValid};
ghost use Rattle.fs_query.specs.Asked.{Asked};
ghost use Rattle.fs_query.specs.Condition.{Condition};
ghost use Rattle.fs_query.specs.View.{view};
ghost use Rattle.fs_query.specs.declared.cursor.Cursor.{Cursor as Edge};
ghost use Rattle.fs_query.specs.declared.order.Order.{Order as Ordered};

use crate::cursor::read_cursor_of;
use crate::filter::read_where_of;
use crate::from::{no_scope, read_scopes_of, the_scope};
use crate::member::read_small_of;
use crate::names::{END_AT, LIMIT, OFFSET, QUERY_MEMBERS, SELECT, START_AT};
use crate::order::read_orders_of;
use crate::select::read_select_of;
use fs_json::{Bad, only, refuse_unbuilt};
use fs_path::{Ids, Paths, Rule, Scope, Way};
use fs_query::{Cursor, Filter, Orders, Query, check_with};
use serde_json::Value;
use std::alloc::Global;

/// Reads a query that goes over collections below the parent: the walk, and then the rules of queries, the least of which is
/// told at the place of the query itself. (v1 reference, "StructuredQuery".)
/// (docs/DECISIONS.md, "A query is read without a root".)
pub fn read_query(alloc: Global, parent: &Ids, v: &Value, way: &Way<'_>) -> Result<Query, Bad>
    ensures gives { Gives (λ q. q) result (query_at parent.now (json v.now) (place_of way.now)) }

    // It breaks no rule, its references are names of documents, and each of its parts can be told in JSON.
    ensures valid { IfOk result (λ q. IsValid q) }
{
    let query = walk_query(alloc, parent, v, way)?;
    judge_query(alloc, query, way)
}

/// Reads a query as it is walked. Its rules are tested by `judge_query`, since they come after the walk of the whole request.
/// Where `from` hasn't just one entry, the query has the collection of the empty id, which breaks rule 1.
///
/// At the way `x` the reader of `{"orderBy":[{}],"from":1}` refuses at `x.from`, and where that is a list at
/// `x.orderBy[0].field`.
pub fn walk_query(alloc: Global, parent: &Ids, v: &Value, way: &Way<'_>) -> Result<Query, Bad>
    ensures { Gives (λ q. q) result (walked_at parent.now (json v.now) (place_of way.now)) }
{
    let mut query = whole(alloc);
    match walk_into(alloc, parent, v, way, &mut query) {
        Ok(()) => Ok(query),
        Err(bad) => {
            drop(query);
            Err(bad)
        }
    }
}

/// Reads a query that is listened to as it is walked. It may select nothing and skip nothing: `select` and `offset` are told by
/// their names, whatever they are. (v1 reference, `Target.QueryTarget`.)
///
/// At the way `x` the reader of `{"offset":0}` tells `offset`, and where `endAt` is 1 beside it refuses at `x.endAt`.
pub fn walk_listened(alloc: Global, parent: &Ids, v: &Value, way: &Way<'_>) -> Result<Query, Bad>
    ensures { Gives (λ q. q) result (listened_at parent.now (json v.now) (place_of way.now)) }
{
    let mut query = whole(alloc);
    match listen_into(alloc, parent, v, way, &mut query) {
        Ok(()) => Ok(query),
        Err(bad) => {
            drop(query);
            Err(bad)
        }
    }
}

/// A query that selects nothing and skips nothing.
fn whole(alloc: Global) -> Query
    ensures select { result.select ≡ None }
    ensures offset { result.offset ≡ pos 0 }
{
    Query {
        scope: no_scope(alloc, Ids::new(alloc)),
        filter: Filter::All,
        orders: Orders::new(alloc),
        start: None,
        end: None,
        offset: 0,
        limit: None,
        select: None,
    }
}

/// The walk, which puts each member into the query.
#[tactic(auto, unfolding(crate::specs::Steps::walked_into))]
fn walk_into(
    alloc: Global,
    parent: &Ids,
    v: &Value,
    way: &Way<'_>,
    query: &mut Query,
) -> Result<(), Bad>
    ensures { Gives {Y = Asked} (λ u. query.new) result
        (walked_into query.old parent.now (json v.now) (place_of way.now)) }
{
    only(alloc, v, &QUERY_MEMBERS, way)?;
    select_into(alloc, v, way, &mut query.select)?;
    parts_into(alloc, parent, v, way, query)?;
    query.offset = read_offset_of(alloc, v, way)?;
    query.limit = read_small_of(alloc, v, LIMIT, way)?;
    Ok(())
}

/// The walk of one that is listened to.
#[tactic(auto, unfolding(crate::specs::Steps::listened_into))]
fn listen_into(
    alloc: Global,
    parent: &Ids,
    v: &Value,
    way: &Way<'_>,
    query: &mut Query,
) -> Result<(), Bad>
    ensures { Gives {Y = Asked} (λ u. query.new) result
        (listened_into query.old parent.now (json v.now) (place_of way.now)) }
{
    only(alloc, v, &QUERY_MEMBERS, way)?;
    refuse_unbuilt(alloc, v, &[SELECT], way)?;
    parts_into(alloc, parent, v, way, query)?;
    refuse_unbuilt(alloc, v, &[OFFSET], way)?;
    query.limit = read_small_of(alloc, v, LIMIT, way)?;
    Ok(())
}

/// The part of the walk between `select` and `offset`.
#[tactic(auto, unfolding(crate::specs::Steps::parts_into))]
fn parts_into(
    alloc: Global,
    parent: &Ids,
    v: &Value,
    way: &Way<'_>,
    query: &mut Query,
) -> Result<(), Bad>
    ensures { Gives {Y = Asked} (λ u. query.new) result
        (parts_into query.old parent.now (json v.now) (place_of way.now)) }
{
    scope_into(alloc, parent, v, way, &mut query.scope)?;
    filter_into(alloc, v, way, &mut query.filter)?;
    orders_into(alloc, v, way, &mut query.orders)?;
    cursor_into(alloc, v, START_AT, way, &mut query.start)?;
    cursor_into(alloc, v, END_AT, way, &mut query.end)?;
    Ok(())
}

fn select_into(
    alloc: Global,
    v: &Value,
    way: &Way<'_>,
    select: &mut Option<Paths>,
) -> Result<(), Bad>
    ensures { Gives {Y = Option (List Path)} (λ u. select.new) result (select_in (json v.now) (place_of way.now)) }
{
    *select = read_select_of(alloc, v, way)?;
    Ok(())
}

fn scope_into(
    alloc: Global,
    parent: &Ids,
    v: &Value,
    way: &Way<'_>,
    scope: &mut Scope,
) -> Result<(), Bad>
    ensures { Gives {Y = Covered} (λ u. scope.new) result
        (made (the_scope parent.now) (scopes_in parent.now (json v.now) (place_of way.now))) }
{
    let scopes = read_scopes_of(alloc, parent, v, way)?;
    *scope = the_scope(alloc, parent, scopes)?;
    Ok(())
}

fn filter_into(alloc: Global, v: &Value, way: &Way<'_>, filter: &mut Filter) -> Result<(), Bad>
    ensures { Gives {Y = Condition} (λ u. view filter.new) result (where_in (json v.now) (place_of way.now)) }
{
    *filter = read_where_of(alloc, v, way)?;
    Ok(())
}

fn orders_into(alloc: Global, v: &Value, way: &Way<'_>, orders: &mut Orders) -> Result<(), Bad>
    ensures { Gives {Y = List Ordered} (λ u. orders.new) result (orders_in (json v.now) (place_of way.now)) }
{
    *orders = read_orders_of(alloc, v, way)?;
    Ok(())
}

fn cursor_into(
    alloc: Global,
    v: &Value,
    name: &str,
    way: &Way<'_>,
    cursor: &mut Option<Cursor>,
) -> Result<(), Bad>
    ensures { Gives {Y = Option Edge} (λ u. cursor.new) result (cursor_in name.now (json v.now) (place_of way.now)) }
{
    *cursor = read_cursor_of(alloc, v, name, way)?;
    Ok(())
}

/// An offset that is absent is 0.
fn read_offset_of(alloc: Global, query: &Value, way: &Way<'_>) -> Result<i32, Bad>
    ensures { Gives (λ n. n) result (offset_in (json query.now) (place_of way.now)) }
{
    match read_small_of(alloc, query, OFFSET, way)? {
        Some(offset) => Ok(offset),
        None => Ok(0),
    }
}

/// A query that was walked, unless it breaks a rule: then the least, at its place.
pub fn judge_query(alloc: Global, query: Query, way: &Way<'_>) -> Result<Query, Bad>
    ensures { Gives (λ q. q) result (permitted_at query (place_of way.now)) }
{
    match refuse_broken(alloc, &query, way) {
        Ok(()) => Ok(query),
        Err(bad) => {
            drop(query);
            Err(bad)
        }
    }
}

/// Refuses a query that breaks a rule: the least is told, at its place.
pub fn refuse_broken(alloc: Global, query: &Query, way: &Way<'_>) -> Result<(), Bad>
    ensures { Gives {Y = Asked} (λ u. query.now) result (permitted_at query.now (place_of way.now)) }
{
    match check_with(alloc, query)? {
        Some(rule) => Err(Bad::at(alloc, Rule::Q(rule.number, rule.count), way)),
        None => Ok(()),
    }
}
