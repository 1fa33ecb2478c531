//! Queries.
ghost use Rattle.std.specs.Prelude.{◌≡◌, IfOk};

use crate::cursor::Cursor;
use crate::filter::Filter;
use crate::order::Orders;
use fs_path::{Paths, Scope};
use std::alloc::{AllocError, Global};
use std::marker::Model;

/// A structured query (v1 reference, "StructuredQuery"). Contracts see what it asks, as `Asked`.
/// (docs/DECISIONS.md, "A query's contract speaks of what it asks".)
#[derive(Drop)]
pub struct Query {
    /// `from`, below the parent of the request.
    pub scope: Scope,
    /// `where`, which is `All` where there is none.
    pub filter: Filter,
    /// `orderBy`, as it was given.
    pub orders: Orders,
    /// `startAt`.
    pub start: Option<Cursor>,
    /// `endAt`.
    pub end: Option<Cursor>,
    /// How many documents are left out in front, after the cursors.
    pub offset: i32,
    /// How many documents there are at most, after the offset.
    pub limit: Option<i32>,
    /// The paths that are kept of each document, if not all.
    pub select: Option<Paths>,
}

impl Model for Query {
    ghost use Rattle.fs_query.specs.Asked.{Asked};
    ghost use Rattle.fs_query.specs.AskedLaws.{asked_code};

    ghost Value = { Asked };

    ghost coded = { asked_code };

    ghost use Rattle.fs_query.specs.View.{view as filter_view};

    ghost view = { λ q. record { scope = q.scope; filter = filter_view q.filter; orders = q.orders; start = q.start; end = q.end; offset = q.offset; limit = q.limit; select = q.select } };
}

fn copy_cursor(alloc: Global, cursor: &Option<Cursor>) -> Result<Option<Cursor>, AllocError>
    ensures { IfOk result (λ c. c ≡ cursor.now) }
{
    match cursor {
        Some(cursor) => Ok(Some(cursor.copy(alloc)?)),
        None => Ok(None),
    }
}

fn copy_select(alloc: Global, select: &Option<Paths>) -> Result<Option<Paths>, AllocError>
    ensures { IfOk result (λ s. s ≡ select.now) }
{
    match select {
        Some(paths) => Ok(Some(paths.copy(alloc)?)),
        None => Ok(None),
    }
}

impl Query {
    ghost use Rattle.std.specs.Prelude.{◌≡◌, IfOk};

    pub fn copy(&self, alloc: Global) -> Result<Query, AllocError>
        ensures { IfOk result (λ q. q ≡ self.now) }
    {
        // What holds most comes last, so that little is given back where memory runs out.
        Ok(Query {
            offset: self.offset,
            limit: self.limit,
            orders: self.orders.copy(alloc)?,
            scope: self.scope.copy(alloc)?,
            start: copy_cursor(alloc, &self.start)?,
            end: copy_cursor(alloc, &self.end)?,
            select: copy_select(alloc, &self.select)?,
            filter: self.filter.copy(alloc)?,
        })
    }
}
