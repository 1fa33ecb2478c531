//! The normal form of a query.
ghost use Rattle.std.specs.Prelude.{◌≡◌, IfOk};
ghost use Rattle.fs_query.specs.Normal.{whole_order, disjuncts};

use crate::disjuncts::disjuncts;
use crate::filter::Filters;
use crate::order::Orders;
use crate::query::Query;
use crate::whole_order::whole_order;
use std::alloc::{AllocError, Global};

/// A query's whole order, and the disjuncts of its filter, each an AND of simple filters: of
/// `a > 1 and b in [2, 3]`, ordered by `c` descending, the order `c`, `a`, `__name__`, all descending, and the disjuncts
/// `a > 1 and b == 2` and `a > 1 and b == 3`.
#[derive(Drop)]
pub struct Normal {
    pub orders: Orders,
    pub disjuncts: Filters,
}

impl Normal {
    ghost use Rattle.std.specs.Prelude.{◌≡◌, IfOk};

    pub fn copy(&self, alloc: Global) -> Result<Normal, AllocError>
        ensures { IfOk result (λ n. n ≡ self.now) }
    {
        Ok(Normal {
            orders: self.orders.copy(alloc)?,
            disjuncts: self.disjuncts.copy(alloc)?,
        })
    }
}

/// The normal form of a query. (Cloud Firestore documentation, "Order and limit data" and "Query operators".)
/// (docs/DECISIONS.md, "`normal_form`".)
pub fn normal_form(alloc: Global, q: &Query) -> Result<Normal, AllocError>
    ensures orders { IfOk result (λ n. n.orders ≡ whole_order q.now) }
    ensures disjuncts { IfOk result (λ n. n.disjuncts ≡ disjuncts q.now.filter) }
{
    Ok(Normal {
        orders: whole_order(alloc, q)?,
        disjuncts: disjuncts(alloc, &q.filter)?,
    })
}
