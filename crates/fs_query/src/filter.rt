//! Filters.
use crate::op::Op;
use fs_path::FieldPath;
use fs_value::Value;
use std::alloc::{AllocError, Global};
use std::marker::Model;

/// What a query asks of its documents (v1 reference, "StructuredQuery.Filter"). Contracts see its `Condition`, by `view`.
///
/// `a > 1 and (b == 2 or c is null)` is
/// `And([Field(a, Greater, 1), Or([Field(b, Equal, 2), IsNull(c)])])`.
#[cycle(filter)]
#[derive(Drop)]
pub enum Filter {
    /// Every document.
    All,
    Field {
        path: FieldPath,
        op: Op,
        value: Value,
    },
    IsNull {
        path: FieldPath,
    },
    IsNotNull {
        path: FieldPath,
    },
    And(Filters),
    Or(Filters),
}

impl Filter {
    ghost use Rattle.std.specs.Prelude.{◌≡◌, IfOk};
    ghost use Rattle.fs_value.specs.View.{view as value_view};
    ghost use Rattle.fs_query.specs.Condition.{compared};
    ghost use Rattle.fs_query.specs.View.{view};

    // A filter of copies of a path and a value.
    pub(crate) fn compared(
        alloc: Global,
        path: &FieldPath,
        op: Op,
        value: &Value,
    ) -> Result<Filter, AllocError>
        ensures { IfOk result (λ f. view f ≡ compared path.now op (value_view value.now)) }
    {
        Ok(Filter::Field {
            path: path.copy(alloc)?,
            op,
            value: value.copy(alloc)?,
        })
    }

    #[cycle(copy)]
    pub fn copy(&self, alloc: Global) -> Result<Filter, AllocError>
        ensures { IfOk result (λ f. view f ≡ view self.now) }
    {
        match self {
            Filter::All => Ok(Filter::All),
            Filter::Field { path, op, value } => Filter::compared(alloc, path, *op, value),
            Filter::IsNull { path } => Ok(Filter::IsNull {
                path: path.copy(alloc)?,
            }),
            Filter::IsNotNull { path } => Ok(Filter::IsNotNull {
                path: path.copy(alloc)?,
            }),
            Filter::And(filters) => Ok(Filter::And(filters.copy(alloc)?)),
            Filter::Or(filters) => Ok(Filter::Or(filters.copy(alloc)?)),
        }
    }
}

/// Filters in order, as those that an AND joins. Contracts see them as a list of `Condition`.
#[cycle(filter)]
#[derive(Drop)]
pub struct Filters {
    items: Vec<Filter>,
}

impl Model for Filters {
    ghost use Rattle.std.specs.Prelude.{List, map};
    ghost use Rattle.fs_query.specs.Condition.{Condition, conditions_of, conditions_weight};
    ghost use Rattle.fs_query.specs.ConditionLaws.{condition_list_code};

    ghost Value = { List Condition };

    ghost coded = { condition_list_code };

    ghost use Rattle.fs_query.specs.View.{view as filter_view};

    ghost view = { λ f. map filter_view f.items.items };

    ghost size = { λ cs. conditions_weight (conditions_of cs) };

    ghost use Rattle.std.proofs.Common.{arith};
    ghost use Rattle.fs_query.specs.Falls.{filters_fall};

    ghost size_decreases = { λ a h. omega (arith, filters_fall a.items.items) };
}

impl Filters {
    ghost use Rattle.std.specs.Prelude.{◌≡◌, ◌↔◌, ℕ, ◌<◌, ◌∷◌, ◌++◌, IfOk, OnOk, OnErr, IsTrue, Some, [], length, map, slice_get, slice_index_or};
    ghost use Rattle.fs_query.specs.Condition.{conditions_of, weight, conditions_weight};
    ghost use Rattle.fs_query.specs.View.{view};
    ghost use Rattle.fs_query.specs.declared.filter.Filter.{Filter};

    /// No filters. The allocator serves those that are pushed.
    pub fn new(alloc: Global) -> Filters
        ensures { result ≡ [] }
    {
        Filters {
            items: Vec::new(alloc),
        }
    }

    /// The filters of a `Vec`, without a copy.
    pub fn of(items: Vec<Filter>) -> Filters
        ensures { result ≡ map view items.items }
    {
        Filters { items }
    }

    /// The filters as a `Vec`, without a copy.
    pub fn into_vec(self) -> Vec<Filter>
        ensures { map view result.items ≡ self }
    {
        self.items
    }

    // A filter weighs less than the list, which is the measure of a recursion over filters.
    pub fn as_slice(&self) -> &[Filter]
        ensures value { map view result.now ≡ self.now }
        ensures lighter { (k : ℕ) (f : Filter) → k < length result.now
            → weight (view (slice_index_or result.now k f)) < conditions_weight (conditions_of self.now) }
    {
        self.items.as_slice()
    }

    pub fn len(&self) -> usize
        ensures { result ≡ length self.now }
    {
        self.items.len()
    }

    pub fn is_empty(&self) -> bool
        ensures { IsTrue result ↔ (self.now ≡ []) }
    {
        self.items.is_empty()
    }

    pub fn at(&self, i: usize) -> &Filter
        requires { i < length self.now }
        ensures value { slice_get self.now i ≡ Some (view result.now) }
        ensures lighter { weight (view result.now) < conditions_weight (conditions_of self.now) }
    {
        &self.items[i]
    }

    /// Adds a filter at the end.
    pub fn push(&mut self, filter: Filter) -> Result<(), AllocError>
        ensures ok { OnOk result (self.new ≡ self.old ++ view filter ∷ []) }
        ensures err { OnErr result (self.new ≡ self.old) }
    {
        Ok(self.items.push(filter)?)
    }

    // Adds a copy of a filter at the end.
    #[cycle(copy)]
    pub(crate) fn push_copy(&mut self, alloc: Global, filter: &Filter) -> Result<(), AllocError>
        ensures { OnOk result (self.new ≡ self.old ++ view filter.now ∷ []) }
    {
        self.push(filter.copy(alloc)?)
    }

    #[cycle(copy)]
    pub fn copy(&self, alloc: Global) -> Result<Filters, AllocError>
        ensures { IfOk result (λ fs. fs ≡ self.now) }
    {
        let mut all = Filters {
            items: Vec::with_capacity(alloc, self.items.len())?,
        };
        for filter in self.as_slice() {
            all.push_copy(alloc, filter)?;
        }
        Ok(all)
    }
}
