//! The elements of an array.
use crate::value::Value;
use std::alloc::{AllocError, Global};
use std::marker::Model;

/// Values in order, as the elements of an array. Contracts see them as a list of `Data`.
#[cycle(value)]
#[derive(Drop)]
pub struct Values {
    items: Vec<Value>,
}

impl Model for Values {
    ghost use Rattle.std.specs.Prelude.{List, map};
    ghost use Rattle.fs_value.specs.Data.{Data, items_of, items_weight};
    ghost use Rattle.fs_value.specs.DataLaws.{data_list_code};

    ghost Value = { List Data };

    ghost coded = { data_list_code };

    ghost use Rattle.fs_value.specs.View.{view as value_view};

    ghost view = { λ v. map value_view v.items.items };

    ghost size = { λ ds. items_weight (items_of ds) };

    ghost use Rattle.std.proofs.Common.{arith};
    ghost use Rattle.fs_value.specs.Falls.{values_fall};

    ghost size_decreases = { λ a h. omega (arith, values_fall a.items.items) };
}

impl Values {
    ghost use Rattle.std.specs.Prelude.{◌≡◌, ◌↔◌, ℕ, ◌<◌, ◌∷◌, ◌++◌, IfOk, OnOk, OnErr, IsTrue, Some, [], length, map, slice_get, slice_index_or};
    ghost use Rattle.fs_value.specs.Data.{items_of, weight, items_weight};
    ghost use Rattle.fs_value.specs.View.{view};
    ghost use Rattle.fs_value.specs.declared.value.Value.{Value};

    /// No values. The allocator serves those that are pushed.
    pub fn new(alloc: Global) -> Values
        ensures { result ≡ [] }
    {
        Values {
            items: Vec::new(alloc),
        }
    }

    /// No values, with room for so many.
    pub fn with_capacity(alloc: Global, capacity: usize) -> Result<Values, AllocError>
        ensures { IfOk result (λ vs. vs ≡ []) }
    {
        Ok(Values {
            items: Vec::with_capacity(alloc, capacity)?,
        })
    }

    /// The values of a `Vec`, without a copy.
    pub fn of(items: Vec<Value>) -> Values
        ensures { result ≡ map view items.items }
    {
        Values { items }
    }

    /// The values as a `Vec`, without a copy.
    pub fn into_vec(self) -> Vec<Value>
        ensures { map view result.items ≡ self }
    {
        self.items
    }

    // An element weighs less than the list, which is the measure of a recursion over values.
    pub fn as_slice(&self) -> &[Value]
        ensures value { map view result.now ≡ self.now }
        ensures lighter { (k : ℕ) (d : Value) → k < length result.now
            → weight (view (slice_index_or result.now k d)) < items_weight (items_of self.now) }
    {
        self.items.as_slice()
    }

    pub fn len(&self) -> usize
        ensures { result ≡ length self.now }
    {
        self.items.len()
    }

    pub fn is_empty(&self) -> bool
        ensures { IsTrue result ↔ (self.now ≡ []) }
    {
        self.items.is_empty()
    }

    pub fn at(&self, i: usize) -> &Value
        requires { i < length self.now }
        ensures value { slice_get self.now i ≡ Some (view result.now) }
        ensures lighter { weight (view result.now) < items_weight (items_of self.now) }
    {
        &self.items[i]
    }

    /// Adds a value at the end.
    pub fn push(&mut self, value: Value) -> Result<(), AllocError>
        ensures ok { OnOk result (self.new ≡ self.old ++ view value ∷ []) }
        ensures err { OnErr result (self.new ≡ self.old) }
    {
        Ok(self.items.push(value)?)
    }

    #[cycle(copy)]
    pub fn copy(&self, alloc: Global) -> Result<Values, AllocError>
        ensures { IfOk result (λ vs. vs ≡ self.now) }
    {
        let mut items = Vec::with_capacity(alloc, self.items.len())?;
        for value in &self.items {
            items.push(value.copy(alloc)?)?;
        }
        Ok(Values { items })
    }
}
