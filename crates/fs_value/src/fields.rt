//! Fields, in the order of their keys.
use crate::value::Value;
use fs_path::Text;
use std::alloc::{AllocError, Global};
use std::marker::Model;

/// A field: its key and its value.
#[cycle(value)]
#[derive(Drop)]
pub struct Field {
    pub key: Text,
    pub value: Value,
}

const _: () = prove!(size_of::<Field>() <= 56);

impl Field {
    ghost use Rattle.std.specs.Prelude.{◌≡◌, IfOk};
    ghost use Rattle.fs_value.specs.View.{field_view};

    #[cycle(copy)]
    pub fn copy(&self, alloc: Global) -> Result<Field, AllocError>
        ensures { IfOk result (λ f. field_view f ≡ field_view self.now) }
    {
        Ok(Field {
            key: self.key.copy(alloc)?,
            value: self.value.copy(alloc)?,
        })
    }
}

/// The fields of a document or a map, in the order of their keys, each key once. Contracts see them as a list of pairs
/// whose keys rise:
///
///     a: 1
///     b: true      `put` of `aa` goes between these two,
///     é: null      and `put` of `b` takes the place of `true`
#[cycle(value)]
#[derive(Drop)]
pub struct Fields {
    pub(crate) items: Vec<Field>,
}

impl Model for Fields {
    ghost use Rattle.std.specs.Prelude.{List, ℕ, map, IsTrue};
    ghost use Rattle.std.specs.FinMap.{is_sorted};
    ghost use Rattle.fs_path.specs.TextOrder.{text_cmp};
    ghost use Rattle.fs_value.specs.Data.{Data, members_of, members_weight};
    ghost use Rattle.fs_value.specs.DataLaws.{data_fields_code};

    ghost Value = { List (List ℕ × Data) };

    ghost coded = { data_fields_code };

    ghost use Rattle.fs_value.specs.View.{field_view};

    ghost view = { λ v. map field_view v.items.items };

    ghost invariant = { λ v. IsTrue (is_sorted text_cmp (map field_view v.items.items)) };

    ghost size = { λ fs. members_weight (members_of fs) };

    ghost use Rattle.std.proofs.Common.{arith};
    ghost use Rattle.fs_value.specs.Falls.{fields_fall};

    ghost size_decreases = { λ a h. omega (arith, fields_fall a.items.items) };
}

impl Fields {
    ghost use Rattle.std.specs.Prelude.{◌≡◌, ◌↔◌, ℕ, ◌<◌, ◌∷◌, ◌++◌, IfOk, OnOk, OnErr, MatchResult, IsTrue, Some, [], length, map, option_map, slice_get, slice_index_or};
    ghost use Rattle.std.specs.FinMap.{is_sorted, find, put};
    ghost use Rattle.fs_path.specs.TextOrder.{text_cmp};
    ghost use Rattle.fs_value.specs.Data.{members_of, weight, members_weight};
    ghost use Rattle.fs_value.specs.FieldPlace.{IsFoundAt, IsMissingAt};
    ghost use Rattle.fs_value.specs.View.{view, field_view};
    ghost use Rattle.fs_value.specs.declared.fields.Field.{Field};

    /// No fields. The allocator serves those that are put in.
    pub fn new(alloc: Global) -> Fields
        ensures { result ≡ [] }
    {
        Fields {
            items: Vec::new(alloc),
        }
    }

    /// No fields, with room for so many.
    pub fn with_capacity(alloc: Global, capacity: usize) -> Result<Fields, AllocError>
        ensures { IfOk result (λ fs. fs ≡ []) }
    {
        Ok(Fields {
            items: Vec::with_capacity(alloc, capacity)?,
        })
    }

    /// The fields of a `Vec` whose keys rise, without a copy.
    pub fn of(items: Vec<Field>) -> Fields
        requires { IsTrue (is_sorted text_cmp (map field_view items.items)) }
        ensures { result ≡ map field_view items.items }
    {
        Fields { items }
    }

    /// The fields as a `Vec`, without a copy.
    pub fn into_vec(self) -> Vec<Field>
        ensures value { map field_view result.items ≡ self }
        ensures rise { IsTrue (is_sorted text_cmp self) }
    {
        self.items
    }

    // A value weighs less than its fields, which is the measure of a recursion over values.
    pub fn as_slice(&self) -> &[Field]
        ensures value { map field_view result.now ≡ self.now }
        ensures rise { IsTrue (is_sorted text_cmp self.now) }
        ensures lighter { (k : ℕ) (f : Field) → k < length result.now
            → weight (view (slice_index_or result.now k f).value) < members_weight (members_of self.now) }
    {
        self.items.as_slice()
    }

    pub fn len(&self) -> usize
        ensures value { result ≡ length self.now }
        ensures rise { IsTrue (is_sorted text_cmp self.now) }
    {
        self.items.len()
    }

    pub fn is_empty(&self) -> bool
        ensures { IsTrue result ↔ (self.now ≡ []) }
    {
        self.items.is_empty()
    }

    pub(crate) fn key_at(&self, i: usize) -> &Text
        requires { i < length self.now }
        ensures { option_map (λ f. f.0) (slice_get self.now i) ≡ Some result.now }
    {
        &self.items[i].key
    }

    pub fn value_at(&self, i: usize) -> &Value
        requires { i < length self.now }
        ensures value { option_map (λ f. f.1) (slice_get self.now i) ≡ Some (view result.now) }
        ensures lighter { weight (view result.now) < members_weight (members_of self.now) }
    {
        &self.items[i].value
    }

    // The place of a key, or where it is to be inserted.
    pub(crate) fn place(&self, key: &str) -> Result<usize, usize>
        ensures { MatchResult result (IsFoundAt key.now self.now) (IsMissingAt key.now self.now) }
    {
        self.items
            .binary_search_by(|field| field.key.as_str().cmp(key))
    }

    /// The value at a key.
    pub fn find(&self, key: &str) -> Option<&Value>
        ensures { option_map (λ v. view v.now) result ≡ find text_cmp key.now self.now }
    {
        match self.place(key) {
            Ok(i) => Some(&self.items[i].value),
            Err(_) => None,
        }
    }

    /// Puts a value at a key, in place of the value that is there.
    pub fn put(&mut self, key: Text, value: Value) -> Result<(), AllocError>
        ensures ok { OnOk result (self.new ≡ put text_cmp key (view value) self.old) }
        ensures err { OnErr result (self.new ≡ self.old) }
    {
        match self.place(key.as_str()) {
            Ok(i) => {
                self.items[i].value = value;
                Ok(())
            }
            Err(i) => Ok(self.items.insert(i, Field { key, value })?),
        }
    }

    /// Adds a field whose key is above all that are there, without a search.
    pub fn push_last(&mut self, key: Text, value: Value) -> Result<(), AllocError>
        requires { IsTrue (is_sorted text_cmp (self.old ++ (key, view value) ∷ [])) }
        ensures ok { OnOk result (self.new ≡ self.old ++ (key, view value) ∷ []) }
        ensures err { OnErr result (self.new ≡ self.old) }
    {
        Ok(self.items.push(Field { key, value })?)
    }

    #[cycle(copy)]
    pub fn copy(&self, alloc: Global) -> Result<Fields, AllocError>
        ensures { IfOk result (λ fs. fs ≡ self.now) }
    {
        let mut items = Vec::with_capacity(alloc, self.items.len())?;
        for field in &self.items {
            items.push(field.copy(alloc)?)?;
        }
        Ok(Fields { items })
    }
}
