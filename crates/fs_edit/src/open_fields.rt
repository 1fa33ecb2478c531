//! Opened fields, and how they are opened and closed.
use crate::field_change::FieldChange;
use crate::open_array::OpenArray;
use fs_path::Text;
use fs_value::{Field, Fields, Value, Values};
use std::alloc::{AllocError, Global};
use std::collections::BTreeMap;
use std::marker::Model;

/// The value of an opened field. A map is opened only where a path leads into it, an array where its elements are changed.
#[cycle(open)]
#[derive(Drop)]
pub(crate) enum Open {
    Whole(Value),
    Map(OpenFields),
    Array(OpenArray),
}

/// Fields that are opened for changes: each takes the logarithm of their number, where `Fields` move what stands behind
/// a field that is put in or taken out. Contracts see them as `Fields`, a list of pairs whose keys rise:
///
///     opened                    {a: {b: 1, c: 2}, d: [3]}         `a` and `d` are whole values
///     a.b is set to 5           {a: {b: 5, c: 2}, d: [3]}         `a` is opened too
///     3, 4 appended to d        {a: {b: 5, c: 2}, d: [3, 4]}      `d` is opened, with a change that waits
///     closed                    {a: {b: 5, c: 2}, d: [3, 4]}
/// (docs/DECISIONS.md, "A write's fields are opened for its changes".)
#[cycle(open)]
#[derive(Drop)]
pub struct OpenFields {
    pub(crate) entries: BTreeMap<Text, Open>,
}

impl Model for OpenFields {
    ghost use Rattle.std.specs.Prelude.{List, ℕ, map};
    ghost use Rattle.fs_value.specs.Data.{Data, members_of, members_weight};
    ghost use Rattle.fs_value.specs.DataLaws.{data_fields_code};

    ghost Value = { List (List ℕ × Data) };

    ghost coded = { data_fields_code };

    ghost use Rattle.fs_edit.specs.OpenView.{entry_view};

    ghost view = { λ o. map entry_view o.entries.entries };

    ghost size = { λ fs. members_weight (members_of fs) };

    ghost use Rattle.std.proofs.Common.{arith};
    ghost use Rattle.fs_edit.specs.Falls.{entries_fall};

    ghost size_decreases = { λ a h. omega (arith, entries_fall a.entries.entries) };
}

impl OpenFields {
    ghost use Rattle.std.specs.Prelude.{◌≡◌, IfOk, OnOk};
    ghost use Rattle.std.specs.FinMap.{put};
    ghost use Rattle.fs_path.specs.TextOrder.{text_cmp};
    ghost use Rattle.fs_value.specs.FieldPaths.{without};
    ghost use Rattle.fs_edit.specs.OpenView.{open_view};

    /// Opens fields. What they hold is moved, and no value in them is opened yet.
    pub fn open(alloc: Global, fields: Fields) -> Result<OpenFields, AllocError>
        ensures { IfOk result (λ o. o ≡ fields) }
    {
        let mut opened = OpenFields {
            entries: BTreeMap::new(alloc),
        };
        for Field { key, value } in fields.into_vec() {
            opened.put(key, Open::Whole(value))?;
        }
        Ok(opened)
    }

    // Puts a value at a key, in place of the one that is there.
    pub(crate) fn put(&mut self, key: Text, held: Open) -> Result<(), AllocError>
        ensures { OnOk result (self.new ≡ put text_cmp key (open_view held) self.old) }
    {
        let before = self.entries.insert(key, held)?;
        drop(before);
        Ok(())
    }

    // Takes out the field at a key, if there is one.
    pub(crate) fn remove(&mut self, key: &Text)
        ensures { self.new ≡ without key.now self.old }
    {
        // Whose length was asked, its keys are known to rise.
        let _count = self.entries.len();
        drop(self.entries.remove(key));
    }

    /// Closes fields, with all that is opened in them.
    #[cycle(close)]
    pub fn close(self, alloc: Global) -> Result<Fields, AllocError>
        ensures { IfOk result (λ fs. fs ≡ self) }
    {
        let mut items = Vec::with_capacity(alloc, self.entries.len())?;
        for (key, held) in self.entries {
            items.push(Field {
                key,
                value: held.close(alloc)?,
            })?;
        }
        Ok(Fields::of(items))
    }
}

impl Open {
    ghost use Rattle.std.specs.Prelude.{◌≡◌, IfOk, Some};
    ghost use Rattle.fs_value.specs.FieldPaths.{fields_below};
    ghost use Rattle.fs_value.specs.View.{view};
    ghost use Rattle.fs_edit.specs.Arrays.{elements_in};
    ghost use Rattle.fs_edit.specs.FieldChange.{value_made};
    ghost use Rattle.fs_edit.specs.OpenView.{open_view};

    #[cycle(close)]
    fn close(self, alloc: Global) -> Result<Value, AllocError>
        ensures { IfOk result (λ v. view v ≡ open_view self) }
    {
        match self {
            Open::Whole(value) => Ok(value),
            Open::Map(fields) => Ok(Value::Map(fields.close(alloc)?)),
            Open::Array(array) => Ok(Value::Array(array.close(alloc)?)),
        }
    }

    // The fields of a map, opened, or none of a value that is no map.
    pub(crate) fn into_fields(self, alloc: Global) -> Result<OpenFields, AllocError>
        ensures { IfOk result (λ fs. fs ≡ fields_below (Some (open_view self))) }
    {
        match self {
            Open::Map(fields) => Ok(fields),
            Open::Whole(Value::Map(fields)) => OpenFields::open(alloc, fields),
            _ => OpenFields::open(alloc, Fields::new(alloc)),
        }
    }

    // The elements of an array, opened, or none of a value that is no array.
    #[tactic(auto, using(crate::proofs::Elements::array_elements))]
    fn into_array(self, alloc: Global) -> OpenArray
        ensures { result ≡ elements_in (Some (open_view self)) }
    {
        match self {
            Open::Array(array) => array,
            Open::Whole(Value::Array(elements)) => OpenArray::of(alloc, elements),
            _ => OpenArray::of(alloc, Values::new(alloc)),
        }
    }

    // What a change makes of a value.
    pub(crate) fn changed(self, alloc: Global, change: FieldChange) -> Result<Open, AllocError>
        ensures { IfOk result (λ o. open_view o ≡ value_made change (Some (open_view self))) }
    {
        match change {
            FieldChange::Set(value) => Ok(Open::Whole(value)),
            FieldChange::Elements(change) => {
                let mut array = self.into_array(alloc);
                array.change(change)?;
                Ok(Open::Array(array))
            }
        }
    }
}
