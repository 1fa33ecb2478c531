//! What stands at a field path in opened fields, set or changed.
ghost use Rattle.std.specs.Prelude.{◌≡◌, IfOk, OnOk, Some, None};
ghost use Rattle.std.specs.FinMap.{put};
ghost use Rattle.fs_path.specs.TextOrder.{text_cmp};
ghost use Rattle.fs_value.specs.Data.{array, items_of};
ghost use Rattle.fs_value.specs.FieldPaths.{get_fields, set_fields};
ghost use Rattle.fs_value.specs.View.{view};
ghost use Rattle.fs_edit.specs.Arrays.{elements_in, append_missing, remove_all};
ghost use Rattle.fs_edit.specs.FieldChange.{value_made, value_changed};
ghost use Rattle.fs_edit.specs.OpenView.{open_view};

use crate::array_change::ArrayChange;
use crate::field_change::FieldChange;
use crate::open_fields::{Open, OpenFields};
use fs_path::{FieldPath, Text};
use fs_value::{Value, Values};
use std::alloc::{AllocError, Global};
use std::mem::replace;

impl OpenFields {
    /// Sets the value at a path. The maps on the way are made where they aren't there, and a value there that is no map
    /// gives way to one. It refuses only for want of memory.
    pub fn set(self, alloc: Global, path: &FieldPath, v: Value) -> Result<OpenFields, AllocError>
        ensures { IfOk result (λ fs. fs ≡ set_fields path.now.parts (view v) self) }
    {
        self.change(alloc, path, FieldChange::Set(v))
    }

    /// Appends values to the array at a path, each unless it is there by then. A value that isn't there or is no array gives
    /// way to an array, and the way to it is made as in `set`. However many changes an array has, they take no longer than
    /// its elements and their values together, times a logarithm. It refuses only for want of memory.
    pub fn append_missing(
        self,
        alloc: Global,
        path: &FieldPath,
        values: &Values,
    ) -> Result<OpenFields, AllocError>
        ensures { IfOk result (λ fs. fs ≡ set_fields path.now.parts
            (array (items_of (append_missing (elements_in (get_fields path.now.parts self)) values.now))) self) }
    {
        let change = ArrayChange::Append(values.copy(alloc)?);
        self.change(alloc, path, FieldChange::Elements(change))
    }

    /// Takes values out of the array at a path, wherever they stand in it. The rest is as in `append_missing`.
    pub fn remove_all(
        self,
        alloc: Global,
        path: &FieldPath,
        values: &Values,
    ) -> Result<OpenFields, AllocError>
        ensures { IfOk result (λ fs. fs ≡ set_fields path.now.parts
            (array (items_of (remove_all (elements_in (get_fields path.now.parts self)) values.now))) self) }
    {
        let change = ArrayChange::Remove(values.copy(alloc)?);
        self.change(alloc, path, FieldChange::Elements(change))
    }

    fn change(
        self,
        alloc: Global,
        path: &FieldPath,
        change: FieldChange,
    ) -> Result<OpenFields, AllocError>
        ensures { IfOk result (λ fs. fs ≡ set_fields path.now.parts (value_made change (get_fields path.now.parts self)) self) }
    {
        let mut fields = self;
        change_at(alloc, &mut fields, path.parts.as_slice(), change)?;
        Ok(fields)
    }
}

#[cycle(change)]
fn change_at(
    alloc: Global,
    fields: &mut OpenFields,
    names: &[Text],
    change: FieldChange,
) -> Result<(), AllocError>
    ensures { OnOk result (fields.new ≡ set_fields names.now (value_made change (get_fields names.now fields.old)) fields.old) }
{
    match names {
        [] => Ok(()),
        [key, rest @ ..] => match fields.entries.get_mut(key) {
            Some(place) => {
                let before = replace(place, Open::Whole(Value::Null));
                drop(replace(place, changed_inside(alloc, before, rest, change)?));
                Ok(())
            }
            None => change_absent(alloc, fields, key, rest, change),
        },
    }
}

// Puts what a change makes of no value at a key, which is copied.
#[cycle(change)]
fn change_absent(
    alloc: Global,
    fields: &mut OpenFields,
    key: &Text,
    names: &[Text],
    change: FieldChange,
) -> Result<(), AllocError>
    ensures { OnOk result (fields.new ≡ put text_cmp key.now (value_changed names.now change None) fields.old) }
{
    let made = changed_inside(alloc, Open::Whole(Value::Null), names, change)?;
    fields.put(key.copy(alloc)?, made)
}

// What a change makes of a value, or of the map that it is or gives way to.
#[cycle(change)]
fn changed_inside(
    alloc: Global,
    before: Open,
    names: &[Text],
    change: FieldChange,
) -> Result<Open, AllocError>
    ensures { IfOk result (λ o. open_view o ≡ value_changed names.now change (Some (open_view before))) }
{
    if names.is_empty() {
        return before.changed(alloc, change);
    }
    let mut inner = before.into_fields(alloc)?;
    change_at(alloc, &mut inner, names, change)?;
    Ok(Open::Map(inner))
}
