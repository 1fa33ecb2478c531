//! An array with changes that wait.
use crate::array_change::ArrayChange;
use crate::closing::{append, gather, without};
use fs_value::Values;
use std::alloc::{AllocError, Global};
use std::marker::Model;

/// An array with changes that are carried out all together when it is closed, so that they take no longer than its elements
/// and theirs. Contracts see it as the list of the elements after the changes:
///
///     there        changes that wait        seen as
///     [1, 2]                                [1, 2]
///     [1, 2]       append 3, 1              [1, 2, 3]
///     [1, 2]       append 3, 1; remove 1    [2, 3]
#[derive(Drop)]
pub(crate) struct OpenArray {
    there: Values,
    changes: Vec<ArrayChange>,
}

impl Model for OpenArray {
    ghost use Rattle.std.specs.Prelude.{List};
    ghost use Rattle.fs_value.specs.Data.{Data};
    ghost use Rattle.fs_value.specs.DataLaws.{data_list_code};
    ghost use Rattle.fs_edit.specs.ArrayChanges.{after_all};

    ghost Value = { List Data };

    ghost coded = { data_list_code };

    ghost view = { λ a. after_all a.changes.items a.there };
}

impl OpenArray {
    ghost use Rattle.std.specs.Prelude.{◌≡◌, IfOk, OnOk};
    ghost use Rattle.fs_edit.specs.ArrayChanges.{elements_after};

    // An array with these elements and no changes yet.
    pub(crate) fn of(alloc: Global, there: Values) -> OpenArray
        ensures { result ≡ there }
    {
        OpenArray {
            there,
            changes: Vec::new(alloc),
        }
    }

    // Has one more change wait.
    pub(crate) fn change(&mut self, change: ArrayChange) -> Result<(), AllocError>
        ensures { OnOk result (self.new ≡ elements_after change self.old) }
    {
        Ok(self.changes.push(change)?)
    }

    // The elements, after the changes.
    pub(crate) fn close(self, alloc: Global) -> Result<Values, AllocError>
        ensures { IfOk result (λ vs. vs ≡ self) }
    {
        let OpenArray { there, changes } = self;
        let (gone, given) = gather(alloc, changes)?;
        append(alloc, without(there, &gone), given)
    }
}
