//! The fields of a document, which its copies share.
use crate::fields::Fields;
use std::alloc::{AllocError, Global};
use std::marker::Model;
use std::sync::Arc;

/// Fields that stand in memory once, however many copies of their document there are. Contracts see them as `Fields`,
/// so a copy is as good as another.
///
///     one     holds  {n: 1}
///     another holds  {n: 1}             the same block, after `one.copy()`
///     another.into_fields()    {n: 1}   a copy, as `one` holds them too
///     one.into_fields()        {n: 1}   the block itself: nobody else held it any longer
/// (docs/DECISIONS.md, "A document shares its fields with its copies".)
#[derive(Drop)]
pub struct SharedFields {
    fields: Arc<Fields, Global>,
}

impl Model for SharedFields {
    ghost use Rattle.std.specs.Prelude.{List, ℕ};
    ghost use Rattle.std.specs.Arc.{arc_value};
    ghost use Rattle.fs_value.specs.Data.{Data};
    ghost use Rattle.fs_value.specs.DataLaws.{data_fields_code};

    ghost Value = { List (List ℕ × Data) };

    ghost coded = { data_fields_code };

    ghost view = { λ s. arc_value s.fields };
}

impl SharedFields {
    ghost use Rattle.std.specs.Prelude.{◌≡◌, IfOk};

    /// Fields that nobody else holds, without a copy.
    pub fn of(alloc: Global, fields: Fields) -> Result<SharedFields, AllocError>
        ensures { IfOk result (λ s. s ≡ fields) }
    {
        Ok(SharedFields {
            fields: Arc::new(alloc, fields)?,
        })
    }

    pub fn as_fields(&self) -> &Fields
        ensures { result.now ≡ self.now }
    {
        &self.fields
    }

    /// The same fields once more, without a copy of them.
    pub fn copy(&self) -> Result<SharedFields, AllocError>
        ensures { IfOk result (λ s. s ≡ self.now) }
    {
        Ok(SharedFields {
            fields: Arc::try_clone(&self.fields)?,
        })
    }

    /// The fields as one's own: taken out where nobody else holds them, and else a copy.
    pub fn into_fields(self, alloc: Global) -> Result<Fields, AllocError>
        ensures { IfOk result (λ fs. fs ≡ self) }
    {
        match Arc::try_unwrap(self.fields) {
            Ok(fields) => Ok(fields),
            Err(shared) => shared.copy(alloc),
        }
    }
}
