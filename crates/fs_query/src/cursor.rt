//! Cursors.
ghost use Rattle.std.specs.Prelude.{◌≡◌, IfOk};

use fs_value::Values;
use std::alloc::{AllocError, Global};

/// A place in the order of a query's documents (v1 reference, "Cursor"): values for the first of the fields that they are
/// ordered by.
#[derive(Drop)]
pub struct Cursor {
    pub values: Values,
    /// Whether the place is just before the documents with these values, and not just after them.
    pub before: bool,
}

impl Cursor {
    pub fn copy(&self, alloc: Global) -> Result<Cursor, AllocError>
        ensures { IfOk result (λ c. c ≡ self.now) }
    {
        Ok(Cursor {
            values: self.values.copy(alloc)?,
            before: self.before,
        })
    }
}
