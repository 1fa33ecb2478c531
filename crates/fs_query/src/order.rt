//! The orders of a query.
use fs_path::{Copied, FieldPath, List};
use std::alloc::{AllocError, Global};

/// A field that documents are ordered by (v1 reference, "StructuredQuery.Order"). The path `__name__` is the document's
/// name.
#[derive(Drop)]
pub struct Order {
    pub path: FieldPath,
    pub descending: bool,
}

impl Order {
    ghost use Rattle.std.specs.Prelude.{◌≡◌, IfOk};

    pub fn copy(&self, alloc: Global) -> Result<Order, AllocError>
        ensures { IfOk result (λ o. o ≡ self.now) }
    {
        Ok(Order {
            path: self.path.copy(alloc)?,
            descending: self.descending,
        })
    }
}

/// Orders, the first of which decides first.
pub type Orders = List<Order>;

impl Copied for Order {
    fn copy(&self, alloc: Global) -> Result<Order, AllocError> {
        self.copy(alloc)
    }
}
