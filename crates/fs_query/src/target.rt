//! What a session listens to.
use crate::query::Query;
use fs_path::{Copied, Names};
use std::alloc::{AllocError, Global};

/// What one target of a session listens to. (v1 reference, `Target`.)
#[derive(Drop)]
pub enum Target {
    /// The answer to a query.
    Query(Query),
    /// The documents that there are of these names.
    Documents(Names),
}

impl Target {
    ghost use Rattle.std.specs.Prelude.{◌≡◌, IfOk};

    pub fn copy(&self, alloc: Global) -> Result<Target, AllocError>
        ensures { IfOk result (λ t. t ≡ self.now) }
    {
        Ok(match self {
            Target::Query(query) => Target::Query(query.copy(alloc)?),
            Target::Documents(names) => Target::Documents(names.copy(alloc)?),
        })
    }
}
