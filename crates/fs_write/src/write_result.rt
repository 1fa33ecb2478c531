//! What a commit answers to its writes.
use fs_path::{Copied, List};
use fs_time::Micros;
use fs_value::Values;
use std::alloc::{AllocError, Global};

/// What a write is answered: when its document was last updated, which is none for a delete, and the results of its
/// transforms in their order. (v1 reference, "WriteResult".)
#[derive(Drop)]
pub struct WriteResult {
    pub updated: Option<Micros>,
    pub transforms: Values,
}

impl WriteResult {
    ghost use Rattle.std.specs.Prelude.{◌≡◌, IfOk};

    pub fn copy(&self, alloc: Global) -> Result<WriteResult, AllocError>
        ensures { IfOk result (λ r. r ≡ self.now) }
    {
        Ok(WriteResult {
            updated: self.updated,
            transforms: self.transforms.copy(alloc)?,
        })
    }
}

/// The results of the writes of a commit, in the order of the writes.
pub type WriteResults = List<WriteResult>;

impl Copied for WriteResult {
    fn copy(&self, alloc: Global) -> Result<WriteResult, AllocError> {
        self.copy(alloc)
    }
}
