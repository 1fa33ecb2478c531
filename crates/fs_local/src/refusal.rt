//! A batch that was refused.
ghost use Rattle.std.specs.Prelude.{◌≡◌, IfOk};

use fs_path::Text;
use fs_status::Code;
use std::alloc::{AllocError, Global};

/// A batch of a client that the server refused: its number, which counts from 1, and the error. (`google.rpc.Status`.)
#[derive(Drop)]
pub struct BatchRefusal {
    pub batch: u64,
    pub code: Code,
    pub message: Text,
}

impl BatchRefusal {
    /// The same once more.
    pub fn copy(&self, alloc: Global) -> Result<BatchRefusal, AllocError>
        ensures { IfOk result (λ r. r ≡ self.now) }
    {
        Ok(BatchRefusal {
            batch: self.batch,
            code: self.code,
            message: self.message.copy(alloc)?,
        })
    }
}
