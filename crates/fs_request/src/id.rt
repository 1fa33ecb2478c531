//! Ids, by which an answer is told from others.
ghost use Rattle.std.specs.Prelude.{◌≡◌, IfOk};

use fs_path::Text;
use std::alloc::{AllocError, Global};

/// A copy of an id, where there is one.
pub fn copy_id(alloc: Global, id: &Option<Text>) -> Result<Option<Text>, AllocError>
    ensures { IfOk result (λ i. i ≡ id.now) }
{
    match id {
        Some(id) => Ok(Some(id.copy(alloc)?)),
        None => Ok(None),
    }
}
