//! Versions of documents.
use fs_time::Micros;
use fs_value::Document;
use fs_write::copy_document;
use std::alloc::{AllocError, Global};

/// What a batch left of a document that it changed: the document, or none where it was deleted.
/// (docs/DECISIONS.md, "A version holds its whole document".)
#[derive(Drop)]
pub struct Version {
    /// The time of the batch.
    pub time: Micros,
    pub after: Option<Document>,
}

impl Version {
    ghost use Rattle.std.specs.Prelude.{◌≡◌, IfOk};

    /// A copy, whose document shares its fields with this one's.
    pub fn copy(&self, alloc: Global) -> Result<Version, AllocError>
        ensures { IfOk result (λ v. v ≡ self.now) }
    {
        Ok(Version {
            time: self.time,
            after: copy_document(alloc, &self.after)?,
        })
    }
}
