//! What a commit changes.
ghost use Rattle.std.specs.Prelude.{◌≡◌, IfOk};

use fs_path::{Copied, DocName, List};
use fs_value::Document;
use std::alloc::{AllocError, Global};

/// What a commit made of one document: the document before and after, each none where there is none.
#[derive(Drop)]
pub struct Change {
    pub name: DocName,
    pub before: Option<Document>,
    pub after: Option<Document>,
}

/// A copy of the document that is there, if one is.
pub fn copy_document(
    alloc: Global,
    document: &Option<Document>,
) -> Result<Option<Document>, AllocError>
    ensures { IfOk result (λ d. d ≡ document.now) }
{
    match document {
        Some(there) => Ok(Some(there.copy(alloc)?)),
        None => Ok(None),
    }
}

impl Change {
    /// The same change once more. Its documents share their fields with those here.
    pub fn copy(&self, alloc: Global) -> Result<Change, AllocError>
        ensures { IfOk result (λ c. c ≡ self.now) }
    {
        Ok(Change {
            name: self.name.copy(alloc)?,
            before: copy_document(alloc, &self.before)?,
            after: copy_document(alloc, &self.after)?,
        })
    }
}

/// The changes of a commit: each document that differs once, in the order of names.
pub type Changes = List<Change>;

impl Copied for Change {
    fn copy(&self, alloc: Global) -> Result<Change, AllocError> {
        self.copy(alloc)
    }
}
