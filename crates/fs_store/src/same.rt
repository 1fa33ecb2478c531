//! Whether documents are the same.
ghost use Rattle.std.specs.Prelude.{◌≡◌, ◌↔◌, IsTrue};
ghost use Rattle.std.specs.Option.{option_copied};
ghost use Rattle.fs_write.specs.Batch.{Bears};

use fs_path::DocName;
use fs_value::{Document, document_same};

/// Whether both are none, or the same document.
pub(crate) fn is_same(a: Option<&Document>, b: &Option<Document>) -> bool
    ensures { IsTrue result ↔ (b.now ≡ option_copied a.entry) }
{
    match (a, b) {
        (Some(one), Some(other)) => document_same(one, other),
        (None, None) => true,
        _ => false,
    }
}

/// Whether a document, if there is one, bears a name.
pub(crate) fn bears(document: &Option<Document>, name: &DocName) -> bool
    ensures { IsTrue result ↔ Bears document.now name.now }
{
    match document {
        Some(document) => document.name == *name,
        None => true,
    }
}
