//! What transactions read.
use fs_path::{Copied, DocName, List};
use fs_query::Query;
use fs_value::{Document, Documents};
use fs_write::copy_document;
use std::alloc::{AllocError, Global};

/// A read in a transaction, with what it showed. (v1 reference, "GetDocument", "BatchGetDocuments", "RunQuery":
/// `transaction`.)
#[derive(Drop)]
pub enum Read {
    /// A document, or none where there was none.
    Name {
        name: DocName,
        shown: Option<Document>,
    },
    /// A query and its answer.
    Query {
        query: Query,
        shown: Documents,
    },
}

impl Read {
    ghost use Rattle.std.specs.Prelude.{◌≡◌, IfOk};

    /// A copy, whose documents share their fields with those of this one.
    pub fn copy(&self, alloc: Global) -> Result<Read, AllocError>
        ensures { IfOk result (λ r. r ≡ self.now) }
    {
        Ok(match self {
            Read::Name { name, shown } => Read::Name {
                name: name.copy(alloc)?,
                shown: copy_document(alloc, shown)?,
            },
            Read::Query { query, shown } => Read::Query {
                shown: shown.copy(alloc)?,
                query: query.copy(alloc)?,
            },
        })
    }
}

impl Copied for Read {
    fn copy(&self, alloc: Global) -> Result<Read, AllocError> {
        self.copy(alloc)
    }
}

/// The reads of a transaction, in their order.
pub type Reads = List<Read>;
