//! What can be touched.
use fs_path::{DocName, Scope};

/// What a read touches: the document of a name, or all documents that a query goes over, also those that aren't there yet.
#[derive(Drop)]
pub enum Held {
    Name(DocName),
    Scope(Scope),
}
