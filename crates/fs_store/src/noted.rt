//! What is noted of a document that a commit changed.
use fs_path::DocName;
use fs_status::Id;
use fs_time::Micros;

/// That a commit changed a document. What the document was before and afterwards is told by its versions.
#[derive(Drop)]
pub struct Noted {
    /// The commit time.
    pub time: Micros,
    /// The number of the commit.
    pub id: Id,
    pub name: DocName,
}
