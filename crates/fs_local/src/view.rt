//! What a client shows of a target.
use fs_path::Names;
use fs_time::Micros;
use fs_value::Documents;

/// What a client shows of a target that it listens to. (Cloud Firestore documentation, "Access data offline", `SnapshotMetadata`.)
#[derive(Drop)]
pub struct View {
    /// The time of the last snapshot, where one was taken.
    pub snapshot: Option<Micros>,
    /// Whether the documents may be old, as the last snapshot wasn't taken on the present link with the target listened to.
    pub from_cache: bool,
    /// The answer to the query, in its order, or the documents in the order of their names: with the client's own writes.
    pub documents: Documents,
    /// The names of those that a write names that isn't covered by the snapshot, in the same order.
    pub pending: Names,
}
