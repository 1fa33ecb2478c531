//! When documents are read.
use fs_status::Id;
use fs_time::Micros;

/// When documents are read. (v1 reference, the `consistency_selector` of `GetDocumentRequest`, `BatchGetDocumentsRequest` and
/// `RunQueryRequest`.)
#[derive(Clone, Copy, PartialEq, Eq)]
pub enum When {
    /// As they are now, which is at the released time.
    Released,
    /// As they were at this time, the `readTime`.
    At(Micros),
    /// In the `transaction` of this number.
    In(Id),
}
