//! Writes as they were walked.
use fs_path::{List, Paths};
use fs_write::Write;

/// A write as it was walked, before the rules of writes are tested.
/// (docs/DECISIONS.md, "What a write is read as is a draft".)
#[derive(Drop)]
pub struct Draft {
    pub write: Write,
    /// The mask that a delete was given, which it may not have.
    pub idle_mask: Option<Paths>,
    /// Whether each operand of `increment`, `maximum` and `minimum` is an integer. Where one isn't, the transform holds 0.
    pub is_numeric: bool,
}

/// The writes of a commit as they were walked, in their order.
pub type Drafts = List<Draft>;
