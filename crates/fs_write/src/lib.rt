//! The writes of a Cloud Firestore commit: masks, preconditions, transforms and their results.
#![tactic(auto)]

mod apply;
mod batch;
mod change;
mod laws;
mod limits;
mod one_write;
mod operation;
mod overlap;
mod rules;
mod timed_change;
mod transform;
mod value_rules;
mod write;
mod write_laws;
mod write_result;

pub use batch::apply_batch;
pub use change::{Change, Changes, copy_document};
pub use laws::operations_are_lawful;
pub use limits::MOST_WRITES;
pub use one_write::write_locally;
pub use overlap::overlap_with;
pub use rules::{check, check_with};
pub use timed_change::{TimedChange, TimedChanges};
pub use transform::{Operation, Transform, Transforms};
pub use write::{Act, Precondition, Write, Writes};
pub use write_laws::{batches_are_lawful, writes_are_lawful};
pub use write_result::{WriteResult, WriteResults};
