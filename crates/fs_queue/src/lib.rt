//! The batches that a client has written and no snapshot covers yet, and what they make of its documents.
#![tactic(auto)]

mod batch;
mod error;
mod overlay;
mod push;
mod queue;
mod shelf;

pub use batch::{Acknowledged, LocalBatch, Phase};
pub use error::QueueError;
pub use overlay::Overlay;
pub use queue::Queue;
pub use shelf::{Listed, Shelf};
