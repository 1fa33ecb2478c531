//! The documents that a client has of the targets that it listens to: those of its last snapshot, and those that it was told since.
#![tactic(auto)]

mod cache;
mod cached;
mod changes;
mod places;

pub use cache::Cache;
pub use cached::CachedDocument;
