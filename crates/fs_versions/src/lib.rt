//! The versions of the documents of a Cloud Firestore database, for reads at a time.
#![tactic(auto)]

mod chain;
mod install;
mod listed;
mod versions;

pub use fs_history::Version;
pub use versions::Versions;
