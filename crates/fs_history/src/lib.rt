//! The history of a Cloud Firestore database: the batches of writes that were committed, in the order of their times.
#![tactic(auto)]

mod batch;
mod journal;
mod laws;
mod read;
mod sizes;
mod touch;
mod version;

pub use batch::Batch;
pub use journal::Journal;
pub use laws::histories_are_lawful;
pub use read::{Read, Reads};
pub use sizes::{all_shown, batch_size, commit_size, shown_size};
pub use touch::touches;
pub use version::Version;
