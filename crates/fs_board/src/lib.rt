//! The commit times of a Cloud Firestore server: which commits are pending or accepted, and up to which time all is decided.
#![tactic(auto)]

mod board;
mod entry;
mod error;

pub use board::Board;
pub use entry::Entry;
pub use error::BoardError;
