//! The sessions of a Cloud Firestore server: the messages that wait for each, and what each listens to.
#![tactic(auto)]

mod listeners;
mod matched;
mod matching;
mod raise;
mod sessions;

pub use listeners::Listeners;
pub use matched::lesser;
pub use sessions::Sessions;
