//! What was committed to a Cloud Firestore database, and when: its history, the commits that aren't in it yet, its times, and the
//! documents of each time that can be read.
#![tactic(auto)]

mod accepted;
mod answer;
mod commits;
mod committed;
mod holds;
mod named;
mod outcome;
mod past;
mod release;
mod touching;

pub use fs_store::Version;
pub use holds::names_of;
pub use past::Past;
