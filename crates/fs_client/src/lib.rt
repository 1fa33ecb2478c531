//! The core of a client of Firestore: what it listens to and has written, and what it shows while it is offline or its writes are on the way.
#![tactic(auto)]

mod answers;
mod client;
mod hand;
mod shown;
mod targets;
mod told;

pub use client::Client;
pub use fs_local::{BatchRefusal, ClientError, View};
