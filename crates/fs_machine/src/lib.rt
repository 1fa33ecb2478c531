//! What a Firestore server is at each moment, and what each of its events does, as definitions: with the types that they
//! speak of, and the laws of what they promise.
#![tactic(auto)]

mod answer;
mod asker;
mod committed;
mod config;
mod laws;
mod limits;
mod messages;
mod numbers;
mod parked;
mod parked_request;
mod reply;
mod session;
mod unreleased;

pub use answer::{Answer, Outcome, Settled};
pub use asker::Asker;
pub use committed::Committed;
pub use config::{Config, Mode};
pub use laws::machines_are_lawful;
pub use limits::Limits;
pub use messages::Messages;
pub use numbers::Numbers;
pub use parked::Parked;
pub use parked_request::ParkedRequest;
pub use reply::Reply;
pub use session::Session;
pub use unreleased::Unreleased;
