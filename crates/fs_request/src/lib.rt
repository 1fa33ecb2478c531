//! What is asked of Firestore, and what it answers: requests and messages as types, whatever carries them.
#![tactic(auto)]

mod id;
mod message;
mod options;
mod request;
mod stream_request;
mod when;

pub use id::copy_id;
pub use message::{Answers, BatchAnswer, Message, StreamAnswer};
pub use options::TransactionOptions;
pub use request::{Envelope, Request};
pub use stream_request::StreamRequest;
pub use when::When;
