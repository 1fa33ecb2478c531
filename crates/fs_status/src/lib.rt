//! The refusals of Cloud Firestore: why a request isn't carried out, with its status and its message.
#![tactic(auto)]

mod code;
mod id;
mod printing;
mod reason;
mod refusal;

pub use code::Code;
pub use id::Id;
pub use printing::message;
pub use reason::{LineFault, Reason};
pub use refusal::{Limit, Refusal};
