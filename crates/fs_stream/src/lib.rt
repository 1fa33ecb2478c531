//! Write streams of a Cloud Firestore database: each batch of a client once, over connections that are lost.
#![tactic(auto)]

mod error;
mod kept;
mod stream;
mod streams;
mod take;

pub use error::StreamError;
pub use kept::Kept;
pub use stream::Stream;
pub use streams::Streams;
pub use take::{Resumed, Take};
