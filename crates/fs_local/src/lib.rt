//! What a client of Firestore is and what each of its steps does, as definitions: with the types that they speak of, and the laws of what
//! they promise.
#![tactic(auto)]

mod error;
mod laws;
mod listened;
mod refusal;
mod view;

pub use error::ClientError;
pub use laws::clients_are_lawful;
pub use listened::Listened;
pub use refusal::BatchRefusal;
pub use view::View;
