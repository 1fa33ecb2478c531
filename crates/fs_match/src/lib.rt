//! What a change of a document means to a listener: whether the document enters what is listened to, changes in it, or leaves it.
#![tactic(auto)]

mod events;
mod laws;
mod matching;

pub use events::Event;
pub use laws::matching_is_lawful;
pub use matching::{event, event_names};
