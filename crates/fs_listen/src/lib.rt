//! What a session is told of the targets that it listens to: their views, how far they are, what is sent when they go on, and that
//! whoever gathers it has the views of all of them at one time.
#![tactic(auto)]

mod cut;
mod laws;
mod whole;

pub use cut::Cut;
pub use laws::listening_is_lawful;
pub use whole::is_whole;
