//! Scripts of requests to a Firestore server: each line is carried out in its turn, and what it writes is the transcript.
#![tactic(auto)]

mod ask;
mod calls;
mod close;
mod directory;
mod forms;
mod gather;
mod held;
mod laws;
mod limits;
mod line;
mod lines;
mod output;
mod play;
mod reply;
mod request;
mod script;
mod serve;
mod state;
mod step;

pub use fs_server::{Config, Limits, Mode};
pub use laws::scripts_are_lawful;
pub use script::replay;
