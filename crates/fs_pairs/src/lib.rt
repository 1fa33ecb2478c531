//! Numbers paired one to one: which session owns which write stream, which target of a session has which number.
#![tactic(auto)]

mod pairs;

pub use pairs::Pairs;
