//! A Cloud Firestore server in memory: sessions, their requests, commits that are prepared and then settled, reads as of a time.
//! Each call is one event of the server, and its contract is that event's definition.
#![tactic(auto)]

mod answering;
mod batch;
mod carry;
mod changes;
mod check;
mod commit;
mod limits;
mod listen;
mod load;
mod matched;
mod numbers;
mod open;
mod raise;
mod read;
mod request;
mod retry;
mod server;
mod settle;
mod shown;
mod waiting;
mod waits;
mod write;

pub use fs_machine::{Answer, Config, Limits, Messages, Mode, Outcome, Parked, Settled};
pub use fs_past::Version;
pub use fs_target::{Cut, TimedEvent, TimedEvents};
pub use server::Server;
