//! The outside of fsemu: where bytes come from and go to, links, doors and the clock, in memory and for real.
#![tactic(auto)]

mod clock;
mod count;
mod doors;
mod link;
mod memory;
mod real;
mod sink;
mod source;
mod status;
mod steps;

pub use clock::Clock;
pub use doors::{Door, Doors};
pub use link::{Heard, Link, Sent};
pub use memory::clock::{MemoryClock, Moments};
pub use memory::doors::MemoryDoors;
pub use memory::link::{Hearings, MemoryLink};
pub use memory::pace::{Pace, Paces};
pub use memory::sink::MemorySink;
pub use memory::source::MemorySource;
pub use real::{RealSink, RealSource};
pub use sink::{Gave, Sink};
pub use source::{Source, Took};
pub use status::Status;
pub use steps::Steps;
