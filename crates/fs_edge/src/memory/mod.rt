//! Sources, sinks, links, doors and clocks that stand in memory, tell all that they have, and fail where they are told to.
pub mod clock;
pub mod doors;
pub mod link;
pub mod pace;
pub mod sink;
pub mod source;
