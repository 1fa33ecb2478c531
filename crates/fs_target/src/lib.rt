//! The targets of a session: how far each of them was told each shard, what is staged, and what the session is told when it is raised. It is
//! handed no store: documents come by `load`, and what changes by `feed`.
#![tactic(auto)]

mod answered;
mod awake;
mod collections;
mod cuts;
mod entry;
mod error;
mod event;
mod feed;
mod kept;
mod keys;
mod latest;
mod laws;
mod place;
mod places;
mod positions;
mod raise;
mod staged;
mod still;
mod targets;
mod told;

pub use error::TargetError;
pub use event::{TimedEvent, TimedEvents, are_named};
pub use fs_listen::Cut;
pub use fs_query::Target;
pub use laws::targets_are_lawful;
pub use targets::Targets;
