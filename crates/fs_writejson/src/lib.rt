//! The JSON of the writes of a commit and of their results, read with the place of each fault, and written.
#![tactic(auto)]

mod condition;
mod draft;
mod mask;
mod names;
mod read;
mod results;
mod rules;
mod transform;
mod write;
mod write_transform;

pub use draft::{Draft, Drafts};
pub use mask::{read_mask, write_mask};
pub use read::{read_drafts, read_write};
pub use results::{push_result, read_result};
pub use rules::judge;
pub use write::write_write;
