//! The JSON of structured queries, read with the place of each fault, and written.
#![tactic(auto)]

mod cursor;
mod field;
mod filter;
mod from;
mod member;
mod names;
mod op;
mod order;
mod read;
mod select;
mod write;
mod write_filter;
mod write_parts;

pub use read::{judge_query, read_query, refuse_broken, walk_listened, walk_query};
pub use write::write_query;
