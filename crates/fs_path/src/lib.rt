//! The names of Cloud Firestore: projects, databases, document paths and field paths.
#![tactic(auto)]

mod database;
mod error;
mod field;
mod field_name;
mod field_print;
mod head;
mod ids;
mod limits;
mod list;
mod name;
mod names;
mod order;
mod parse;
mod paths;
mod place;
mod print;
mod scope;
mod segment;
mod stage;
mod survey;
mod text;
mod way;

pub use database::check_database;
pub use error::PathError;
pub use field::{FieldPath, parse_field};
pub use field_name::is_bad_field_name;
pub use field_print::print_field;
pub use ids::{Ids, Texts};
pub use list::{Copied, List};
pub use name::{DocName, Root};
pub use names::{Names, sorted_names};
pub use parse::{parse_document, parse_parent, parse_reference};
pub use paths::Paths;
pub use place::{Place, Rule};
pub use print::{print_database, print_document, print_parent};
pub use scope::{MOST_SHARDS, Scope, covers, shard_of, shard_of_document};
pub use segment::is_bad_id;
pub use text::{Bytes, Text};
pub use way::Way;
