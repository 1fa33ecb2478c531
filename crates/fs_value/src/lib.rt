//! The values, fields and documents of Cloud Firestore, and the order of values.
#![tactic(auto)]

mod counted;
mod document;
mod document_map;
mod fields;
mod limits;
mod nesting;
mod order;
mod path;
mod shared;
mod value;
mod values;

pub use counted::{named_size, size};
pub use document::{Document, Documents, document_same};
pub use document_map::DocumentMap;
pub use fields::{Field, Fields};
pub use limits::{DEEPEST_VALUE, LARGEST_DOCUMENT};
pub use nesting::depth;
pub use order::{compare, fields_same, kind, order_is_lawful, same};
pub use path::{get, paths_are_lawful, set, unset};
pub use shared::SharedFields;
pub use value::Value;
pub use values::Values;
