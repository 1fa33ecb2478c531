//! The JSON of Firestore's values and documents, read and written.
#![tactic(auto)]

mod document;
mod names;
mod push;
mod read;
mod write;

pub use document::{read_document, write_update};
pub use push::{push_document, push_list, push_text, push_time};
pub use read::{read_array, read_list, read_value};
pub use write::{write_array, write_list, write_value};
