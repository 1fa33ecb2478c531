//! The pieces of the JSON of Firestore's requests and answers, each read with the place where it stands.
#![tactic(auto)]

mod bad;
mod binary;
mod lists;
mod members;
mod names;
mod paths;
mod scalars;
mod times;
mod write;

pub use bad::Bad;
pub use binary::{base64_forms, read_bytes};
pub use lists::{ReadsItem, read_each, read_items};
pub use members::{
    at_most_one_of, is_there, member, one_of, only, only_of_two, refuse_unbuilt, required,
};
pub use paths::{
    read_document_name, read_field_path, read_reference, unless_refused, write_field_path,
};
pub use scalars::{
    read_integer, read_json_list, read_required_text, read_small, read_text, read_truth,
};
pub use times::{read_optional_time, read_required_time, read_time, write_time};
pub use write::{with_one, write_bytes, write_integer, write_small, write_text};
