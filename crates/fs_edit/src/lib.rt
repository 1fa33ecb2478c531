//! The fields of a document, opened for any number of changes at field paths.
#![tactic(auto)]

mod array_change;
mod closing;
mod field_change;
mod integer;
mod open_array;
mod open_fields;
mod set;
mod unset;

pub use open_fields::OpenFields;
