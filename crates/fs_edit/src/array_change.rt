//! The changes of an array.
use fs_value::Values;

/// What is done to the elements of an array.
#[derive(Drop)]
pub(crate) enum ArrayChange {
    /// These are appended, each unless it is there by then.
    Append(Values),
    /// These are taken out, wherever they stand.
    Remove(Values),
}
