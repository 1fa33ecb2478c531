//! The changes of a field.
use crate::array_change::ArrayChange;
use fs_value::Value;

/// What is done to a field.
#[derive(Drop)]
pub(crate) enum FieldChange {
    /// It becomes this value.
    Set(Value),
    /// The elements of its array are changed. A value that isn't there or is no array counts as an empty one.
    Elements(ArrayChange),
}
