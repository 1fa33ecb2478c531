//! The greatest sizes of names and their parts, in bytes and in segments.

/// The longest id of a collection or a document, in bytes.
pub(crate) const MAX_ID: usize = 1_500;

/// The longest name of a field, in bytes.
pub(crate) const MAX_FIELD_NAME: usize = 1_500;

/// The longest name of a document, in bytes.
pub(crate) const MAX_NAME: usize = 6_144;

/// The longest path, in segments.
pub(crate) const MAX_SEGMENTS: usize = 200;
