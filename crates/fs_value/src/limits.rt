//! The limits of values and documents, in the documentation's words: "Maximum depth of fields in a map or array", "Maximum
//! size for a document".

/// The greatest depth that a value of a document may have: arrays and maps nest 20 deep at most.
pub const DEEPEST_VALUE: u32 = 20;

/// The greatest counted size that a document may have, in bytes.
pub const LARGEST_DOCUMENT: u128 = 1_048_576;
