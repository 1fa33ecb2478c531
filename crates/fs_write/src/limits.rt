//! The limits of writes.

/// The most writes that a commit may have. (Cloud Firestore documentation, "Transactions and batched writes".)
pub const MOST_WRITES: u64 = 500;

/// The most names that a transform's path may have, so that no call goes deeper than a number that is known. A value there
/// nests far deeper than a document may.
pub(crate) const LONGEST_TRANSFORM_PATH: usize = 127;
