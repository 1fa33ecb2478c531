//! The limits of queries.

/// The number of values that NOT_IN may have.
pub(crate) const MAX_NOT_IN: usize = 10;

/// The number of disjuncts that a filter may have.
pub(crate) const MAX_DISJUNCTS: u64 = 30;

/// No greater number of disjuncts is told.
pub(crate) const MOST_TOLD: u64 = 1_000;
