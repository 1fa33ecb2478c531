//! Kinds of transactions.

/// What a transaction may do. (v1 reference, "TransactionOptions".)
#[derive(Clone, Copy, PartialEq, Eq)]
pub enum Kind {
    /// It reads and then writes. No other commit may change what it has read before it commits.
    ReadWrite,
    /// It only reads, all at one time.
    ReadOnly,
}
