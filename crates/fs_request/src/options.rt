//! The options of transactions.
use fs_time::Micros;

/// What a transaction may do. (v1 reference, `TransactionOptions`.)
#[derive(Clone, Copy, PartialEq, Eq)]
pub enum TransactionOptions {
    /// It reads and writes. Which transaction is tried again, its `retryTransaction`, isn't kept.
    ReadWrite,
    /// It reads documents as they were at the read time, or where there is none as they are when it begins.
    ReadOnly { read_time: Option<Micros> },
}
