//! Transactions.
ghost use Rattle.std.specs.Prelude.{◌≡◌, ◌+ℤ◌, ◌≤ℤ◌};
ghost use Rattle.fs_txn.specs.Expiry.{idle, is_long as is_long_at, is_over as is_over_at};
ghost use Rattle.fs_txn.specs.Kept.{ends};

use crate::kind::Kind;
use fs_history::Reads;
use fs_status::Id;
use fs_time::Micros;

/// Microseconds after its last use at which a transaction expires. (Cloud Firestore documentation, "Transactions and batched
/// writes".)
pub const IDLE: i64 = 60_000_000;

/// Microseconds after its begin at which it does. (The same.)
pub const LONGEST: i64 = 270_000_000;

/// A transaction that is open. (v1 reference, "BeginTransaction".)
#[derive(Drop)]
pub struct Txn {
    pub id: Id,
    pub kind: Kind,
    /// The time at which it reads.
    pub read_time: Micros,
    /// The moment at which it began.
    pub begun: Micros,
    /// The moment of its last use: its begin or its last read.
    pub used: Micros,
    /// What it has read, in this order. A read-only one notes no reads.
    pub reads: Reads,
}

// Whether its longest time has passed.
pub(crate) fn is_long(txn: &Txn, now: Micros) -> bool
    ensures { result ≡ is_long_at now txn.now }
{
    now.get() - txn.begun.get() >= LONGEST
}

// The first moment at a tick of which it expires, in microseconds. It may be after the last moment that there is.
pub(crate) fn end_of(txn: &Txn) -> i64
    ensures { result ≡ ends txn.now }
{
    (txn.used.get() + IDLE).min(txn.begun.get() + LONGEST)
}

// A moment before which none expires, in microseconds, where none did before one, and one is used at another.
pub(crate) fn due_with(due: i64, now: Micros) -> i64
    ensures before { result ≤ℤ due }
    ensures late { result ≤ℤ (now +ℤ idle) }
{
    due.min(now.get() + IDLE)
}

// Whether it expires at a tick.
pub(crate) fn is_over(txn: &Txn, now: Micros) -> bool
    ensures { result ≡ is_over_at now txn.now }
{
    is_long(txn, now) || now.get() - txn.used.get() >= IDLE
}
