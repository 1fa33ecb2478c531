//! Transactions that are open no more, because they expired.
ghost use Rattle.std.specs.Prelude.{◌≡◌, ◌+◌, ◌<◌, ◌≤◌, ◌++◌, ◌∷◌, [], length, OnOk};
ghost use Rattle.std.specs.Vec.{vec_len, vec_capacity};
ghost use Rattle.fs_txn.specs.Expiry.{error_of, gone, last_of, remembered};
ghost use Rattle.fs_txn.specs.Transactions.{expired_of};

use crate::txn::{Txn, is_long};
use fs_status::Id;
use fs_time::Micros;

/// So many transactions that expired are remembered, those that did so last.
pub const REMEMBERED: usize = 1_000;

/// A transaction that expired.
#[derive(Clone, Copy, PartialEq, Eq)]
pub struct Expired {
    pub id: Id,
    /// The moment since which its time ran: its begin where it had been open for too long, else its last use.
    pub since: Micros,
    /// The moment of the tick at which it expired.
    pub now: Micros,
}

/// Why no transaction of an id is open.
#[derive(Clone, Copy, PartialEq, Eq)]
pub enum TxnError {
    /// None of that id ever was, or it ended by a commit or a rollback, or it expired so long ago that it is forgotten.
    Unknown,
    /// It expired.
    Expired(Expired),
}

// What is remembered of a transaction that expires at a tick.
pub(crate) fn gone_at(txn: &Txn, now: Micros) -> Expired
    ensures { result ≡ gone now txn.now }
{
    Expired {
        id: txn.id,
        since: if is_long(txn, now) {
            txn.begun
        } else {
            txn.used
        },
        now,
    }
}

// The one of an id.
fn find_expired(expired: &[Expired], id: Id) -> Option<Expired>
    ensures { result ≡ expired_of id expired.now }
{
    expired.iter().copied().find(|e| e.id == id)
}

// Why none of an id is open, where these are remembered.
pub(crate) fn error_in(expired: &[Expired], id: Id) -> TxnError
    ensures { result ≡ error_of (expired_of id expired.now) }
{
    match find_expired(expired, id) {
        Some(e) => TxnError::Expired(e),
        None => TxnError::Unknown,
    }
}

// Forgets all but the last.
pub(crate) fn forget_first(expired: &mut Vec<Expired>)
    ensures items { expired.new.items ≡ last_of expired.old.items }
    ensures few { vec_len expired.new ≤ remembered }
    ensures fewer { vec_len expired.new ≤ vec_len expired.old }
    ensures capacity { vec_capacity expired.new ≡ vec_capacity expired.old }
{
    if expired.len() > REMEMBERED {
        expired.rotate_left(expired.len() - REMEMBERED);
        expired.truncate(REMEMBERED);
    }
}
