//! The transactions of a Cloud Firestore database that are open: what each has read, and when it expires.
#![tactic(auto)]

mod by_id;
mod expired;
mod kind;
mod reading;
mod txn;
mod txns;

pub use expired::{Expired, REMEMBERED, TxnError};
pub use kind::Kind;
pub use txn::{IDLE, LONGEST, Txn};
pub use txns::Txns;
