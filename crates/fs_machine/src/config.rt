//! The configuration of a server.
use fs_path::{MOST_SHARDS, Root};

/// How two transactions that meet are kept apart. (Cloud Firestore documentation, "Transaction serializability and isolation".)
#[derive(Clone, Copy, PartialEq, Eq)]
pub enum Mode {
    /// What one has read is held until it ends, and others wait for it.
    Pessimistic,
    /// One whose reads were overtaken is aborted as it commits.
    Optimistic,
}

/// The configuration of a server, beside its limits. Nothing changes it later.
#[derive(Drop)]
pub struct Config {
    /// The project and the database whose documents it has.
    pub root: Root,
    pub mode: Mode,
    /// Into how many shards the collections are cut whose changes listeners are told of.
    pub shards: u32,
}

impl Config {
    ghost use Rattle.std.specs.Prelude.{◌↔◌, IsTrue};
    ghost use Rattle.fs_machine.specs.Config.{IsAllowed};

    /// Whether a server may have it: it has 1 to 16 shards.
    pub fn is_allowed(&self) -> bool
        ensures { IsTrue result ↔ IsAllowed self.now }
    {
        1 <= self.shards && self.shards <= MOST_SHARDS
    }
}
