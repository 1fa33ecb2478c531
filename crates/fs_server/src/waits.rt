//! Whom requests wait for, and what commits are in conflict with.

ghost use Rattle.std.specs.Prelude.{◌≡◌};

use crate::server::Server;
use fs_history::Reads;
use fs_locks::lesser;
use fs_machine::Mode;
use fs_past::names_of;
use fs_request::{Request, When};
use fs_status::Id;
use fs_txn::Txn;
use fs_write::Writes;
use std::alloc::{AllocError, Global};

// The number of nobody: they count from 1.
fn nobody() -> Id
    ensures { result ≡ 0 }
{
    Id::new(0)
}

impl Server {
    ghost use Rattle.std.specs.Prelude.{◌≡◌, IfOk};
    ghost use Rattle.fs_machine.specs.Behind.{behind, least};
    ghost use Rattle.fs_machine.specs.Conflict.{conflict, others, plain_behind, readers_of};
    ghost use Rattle.fs_machine.specs.Request.{held_by, writer_behind};
    ghost use Rattle.fs_server.specs.Noted.{noted_behind, noted_reads};

    /// Whom a request waits for: the least number of a commit that isn't released or of an open transaction that holds it. What is noted of
    /// the request are these reads.
    pub(crate) fn holder(
        &self,
        alloc: Global,
        request: &Request,
        reads: &Reads,
    ) -> Result<Option<Id>, AllocError>
        requires { reads.now ≡ noted_reads self.now request.now }
        ensures { IfOk result (λ h. h ≡ held_by self.now request.now) }
    {
        match request {
            Request::Commit {
                writes,
                transaction,
                ..
            } => self.writer_behind(alloc, writes, transaction),
            Request::GetDocument { when, .. } => Ok(self.noted_behind(when, reads)),
            Request::BatchGetDocuments { when, .. } => Ok(self.noted_behind(when, reads)),
            Request::RunQuery { when, .. } => Ok(self.noted_behind(when, reads)),
            _ => Ok(None),
        }
    }

    // Whom reads wait for that are noted.
    fn noted_behind(&self, when: &When, reads: &Reads) -> Option<Id>
        ensures { result ≡ noted_behind self.now when.now reads.now }
    {
        if !self.is_noted(when) {
            return None;
        }
        match self.config.mode {
            Mode::Pessimistic => self.past.read_behind(reads),
            Mode::Optimistic => None,
        }
    }

    /// Whom a commit waits for.
    pub(crate) fn writer_behind(
        &self,
        alloc: Global,
        writes: &Writes,
        transaction: &Option<Id>,
    ) -> Result<Option<Id>, AllocError>
        ensures { IfOk result (λ h. h ≡ writer_behind self.now writes.now transaction.now) }
    {
        match transaction {
            Some(_) => Ok(self.behind(writes)),
            None => self.plain_behind(alloc, writes),
        }
    }

    // A plain commit waits for transactions too.
    fn plain_behind(&self, alloc: Global, writes: &Writes) -> Result<Option<Id>, AllocError>
        ensures { IfOk result (λ h. h ≡ plain_behind self.now.config.mode self.now.past self.now.txns.open writes.now) }
    {
        let writer = self.behind(writes);
        match self.config.mode {
            Mode::Pessimistic => {
                let reader = self.first_reader(alloc, writes, nobody())?;
                Ok(lesser(writer, reader))
            }
            Mode::Optimistic => Ok(writer),
        }
    }

    // The least commit that isn't released and writes a name that these writes write.
    fn behind(&self, writes: &Writes) -> Option<Id>
        ensures { result ≡ behind self.now.past writes.now }
    {
        self.past.behind(writes.as_slice(), nobody())
    }

    // The least open read-write transaction other than one that has read what these writes write. Where none is open, nobody's names
    // are looked at.
    fn first_reader(
        &self,
        alloc: Global,
        writes: &Writes,
        but: Id,
    ) -> Result<Option<Id>, AllocError>
        ensures { IfOk result (λ h. h ≡ least (readers_of (others but self.now.txns.open) writes.now)) }
    {
        if self.txns.is_empty() {
            return Ok(None);
        }
        self.first_among(alloc, writes, but)
    }

    // That of those that are open.
    fn first_among(&self, alloc: Global, writes: &Writes, but: Id) -> Result<Option<Id>, AllocError>
        ensures { IfOk result (λ h. h ≡ least (readers_of (others but self.now.txns.open) writes.now)) }
    {
        let names = names_of(alloc, writes.as_slice())?;
        Ok(self.txns.held_by(&names, but))
    }

    /// What the commit of these writes of an open transaction is in conflict with: the least number of a transaction or a commit.
    pub(crate) fn conflict(
        &self,
        alloc: Global,
        txn: &Txn,
        writes: &Writes,
    ) -> Result<Option<Id>, AllocError>
        ensures { IfOk result (λ c. c ≡ conflict self.now.config.mode self.now.past self.now.txns.open txn.now writes.now) }
    {
        match self.config.mode {
            Mode::Pessimistic => self.first_reader(alloc, writes, txn.id),
            Mode::Optimistic => Ok(self.past.touching_since(txn.read_time, &txn.reads)),
        }
    }
}
