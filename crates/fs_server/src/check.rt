//! Whether a request may be carried out: its transaction is open, and the time that it reads can be read.
use crate::read::time_refusal;
use crate::server::Server;
use fs_request::{Request, TransactionOptions, When};
use fs_status::{Id, Reason, Refusal};
use fs_txn::{Kind, Txn, TxnError};
use fs_write::Writes;

impl Server {
    ghost use Rattle.std.specs.Prelude.{◌≡◌, ℕ, None, Some, false};
    ghost use Rattle.fs_txn.specs.Transactions.{txn_of};
    ghost use Rattle.fs_machine.specs.Commit.{author_refusal, only_reads, writing_refusal};
    ghost use Rattle.fs_machine.specs.Read.{is_noted, when_refusal};
    ghost use Rattle.fs_machine.specs.Request.{begin_time_refusal, check_refusal};
    ghost use Rattle.fs_machine.specs.Transact.{closed_refusal};
    ghost use Rattle.fs_server.specs.Noted.{is_streaming};

    /// Why a request isn't carried out, whatever it waits for: its transaction isn't open, or only reads and is to write, or the time that
    /// it reads can't be read.
    pub(crate) fn check_refusal(&self, request: &Request) -> Option<Refusal>
        requires { is_streaming request.now ≡ false }
        ensures { (session : ℕ) → result ≡ check_refusal self.now session request.now }
    {
        match request {
            Request::Commit {
                writes,
                transaction,
                ..
            } => self.author_refusal(writes, transaction),
            Request::GetDocument { when, .. } => self.when_refusal(when),
            Request::BatchGetDocuments { when, .. } => self.when_refusal(when),
            Request::RunQuery { when, .. } => self.when_refusal(when),
            Request::BeginTransaction { options, .. } => self.begin_time_refusal(options),
            Request::Rollback { transaction, .. } => self.closed_refusal(*transaction),
            Request::AddTarget { .. } => None,
            Request::RemoveTarget { .. } => None,
            Request::Write { .. } => unreachable!(),
        }
    }

    fn author_refusal(&self, writes: &Writes, transaction: &Option<Id>) -> Option<Refusal>
        ensures { result ≡ author_refusal self.now writes.now transaction.now }
    {
        let Some(id) = transaction else {
            return None;
        };
        let id = *id;
        match self.closed_refusal(id) {
            Some(refusal) => Some(refusal),
            None => self.writing_refusal(writes, id),
        }
    }

    // Why an open transaction may not commit these writes.
    fn writing_refusal(&self, writes: &Writes, id: Id) -> Option<Refusal>
        ensures { result ≡ writing_refusal writes.now id (only_reads self.now (Some id)) }
    {
        if writes.is_empty() {
            return None;
        }
        if self.only_reads(&Some(id)) {
            Some(Refusal::of(Reason::ReadOnly(id)))
        } else {
            None
        }
    }

    // Why the transaction of a number may be asked nothing.
    fn closed_refusal(&self, id: Id) -> Option<Refusal>
        ensures { result ≡ closed_refusal self.now.txns id }
    {
        match self.txns.find(id) {
            Ok(_) => None,
            Err(TxnError::Expired(expired)) => Some(Refusal::of(Reason::Expired(
                id,
                expired.since,
                expired.now,
            ))),
            Err(TxnError::Unknown) => Some(Refusal::of(Reason::NotOpen(id))),
        }
    }

    fn when_refusal(&self, when: &When) -> Option<Refusal>
        ensures { result ≡ when_refusal self.now when.now }
    {
        match when {
            When::Released => None,
            When::At(time) => time_refusal(&self.past, *time),
            When::In(id) => self.closed_refusal(*id),
        }
    }

    fn begin_time_refusal(&self, options: &TransactionOptions) -> Option<Refusal>
        ensures { result ≡ begin_time_refusal self.now options.now }
    {
        match options {
            TransactionOptions::ReadWrite => None,
            TransactionOptions::ReadOnly { read_time: None } => None,
            TransactionOptions::ReadOnly {
                read_time: Some(time),
            } => time_refusal(&self.past, *time),
        }
    }

    /// The open transaction of a number.
    pub(crate) fn open_one(&self, id: Id) -> &Txn
        requires { closed_refusal self.now.txns id ≡ None }
        ensures { txn_of id self.now.txns.open ≡ Some result.now }
    {
        match self.txns.find(id) {
            Ok(txn) => txn,
            Err(_) => unreachable!(),
        }
    }

    /// Whether a commit is of an open transaction that only reads.
    pub(crate) fn only_reads(&self, transaction: &Option<Id>) -> bool
        ensures { result ≡ only_reads self.now transaction.now }
    {
        let Some(id) = transaction else {
            return false;
        };
        match self.txns.find(*id) {
            Ok(txn) => txn.kind == Kind::ReadOnly,
            Err(_) => false,
        }
    }

    /// Whether reads are noted, since they are made in an open read-write transaction.
    pub(crate) fn is_noted(&self, when: &When) -> bool
        ensures { result ≡ is_noted self.now when.now }
    {
        let When::In(id) = when else {
            return false;
        };
        match self.txns.find(*id) {
            Ok(txn) => txn.kind == Kind::ReadWrite,
            Err(_) => false,
        }
    }
}
