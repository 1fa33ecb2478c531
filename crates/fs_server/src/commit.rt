//! Commits that are carried out.
ghost use Rattle.std.specs.Prelude.{◌≡◌, ℕ, IfOk};
ghost use Rattle.fs_machine.specs.Commit.{asker_by};
ghost use Rattle.fs_server.specs.Changes.{asking};

use crate::changes::Change;
use crate::server::Server;
use fs_history::{Batch, Reads};
use fs_machine::{Answer, Asker, Unreleased};
use fs_request::{Envelope, Message, copy_id};
use fs_status::{Id, Refusal};
use fs_txn::{Kind, Txn};
use fs_write::{WriteResults, Writes};
use std::alloc::{AllocError, Global};

// Whom a commit is answered: the session that asks for it, or the stream that took it as its next batch.
fn asker_of(
    alloc: Global,
    session: u32,
    stream: Option<u64>,
    envelope: &Envelope,
) -> Result<Asker, AllocError>
    ensures { IfOk result (λ a. (id : ℕ) → a ≡ asker_by (asking session id stream envelope.now) stream) }
{
    match stream {
        Some(stream) => Ok(Asker::Stream(stream)),
        None => Ok(Asker::Session {
            session,
            request: copy_id(alloc, &envelope.id)?,
        }),
    }
}

impl Server {
    ghost use Rattle.std.specs.Prelude.{◌≡◌, [], None, Some, true, IfOk};
    ghost use Rattle.fs_request.specs.declared.message.Message.TheVariants as message;
    ghost use Rattle.fs_time.specs.Moment.{IsMoment};
    ghost use Rattle.fs_txn.specs.Transactions.{is_read_write, txn_of};
    ghost use Rattle.fs_machine.specs.Behind.{behind};
    ghost use Rattle.fs_machine.specs.Commit.{author_refusal, commit_retry_refusal, committed, committed_answer, committed_answer_unless, committed_unless, next_commit, prepared};
    ghost use Rattle.fs_machine.specs.Conflict.{conflict};
    ghost use Rattle.fs_machine.specs.IdsAreDrawn.{times_in};
    ghost use Rattle.fs_machine.specs.Past.{batches};
    ghost use Rattle.fs_machine.specs.Refusing.{next_time};
    ghost use Rattle.fs_machine.specs.Request.{writer_behind};
    ghost use Rattle.fs_machine.specs.Transact.{with_ended};
    ghost use Rattle.fs_machine.specs.declared.answer.Answer.TheVariants.{Prepared, Reply};
    ghost use Rattle.fs_server.specs.Changes.{Does, asking, commit_for};

    /// A commit of these writes that nothing holds: what it is answered, and what it changes.
    /// (docs/DECISIONS.md, "A commit is copied once, into the journal".)
    pub(crate) fn commit(
        &self,
        alloc: Global,
        session: u32,
        id: Id,
        stream: Option<u64>,
        envelope: &Envelope,
        writes: &Writes,
        transaction: &Option<Id>,
    ) -> Result<(Answer, Change), AllocError>
        requires limits { commit_retry_refusal self.now writes.now transaction.now ≡ None }
        requires check { author_refusal self.now writes.now transaction.now ≡ None }
        requires free { writer_behind self.now writes.now transaction.now ≡ None }
        requires fresh { transaction.now ≡ None → times_in id (batches self.now.past.unreleased) ≡ 0 }
        ensures { IfOk result (λ d. Does self.now (committed_answer self.now (asking session id stream envelope.now) writes.now transaction.now)
            (committed self.now (asking session id stream envelope.now) writes.now transaction.now) d) }
    {
        match transaction {
            Some(author) => self.commit_in(alloc, session, id, stream, envelope, writes, *author),
            None => {
                let asker = asker_of(alloc, session, stream, envelope)?;
                self.commit_plain(alloc, id, asker, writes)
            }
        }
    }

    /// One of no transaction.
    pub(crate) fn commit_plain(
        &self,
        alloc: Global,
        id: Id,
        asker: Asker,
        writes: &Writes,
    ) -> Result<(Answer, Change), AllocError>
        requires limits { commit_retry_refusal self.now writes.now None ≡ None }
        requires free { writer_behind self.now writes.now None ≡ None }
        requires fresh { times_in id (batches self.now.past.unreleased) ≡ 0 }
        ensures { IfOk result (λ d. Does self.now (Prepared id (next_time self.now.past))
            (prepared self.now (commit_for self.now.past id asker writes.now [])) d) }
    {
        self.stand();
        self.has_time();
        let reads = Reads::new(alloc);
        let commit = self.next_commit(alloc, id, asker, writes, reads)?;
        Ok((
            Answer::Prepared(id, commit.time()),
            Change::Prepares(commit),
        ))
    }

    // The commit of these writes, whose transaction made these reads, at the next time.
    fn next_commit(
        &self,
        alloc: Global,
        id: Id,
        asker: Asker,
        writes: &Writes,
        reads: Reads,
    ) -> Result<Unreleased, AllocError>
        requires { IsMoment (next_time self.now.past) }
        ensures { IfOk result (λ u. u ≡ commit_for self.now.past id asker writes.now reads) }
    {
        Ok(Unreleased {
            batch: Batch {
                time: self.past.next_time(),
                id,
                writes: writes.copy(alloc)?,
                reads,
            },
            asker,
            results: None,
        })
    }

    // ---- of a transaction

    fn commit_in(
        &self,
        alloc: Global,
        session: u32,
        id: Id,
        stream: Option<u64>,
        envelope: &Envelope,
        writes: &Writes,
        author: Id,
    ) -> Result<(Answer, Change), AllocError>
        requires limits { commit_retry_refusal self.now writes.now (Some author) ≡ None }
        requires check { author_refusal self.now writes.now (Some author) ≡ None }
        requires free { behind self.now.past writes.now ≡ None }
        ensures { IfOk result (λ d. Does self.now (committed_answer self.now (asking session id stream envelope.now) writes.now (Some author))
            (committed self.now (asking session id stream envelope.now) writes.now (Some author)) d) }
    {
        let txn = self.open_one(author);
        match txn.kind {
            Kind::ReadOnly => self.end_reading(alloc, envelope, txn),
            Kind::ReadWrite => {
                self.commit_writing(alloc, session, id, stream, envelope, writes, txn)
            }
        }
    }

    // One that only reads ends without a commit. It is told the time at which it read.
    fn end_reading(
        &self,
        alloc: Global,
        envelope: &Envelope,
        txn: &Txn,
    ) -> Result<(Answer, Change), AllocError>
        ensures { IfOk result (λ d. Does self.now (Reply (message.Commit envelope.now.id txn.now.read_time [])) (with_ended self.now txn.now.id) d) }
    {
        let reply = Message::Commit {
            id: copy_id(alloc, &envelope.id)?,
            time: txn.read_time,
            results: WriteResults::new(alloc),
        };
        Ok((Answer::Reply(reply), Change::Ends(txn.id)))
    }

    // One that is in conflict is aborted.
    fn commit_writing(
        &self,
        alloc: Global,
        session: u32,
        id: Id,
        stream: Option<u64>,
        envelope: &Envelope,
        writes: &Writes,
        txn: &Txn,
    ) -> Result<(Answer, Change), AllocError>
        requires limits { commit_retry_refusal self.now writes.now (Some txn.now.id) ≡ None }
        requires there { txn_of txn.now.id self.now.txns.open ≡ Some txn.now }
        requires kind { is_read_write txn.now.kind ≡ true }
        requires free { behind self.now.past writes.now ≡ None }
        ensures { IfOk result (λ d. Does self.now
            (committed_answer_unless self.now txn.now (conflict self.now.config.mode self.now.past self.now.txns.open txn.now writes.now))
            (committed_unless self.now (asking session id stream envelope.now) writes.now txn.now (conflict self.now.config.mode self.now.past self.now.txns.open txn.now writes.now)) d) }
    {
        match self.conflict(alloc, txn, writes)? {
            Some(other) => Ok((
                Answer::Refused(Refusal::conflict_with(other)),
                Change::Ends(txn.id),
            )),
            None => self.commit_free(alloc, session, id, stream, envelope, writes, txn),
        }
    }

    // It is in conflict with nothing.
    fn commit_free(
        &self,
        alloc: Global,
        session: u32,
        id: Id,
        stream: Option<u64>,
        envelope: &Envelope,
        writes: &Writes,
        txn: &Txn,
    ) -> Result<(Answer, Change), AllocError>
        requires limits { commit_retry_refusal self.now writes.now (Some txn.now.id) ≡ None }
        requires there { txn_of txn.now.id self.now.txns.open ≡ Some txn.now }
        requires kind { is_read_write txn.now.kind ≡ true }
        requires free { behind self.now.past writes.now ≡ None }
        requires none { conflict self.now.config.mode self.now.past self.now.txns.open txn.now writes.now ≡ None }
        ensures { IfOk result (λ d. Does self.now (Prepared txn.now.id (next_time self.now.past))
            (prepared (with_ended self.now txn.now.id) (next_commit self.now.past txn.now.id (asking session id stream envelope.now) writes.now txn.now.reads)) d) }
    {
        self.stand();
        self.has_time();
        let reads = txn.reads.copy(alloc)?;
        let asker = asker_of(alloc, session, stream, envelope)?;
        let commit = self.next_commit(alloc, txn.id, asker, writes, reads)?;
        Ok((
            Answer::Prepared(txn.id, commit.time()),
            Change::Commits(commit),
        ))
    }
}
