//! Requests that are carried out: what they are answered, and what they change.
ghost use Rattle.std.specs.Prelude.{◌≡◌};
ghost use Rattle.fs_machine.specs.Transact.{kind_of as kind_by};

use crate::changes::Change;
use crate::read::{read_batch, read_document, read_query};
use crate::server::Server;
use fs_history::Reads;
use fs_machine::Answer;
use fs_path::{DocName, Names, Paths};
use fs_query::Query;
use fs_request::{Envelope, Message, Request, TransactionOptions, When, copy_id};
use fs_status::Id;
use fs_time::Micros;
use fs_txn::Kind;
use std::alloc::{AllocError, Global};

// What a transaction of these options may do.
fn kind_of(options: &TransactionOptions) -> Kind
    ensures { result ≡ kind_by options.now }
{
    match options {
        TransactionOptions::ReadWrite => Kind::ReadWrite,
        TransactionOptions::ReadOnly { .. } => Kind::ReadOnly,
    }
}

impl Server {
    ghost use Rattle.std.specs.Prelude.{◌≡◌, ◌≤ℤ◌, [], false, None, IfOk, unwrap_or};
    ghost use Rattle.fs_request.specs.declared.message.Message.TheVariants as message;
    ghost use Rattle.fs_txn.specs.Transactions.{IsNew};
    ghost use Rattle.fs_machine.specs.Read.{batch_get_answer, get_answer, is_noted, read_time, run_answer, when_refusal};
    ghost use Rattle.fs_machine.specs.Request.{answer_by, carried_by, held_by};
    ghost use Rattle.fs_machine.specs.Transact.{time_asked, with_begun, with_ended};
    ghost use Rattle.fs_machine.specs.declared.answer.Answer.TheVariants.{Reply};
    ghost use Rattle.fs_server.specs.Changes.{Does, IsClear, IsFresh, MayChange, asking, changed};
    ghost use Rattle.fs_server.specs.Noted.{is_streaming, noted_in, noted_refusal};

    /// What a request is answered that nothing holds, and what it changes. A commit is answered by the stream that took it, if one did.
    pub(crate) fn carry_out(
        &self,
        alloc: Global,
        session: u32,
        id: Id,
        stream: Option<u64>,
        envelope: &Envelope,
        reads: Reads,
    ) -> Result<(Answer, Change), AllocError>
        requires plain { is_streaming envelope.now.request ≡ false }
        requires clear { IsClear self.now session envelope.now.request reads }
        requires free { held_by self.now envelope.now.request ≡ None }
        requires fresh { IsFresh self.now id envelope.now.request }
        ensures { IfOk result (λ d. Does self.now (answer_by self.now (asking session id stream envelope.now) envelope.now.request)
            (carried_by self.now (asking session id stream envelope.now) envelope.now.request) d) }
    {
        match &envelope.request {
            Request::Commit {
                writes,
                transaction,
                ..
            } => self.commit(alloc, session, id, stream, envelope, writes, transaction),
            Request::GetDocument { name, mask, when } => {
                self.get(alloc, envelope, name, mask, when, reads)
            }
            Request::BatchGetDocuments {
                documents,
                mask,
                when,
                ..
            } => self.batch_get(alloc, envelope, documents, mask, when, reads),
            Request::RunQuery { query, when, .. } => {
                self.run(alloc, envelope, query, when, reads)
            }
            Request::BeginTransaction { options, .. } => self.begin(alloc, id, envelope, options),
            Request::Rollback { transaction, .. } => self.roll_back(alloc, envelope, *transaction),
            Request::AddTarget { .. } => unreachable!(),
            Request::RemoveTarget { .. } => unreachable!(),
            Request::Write { .. } => unreachable!(),
        }
    }

    // ---- transactions

    fn begin(
        &self,
        alloc: Global,
        id: Id,
        envelope: &Envelope,
        options: &TransactionOptions,
    ) -> Result<(Answer, Change), AllocError>
        requires { IsNew id self.now.txns }
        ensures { IfOk result (λ d. Does self.now (Reply (message.BeginTransaction envelope.now.id id)) (with_begun self.now id options.now) d) }
    {
        let reply = Message::BeginTransaction {
            id: copy_id(alloc, &envelope.id)?,
            transaction: id,
        };
        let begins = Change::Begins(id, kind_of(options), self.begin_time(options));
        Ok((Answer::Reply(reply), begins))
    }

    // At which time a transaction of these options reads.
    fn begin_time(&self, options: &TransactionOptions) -> Micros
        ensures { result ≡ unwrap_or (time_asked options.now) self.now.past.released }
    {
        match options {
            TransactionOptions::ReadOnly {
                read_time: Some(time),
            } => *time,
            _ => self.past.released(),
        }
    }

    fn roll_back(
        &self,
        alloc: Global,
        envelope: &Envelope,
        transaction: Id,
    ) -> Result<(Answer, Change), AllocError>
        ensures { IfOk result (λ d. Does self.now (Reply (message.Rollback envelope.now.id)) (with_ended self.now transaction) d) }
    {
        let reply = Message::Rollback {
            id: copy_id(alloc, &envelope.id)?,
        };
        Ok((Answer::Reply(reply), Change::Ends(transaction)))
    }

    // ---- reads

    fn get(
        &self,
        alloc: Global,
        envelope: &Envelope,
        name: &DocName,
        mask: &Option<Paths>,
        when: &When,
        reads: Reads,
    ) -> Result<(Answer, Change), AllocError>
        requires time { when_refusal self.now when.now ≡ None }
        requires limits { noted_refusal self.now when.now reads ≡ None }
        requires few { is_noted self.now when.now ≡ false → reads ≡ [] }
        ensures { IfOk result (λ d. Does self.now (get_answer self.now.past envelope.now.id name.now mask.now (read_time self.now when.now)) (noted_in self.now when.now reads) d) }
    {
        let time = self.time_to_read(when);
        let answer = read_document(alloc, &self.past, &envelope.id, name, mask, time)?;
        Ok((answer, self.noting(when, reads)))
    }

    fn batch_get(
        &self,
        alloc: Global,
        envelope: &Envelope,
        names: &Names,
        mask: &Option<Paths>,
        when: &When,
        reads: Reads,
    ) -> Result<(Answer, Change), AllocError>
        requires time { when_refusal self.now when.now ≡ None }
        requires limits { noted_refusal self.now when.now reads ≡ None }
        requires few { is_noted self.now when.now ≡ false → reads ≡ [] }
        ensures { IfOk result (λ d. Does self.now (batch_get_answer self.now.past envelope.now.id names.now mask.now (read_time self.now when.now)) (noted_in self.now when.now reads) d) }
    {
        let time = self.time_to_read(when);
        let answer = read_batch(alloc, &self.past, &envelope.id, names, mask, time)?;
        Ok((answer, self.noting(when, reads)))
    }

    fn run(
        &self,
        alloc: Global,
        envelope: &Envelope,
        query: &Query,
        when: &When,
        reads: Reads,
    ) -> Result<(Answer, Change), AllocError>
        requires time { when_refusal self.now when.now ≡ None }
        requires limits { noted_refusal self.now when.now reads ≡ None }
        requires few { is_noted self.now when.now ≡ false → reads ≡ [] }
        ensures { IfOk result (λ d. Does self.now (run_answer self.now.past envelope.now.id query.now (read_time self.now when.now)) (noted_in self.now when.now reads) d) }
    {
        let time = self.time_to_read(when);
        let answer = read_query(alloc, &self.past, &envelope.id, query, time)?;
        Ok((answer, self.noting(when, reads)))
    }

    // The time of a read that may be made. It can be read.
    fn time_to_read(&self, when: &When) -> Micros
        requires { when_refusal self.now when.now ≡ None }
        ensures value { result ≡ read_time self.now when.now }
        ensures from { self.now.past.floor ≤ℤ result }
        ensures to { result ≤ℤ self.now.past.released }
    {
        self.stand();
        self.read_time(when)
    }

    // What these reads change, which may be noted.
    fn noting(&self, when: &When, reads: Reads) -> Change
        requires time { when_refusal self.now when.now ≡ None }
        requires limits { noted_refusal self.now when.now reads ≡ None }
        requires few { is_noted self.now when.now ≡ false → reads ≡ [] }
        ensures state { changed self.now result ≡ noted_in self.now when.now reads }
        ensures may { MayChange self.now.past self.now.txns result }
    {
        let _ = self.txns.bytes();
        match when {
            When::In(id) => Change::Notes(*id, reads),
            _ => Change::Nothing,
        }
    }
}
