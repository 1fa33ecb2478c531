//! Limits that requests would pass.
ghost use Rattle.std.specs.Prelude.{◌≡◌, IfOk, Some};
ghost use Rattle.fs_status.specs.Refusal.{at_limit};

use crate::read::query_refusal;
use crate::server::Server;
use fs_history::{Reads, all_shown, commit_size};
use fs_query::Query;
use fs_request::{Request, When};
use fs_status::{Id, Refusal};
use fs_write::Writes;
use std::alloc::{AllocError, Global};

/// The limit of a name would be passed.
pub(crate) fn at_limit(
    alloc: Global,
    name: &str,
    number: u64,
) -> Result<Option<Refusal>, AllocError>
    ensures { IfOk result (λ r. r ≡ Some (at_limit name.now number)) }
{
    Ok(Some(Refusal::at_limit(alloc, name, number)?))
}

impl Server {
    ghost use Rattle.std.specs.Prelude.{◌≡◌, ◌+◌, ◌-◌, ◌^◌, [], min, pos, int_lt, nat_le, nat_lt, false, None, length, IfOk, sum_by, unwrap_or};
    ghost use Rattle.std.specs.Option.{option_copied};
    ghost use Rattle.fs_history.specs.Bytes.{commit_size, shown_size};
    ghost use Rattle.fs_time.specs.Moment.{IsMoment};
    ghost use Rattle.fs_txn.specs.Reading.{shown_bytes};
    ghost use Rattle.fs_machine.specs.Commit.{commit_refusal, commit_retry_refusal, growth_refusal, number_refusal, unless_closed};
    ghost use Rattle.fs_machine.specs.Refusing.{ids_refusal, journal_count, journal_size, next_time, outbox_is_full, outbox_refusal, reads_refusal, room_refusal, time_limit_refusal};
    ghost use Rattle.fs_machine.specs.Request.{arrival_refusal, begin_refusal, query_refusal, retry_refusal};
    ghost use Rattle.fs_machine.specs.Transact.{reads_had};
    ghost use Rattle.fs_server.specs.Noted.{is_streaming, noted_reads, noted_refusal};

    /// The rule of queries that a request breaks as it comes, or the limit that it would pass, the first of several.
    pub(crate) fn arrival_refusal(
        &self,
        alloc: Global,
        session: u32,
        request: &Request,
        reads: &Reads,
    ) -> Result<Option<Refusal>, AllocError>
        requires plain { is_streaming request.now ≡ false }
        requires reads { reads.now ≡ noted_reads self.now request.now }
        ensures { IfOk result (λ r. r ≡ arrival_refusal self.now session request.now) }
    {
        match request {
            Request::Commit {
                writes,
                transaction,
                ..
            } => self.commit_refusal(alloc, session, writes, transaction),
            Request::GetDocument { when, .. } => self.read_refusal(alloc, session, when, reads),
            Request::BatchGetDocuments { when, .. } => {
                self.read_refusal(alloc, session, when, reads)
            }
            Request::RunQuery { query, when, .. } => {
                self.run_refusal(alloc, session, query, when, reads)
            }
            Request::BeginTransaction { .. } => self.begin_refusal(alloc, session),
            Request::Rollback { .. } => self.outbox_refusal(alloc, session),
            Request::AddTarget { .. } => unreachable!(),
            Request::RemoveTarget { .. } => unreachable!(),
            Request::Write { .. } => unreachable!(),
        }
    }

    /// The limit that one would pass by now that waited, the first of several.
    pub(crate) fn retry_refusal(
        &self,
        alloc: Global,
        request: &Request,
        reads: &Reads,
    ) -> Result<Option<Refusal>, AllocError>
        requires { reads.now ≡ noted_reads self.now request.now }
        ensures { IfOk result (λ r. r ≡ retry_refusal self.now request.now) }
    {
        match request {
            Request::Commit {
                writes,
                transaction,
                ..
            } => self.commit_retry_refusal(alloc, writes, transaction),
            Request::GetDocument { when, .. } => self.noted_refusal(alloc, when, reads),
            Request::BatchGetDocuments { when, .. } => self.noted_refusal(alloc, when, reads),
            Request::RunQuery { when, .. } => self.noted_refusal(alloc, when, reads),
            _ => Ok(None),
        }
    }

    // ---- sessions

    /// Whether so many messages wait for a session that it may ask nothing.
    pub(crate) fn outbox_is_full(&self, session: u32) -> bool
        ensures { result ≡ outbox_is_full self.now session }
    {
        self.limits.outbox <= self.sessions.outbox_len(session) as u64
    }

    /// That refusal.
    pub(crate) fn outbox_refusal(
        &self,
        alloc: Global,
        session: u32,
    ) -> Result<Option<Refusal>, AllocError>
        ensures { IfOk result (λ r. r ≡ outbox_refusal self.now session None) }
    {
        if self.outbox_is_full(session) {
            at_limit(alloc, "outbox", self.limits.outbox)
        } else {
            Ok(None)
        }
    }

    // ---- reads

    // That of reads which are noted.
    fn noted_refusal(
        &self,
        alloc: Global,
        when: &When,
        reads: &Reads,
    ) -> Result<Option<Refusal>, AllocError>
        ensures { IfOk result (λ r. r ≡ noted_refusal self.now when.now reads.now) }
    {
        if self.is_noted(when) {
            self.reads_refusal(alloc, reads)
        } else {
            Ok(None)
        }
    }

    fn reads_refusal(&self, alloc: Global, reads: &Reads) -> Result<Option<Refusal>, AllocError>
        ensures { IfOk result (λ r. r ≡ reads_refusal self.now reads.now) }
    {
        if u128::from(self.limits.reads) < self.shown_with(reads) {
            at_limit(alloc, "reads", self.limits.reads)
        } else {
            Ok(None)
        }
    }

    // What open transactions would have been shown with these reads.
    fn shown_with(&self, reads: &Reads) -> u128
        ensures { result ≡ min (shown_bytes self.now.txns + sum_by shown_size reads.now) (2 ^ 128 - 1) }
    {
        self.txns.bytes().saturating_add(all_shown(reads))
    }

    fn read_refusal(
        &self,
        alloc: Global,
        session: u32,
        when: &When,
        reads: &Reads,
    ) -> Result<Option<Refusal>, AllocError>
        ensures { IfOk result (λ r. r ≡ outbox_refusal self.now session (noted_refusal self.now when.now reads.now)) }
    {
        if self.outbox_is_full(session) {
            at_limit(alloc, "outbox", self.limits.outbox)
        } else {
            self.noted_refusal(alloc, when, reads)
        }
    }

    fn run_refusal(
        &self,
        alloc: Global,
        session: u32,
        query: &Query,
        when: &When,
        reads: &Reads,
    ) -> Result<Option<Refusal>, AllocError>
        ensures { IfOk result (λ r. r ≡ unless_closed (query_refusal query.now) (outbox_refusal self.now session (noted_refusal self.now when.now reads.now))) }
    {
        match query_refusal(alloc, query)? {
            Some(refusal) => Ok(Some(refusal)),
            None => self.read_refusal(alloc, session, when, reads),
        }
    }

    // ---- begins

    fn begin_refusal(&self, alloc: Global, session: u32) -> Result<Option<Refusal>, AllocError>
        ensures { IfOk result (λ r. r ≡ begin_refusal self.now session) }
    {
        if self.outbox_is_full(session) {
            return at_limit(alloc, "outbox", self.limits.outbox);
        }
        if self.limits.transactions <= self.txns.len() as u64 {
            return at_limit(alloc, "transactions", self.limits.transactions);
        }
        self.ids_refusal(alloc)
    }

    /// No number is left that a request could draw.
    pub(crate) fn ids_refusal(&self, alloc: Global) -> Result<Option<Refusal>, AllocError>
        ensures { IfOk result (λ r. r ≡ ids_refusal self.now None) }
    {
        if self.limits.ids <= self.numbers.ids {
            at_limit(alloc, "ids", self.limits.ids)
        } else {
            Ok(None)
        }
    }

    // ---- commits

    /// The limit that a commit would pass as it comes, the first of several.
    pub(crate) fn commit_refusal(
        &self,
        alloc: Global,
        session: u32,
        writes: &Writes,
        transaction: &Option<Id>,
    ) -> Result<Option<Refusal>, AllocError>
        ensures { IfOk result (λ r. r ≡ commit_refusal self.now session writes.now transaction.now) }
    {
        if self.are_too_many(writes) {
            return at_limit(alloc, "writes", self.limits.writes);
        }
        if self.outbox_is_full(session) {
            return at_limit(alloc, "outbox", self.limits.outbox);
        }
        self.growth_refusal(alloc, writes, transaction)
    }

    /// Whether a commit may not have so many writes.
    pub(crate) fn are_too_many(&self, writes: &Writes) -> bool
        ensures { result ≡ nat_lt self.now.limits.writes (length writes.now) }
    {
        writes.len() as u64 > self.limits.writes
    }

    // What was committed would grow too large, or there is no number or no time for it.
    fn growth_refusal(
        &self,
        alloc: Global,
        writes: &Writes,
        transaction: &Option<Id>,
    ) -> Result<Option<Refusal>, AllocError>
        ensures { IfOk result (λ r. r ≡ growth_refusal self.now writes.now transaction.now (number_refusal self.now transaction.now (time_limit_refusal self.now))) }
    {
        if self.only_reads(transaction) {
            return Ok(None);
        }
        match self.room_refusal(alloc, writes, transaction)? {
            Some(refusal) => Ok(Some(refusal)),
            None => self.number_refusal(alloc, transaction),
        }
    }

    fn commit_retry_refusal(
        &self,
        alloc: Global,
        writes: &Writes,
        transaction: &Option<Id>,
    ) -> Result<Option<Refusal>, AllocError>
        ensures { IfOk result (λ r. r ≡ commit_retry_refusal self.now writes.now transaction.now) }
    {
        if self.only_reads(transaction) {
            return Ok(None);
        }
        match self.room_refusal(alloc, writes, transaction)? {
            Some(refusal) => Ok(Some(refusal)),
            None => self.late_refusal(alloc),
        }
    }

    // There are as many batches as may be, or they would count too much.
    fn room_refusal(
        &self,
        alloc: Global,
        writes: &Writes,
        transaction: &Option<Id>,
    ) -> Result<Option<Refusal>, AllocError>
        ensures { IfOk result (λ r. r ≡ room_refusal self.now writes.now (reads_had self.now.txns transaction.now) None) }
    {
        if self.batches_are_full() {
            return at_limit(alloc, "batches", self.limits.batches);
        }
        if self.is_too_large(alloc, writes, transaction) {
            return at_limit(alloc, "journal", self.limits.journal);
        }
        Ok(None)
    }

    // One of a transaction draws no number.
    fn number_refusal(
        &self,
        alloc: Global,
        transaction: &Option<Id>,
    ) -> Result<Option<Refusal>, AllocError>
        ensures { IfOk result (λ r. r ≡ number_refusal self.now transaction.now (time_limit_refusal self.now)) }
    {
        if transaction.is_none() && self.limits.ids <= self.numbers.ids {
            return at_limit(alloc, "ids", self.limits.ids);
        }
        self.late_refusal(alloc)
    }

    fn late_refusal(&self, alloc: Global) -> Result<Option<Refusal>, AllocError>
        ensures { IfOk result (λ r. r ≡ time_limit_refusal self.now) }
    {
        if self.is_late() {
            at_limit(alloc, "time", self.limits.time)
        } else {
            Ok(None)
        }
    }

    // Whether there are as many batches as may be.
    fn batches_are_full(&self) -> bool
        ensures { result ≡ nat_le self.now.limits.batches (journal_count self.now.past) }
    {
        u128::from(self.limits.batches) <= self.past.count()
    }

    // Whether a batch of these writes would take more than is left, with what its transaction has read.
    fn is_too_large(&self, alloc: Global, writes: &Writes, transaction: &Option<Id>) -> bool
        ensures { result ≡ nat_lt self.now.limits.journal (journal_size self.now.past + commit_size writes.now (reads_had self.now.txns transaction.now)) }
    {
        let size = match self.reads_had(transaction) {
            Some(reads) => commit_size(writes, reads),
            None => commit_size(writes, &Reads::new(alloc)),
        };
        u128::from(self.limits.journal) < self.past.size().saturating_add(size)
    }

    // What the transaction of a commit has read.
    fn reads_had(&self, transaction: &Option<Id>) -> Option<&Reads>
        ensures { unwrap_or (option_copied result) [] ≡ reads_had self.now.txns transaction.now }
    {
        match transaction {
            Some(id) => self.txns.reads(*id),
            None => None,
        }
    }

    // Whether the next commit would come later than any may.
    fn is_late(&self) -> bool
        ensures told { result ≡ int_lt (pos self.now.limits.time) (next_time self.now.past) }
        ensures moment { result ≡ false → IsMoment (next_time self.now.past) }
    {
        self.past.last().get() >= self.limits.time as i64
    }

    /// A time is left for the next commit, where the limit of times isn't passed.
    pub(crate) fn has_time(&self)
        requires { time_limit_refusal self.now ≡ None }
        ensures { IsMoment (next_time self.now.past) }
    {
        let _ = self.is_late();
    }
}
