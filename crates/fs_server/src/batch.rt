//! Batches of write streams.
ghost use Rattle.std.specs.Prelude.{◌≡◌, IfOk, Some};
ghost use Rattle.fs_machine.specs.Stream.{is_known as known_by, new_of as new_by};
ghost use Rattle.fs_server.specs.Changes.{asking};
ghost use Rattle.fs_server.specs.Streaming.{commit_of as commit_by};

use crate::answering::response_of;
use crate::changes::make;
use crate::limits::at_limit;
use crate::server::Server;
use crate::write::{lasting, not_taken};
use fs_machine::{Answer, Asker, ParkedRequest};
use fs_path::{Root, Text};
use fs_request::{Envelope, Request, copy_id};
use fs_status::{Id, Refusal};
use fs_stream::{StreamError, Take};
use fs_write::Writes;
use std::alloc::{AllocError, Global};

// Whether a batch adds nothing to what is committed: it was finished before, or is in progress.
fn is_known(take: &Result<Take, StreamError>) -> bool
    ensures { result ≡ known_by take.now }
{
    match take {
        Ok(Take::New(_)) => false,
        Ok(Take::Repeat(_)) => true,
        Ok(Take::InProgress(_)) => true,
        Err(_) => false,
    }
}

// The stream whose next batch it is.
fn new_of(take: &Result<Take, StreamError>) -> Option<u64>
    ensures { result ≡ new_by take.now }
{
    match take {
        Ok(Take::New(stream)) => Some(*stream),
        Ok(Take::Repeat(_)) => None,
        Ok(Take::InProgress(_)) => None,
        Err(_) => None,
    }
}

// A batch as the commit that it is, with the id of its envelope.
fn commit_of(
    alloc: Global,
    id: &Option<Text>,
    database: &Root,
    writes: &Writes,
) -> Result<Envelope, AllocError>
    ensures { IfOk result (λ e. e ≡ commit_by id.now database.now writes.now) }
{
    Ok(Envelope {
        id: copy_id(alloc, id)?,
        request: Request::Commit {
            database: database.copy(alloc)?,
            writes: writes.copy(alloc)?,
            transaction: None,
        },
    })
}

// A batch that waits with a number.
fn parked(
    alloc: Global,
    session: u32,
    number: Id,
    stream: u64,
    id: &Option<Text>,
    database: &Root,
    writes: &Writes,
) -> Result<ParkedRequest, AllocError>
    ensures { IfOk result (λ r. r ≡ asking session number (Some stream) (commit_by id.now database.now writes.now)) }
{
    Ok(ParkedRequest {
        session,
        id: number,
        stream: Some(stream),
        envelope: commit_of(alloc, id, database, writes)?,
    })
}

impl Server {
    ghost use Rattle.std.specs.Prelude.{◌≡◌, ◌+◌, ℕ, None, Some, IfOk, OnErr, OnOk};
    ghost use Rattle.fs_request.specs.declared.stream_request.StreamRequest.TheVariants as ask;
    ghost use Rattle.fs_machine.specs.Refusing.{next_time};
    ghost use Rattle.fs_machine.specs.Request.{answered, asked, writer_behind};
    ghost use Rattle.fs_machine.specs.Sessions.{has_owned};
    ghost use Rattle.fs_machine.specs.Stream.{batch_refusal, new_of, own_stream, take_of};
    ghost use Rattle.fs_machine.specs.declared.answer.Answer.TheVariants.{Prepared};
    ghost use Rattle.fs_server.specs.Streaming.{IsKnown, IsNext, after_next, batch_of, batch_prepared, number_drawn, told_batch, told_next, writing};

    /// The batch of a session for its stream, with the id of its envelope.
    pub(crate) fn batch(
        &mut self,
        alloc: Global,
        session: u32,
        id: &Option<Text>,
        database: &Root,
        token: u64,
        writes: &Writes,
    ) -> Result<Answer, AllocError>
        ensures told { IfOk result (λ a. a ≡ answered self.old session (writing id.now database.now (ask.Batch token writes.now))) }
        ensures state { OnOk result (self.new ≡ asked self.old session (writing id.now database.now (ask.Batch token writes.now))) }
        ensures err { OnErr result (self.new ≡ self.old) }
    {
        let take = self.take_of(alloc, session, token)?;
        let answer = self.look_at(alloc, session, id, database, token, writes, &take);
        drop(take);
        answer
    }

    // The one with a token, which is this to its stream.
    fn look_at(
        &mut self,
        alloc: Global,
        session: u32,
        id: &Option<Text>,
        database: &Root,
        _token: u64,
        writes: &Writes,
        take: &Result<Take, StreamError>,
    ) -> Result<Answer, AllocError>
        requires { take.now ≡ take_of self.old session _token }
        ensures told { IfOk result (λ a. a ≡ answered self.old session (writing id.now database.now (ask.Batch _token writes.now))) }
        ensures state { OnOk result (self.new ≡ asked self.old session (writing id.now database.now (ask.Batch _token writes.now))) }
        ensures err { OnErr result (self.new ≡ self.old) }
    {
        if let Some(refusal) = self.batch_refusal(alloc, session, writes, is_known(take))? {
            return Ok(Answer::Refused(refusal));
        }
        match new_of(take) {
            Some(stream) => self.take_batch(alloc, session, id, database, stream, writes),
            None => self.tell_batch(alloc, session, take),
        }
    }

    // What a batch is to the stream that its session owns.
    fn take_of(
        &self,
        alloc: Global,
        session: u32,
        token: u64,
    ) -> Result<Result<Take, StreamError>, AllocError>
        ensures { IfOk result (λ t. t ≡ take_of self.now session token) }
    {
        match self.streams.look(alloc, session, token) {
            Ok(take) => Ok(Ok(take)),
            Err(error) => Ok(Err(lasting(error)?)),
        }
    }

    // The limit that it would pass, the first of several. One that is known adds nothing to what is committed.
    fn batch_refusal(
        &self,
        alloc: Global,
        session: u32,
        writes: &Writes,
        known: bool,
    ) -> Result<Option<Refusal>, AllocError>
        ensures { IfOk result (λ r. r ≡ batch_refusal self.now session writes.now known) }
    {
        if !known {
            return self.commit_refusal(alloc, session, writes, &None);
        }
        if self.are_too_many(writes) {
            return at_limit(alloc, "writes", self.limits.writes);
        }
        if self.outbox_is_full(session) {
            return at_limit(alloc, "outbox", self.limits.outbox);
        }
        self.ids_refusal(alloc)
    }

    // One that isn't new draws its number all the same.
    fn tell_batch(
        &mut self,
        alloc: Global,
        session: u32,
        take: &Result<Take, StreamError>,
    ) -> Result<Answer, AllocError>
        requires { IsKnown self.old session take.now }
        ensures told { IfOk result (λ a. a ≡ told_batch (has_owned session self.old.sessions) (own_stream self.old session) take.now) }
        ensures state { OnOk result (self.new ≡ number_drawn self.old) }
        ensures err { OnErr result (self.new ≡ self.old) }
    {
        self.stand();
        let answer = self.known_answer(alloc, session, take)?;
        self.numbers.ids += 1;
        Ok(answer)
    }

    // What it is told.
    fn known_answer(
        &self,
        alloc: Global,
        session: u32,
        take: &Result<Take, StreamError>,
    ) -> Result<Answer, AllocError>
        requires { new_of take.now ≡ None }
        ensures { IfOk result (λ a. a ≡ told_batch (has_owned session self.now.sessions) (own_stream self.now session) take.now) }
    {
        match take {
            Ok(Take::New(_)) => unreachable!(),
            Ok(Take::Repeat(kept)) => {
                let stream = self.own_stream(session);
                Ok(Answer::Reply(response_of(alloc, stream, kept)?))
            }
            Ok(Take::InProgress(finished)) => Ok(Answer::InProgress(*finished)),
            Err(error) => {
                let ever = self.sessions.has_owned(session);
                Ok(Answer::Refused(not_taken(alloc, ever, error)?))
            }
        }
    }

    // The number of a session's own stream.
    fn own_stream(&self, session: u32) -> u64
        ensures { result ≡ own_stream self.now session }
    {
        match self.streams.owned(session) {
            Some((stream, _)) => stream,
            None => 0,
        }
    }

    // ---- a new batch

    // It waits, or nothing holds it.
    fn take_batch(
        &mut self,
        alloc: Global,
        session: u32,
        id: &Option<Text>,
        database: &Root,
        stream: u64,
        writes: &Writes,
    ) -> Result<Answer, AllocError>
        requires { IsNext self.old session stream writes.now }
        ensures told { IfOk result (λ a. a ≡ told_next self.old (batch_of self.old session id.now database.now stream writes.now) writes.now) }
        ensures state { OnOk result (self.new ≡ after_next self.old (batch_of self.old session id.now database.now stream writes.now) writes.now) }
        ensures err { OnErr result (self.new ≡ self.old) }
    {
        self.past.hold_all(alloc)?;
        match self.writer_behind(alloc, writes, &None)? {
            Some(holder) => {
                self.hold_batch(alloc, session, id, database, stream, writes, holder)
            }
            None => self.prepare_batch(alloc, stream, writes),
        }
    }

    // It waits for the one of this number, unless as many wait as may.
    fn hold_batch(
        &mut self,
        alloc: Global,
        session: u32,
        id: &Option<Text>,
        database: &Root,
        stream: u64,
        writes: &Writes,
        holder: Id,
    ) -> Result<Answer, AllocError>
        requires next { IsNext self.old session stream writes.now }
        requires held { writer_behind self.old writes.now None ≡ Some holder }
        ensures told { IfOk result (λ a. a ≡ told_next self.old (batch_of self.old session id.now database.now stream writes.now) writes.now) }
        ensures state { OnOk result (self.new ≡ after_next self.old (batch_of self.old session id.now database.now stream writes.now) writes.now) }
        ensures err { OnErr result (self.new ≡ self.old) }
    {
        self.stand();
        if self.waiting_is_full() {
            let refusal = Refusal::at_limit(alloc, "parked", self.limits.parked)?;
            self.numbers.ids += 1;
            return Ok(Answer::Refused(refusal));
        }
        let number = Id::new(self.numbers.ids + 1);
        let request = parked(alloc, session, number, stream, id, database, writes)?;
        self.waiting.push(request)?;
        self.streams.begin(stream);
        self.numbers.ids += 1;
        Ok(Answer::Held(holder))
    }

    // Nothing holds it.
    fn prepare_batch(
        &mut self,
        alloc: Global,
        stream: u64,
        writes: &Writes,
    ) -> Result<Answer, AllocError>
        requires next { (session : ℕ) × IsNext self.old session stream writes.now }
        requires free { writer_behind self.old writes.now None ≡ None }
        ensures told { IfOk result (λ a. a ≡ Prepared (self.old.numbers.ids + 1) (next_time self.old.past)) }
        ensures state { OnOk result (self.new ≡ batch_prepared self.old stream writes.now) }
        ensures err { OnErr result (self.new ≡ self.old) }
    {
        self.stand();
        let id = Id::new(self.numbers.ids + 1);
        let (answer, change) = self.commit_plain(alloc, id, Asker::Stream(stream), writes)?;
        if let Err(error) = make(alloc, &mut self.past, &mut self.txns, change) {
            drop(answer);
            return Err(error);
        }
        self.streams.begin(stream);
        self.numbers.ids += 1;
        Ok(answer)
    }
}
