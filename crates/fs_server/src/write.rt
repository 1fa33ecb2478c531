//! Requests of write streams.
ghost use Rattle.std.specs.Prelude.{◌≡◌, ◌≢◌, IfOk, OnOk, Ok as Told, alloc_error};
ghost use Rattle.fs_stream.specs.declared.error.StreamError.TheVariants.{Memory};
ghost use Rattle.fs_status.specs.Refusal.{refusal_of};
ghost use Rattle.fs_machine.specs.Stream.{reason_of, resumed_answer as resumed_by, stands_at as stands_by, unowned as unowned_by};

use crate::answering::response_of;
use crate::limits::at_limit;
use crate::server::Server;
use fs_machine::Answer;
use fs_path::{Root, Text};
use fs_request::{Message, StreamAnswer, StreamRequest};
use fs_status::{Reason, Refusal};
use fs_stream::{Resumed, StreamError};
use fs_write::Writes;
use std::alloc::{AllocError, Global};

// ---- answers

// Where a stream is.
fn stands_at(stream: u64, finished: u64) -> Message
    ensures { result ≡ stands_by stream finished }
{
    Message::Write {
        stream,
        token: finished,
        answer: StreamAnswer::Stands,
    }
}

fn resumed_answer(alloc: Global, stream: u64, resumed: &Resumed) -> Result<Answer, AllocError>
    ensures { IfOk result (λ a. a ≡ resumed_by stream (Told resumed.now)) }
{
    match resumed {
        Resumed::At(finished) => Ok(Answer::Reply(stands_at(stream, *finished))),
        Resumed::Repeat(kept) => Ok(Answer::Reply(response_of(alloc, stream, kept)?)),
    }
}

// What a session is told that owns no stream.
fn unowned(ever: bool) -> Reason
    ensures { result ≡ unowned_by ever }
{
    if ever {
        Reason::NotOwner
    } else {
        Reason::NoStream
    }
}

/// Why a stream doesn't take a request, where it isn't for want of memory.
pub(crate) fn lasting(error: StreamError) -> Result<StreamError, AllocError>
    ensures same { IfOk result (λ e. e ≡ error) }
    ensures lasts { OnOk result (error ≢ Memory alloc_error) }
{
    match error {
        StreamError::Memory(error) => Err(error),
        other => Ok(other),
    }
}

/// Why a stream doesn't take a request, of a session that ever owned one or not.
pub(crate) fn not_taken(
    alloc: Global,
    ever: bool,
    error: &StreamError,
) -> Result<Refusal, AllocError>
    ensures { IfOk result (λ r. r ≡ refusal_of (reason_of ever error.now)) }
{
    Ok(Refusal::of(reason_of(alloc, ever, error)?))
}

fn reason_of(alloc: Global, ever: bool, error: &StreamError) -> Result<Reason, AllocError>
    ensures { IfOk result (λ r. r ≡ reason_of ever error.now) }
{
    match error {
        StreamError::Unknown(stream) => Ok(Reason::StreamUnknown(*stream)),
        StreamError::NotOwner => Ok(unowned(ever)),
        StreamError::Stale(token, next) => Ok(Reason::Stale(*token, *next)),
        StreamError::Ahead(token, next) => Ok(Reason::Ahead(*token, *next)),
        StreamError::TooMany(limit) => {
            Ok(Reason::AtLimit(Text::from_str(alloc, "streams")?, *limit))
        }
        StreamError::Second => Ok(Reason::SecondStream),
        StreamError::Memory(_) => Err(AllocError),
    }
}

impl Server {
    ghost use Rattle.std.specs.Prelude.{◌≡◌, ℕ, None, IfOk, OnErr, OnOk};
    ghost use Rattle.fs_request.specs.declared.stream_request.StreamRequest.TheVariants as ask;
    ghost use Rattle.fs_machine.specs.Request.{answered, asked};
    ghost use Rattle.fs_machine.specs.Stream.{streamed, streamed_answer};
    ghost use Rattle.fs_server.specs.Streaming.{after_streaming, refusal_of_stream, streaming_answer, writing};

    /// One of a write stream, with the id of its envelope.
    pub(crate) fn write(
        &mut self,
        alloc: Global,
        session: u32,
        id: &Option<Text>,
        database: &Root,
        sent: &StreamRequest,
    ) -> Result<Answer, AllocError>
        ensures told { IfOk result (λ a. a ≡ answered self.old session (writing id.now database.now sent.now)) }
        ensures state { OnOk result (self.new ≡ asked self.old session (writing id.now database.now sent.now)) }
        ensures err { OnErr result (self.new ≡ self.old) }
    {
        match sent {
            StreamRequest::Open => self.open_stream(alloc, session),
            StreamRequest::Resume { stream, token } => {
                self.resume_stream(alloc, session, *stream, *token)
            }
            StreamRequest::Batch { token, writes } => {
                self.batch(alloc, session, id, database, *token, writes)
            }
            StreamRequest::Ask { .. } => self.tell_stream(alloc, session),
            StreamRequest::Mixed { writes, .. } => self.refuse_mixed(alloc, session, writes),
        }
    }

    // ---- opened

    fn open_stream(&mut self, alloc: Global, session: u32) -> Result<Answer, AllocError>
        ensures told { IfOk result (λ a. a ≡ streaming_answer self.old session ask.Open) }
        ensures state { OnOk result (self.new ≡ after_streaming self.old session ask.Open) }
        ensures err { OnErr result (self.new ≡ self.old) }
    {
        match self.opening_refusal(alloc, session)? {
            Some(refusal) => Ok(Answer::Refused(refusal)),
            None => self.open_free(session),
        }
    }

    // Why a session opens no stream.
    fn opening_refusal(&self, alloc: Global, session: u32) -> Result<Option<Refusal>, AllocError>
        ensures { IfOk result (λ r. r ≡ refusal_of_stream self.now session ask.Open) }
    {
        if self.outbox_is_full(session) {
            return at_limit(alloc, "outbox", self.limits.outbox);
        }
        if self.streams.is_full() {
            return at_limit(alloc, "streams", self.streams.limit());
        }
        match self.streams.owned(session) {
            Some(_) => Ok(Some(Refusal::of(Reason::SecondStream))),
            None => Ok(None),
        }
    }

    fn open_free(&mut self, session: u32) -> Result<Answer, AllocError>
        requires { refusal_of_stream self.old session ask.Open ≡ None }
        ensures told { IfOk result (λ a. a ≡ streamed_answer self.old session ask.Open) }
        ensures state { OnOk result (self.new ≡ streamed self.old session ask.Open) }
        ensures err { OnErr result (self.new ≡ self.old) }
    {
        self.stand();
        match self.streams.open(session) {
            Ok(stream) => {
                self.sessions.own(session);
                Ok(Answer::Reply(stands_at(stream, 0)))
            }
            Err(_) => Err(AllocError),
        }
    }

    // ---- resumed

    fn resume_stream(
        &mut self,
        alloc: Global,
        session: u32,
        stream: u64,
        token: u64,
    ) -> Result<Answer, AllocError>
        ensures told { IfOk result (λ a. a ≡ streaming_answer self.old session (ask.Resume stream token)) }
        ensures state { OnOk result (self.new ≡ after_streaming self.old session (ask.Resume stream token)) }
        ensures err { OnErr result (self.new ≡ self.old) }
    {
        if let Some(refusal) = self.outbox_refusal(alloc, session)? {
            return Ok(Answer::Refused(refusal));
        }
        match self.streams.seek(alloc, session, stream, token) {
            Ok(resumed) => self.resume_as(alloc, session, stream, token, resumed),
            Err(error) => {
                let error = lasting(error)?;
                let ever = self.sessions.has_owned(session);
                Ok(Answer::Refused(not_taken(alloc, ever, &error)?))
            }
        }
    }

    // It is told where the stream is, and owns it from now on.
    fn resume_as(
        &mut self,
        alloc: Global,
        session: u32,
        stream: u64,
        token: u64,
        resumed: Resumed,
    ) -> Result<Answer, AllocError>
        requires { refusal_of_stream self.old session (ask.Resume stream token) ≡ None }
        ensures told { IfOk result (λ a. a ≡ resumed_by stream (Told resumed)) }
        ensures state { OnOk result (self.new ≡ streamed self.old session (ask.Resume stream token)) }
        ensures err { OnErr result (self.new ≡ self.old) }
    {
        let answer = resumed_answer(alloc, stream, &resumed);
        drop(resumed);
        match answer {
            Ok(answer) => self.resume_free(alloc, session, stream, token, answer),
            Err(error) => Err(error),
        }
    }

    // It is told this, once it owns the stream.
    fn resume_free(
        &mut self,
        alloc: Global,
        session: u32,
        stream: u64,
        token: u64,
        answer: Answer,
    ) -> Result<Answer, AllocError>
        requires { refusal_of_stream self.old session (ask.Resume stream token) ≡ None }
        ensures same { IfOk result (λ a. a ≡ answer) }
        ensures state { OnOk result (self.new ≡ streamed self.old session (ask.Resume stream token)) }
        ensures err { OnErr result (self.new ≡ self.old) }
    {
        match self.hand(alloc, session, stream, token) {
            Ok(()) => Ok(answer),
            Err(error) => {
                drop(answer);
                Err(error)
            }
        }
    }

    // A session owns a stream from now on that it may resume with a token.
    fn hand(
        &mut self,
        alloc: Global,
        session: u32,
        stream: u64,
        token: u64,
    ) -> Result<(), AllocError>
        requires { refusal_of_stream self.old session (ask.Resume stream token) ≡ None }
        ensures state { OnOk result (self.new ≡ streamed self.old session (ask.Resume stream token)) }
        ensures err { OnErr result (self.new ≡ self.old) }
    {
        self.stand();
        match self.streams.resume(alloc, session, stream, token) {
            Ok(_) => {
                self.sessions.own(session);
                Ok(())
            }
            Err(_) => Err(AllocError),
        }
    }

    // ---- asked where it is, and a batch that names its stream

    // Whatever its token is.
    fn tell_stream(&self, alloc: Global, session: u32) -> Result<Answer, AllocError>
        ensures { IfOk result (λ a. (token : ℕ) → a ≡ streaming_answer self.now session (ask.Ask token)) }
    {
        if let Some(refusal) = self.outbox_refusal(alloc, session)? {
            return Ok(Answer::Refused(refusal));
        }
        match self.streams.owned(session) {
            Some((stream, finished)) => Ok(Answer::Reply(stands_at(stream, finished))),
            None => {
                let ever = self.sessions.has_owned(session);
                Ok(Answer::Refused(Refusal::of(unowned(ever))))
            }
        }
    }

    fn refuse_mixed(
        &self,
        alloc: Global,
        session: u32,
        writes: &Writes,
    ) -> Result<Answer, AllocError>
        ensures { IfOk result (λ a. (stream token : ℕ) → a ≡ streaming_answer self.now session (ask.Mixed stream token writes.now)) }
    {
        let refusal = if self.are_too_many(writes) {
            at_limit(alloc, "writes", self.limits.writes)?
        } else {
            self.outbox_refusal(alloc, session)?
        };
        match refusal {
            Some(refusal) => Ok(Answer::Refused(refusal)),
            None => Ok(Answer::Refused(Refusal::of(Reason::NoStream))),
        }
    }
}
