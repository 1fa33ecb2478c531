//! What commits are answered that are let into the history, and batches of streams that are refused.
ghost use Rattle.std.specs.Prelude.{◌≡◌, ◌++◌, ◌∷◌, ◌<◌, ◌^◌, suc, [], None, Some, IfOk, OnOk, OnErr};
ghost use Rattle.fs_request.specs.declared.message.Message.TheVariants as message;
ghost use Rattle.fs_machine.specs.Stream.{answer_of as answer_by, batch_refused, kept_refused, owner_told, response_of as response_by, told_if};
ghost use Rattle.fs_stream.specs.Streams.{stream_of};
ghost use Rattle.fs_server.specs.Answering.{AreAnswerable, CanFinish, CanFinishAll, all_finished, replies_of, replies_to, reply_if, responses_of, responses_to};

use fs_machine::{Asker, Committed, Reply};
use fs_path::Text;
use fs_request::{Message, StreamAnswer};
use fs_sessions::Sessions;
use fs_status::{Refusal, message};
use fs_stream::{Kept, Streams};
use fs_time::Micros;
use fs_write::WriteResults;
use std::alloc::{AllocError, Global};

/// The response that a stream keeps once its batch in progress is finished.
#[derive(Drop)]
pub(crate) struct Response {
    pub(crate) stream: u64,
    pub(crate) kept: Kept,
}

// ---- messages

// What became of a batch.
fn answer_of(alloc: Global, kept: &Kept) -> Result<StreamAnswer, AllocError>
    ensures { IfOk result (λ a. a ≡ answer_by kept.now) }
{
    if let Some(time) = kept.commit {
        return Ok(StreamAnswer::Committed {
            time,
            results: kept.results.copy(alloc)?,
        });
    }
    match &kept.refusal {
        Some(refusal) => Ok(StreamAnswer::Refused {
            code: refusal.code,
            message: message(alloc, refusal)?,
        }),
        None => Ok(StreamAnswer::Stands),
    }
}

/// The response of a stream, each time it is given.
pub(crate) fn response_of(alloc: Global, stream: u64, kept: &Kept) -> Result<Message, AllocError>
    ensures { IfOk result (λ m. m ≡ response_by stream kept.now) }
{
    Ok(Message::Write {
        stream,
        token: kept.token,
        answer: answer_of(alloc, kept)?,
    })
}

// ---- commits that are let into the history

// How many batches of a stream are finished with the next one.
fn next_token(streams: &Streams, stream: u64) -> u64
    requires { suc (stream_of stream streams.now).finished < 2 ^ 64 }
    ensures { result ≡ suc (stream_of stream streams.now).finished }
{
    match streams.get(stream) {
        Some(found) => found.finished + 1,
        None => 1,
    }
}

// How a batch of a stream is kept that is committed.
fn committed(streams: &Streams, stream: u64, time: Micros, results: WriteResults) -> Kept
    requires { suc (stream_of stream streams.now).finished < 2 ^ 64 }
    ensures { result ≡ record { token = suc (stream_of stream streams.now).finished; results = results; commit = Some time; refusal = None } }
{
    Kept {
        token: next_token(streams, stream),
        results,
        commit: Some(time),
        refusal: None,
    }
}

// The session that asked is told.
fn tell_asker(
    session: u32,
    request: Option<Text>,
    time: Micros,
    results: WriteResults,
    replies: &mut Vec<Reply>,
) -> Result<(), AllocError>
    ensures { OnOk result (replies.new.items ≡ replies.old.items ++ record { session = session; message = message.Commit request time results } ∷ []) }
{
    let message = Message::Commit {
        id: request,
        time,
        results,
    };
    Ok(replies.push(Reply { session, message })?)
}

// Whoever owns a stream is told.
fn tell_owner(
    alloc: Global,
    streams: &Streams,
    stream: u64,
    kept: &Kept,
    replies: &mut Vec<Reply>,
) -> Result<(), AllocError>
    ensures { OnOk result (replies.new.items ≡ replies.old.items ++ reply_if (owner_told streams.now stream kept.now)) }
{
    let Some(session) = streams.owner(stream) else {
        return Ok(());
    };
    let message = response_of(alloc, stream, kept)?;
    replies.push(Reply { session, message })?;
    Ok(())
}

// A stream is to keep a response.
fn keep(stream: u64, kept: Kept, responses: &mut Vec<Response>) -> Result<(), AllocError>
    ensures { OnOk result (responses.new.items ≡ responses.old.items ++ record { stream = stream; kept = kept } ∷ []) }
{
    Ok(responses.push(Response { stream, kept })?)
}

// One of a stream, by what it keeps.
fn answer_stream(
    alloc: Global,
    streams: &Streams,
    stream: u64,
    kept: Kept,
    replies: &mut Vec<Reply>,
    responses: &mut Vec<Response>,
) -> Result<(), AllocError>
    ensures told { OnOk result (replies.new.items ≡ replies.old.items ++ reply_if (owner_told streams.now stream kept)) }
    ensures kept { OnOk result (responses.new.items ≡ responses.old.items ++ record { stream = stream; kept = kept } ∷ []) }
{
    match tell_owner(alloc, streams, stream, &kept, replies) {
        Ok(()) => keep(stream, kept, responses),
        Err(error) => {
            drop(kept);
            Err(error)
        }
    }
}

// One of them, by a reply and a response more. Its results go into the message of a session, or are kept by the stream.
fn answer_one(
    alloc: Global,
    streams: &Streams,
    commit: Committed,
    replies: &mut Vec<Reply>,
    responses: &mut Vec<Response>,
) -> Result<(), AllocError>
    requires { AreAnswerable streams.now (commit ∷ []) }
    ensures told { OnOk result (replies.new.items ≡ replies.old.items ++ replies_to streams.now commit commit.asker) }
    ensures kept { OnOk result (responses.new.items ≡ responses.old.items ++ responses_to streams.now commit commit.asker) }
{
    let Committed {
        asker,
        time,
        results,
    } = commit;
    match asker {
        Asker::Session { session, request } => {
            tell_asker(session, request, time, results, replies)
        }
        Asker::Stream(stream) => {
            let kept = committed(streams, stream, time, results);
            answer_stream(alloc, streams, stream, kept, replies, responses)
        }
    }
}

/// What sessions are told of commits that are let into the history, in order, and what streams keep of them.
pub(crate) fn answers(
    alloc: Global,
    streams: &Streams,
    commits: Vec<Committed>,
) -> Result<(Vec<Reply>, Vec<Response>), AllocError>
    requires { AreAnswerable streams.now commits.items }
    ensures told { IfOk result (λ a. a.0.items ≡ replies_of streams.now commits.items) }
    ensures kept { IfOk result (λ a. a.1.items ≡ responses_of streams.now commits.items) }
{
    let mut replies = Vec::new(alloc);
    let mut responses = Vec::new(alloc);
    for commit in commits {
        answer_one(alloc, streams, commit, &mut replies, &mut responses)?;
    }
    Ok((replies, responses))
}

/// Batches in progress are finished, and their responses are kept. It takes no memory.
pub(crate) fn finish_all(streams: &mut Streams, responses: Vec<Response>)
    requires { CanFinishAll streams.old responses.items }
    ensures { streams.new ≡ all_finished responses.items streams.old }
{
    for response in responses {
        streams.finish(response.stream, response.kept);
    }
}

// ---- batches that are refused

// How it is kept.
fn refused(alloc: Global, streams: &Streams, stream: u64, refusal: Refusal) -> Kept
    requires { suc (stream_of stream streams.now).finished < 2 ^ 64 }
    ensures { result ≡ kept_refused streams.now stream refusal }
{
    Kept {
        token: next_token(streams, stream),
        results: WriteResults::new(alloc),
        commit: None,
        refusal: Some(refusal),
    }
}

// Whoever owns a stream is sent the response that it is to keep.
fn send_owner(
    alloc: Global,
    streams: &Streams,
    sessions: &mut Sessions,
    stream: u64,
    kept: &Kept,
) -> Result<(), AllocError>
    ensures ok { OnOk result (sessions.new ≡ told_if (owner_told streams.now stream kept.now) sessions.old) }
    ensures err { OnErr result (sessions.new ≡ sessions.old) }
{
    match streams.owner(stream) {
        Some(session) => sessions.deliver(session, response_of(alloc, stream, kept)?),
        None => Ok(()),
    }
}

/// The batch in progress of a stream is finished by a refusal, and whoever owns the stream is told. Where memory runs out, nothing is
/// changed.
pub(crate) fn refuse_batch(
    alloc: Global,
    streams: &mut Streams,
    sessions: &mut Sessions,
    stream: u64,
    refusal: Refusal,
) -> Result<(), AllocError>
    requires { CanFinish streams.old stream }
    ensures told { OnOk result ((streams.new, sessions.new) ≡ batch_refused stream refusal (streams.old, sessions.old)) }
    ensures err { OnErr result (streams.new ≡ streams.old) }
    ensures err_told { OnErr result (sessions.new ≡ sessions.old) }
{
    let kept = refused(alloc, streams, stream, refusal);
    match send_owner(alloc, streams, sessions, stream, &kept) {
        Ok(()) => {
            streams.finish(stream, kept);
            Ok(())
        }
        Err(error) => {
            drop(kept);
            Err(error)
        }
    }
}
