//! Writes what is told of write streams.
ghost use Rattle.std.specs.Prelude.{◌≡◌, ◌++◌, codes, OnOk};
ghost use Rattle.serde_json.specs.Data.{member, no_members};
ghost use Rattle.fs_request.specs.declared.message.StreamAnswer.TheVariants.{Committed, Refused, Stands};
ghost use Rattle.fs_valjson.specs.Tokens.{member_tokens, tokens_of};
ghost use Rattle.fs_rpc.specs.MessageJson.{stream_answer_json, stream_answer_members, with_stream_and_token};
ghost use Rattle.fs_rpc.specs.MessageSteps.{IsStreamHeld};

use crate::commit_write::push_results;
use crate::message_write::push_status;
use crate::names::{COMMIT_TIME, ERROR, STREAM_ID, STREAM_TOKEN, WRITE};
use crate::streams_write::print_stream_token;
use fs_request::StreamAnswer;
use fs_status::Code;
use fs_time::{Micros, print};
use fs_valjson::push_text;
use fs_write::WriteResult;
use json::Writer;
use std::alloc::{AllocError, Global};

/// Writes what is told of a stream, as the one member of its message. (v1 reference, `WriteResponse`.)
///
/// `"write":{"commitTime":"2024-01-01T00:00:00Z","streamId":"1","streamToken":"AAAAAAAAAAE=","writeResults":[{}]}`
pub(crate) fn push_write(
    alloc: Global,
    line: &mut Writer,
    stream: u64,
    token: u64,
    answer: &StreamAnswer,
) -> Result<(), AllocError>
    ensures tokens { OnOk result (line.new.tokens
        ≡ line.old.tokens ++ member_tokens (member (codes "write") (stream_answer_json stream token answer.now) no_members)) }
    ensures before { line.new.before ≡ line.old.before }
    ensures held { OnOk result (IsStreamHeld stream token answer.now) }
{
    line.key(WRITE)?;
    line.begin_object()?;
    push_answer(alloc, line, stream, token, answer)?;
    line.end_object()
}

fn push_answer(
    alloc: Global,
    line: &mut Writer,
    stream: u64,
    token: u64,
    answer: &StreamAnswer,
) -> Result<(), AllocError>
    ensures tokens { OnOk result (line.new.tokens
        ≡ line.old.tokens ++ member_tokens (stream_answer_members stream token answer.now)) }
    ensures before { line.new.before ≡ line.old.before }
    ensures held { OnOk result (IsStreamHeld stream token answer.now) }
{
    match answer {
        StreamAnswer::Stands => push_stream(alloc, line, stream, token),
        StreamAnswer::Committed { time, results } => {
            push_committed(alloc, line, stream, token, *time, results.as_slice())
        }
        StreamAnswer::Refused { code, message } => {
            push_refused(alloc, line, stream, token, *code, message.as_str())
        }
    }
}

// A stream and its token.
fn push_stream(alloc: Global, line: &mut Writer, stream: u64, token: u64) -> Result<(), AllocError>
    ensures tokens { OnOk result (line.new.tokens
        ≡ line.old.tokens ++ member_tokens (with_stream_and_token stream token no_members)) }
    ensures before { line.new.before ≡ line.old.before }
    ensures held { OnOk result (IsStreamHeld stream token Stands) }
{
    let number = format!(in alloc; "{}", stream)?;
    let text = print_stream_token(alloc, token)?;
    push_text(line, STREAM_ID, &number)?;
    push_text(line, STREAM_TOKEN, text.as_str())
}

fn push_committed(
    alloc: Global,
    line: &mut Writer,
    stream: u64,
    token: u64,
    time: Micros,
    results: &[WriteResult],
) -> Result<(), AllocError>
    ensures tokens { OnOk result (line.new.tokens
        ≡ line.old.tokens ++ member_tokens (stream_answer_members stream token (Committed time results.now))) }
    ensures before { line.new.before ≡ line.old.before }
    ensures held { OnOk result (IsStreamHeld stream token (Committed time results.now)) }
{
    let text = print(alloc, time)?;
    push_text(line, COMMIT_TIME, &text)?;
    push_stream(alloc, line, stream, token)?;
    push_results(alloc, line, time, &text, results)
}

fn push_refused(
    alloc: Global,
    line: &mut Writer,
    stream: u64,
    token: u64,
    code: Code,
    message: &str,
) -> Result<(), AllocError>
    ensures tokens { OnOk result (line.new.tokens
        ≡ line.old.tokens ++ member_tokens (stream_answer_members stream token (Refused code message.now))) }
    ensures before { line.new.before ≡ line.old.before }
    ensures held { OnOk result (IsStreamHeld stream token (Refused code message.now)) }
{
    line.key(ERROR)?;
    push_status(line, code, message)?;
    push_stream(alloc, line, stream, token)
}
