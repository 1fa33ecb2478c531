//! Reads the requests of write streams.
ghost use Rattle.std.specs.Prelude.{◌≡◌, ℕ, Option, Some, None};
ghost use Rattle.fs_path.specs.Way.{place_of};
ghost use Rattle.serde_json.specs.View.{view as json};
ghost use Rattle.fs_json.specs.Answer.{Gives};
ghost use Rattle.fs_rpc.specs.ReadStreams.{asked_with, is_lacking, stream_in, stream_request_at, token_for};
ghost use Rattle.fs_rpc.specs.RequestSteps.{judged_stream_at, labelled_token_at, stream_of_at};

use crate::decimal::read_decimal;
use crate::eight::read_optional_eight;
use crate::names::{STREAM_ID, STREAM_TOKEN, WRITE_MEMBERS, WRITES};
use crate::read::{read_database, read_drafts_of};
use crate::targets_read::read_labels;
use fs_json::{Bad, member, only};
use fs_path::{Root, Rule, Way};
use fs_request::{Request, StreamRequest};
use fs_write::Writes;
use fs_writejson::{Draft, Drafts, judge};
use serde_json::Value;
use std::alloc::Global;

/// Reads a `WriteRequest`. The rules of its writes are tested after the walk of the whole request.
#[tactic(auto, unfolding(crate::specs::ReadStreams::stream_request_at))]
pub(crate) fn read_stream_request(
    alloc: Global,
    root: &Root,
    v: &Value,
    way: &Way<'_>,
) -> Result<Request, Bad>
    ensures { Gives (λ r. r) result (stream_request_at root.now (json v.now) (place_of way.now)) }
{
    only(alloc, v, &WRITE_MEMBERS, way)?;
    read_database(alloc, root, v, way)?;
    let stream = read_stream(alloc, v, way)?;
    let drafts = read_drafts_of(alloc, root, v, way)?;
    read_stream_of(alloc, root, stream, drafts, v, way)
}

// What is asked with these writes, whose rules are tested last.
fn read_stream_of(
    alloc: Global,
    root: &Root,
    stream: Option<u64>,
    drafts: Drafts,
    v: &Value,
    way: &Way<'_>,
) -> Result<Request, Bad>
    ensures { Gives (λ r. r) result
        (stream_of_at root.now stream drafts (json v.now) (place_of way.now)) }
{
    match read_labelled_token(alloc, stream, drafts.as_slice(), v, way) {
        Ok(token) => judged_stream(alloc, root, stream, token, drafts, way),
        Err(bad) => {
            drop(drafts);
            Err(bad)
        }
    }
}

// The token, and the labels behind it.
fn read_labelled_token(
    alloc: Global,
    stream: Option<u64>,
    drafts: &[Draft],
    v: &Value,
    way: &Way<'_>,
) -> Result<Option<u64>, Bad>
    ensures { Gives {Y = Option ℕ} (λ n. n) result
        (labelled_token_at stream drafts.now (json v.now) (place_of way.now)) }
{
    let token = read_token_for(alloc, stream, drafts, v, way)?;
    read_labels(alloc, v, way)?;
    Ok(token)
}

fn judged_stream(
    alloc: Global,
    root: &Root,
    stream: Option<u64>,
    token: Option<u64>,
    drafts: Drafts,
    way: &Way<'_>,
) -> Result<Request, Bad>
    ensures { Gives (λ r. r) result
        (judged_stream_at root.now stream token drafts (place_of way.now)) }
{
    let writes = judge(alloc, drafts, &way.member(WRITES))?;
    Ok(Request::Write {
        database: root.copy(alloc)?,
        asked: asked_with(stream, token, writes),
    })
}

// The number of a stream, which may be absent.
fn read_stream(alloc: Global, v: &Value, way: &Way<'_>) -> Result<Option<u64>, Bad>
    ensures { Gives {Y = Option ℕ} (λ n. n) result (stream_in (json v.now) (place_of way.now)) }
{
    match member(alloc, v, STREAM_ID, way)? {
        Some(stream) => Ok(Some(read_decimal(alloc, stream, &way.member(STREAM_ID))?)),
        None => Ok(None),
    }
}

// The token, which has to be there beside a stream or writes.
fn read_token_for(
    alloc: Global,
    stream: Option<u64>,
    drafts: &[Draft],
    v: &Value,
    way: &Way<'_>,
) -> Result<Option<u64>, Bad>
    ensures { Gives {Y = Option ℕ} (λ n. n) result
        (token_for stream drafts.now (json v.now) (place_of way.now)) }
{
    let token = read_optional_eight(alloc, v, STREAM_TOKEN, way)?;
    if is_lacking(stream, drafts, token) {
        Err(Bad::at(alloc, Rule::G, &way.member(STREAM_TOKEN)))
    } else {
        Ok(token)
    }
}

fn is_lacking(stream: Option<u64>, drafts: &[Draft], token: Option<u64>) -> bool
    ensures { result ≡ is_lacking stream drafts.now token }
{
    token.is_none() && (stream.is_some() || !drafts.is_empty())
}

/// What is asked by the members that are there.
fn asked_with(stream: Option<u64>, token: Option<u64>, writes: Writes) -> StreamRequest
    ensures { result ≡ asked_with stream token writes }
{
    let Some(token) = token else {
        return StreamRequest::Open;
    };
    match stream {
        Some(stream) => named_with(stream, token, writes),
        None => owned_with(token, writes),
    }
}

fn named_with(stream: u64, token: u64, writes: Writes) -> StreamRequest
    ensures { result ≡ asked_with (Some stream) (Some token) writes }
{
    if writes.is_empty() {
        StreamRequest::Resume { stream, token }
    } else {
        StreamRequest::Mixed {
            stream,
            token,
            writes,
        }
    }
}

fn owned_with(token: u64, writes: Writes) -> StreamRequest
    ensures { result ≡ asked_with None (Some token) writes }
{
    if writes.is_empty() {
        StreamRequest::Ask { token }
    } else {
        StreamRequest::Batch { token, writes }
    }
}
