//! Writes the requests of write streams.
ghost use Rattle.std.specs.Prelude.{◌≡◌, IfOk, IfSome, OnOk, codes};
ghost use Rattle.std.specs.List.{AllByRecursion};
ghost use Rattle.serde_json.specs.View.{members_view, view as json};
ghost use Rattle.fs_rpc.specs.Decimal.{IsDecimalHeld};
ghost use Rattle.fs_rpc.specs.Eight.{IsEightHeld, eight_text};
ghost use Rattle.fs_rpc.specs.RequestJson.{stream_of, stream_request_json, token_of, writes_json, writes_of};
ghost use Rattle.fs_rpc.specs.RequestSteps.{IsAskedHeld, IsWriteHeld, with_eight_put, with_stream_put};
ghost use Rattle.fs_rpc.specs.Steps.{with_list_put};

use crate::decimal::write_decimal;
use crate::eight::{print_eight, put_eight};
use crate::list::put_list;
use crate::names::{DATABASE, STREAM_ID, STREAM_TOKEN, WRITES};
use crate::request_write::{database_value, write_writes};
use fs_path::{Root, Text};
use fs_request::StreamRequest;
use fs_write::Write;
use serde_json::{Map, Value};
use std::alloc::{AllocError, Global};

/// The token of a write stream as JSON has it: `AAAAAAAAAAE=` where one batch is finished.
pub fn print_stream_token(alloc: Global, token: u64) -> Result<Text, AllocError>
    ensures text { IfOk result (λ t. t ≡ eight_text token) }

    // It is read back.
    ensures held { OnOk result (IsEightHeld token) }
{
    print_eight(alloc, token)
}

/// Writes a `WriteRequest`. What isn't there is left out.
pub(crate) fn write_stream_request(
    alloc: Global,
    database: &Root,
    asked: &StreamRequest,
) -> Result<Value, AllocError>
    ensures value { IfOk result (λ v. json v ≡ stream_request_json database.now asked.now) }
    ensures held { OnOk result (IsAskedHeld asked.now) }
{
    let mut members = Map::new(alloc);
    let database = database_value(alloc, database)?;
    serde_json::put(&mut members, alloc, DATABASE, database)?;
    put_stream(alloc, &mut members, stream_of(asked))?;
    put_token(alloc, &mut members, token_of(asked))?;
    put_writes_of(alloc, &mut members, asked)?;
    Ok(Value::Object(members))
}

/// Puts in the number of a stream, where there is one.
fn put_stream(
    alloc: Global,
    members: &mut Map<String, Value>,
    stream: Option<u64>,
) -> Result<(), AllocError>
    ensures value { OnOk result (members_view members.new.entries
        ≡ with_stream_put stream (members_view members.old.entries)) }
    ensures held { OnOk result (IfSome stream IsDecimalHeld) }
{
    match stream {
        Some(n) => serde_json::put(members, alloc, STREAM_ID, write_decimal(alloc, n)?),
        None => Ok(()),
    }
}

/// Puts in a token, where there is one.
fn put_token(
    alloc: Global,
    members: &mut Map<String, Value>,
    token: Option<u64>,
) -> Result<(), AllocError>
    ensures value { OnOk result (members_view members.new.entries
        ≡ with_eight_put (codes "streamToken") token (members_view members.old.entries)) }
    ensures held { OnOk result (IfSome token IsEightHeld) }
{
    match token {
        Some(n) => put_eight(alloc, members, STREAM_TOKEN, n),
        None => Ok(()),
    }
}

/// Puts in the writes of a batch, where there are some.
fn put_writes_of(
    alloc: Global,
    members: &mut Map<String, Value>,
    asked: &StreamRequest,
) -> Result<(), AllocError>
    ensures value { OnOk result (members_view members.new.entries
        ≡ with_list_put (codes "writes") (writes_json (writes_of asked.now)) (members_view members.old.entries)) }
    ensures held { OnOk result (AllByRecursion IsWriteHeld (writes_of asked.now)) }
{
    match asked {
        StreamRequest::Batch { writes, .. } => { put_writes(alloc, members, writes.as_slice()) }
        StreamRequest::Mixed { writes, .. } => { put_writes(alloc, members, writes.as_slice()) }
        _ => Ok(()),
    }
}

fn put_writes(
    alloc: Global,
    members: &mut Map<String, Value>,
    writes: &[Write],
) -> Result<(), AllocError>
    ensures value { OnOk result (members_view members.new.entries
        ≡ with_list_put (codes "writes") (writes_json writes.now) (members_view members.old.entries)) }
    ensures held { OnOk result (AllByRecursion IsWriteHeld writes.now) }
{
    let written = write_writes(alloc, writes)?;
    put_list(alloc, members, WRITES, written)
}

fn stream_of(asked: &StreamRequest) -> Option<u64>
    ensures { result ≡ stream_of asked.now }
{
    match asked {
        StreamRequest::Resume { stream, .. } => Some(*stream),
        StreamRequest::Mixed { stream, .. } => Some(*stream),
        _ => None,
    }
}

fn token_of(asked: &StreamRequest) -> Option<u64>
    ensures { result ≡ token_of asked.now }
{
    match asked {
        StreamRequest::Open => None,
        StreamRequest::Resume { token, .. } => Some(*token),
        StreamRequest::Batch { token, .. } => Some(*token),
        StreamRequest::Ask { token } => Some(*token),
        StreamRequest::Mixed { token, .. } => Some(*token),
    }
}
