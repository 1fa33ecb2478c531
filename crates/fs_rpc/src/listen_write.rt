//! Writes what a session that listens is told.
ghost use Rattle.std.specs.Prelude.{◌≡◌, ◌++◌, codes, map, OnOk};
ghost use Rattle.serde_json.specs.Data.{array, member, no_members};
ghost use Rattle.serde_json.specs.View.{items_of};
ghost use Rattle.fs_json.specs.Time.{IsTimeHeld};
ghost use Rattle.fs_valjson.specs.Tokens.{member_tokens, tokens_of};
ghost use Rattle.fs_valjson.specs.Valid.{IsDocumentHeld};
ghost use Rattle.fs_rpc.specs.ListenJson.{cause_json, changed_members, gone_members, kind_members, listen_json, number_json, told_members, told_name, with_cause, with_moment, with_targets};
ghost use Rattle.fs_rpc.specs.MessageSteps.{IsListenHeld, IsTokenHeld};
ghost use Rattle.fs_rpc.specs.Tokens.{told_end, told_head};

use crate::names::{
    ADD, CAUSE, CODE, CURRENT, DOCUMENT, DOCUMENT_CHANGE, DOCUMENT_DELETE, DOCUMENT_REMOVE, LISTEN,
    MESSAGE, READ_TIME, REMOVE, REMOVED_TARGET_IDS, RESET, RESUME_TOKEN, TARGET_CHANGE,
    TARGET_CHANGE_TYPE, TARGET_IDS,
};
use base64::engine::general_purpose::STANDARD;
use fs_path::{Bytes, DocName, print_document};
use fs_query::{Cause, ListenMessage, Numbers};
use fs_time::{Micros, print};
use fs_valjson::{push_document, push_text};
use fs_value::Document;
use json::Writer;
use std::alloc::{AllocError, Global};

/// Writes what a session is told, as the one member of its message. (v1 reference, `ListenResponse`.)
///
/// `"listen":{"targetChange":{"targetChangeType":"ADD","targetIds":[1]}}`
pub(crate) fn push_listen(
    alloc: Global,
    line: &mut Writer,
    told: &ListenMessage,
) -> Result<(), AllocError>
    ensures tokens { OnOk result (line.new.tokens
        ≡ line.old.tokens ++ member_tokens (member (codes "listen") (listen_json told.now) no_members)) }
    ensures before { line.new.before ≡ line.old.before }
    ensures held { OnOk result (IsListenHeld told.now) }
{
    line.key(LISTEN)?;
    push_told(alloc, line, told)
}

fn push_told(alloc: Global, line: &mut Writer, told: &ListenMessage) -> Result<(), AllocError>
    ensures tokens { OnOk result (line.new.tokens ≡ line.old.tokens ++ tokens_of (listen_json told.now)) }
    ensures before { line.new.before ≡ line.old.before }
    ensures held { OnOk result (IsListenHeld told.now) }
{
    push_head(line, name_of(told))?;
    push_content(alloc, line, told)?;
    push_end(line)
}

// The name of the one member of what is told.
fn name_of(told: &ListenMessage) -> &'static str
    ensures { result.now ≡ told_name told.now }
{
    match told {
        ListenMessage::Changed { .. } => DOCUMENT_CHANGE,
        ListenMessage::Deleted { .. } => DOCUMENT_DELETE,
        ListenMessage::Removed { .. } => DOCUMENT_REMOVE,
        _ => TARGET_CHANGE,
    }
}

// An object of one member, which is an object.
fn push_head(line: &mut Writer, name: &str) -> Result<(), AllocError>
    ensures tokens { OnOk result (line.new.tokens ≡ line.old.tokens ++ told_head name.now) }
    ensures before { line.new.before ≡ line.old.before }
{
    line.begin_object()?;
    line.key(name)?;
    line.begin_object()
}

fn push_end(line: &mut Writer) -> Result<(), AllocError>
    ensures tokens { OnOk result (line.new.tokens ≡ line.old.tokens ++ told_end) }
    ensures before { line.new.before ≡ line.old.before }
{
    line.end_object()?;
    line.end_object()
}

// The members of that object.
fn push_content(alloc: Global, line: &mut Writer, told: &ListenMessage) -> Result<(), AllocError>
    ensures tokens { OnOk result (line.new.tokens ≡ line.old.tokens ++ member_tokens (told_members told.now)) }
    ensures before { line.new.before ≡ line.old.before }
    ensures held { OnOk result (IsListenHeld told.now) }
{
    match told {
        ListenMessage::Add { targets } => push_kind(line, ADD, targets),
        ListenMessage::Remove { targets, cause } => push_remove(line, targets, cause),
        ListenMessage::Reset { targets } => push_kind(line, RESET, targets),
        ListenMessage::Current {
            targets,
            time,
            token,
        } => push_current(alloc, line, targets, *time, token),
        ListenMessage::NoChange { time, token } => push_moment(alloc, line, *time, token),
        ListenMessage::Changed {
            document,
            targets,
            left,
        } => push_changed(alloc, line, document, targets, left),
        ListenMessage::Deleted { name, time, left } => push_gone(alloc, line, name, *time, left),
        ListenMessage::Removed { name, time, left } => push_gone(alloc, line, name, *time, left),
    }
}

// ---- changes of targets

fn push_kind(line: &mut Writer, kind: &str, targets: &Numbers) -> Result<(), AllocError>
    ensures tokens { OnOk result (line.new.tokens
        ≡ line.old.tokens ++ member_tokens (kind_members kind.now targets.now)) }
    ensures before { line.new.before ≡ line.old.before }
{
    push_text(line, TARGET_CHANGE_TYPE, kind)?;
    push_targets(line, TARGET_IDS, targets)
}

fn push_remove(
    line: &mut Writer,
    targets: &Numbers,
    cause: &Option<Cause>,
) -> Result<(), AllocError>
    ensures tokens { OnOk result (line.new.tokens
        ≡ line.old.tokens ++ member_tokens (with_cause cause.now (kind_members (codes "REMOVE") targets.now))) }
    ensures before { line.new.before ≡ line.old.before }
{
    push_cause(line, cause)?;
    push_kind(line, REMOVE, targets)
}

fn push_current(
    alloc: Global,
    line: &mut Writer,
    targets: &Numbers,
    time: Micros,
    token: &Bytes,
) -> Result<(), AllocError>
    ensures tokens { OnOk result (line.new.tokens
        ≡ line.old.tokens ++ member_tokens (with_moment time token.now (kind_members (codes "CURRENT") targets.now))) }
    ensures before { line.new.before ≡ line.old.before }
    ensures held { OnOk result (IsTimeHeld time × IsTokenHeld token.now) }
{
    push_moment(alloc, line, time, token)?;
    push_kind(line, CURRENT, targets)
}

// The cause, where there is one.
fn push_cause(line: &mut Writer, cause: &Option<Cause>) -> Result<(), AllocError>
    ensures tokens { OnOk result (line.new.tokens
        ≡ line.old.tokens ++ member_tokens (with_cause cause.now no_members)) }
    ensures before { line.new.before ≡ line.old.before }
{
    match cause {
        Some(cause) => push_some_cause(line, cause),
        None => Ok(()),
    }
}

fn push_some_cause(line: &mut Writer, cause: &Cause) -> Result<(), AllocError>
    ensures tokens { OnOk result (line.new.tokens
        ≡ line.old.tokens ++ member_tokens (member (codes "cause") (cause_json cause.now) no_members)) }
    ensures before { line.new.before ≡ line.old.before }
{
    line.key(CAUSE)?;
    line.begin_object()?;
    line.key(CODE)?;
    push_number(line, cause.code)?;
    push_text(line, MESSAGE, cause.message.as_str())?;
    line.end_object()
}

// A time, and the token of it.
fn push_moment(
    alloc: Global,
    line: &mut Writer,
    time: Micros,
    token: &Bytes,
) -> Result<(), AllocError>
    ensures tokens { OnOk result (line.new.tokens
        ≡ line.old.tokens ++ member_tokens (with_moment time token.now no_members)) }
    ensures before { line.new.before ≡ line.old.before }
    ensures held { OnOk result (IsTimeHeld time × IsTokenHeld token.now) }
{
    push_text(line, READ_TIME, &print(alloc, time)?)?;
    push_text(
        line,
        RESUME_TOKEN,
        &STANDARD.encode(alloc, token.as_slice())?,
    )
}

// ---- documents

fn push_changed(
    alloc: Global,
    line: &mut Writer,
    document: &Document,
    targets: &Numbers,
    left: &Numbers,
) -> Result<(), AllocError>
    ensures tokens { OnOk result (line.new.tokens
        ≡ line.old.tokens ++ member_tokens (changed_members document.now targets.now left.now)) }
    ensures before { line.new.before ≡ line.old.before }
    ensures held { OnOk result (IsDocumentHeld document.now) }
{
    line.key(DOCUMENT)?;
    push_document(alloc, line, document)?;
    push_targets(line, REMOVED_TARGET_IDS, left)?;
    push_targets(line, TARGET_IDS, targets)
}

fn push_gone(
    alloc: Global,
    line: &mut Writer,
    name: &DocName,
    time: Micros,
    left: &Numbers,
) -> Result<(), AllocError>
    ensures tokens { OnOk result (line.new.tokens
        ≡ line.old.tokens ++ member_tokens (gone_members name.now time left.now)) }
    ensures before { line.new.before ≡ line.old.before }
    ensures held { OnOk result (IsTimeHeld time) }
{
    push_text(line, DOCUMENT, print_document(alloc, name)?.as_str())?;
    push_text(line, READ_TIME, &print(alloc, time)?)?;
    push_targets(line, REMOVED_TARGET_IDS, left)
}

// ---- numbers

// The numbers of targets, which are left out where there are none.
fn push_targets(line: &mut Writer, name: &str, targets: &Numbers) -> Result<(), AllocError>
    ensures tokens { OnOk result (line.new.tokens
        ≡ line.old.tokens ++ member_tokens (with_targets name.now targets.now no_members)) }
    ensures before { line.new.before ≡ line.old.before }
{
    if targets.is_empty() {
        return Ok(());
    }
    line.key(name)?;
    push_numbers(line, targets.as_slice())
}

fn push_numbers(line: &mut Writer, numbers: &[u32]) -> Result<(), AllocError>
    ensures tokens { OnOk result (line.new.tokens
        ≡ line.old.tokens ++ tokens_of (array (items_of (map number_json numbers.now)))) }
    ensures before { line.new.before ≡ line.old.before }
{
    line.begin_array()?;
    for number in numbers {
        push_number(line, *number)?;
    }
    line.end_array()
}

fn push_number(line: &mut Writer, number: u32) -> Result<(), AllocError>
    ensures tokens { OnOk result (line.new.tokens ≡ line.old.tokens ++ tokens_of (number_json number)) }
    ensures before { line.new.before ≡ line.old.before }
{
    line.u64(u64::from(number))
}
