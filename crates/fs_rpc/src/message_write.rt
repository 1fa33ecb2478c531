//! Writes messages, token by token: a tree of JSON values for each answer would take a third of the time of a read.
ghost use Rattle.std.specs.Prelude.{◌≡◌, ◌++◌, ◌≤◌, IfOk, IsUtf8, Ok, OnOk, codes};
ghost use Rattle.std.specs.List.{AllByRecursion};
ghost use Rattle.serde_json.specs.Data.{array, depth, no_members, object, put, string};
ghost use Rattle.serde_json.specs.Read.{max_depth};
ghost use Rattle.serde_json.specs.Written.{compact_text};
ghost use Rattle.fs_path.specs.declared.name.Root.{Root};
ghost use Rattle.fs_json.specs.Time.{IsTimeHeld};
ghost use Rattle.fs_valjson.specs.Document.{document_json};
ghost use Rattle.fs_valjson.specs.Tokens.{member_tokens, tokens_of};
ghost use Rattle.fs_valjson.specs.Valid.{IsDocumentHeld};
ghost use Rattle.fs_writejson.specs.Results.{IsResultHeld};
ghost use Rattle.fs_rpc.specs.Eight.{IsEightHeld, eight_text};
ghost use Rattle.fs_rpc.specs.MessageJson.{begin_json, commit_json, error_json, error_members, message_json, message_json_on, message_members, query_answers_json, result_members, with_id};
ghost use Rattle.fs_rpc.specs.MessageSteps.{IsAnswerHeld, IsMessageHeld};
ghost use Rattle.fs_rpc.specs.ReadMessage.{message_of};
ghost use Rattle.fs_rpc.specs.Tokens.{answers_json, code_member, result_head, session_first};
ghost use Rattle.fs_rpc.specs.ValidMessage.{IsMessageOf};

use crate::commit_write::push_commit;
use crate::listen_write::push_listen;
use crate::names::{CODE, ERROR, ID, MESSAGE, RESULT, SESSION, STATUS, TRANSACTION};
use crate::reads_write::{push_answers, push_query_answers};
use crate::stream_answer_write::push_write;
use crate::transaction::print_transaction;
use fs_path::Text;
use fs_request::{BatchAnswer, Message};
use fs_status::{Code, Id};
use fs_time::Micros;
use fs_valjson::{push_document, push_text};
use fs_value::Document;
use fs_write::WriteResult;
use json::Writer;
use std::alloc::{AllocError, Global};

/// Most lines are shorter, and need no more room than this.
const ROOM: usize = 1024;

/// Writes a message as the text of its JSON, without spaces.
pub fn write_message(alloc: Global, m: &Message) -> Result<Vec<u8>, AllocError>
    ensures value { IfOk result (λ b. b.items ≡ compact_text (message_json m.now)) }
    ensures utf8 { IfOk result (λ b. IsUtf8 b.items) }

    // Where its documents and names are the root's, its references are names of documents, and its JSON nests no deeper
    // than JSON is read, it is read back as the same message.
    ensures reads_back { IfOk result (λ b. (root : Root) → IsMessageOf root m.now
        → depth (message_json m.now) ≤ max_depth → message_of root b.items ≡ Ok m.now) }
{
    let mut line = Writer::new(Vec::with_capacity(alloc, ROOM)?);
    push_message(alloc, &mut line, m)?;
    Ok(line.into_inner())
}

fn push_message(alloc: Global, line: &mut Writer, message: &Message) -> Result<(), AllocError>
    ensures tokens { OnOk result (line.new.tokens ≡ line.old.tokens ++ tokens_of (message_json message.now)) }
    ensures before { line.new.before ≡ line.old.before }
    ensures held { OnOk result (IsMessageHeld message.now) }
{
    line.begin_object()?;
    push_members(alloc, line, message)?;
    line.end_object()
}

// ---- on a line of a session

/// Writes a message with its session, as a line of a transcript has it.
///
/// `{"id":"1","result":{"commitTime":"2024-01-01T00:00:00Z","writeResults":[{"updateTime":"2024-01-01T00:00:00Z"}]},
/// "session":"a"}`
/// (docs/DECISIONS.md, "Replies are written token by token".)
pub fn write_message_on(
    alloc: Global,
    session: &str,
    message: &Message,
) -> Result<Vec<u8>, AllocError>
    ensures { IfOk result (λ b. b.items ≡ compact_text (message_json_on session.now message.now)) }
{
    let mut line = Writer::new(Vec::with_capacity(alloc, ROOM)?);
    push_message_on(alloc, &mut line, session, message)?;
    Ok(line.into_inner())
}

fn push_message_on(
    alloc: Global,
    line: &mut Writer,
    session: &str,
    message: &Message,
) -> Result<(), AllocError>
    ensures tokens { OnOk result (line.new.tokens
        ≡ line.old.tokens ++ tokens_of (message_json_on session.now message.now)) }
    ensures before { line.new.before ≡ line.old.before }
{
    line.begin_object()?;
    push_on(alloc, line, session, message)?;
    line.end_object()
}

// Its members, with the session in its place among them.
fn push_on(
    alloc: Global,
    line: &mut Writer,
    session: &str,
    message: &Message,
) -> Result<(), AllocError>
    ensures tokens { OnOk result (line.new.tokens
        ≡ line.old.tokens ++ member_tokens (put (codes "session") (string session.now) (message_members message.now))) }
    ensures before { line.new.before ≡ line.old.before }
{
    if session_first(message) {
        push_text(line, SESSION, session)?;
        return push_members(alloc, line, message);
    }
    push_members(alloc, line, message)?;
    push_text(line, SESSION, session)
}

// Members stand in the order of their names: the session before `write`, and behind all others.
fn session_first(message: &Message) -> bool
    ensures { result ≡ session_first message.now }
{
    matches!(message, Message::Write { .. })
}

// The members that a message has without a session.
fn push_members(alloc: Global, line: &mut Writer, message: &Message) -> Result<(), AllocError>
    ensures tokens { OnOk result (line.new.tokens ≡ line.old.tokens ++ member_tokens (message_members message.now)) }
    ensures before { line.new.before ≡ line.old.before }
    ensures held { OnOk result (IsMessageHeld message.now) }
{
    match message {
        Message::Commit { id, time, results } => {
            push_committed(alloc, line, id, *time, results.as_slice())
        }
        Message::GetDocument { id, document } => push_got(alloc, line, id, document),
        Message::BatchGetDocuments { id, answers } => {
            push_batch(alloc, line, id, answers.as_slice())
        }
        Message::RunQuery {
            id,
            documents,
            time,
        } => push_queried(alloc, line, id, documents.as_slice(), *time),
        Message::BeginTransaction { id, transaction } => push_begun(alloc, line, id, *transaction),
        Message::Rollback { id } => push_rolled_back(line, id),
        Message::Listen(told) => push_listen(alloc, line, told),
        Message::Write {
            stream,
            token,
            answer,
        } => push_write(alloc, line, *stream, *token, answer),
        Message::Error { id, code, message } => push_error(line, id, *code, message.as_str()),
    }
}

fn push_committed(
    alloc: Global,
    line: &mut Writer,
    id: &Option<Text>,
    time: Micros,
    results: &[WriteResult],
) -> Result<(), AllocError>
    ensures tokens { OnOk result (line.new.tokens
        ≡ line.old.tokens ++ member_tokens (result_members id.now (commit_json time results.now))) }
    ensures before { line.new.before ≡ line.old.before }
    ensures held { OnOk result (IsTimeHeld time × AllByRecursion IsResultHeld results.now) }
{
    push_head(line, id)?;
    push_commit(alloc, line, time, results)
}

fn push_got(
    alloc: Global,
    line: &mut Writer,
    id: &Option<Text>,
    document: &Document,
) -> Result<(), AllocError>
    ensures tokens { OnOk result (line.new.tokens
        ≡ line.old.tokens ++ member_tokens (result_members id.now (document_json document.now))) }
    ensures before { line.new.before ≡ line.old.before }
    ensures held { OnOk result (IsDocumentHeld document.now) }
{
    push_head(line, id)?;
    push_document(alloc, line, document)
}

fn push_batch(
    alloc: Global,
    line: &mut Writer,
    id: &Option<Text>,
    answers: &[BatchAnswer],
) -> Result<(), AllocError>
    ensures tokens { OnOk result (line.new.tokens
        ≡ line.old.tokens ++ member_tokens (result_members id.now (answers_json answers.now))) }
    ensures before { line.new.before ≡ line.old.before }
    ensures held { OnOk result (AllByRecursion IsAnswerHeld answers.now) }
{
    push_head(line, id)?;
    push_answers(alloc, line, answers)
}

fn push_queried(
    alloc: Global,
    line: &mut Writer,
    id: &Option<Text>,
    documents: &[Document],
    time: Micros,
) -> Result<(), AllocError>
    ensures tokens { OnOk result (line.new.tokens
        ≡ line.old.tokens ++ member_tokens (result_members id.now (array (query_answers_json documents.now time)))) }
    ensures before { line.new.before ≡ line.old.before }
    ensures held { OnOk result (AllByRecursion IsDocumentHeld documents.now × IsTimeHeld time) }
{
    push_head(line, id)?;
    push_query_answers(alloc, line, documents, time)
}

fn push_begun(
    alloc: Global,
    line: &mut Writer,
    id: &Option<Text>,
    transaction: Id,
) -> Result<(), AllocError>
    ensures tokens { OnOk result (line.new.tokens
        ≡ line.old.tokens ++ member_tokens (result_members id.now (begin_json transaction))) }
    ensures before { line.new.before ≡ line.old.before }
    ensures held { OnOk result (IsEightHeld transaction) }
{
    let text = print_transaction(alloc, transaction)?;
    push_head(line, id)?;
    push_transaction(line, transaction, text.as_str())
}

// `{"transaction":"AAAAAAAAAAI="}`
fn push_transaction(line: &mut Writer, transaction: Id, text: &str) -> Result<(), AllocError>
    requires { text.now ≡ eight_text transaction }
    ensures tokens { OnOk result (line.new.tokens ≡ line.old.tokens ++ tokens_of (begin_json transaction)) }
    ensures before { line.new.before ≡ line.old.before }
{
    line.begin_object()?;
    push_text(line, TRANSACTION, text)?;
    line.end_object()
}

fn push_rolled_back(line: &mut Writer, id: &Option<Text>) -> Result<(), AllocError>
    ensures tokens { OnOk result (line.new.tokens
        ≡ line.old.tokens ++ member_tokens (result_members id.now (object no_members))) }
    ensures before { line.new.before ≡ line.old.before }
{
    push_head(line, id)?;
    push_nothing(line)
}

// `{}`
fn push_nothing(line: &mut Writer) -> Result<(), AllocError>
    ensures tokens { OnOk result (line.new.tokens ≡ line.old.tokens ++ tokens_of (object no_members)) }
    ensures before { line.new.before ≡ line.old.before }
{
    line.begin_object()?;
    line.end_object()
}

// The id, where there is one, and the name of the member that comes next.
fn push_head(line: &mut Writer, id: &Option<Text>) -> Result<(), AllocError>
    ensures tokens { OnOk result (line.new.tokens ≡ line.old.tokens ++ result_head id.now) }
    ensures before { line.new.before ≡ line.old.before }
{
    push_id(line, id)?;
    line.key(RESULT)
}

/// The id of a request, where it has one.
pub fn push_id(line: &mut Writer, id: &Option<Text>) -> Result<(), AllocError>
    ensures tokens { OnOk result (line.new.tokens ≡ line.old.tokens ++ member_tokens (with_id id.now no_members)) }
    ensures before { line.new.before ≡ line.old.before }
{
    match id {
        Some(id) => push_text(line, ID, id.as_str()),
        None => Ok(()),
    }
}

// An error stands before its id.
fn push_error(
    line: &mut Writer,
    id: &Option<Text>,
    code: Code,
    message: &str,
) -> Result<(), AllocError>
    ensures tokens { OnOk result (line.new.tokens
        ≡ line.old.tokens ++ member_tokens (error_members id.now (error_json code message.now))) }
    ensures before { line.new.before ≡ line.old.before }
{
    line.key(ERROR)?;
    push_status(line, code, message)?;
    push_id(line, id)
}

/// Writes an error. (`google.rpc.Status`, as REST prints it.)
pub fn push_status(line: &mut Writer, code: Code, message: &str) -> Result<(), AllocError>
    ensures tokens { OnOk result (line.new.tokens ≡ line.old.tokens ++ tokens_of (error_json code message.now)) }
    ensures before { line.new.before ≡ line.old.before }
{
    line.begin_object()?;
    push_code(line, code)?;
    push_text(line, MESSAGE, message)?;
    push_text(line, STATUS, code.status())?;
    line.end_object()
}

fn push_code(line: &mut Writer, code: Code) -> Result<(), AllocError>
    ensures tokens { OnOk result (line.new.tokens ≡ line.old.tokens ++ code_member code) }
    ensures before { line.new.before ≡ line.old.before }
{
    line.key(CODE)?;
    line.u64(u64::from(code.http()))
}
