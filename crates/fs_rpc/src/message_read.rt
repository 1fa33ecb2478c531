//! Reads messages.
ghost use Rattle.std.specs.Prelude.{◌≡◌, ◌≤◌, IfOk, []};
ghost use Rattle.serde_json.specs.Data.{depth};
ghost use Rattle.serde_json.specs.Read.{max_depth, read};
ghost use Rattle.serde_json.specs.View.{items_view, members_view, view as json};
ghost use Rattle.fs_path.specs.Way.{place_of};
ghost use Rattle.fs_path.specs.declared.place.Rule.TheVariants.{G};
ghost use Rattle.fs_json.specs.Answer.{Gives, or_fault};
ghost use Rattle.fs_rpc.specs.MessageJson.{message_json};
ghost use Rattle.fs_rpc.specs.ReadMessage.{answers_begin, answers_commit, answers_names, answers_rollback, begin_result_at, commit_result_at, documents_result_at, error_at, has_none, list_result_at, message_at, message_of, no_id_at, object_result_at, outcome_at, query_result_at, result_at, streamed_at, unasked_at};
ghost use Rattle.fs_rpc.specs.ValidMessage.{IsMessageOf};

use crate::answers::{answered, read_answers, read_query_answers};
use crate::error_read::read_refusal;
use crate::id::read_id;
use crate::listen_read::read_listen;
use crate::names::{
    BEGIN_RESULT_MEMBERS, COMMIT_RESULT_MEMBERS, COMMIT_TIME, FOUND, ID, LISTEN, MESSAGE_MEMBERS,
    MISSING, OUTCOMES, RESULT, TRANSACTION, WRITE,
};
use crate::results::read_results;
use crate::stream_answer_read::read_stream_answer;
use crate::transaction::read_transaction;
use fs_json::{Bad, is_there, one_of, only, read_required_time, required};
use fs_path::{Root, Rule, Text, Way};
use fs_request::Message;
use fs_valjson::read_document;
use serde_json::{Map, Value};
use std::alloc::{AllocError, Global};

/// Reads a message of this root's documents from its JSON. It is told by its shape what was asked for: a list whose first
/// item has `found` or `missing`, and an empty one, answers names; any other list a query; an object with `commitTime` a
/// commit, one with `transaction` a begin, and an empty one a rollback; and any other is a document. What a session
/// is told of its targets and its write stream has a member of its own, `listen` or `write`, and no id.
///
/// A text that is no JSON object is refused at the empty place, and a query's items that have different times at `result`.
pub fn read_message(alloc: Global, root: &Root, text: &str) -> Result<Message, Bad>
    ensures gives { Gives (λ m. m) result (message_of root.now text.now) }

    // Its documents and names are the root's, and its references are names of documents.
    ensures valid { IfOk result (λ m. IsMessageOf root.now m) }

    // What is written of it nests no deeper than JSON is read.
    ensures nests { IfOk result (λ m. depth (message_json m) ≤ max_depth) }
{
    let v = read_json(alloc, text)?;
    read_members(alloc, root, &v)
}

/// The JSON of a text. One that is none is at fault at the empty place.
pub(crate) fn read_json(alloc: Global, text: &str) -> Result<Value, Bad>
    ensures gives { Gives json result (or_fault G [] (read text.now)) }
    ensures nests { IfOk result (λ v. depth (json v) ≤ max_depth) }
{
    match Value::from_str(alloc, text) {
        Ok(v) => Ok(v),
        Err(e) => if e.is_memory() {
            Err(Bad::Memory(AllocError))
        } else {
            Err(Bad::at(alloc, Rule::G, &Way::method("")))
        },
    }
}

#[tactic(auto, unfolding(crate::specs::ReadMessage::message_at))]
fn read_members(alloc: Global, root: &Root, v: &Value) -> Result<Message, Bad>
    ensures { Gives (λ m. m) result (message_at root.now (json v.now)) }
{
    let here = Way::method("");
    only(alloc, v, &MESSAGE_MEMBERS, &here)?;
    let id = read_id(alloc, v)?;
    let (name, content) = one_of(alloc, v, &OUTCOMES, &here)?;
    read_outcome(alloc, root, id, name, content)
}

fn read_outcome(
    alloc: Global,
    root: &Root,
    id: Option<Text>,
    name: &str,
    v: &Value,
) -> Result<Message, Bad>
    ensures { Gives (λ m. m) result (outcome_at root.now id name.now (json v.now)) }
{
    match name {
        RESULT => read_result(alloc, root, id, v, &Way::method(name)),
        LISTEN => read_unasked(alloc, root, &id, v, &Way::method(name)),
        WRITE => read_streamed(alloc, &id, v, &Way::method(name)),
        _ => read_error(alloc, id, v, &Way::method(name)),
    }
}

/// Reads what a session that listens is told.
fn read_unasked(
    alloc: Global,
    root: &Root,
    id: &Option<Text>,
    v: &Value,
    way: &Way<'_>,
) -> Result<Message, Bad>
    ensures { Gives (λ m. m) result (unasked_at root.now id.now (json v.now) (place_of way.now)) }
{
    refuse_id(alloc, id)?;
    Ok(Message::Listen(read_listen(alloc, root, v, way)?))
}

/// Reads what a session is told of its write stream.
fn read_streamed(alloc: Global, id: &Option<Text>, v: &Value, way: &Way<'_>) -> Result<Message, Bad>
    ensures { Gives (λ m. m) result (streamed_at id.now (json v.now) (place_of way.now)) }
{
    refuse_id(alloc, id)?;
    read_stream_answer(alloc, v, way)
}

// Refuses the id of what answers no request.
fn refuse_id(alloc: Global, id: &Option<Text>) -> Result<(), Bad>
    ensures { Gives (λ u. u) result (no_id_at id.now) }
{
    match id {
        Some(_) => Err(Bad::at(alloc, Rule::G, &Way::method(ID))),
        None => Ok(()),
    }
}

fn read_error(alloc: Global, id: Option<Text>, v: &Value, way: &Way<'_>) -> Result<Message, Bad>
    ensures { Gives (λ m. m) result (error_at id (json v.now) (place_of way.now)) }
{
    let (code, message) = read_refusal(alloc, v, way)?;
    Ok(Message::Error { id, code, message })
}

#[tactic(auto, unfolding(crate::specs::ReadMessage::result_at))]
fn read_result(
    alloc: Global,
    root: &Root,
    id: Option<Text>,
    v: &Value,
    way: &Way<'_>,
) -> Result<Message, Bad>
    ensures { Gives (λ m. m) result (result_at root.now id (json v.now) (place_of way.now)) }
{
    match v.as_array() {
        Some(items) => read_list(alloc, root, id, items.as_slice(), way),
        None => read_object(alloc, root, id, v, way),
    }
}

fn read_list(
    alloc: Global,
    root: &Root,
    id: Option<Text>,
    items: &[Value],
    way: &Way<'_>,
) -> Result<Message, Bad>
    ensures { Gives (λ m. m) result (list_result_at root.now id (items_view items.now) (place_of way.now)) }
{
    if answers_names(items) {
        read_documents(alloc, root, id, items, way)
    } else {
        read_query(alloc, root, id, items, way)
    }
}

fn read_documents(
    alloc: Global,
    root: &Root,
    id: Option<Text>,
    items: &[Value],
    way: &Way<'_>,
) -> Result<Message, Bad>
    ensures { Gives (λ m. m) result (documents_result_at root.now id (items_view items.now) (place_of way.now)) }
{
    let answers = read_answers(alloc, root, items, way)?;
    Ok(Message::BatchGetDocuments { id, answers })
}

fn read_query(
    alloc: Global,
    root: &Root,
    id: Option<Text>,
    items: &[Value],
    way: &Way<'_>,
) -> Result<Message, Bad>
    ensures { Gives (λ m. m) result (query_result_at root.now id (items_view items.now) (place_of way.now)) }
{
    let told = read_query_answers(alloc, root, items, way)?;
    match answered(alloc, told)? {
        Some((documents, time)) => Ok(Message::RunQuery {
            id,
            documents,
            time,
        }),
        None => Err(Bad::at(alloc, Rule::G, way)),
    }
}

fn read_object(
    alloc: Global,
    root: &Root,
    id: Option<Text>,
    v: &Value,
    way: &Way<'_>,
) -> Result<Message, Bad>
    ensures { Gives (λ m. m) result (object_result_at root.now id (json v.now) (place_of way.now)) }
{
    if answers_commit(v) {
        read_commit(alloc, id, v, way)
    } else if answers_begin(v) {
        read_begin(alloc, id, v, way)
    } else if answers_rollback(v) {
        Ok(Message::Rollback { id })
    } else {
        let document = read_document(alloc, root, v, way)?;
        Ok(Message::GetDocument { id, document })
    }
}

/// Reads what a commit is answered. (v1 reference, `CommitResponse`.)
#[tactic(auto, unfolding(crate::specs::ReadMessage::commit_result_at))]
fn read_commit(alloc: Global, id: Option<Text>, v: &Value, way: &Way<'_>) -> Result<Message, Bad>
    ensures { Gives (λ m. m) result (commit_result_at id (json v.now) (place_of way.now)) }
{
    only(alloc, v, &COMMIT_RESULT_MEMBERS, way)?;
    let time = read_required_time(alloc, v, COMMIT_TIME, way)?;
    let results = read_results(alloc, v, way)?;
    Ok(Message::Commit { id, time, results })
}

/// Reads what a begin is answered. (v1 reference, `BeginTransactionResponse`.)
#[tactic(auto, unfolding(crate::specs::ReadMessage::begin_result_at))]
fn read_begin(alloc: Global, id: Option<Text>, v: &Value, way: &Way<'_>) -> Result<Message, Bad>
    ensures { Gives (λ m. m) result (begin_result_at id (json v.now) (place_of way.now)) }
{
    only(alloc, v, &BEGIN_RESULT_MEMBERS, way)?;
    let transaction = required(alloc, v, TRANSACTION, way)?;
    let transaction = read_transaction(alloc, transaction, &way.member(TRANSACTION))?;
    Ok(Message::BeginTransaction { id, transaction })
}

/// Whether a list answers names that were asked for, which is told by its first item.
fn answers_names(items: &[Value]) -> bool
    ensures { result ≡ answers_names (items_view items.now) }
{
    match items {
        [] => true,
        [first, ..] => is_there(first, FOUND) || is_there(first, MISSING),
    }
}

/// Whether an object is what a commit is answered.
fn answers_commit(v: &Value) -> bool
    ensures { result ≡ answers_commit (json v.now) }
{
    is_there(v, COMMIT_TIME) || is_there(v, "commit_time")
}

/// Whether an object is what a begin is answered.
fn answers_begin(v: &Value) -> bool
    ensures { result ≡ answers_begin (json v.now) }
{
    is_there(v, TRANSACTION)
}

/// Whether an object is what a rollback is answered.
fn answers_rollback(v: &Value) -> bool
    ensures { result ≡ answers_rollback (json v.now) }
{
    match v {
        Value::Object(members) => is_empty(members),
        _ => false,
    }
}

fn is_empty(members: &Map<String, Value>) -> bool
    ensures { result ≡ has_none (members_view members.now.entries) }
{
    members.is_empty()
}
