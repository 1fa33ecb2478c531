//! Writes requests.
ghost use Rattle.std.specs.Prelude.{◌≡◌, ◌≤◌, Ok, IfOk, IfSome, OnOk};
ghost use Rattle.std.specs.List.{AllByRecursion};
ghost use Rattle.fs_path.specs.declared.name.Root.{Root};
ghost use Rattle.serde_json.specs.Data.{depth};
ghost use Rattle.serde_json.specs.Read.{max_depth};
ghost use Rattle.serde_json.specs.View.{items_view, members_view, view as json};
ghost use Rattle.serde_json.specs.Written.{compact_text};
ghost use Rattle.fs_queryjson.specs.Written.{query_json};
ghost use Rattle.fs_writejson.specs.Mask.{mask_json};
ghost use Rattle.fs_writejson.specs.Written.{write_json};
ghost use Rattle.fs_rpc.specs.Envelope.{request_of};
ghost use Rattle.fs_rpc.specs.RequestJson.{batch_get_json, begin_json, commit_json, database_json, envelope_json, envelope_members, get_json, method_of, names_json, parent_json, request_json, rollback_json, run_query_json, writes_json};
ghost use Rattle.fs_rpc.specs.RequestSteps.{AreOptionsHeld, ArePathsHeld, IsMaskHeld, IsQueryHeld, IsRequestHeld, IsWhenHeld, IsWriteHeld, with_mask_put};
ghost use Rattle.fs_rpc.specs.Eight.{IsEightHeld};
ghost use Rattle.fs_rpc.specs.ValidRequest.{IsRequestOf};

use crate::id::put_id;
use crate::list::put_list;
use crate::names::{
    BATCH_GET_DOCUMENTS, BEGIN_TRANSACTION, COMMIT, DATABASE, DOCUMENTS, GET_DOCUMENT, LISTEN,
    MASK, NAME, OPTIONS, PARENT, ROLLBACK, RUN_QUERY, STRUCTURED_QUERY, WRITE, WRITES,
};
use crate::options::write_options;
use crate::streams_write::write_stream_request;
use crate::targets_write::{write_listen_add, write_listen_remove};
use crate::transaction::put_transaction;
use crate::when::put_when;
use fs_path::{DocName, Paths, Root, Scope, Text, print_database, print_document, print_parent};
use fs_query::Query;
use fs_queryjson::write_query;
use fs_request::{Envelope, Request, TransactionOptions, When};
use fs_status::Id;
use fs_write::Write;
use fs_writejson::{write_mask, write_write};
use serde_json::{Map, Value};
use std::alloc::{AllocError, Global};

/// Writes a request with its id, where it has one, as the text of its JSON, without spaces.
pub fn write_request(alloc: Global, e: &Envelope) -> Result<Text, AllocError>
    ensures text { IfOk result (λ t. t ≡ compact_text (envelope_json e.now)) }

    // Where it is a request of the root's documents, and its JSON nests no deeper than JSON is read, the text is read back as
    // the same request, with the same id.
    ensures again { IfOk result (λ t. (root : Root) → IsRequestOf root e.now.request
        → depth (envelope_json e.now) ≤ max_depth → request_of root t ≡ Ok e.now) }
{
    let members = write_members(alloc, e)?;
    let text = Value::Object(members).to_string(alloc)?;
    Ok(Text::of(text))
}

fn write_members(alloc: Global, e: &Envelope) -> Result<Map<String, Value>, AllocError>
    ensures value { IfOk result (λ ms. members_view ms.entries ≡ envelope_members e.now) }
    ensures held { OnOk result (IsRequestHeld e.now.request) }
{
    let content = write_content(alloc, &e.request)?;
    let mut members = Map::new(alloc);
    serde_json::put(&mut members, alloc, method_of(&e.request), content)?;
    put_id(alloc, &mut members, &e.id)?;
    Ok(members)
}

fn method_of(request: &Request) -> &'static str
    ensures { result.now ≡ method_of request.now }
{
    match request {
        Request::Commit { .. } => COMMIT,
        Request::GetDocument { .. } => GET_DOCUMENT,
        Request::BatchGetDocuments { .. } => BATCH_GET_DOCUMENTS,
        Request::RunQuery { .. } => RUN_QUERY,
        Request::BeginTransaction { .. } => BEGIN_TRANSACTION,
        Request::Rollback { .. } => ROLLBACK,
        Request::AddTarget { .. } => LISTEN,
        Request::RemoveTarget { .. } => LISTEN,
        Request::Write { .. } => WRITE,
    }
}

/// What stands under the method.
fn write_content(alloc: Global, request: &Request) -> Result<Value, AllocError>
    ensures value { IfOk result (λ v. json v ≡ request_json request.now) }
    ensures held { OnOk result (IsRequestHeld request.now) }
{
    match request {
        Request::Commit {
            database,
            writes,
            transaction,
        } => write_commit(alloc, database, writes.as_slice(), *transaction),
        Request::GetDocument { name, mask, when } => write_get(alloc, name, mask, *when),
        Request::BatchGetDocuments {
            database,
            documents,
            mask,
            when,
        } => write_batch_get(alloc, database, documents.as_slice(), mask, *when),
        Request::RunQuery {
            database,
            query,
            when,
        } => write_run_query(alloc, database, query, *when),
        Request::BeginTransaction { database, options } => write_begin(alloc, database, *options),
        Request::Rollback {
            database,
            transaction,
        } => write_rollback(alloc, database, *transaction),
        Request::AddTarget {
            database,
            id,
            target,
            token,
        } => write_listen_add(alloc, database, *id, target, token),
        Request::RemoveTarget { database, id } => write_listen_remove(alloc, database, *id),
        Request::Write { database, asked } => write_stream_request(alloc, database, asked),
    }
}

/// Writes a `CommitRequest`. Writes that are none are left out.
fn write_commit(
    alloc: Global,
    database: &Root,
    writes: &[Write],
    transaction: Option<Id>,
) -> Result<Value, AllocError>
    ensures value { IfOk result (λ v. json v ≡ commit_json database.now writes.now transaction) }
    ensures held { OnOk result (AllByRecursion IsWriteHeld writes.now × IfSome transaction IsEightHeld) }
{
    let mut members = Map::new(alloc);
    serde_json::put(
        &mut members,
        alloc,
        DATABASE,
        database_value(alloc, database)?,
    )?;
    put_transaction(alloc, &mut members, transaction)?;
    let written = write_writes(alloc, writes)?;
    put_list(alloc, &mut members, WRITES, written)?;
    Ok(Value::Object(members))
}

pub(crate) fn write_writes(alloc: Global, writes: &[Write]) -> Result<Vec<Value>, AllocError>
    ensures value { IfOk result (λ l. items_view l.items ≡ writes_json writes.now) }
    ensures held { OnOk result (AllByRecursion IsWriteHeld writes.now) }
{
    let mut items = Vec::with_capacity(alloc, writes.len())?;
    for write in writes {
        items.push(write_one(alloc, write)?)?;
    }
    Ok(items)
}

fn write_one(alloc: Global, write: &Write) -> Result<Value, AllocError>
    ensures value { IfOk result (λ v. json v ≡ write_json write.now) }
    ensures held { OnOk result (IsWriteHeld write.now) }
{
    write_write(alloc, write)
}

/// Writes a `GetDocumentRequest`.
fn write_get(
    alloc: Global,
    name: &DocName,
    mask: &Option<Paths>,
    when: When,
) -> Result<Value, AllocError>
    ensures value { IfOk result (λ v. json v ≡ get_json name.now mask.now when) }
    ensures held { OnOk result (IsMaskHeld mask.now × IsWhenHeld when) }
{
    let mut members = Map::new(alloc);
    let name = print_document(alloc, name)?.into_string();
    serde_json::put(&mut members, alloc, NAME, Value::String(name))?;
    put_mask(alloc, &mut members, mask)?;
    put_when(alloc, &mut members, when)?;
    Ok(Value::Object(members))
}

/// Writes a `BatchGetDocumentsRequest`. Its documents have to be there, so they are an empty list where there are none.
fn write_batch_get(
    alloc: Global,
    database: &Root,
    documents: &[DocName],
    mask: &Option<Paths>,
    when: When,
) -> Result<Value, AllocError>
    ensures value { IfOk result (λ v. json v ≡ batch_get_json database.now documents.now mask.now when) }
    ensures held { OnOk result (IsMaskHeld mask.now × IsWhenHeld when) }
{
    let mut members = Map::new(alloc);
    serde_json::put(
        &mut members,
        alloc,
        DATABASE,
        database_value(alloc, database)?,
    )?;
    let names = write_names(alloc, documents)?;
    serde_json::put(&mut members, alloc, DOCUMENTS, Value::Array(names))?;
    put_mask(alloc, &mut members, mask)?;
    put_when(alloc, &mut members, when)?;
    Ok(Value::Object(members))
}

pub(crate) fn write_names(alloc: Global, names: &[DocName]) -> Result<Vec<Value>, AllocError>
    ensures { IfOk result (λ l. items_view l.items ≡ names_json names.now) }
{
    let mut items = Vec::with_capacity(alloc, names.len())?;
    for name in names {
        let text = print_document(alloc, name)?.into_string();
        items.push(Value::String(text))?;
    }
    Ok(items)
}

/// Puts in a mask, where there is one. One without paths is there too.
fn put_mask(
    alloc: Global,
    members: &mut Map<String, Value>,
    mask: &Option<Paths>,
) -> Result<(), AllocError>
    ensures value { OnOk result (members_view members.new.entries
        ≡ with_mask_put mask.now (members_view members.old.entries)) }
    ensures held { OnOk result (IsMaskHeld mask.now) }
{
    match mask {
        Some(paths) => serde_json::put(members, alloc, MASK, mask_value(alloc, paths)?),
        None => Ok(()),
    }
}

fn mask_value(alloc: Global, paths: &Paths) -> Result<Value, AllocError>
    ensures value { IfOk result (λ v. json v ≡ mask_json paths.now) }
    ensures held { OnOk result (ArePathsHeld paths.now) }
{
    write_mask(alloc, paths)
}

/// Writes a `RunQueryRequest`.
fn write_run_query(
    alloc: Global,
    database: &Root,
    query: &Query,
    when: When,
) -> Result<Value, AllocError>
    ensures value { IfOk result (λ v. json v ≡ run_query_json database.now query.now when) }
    ensures held { OnOk result (IsQueryHeld query.now × IsWhenHeld when) }
{
    let mut members = Map::new(alloc);
    let structured = query_value(alloc, query)?;
    serde_json::put(&mut members, alloc, STRUCTURED_QUERY, structured)?;
    let parent = parent_value(alloc, database, &query.scope)?;
    serde_json::put(&mut members, alloc, PARENT, parent)?;
    put_when(alloc, &mut members, when)?;
    Ok(Value::Object(members))
}

pub(crate) fn query_value(alloc: Global, query: &Query) -> Result<Value, AllocError>
    ensures value { IfOk result (λ v. json v ≡ query_json query.now) }
    ensures held { OnOk result (IsQueryHeld query.now) }
{
    write_query(alloc, query)
}

/// The parent of a query's collections. It isn't part of the query's own JSON.
pub(crate) fn parent_value(
    alloc: Global,
    database: &Root,
    scope: &Scope,
) -> Result<Value, AllocError>
    ensures { IfOk result (λ v. json v ≡ parent_json database.now scope.now) }
{
    let parent = print_parent(alloc, database, scope.parent())?;
    Ok(Value::String(parent.into_string()))
}

/// Writes a `BeginTransactionRequest`.
fn write_begin(
    alloc: Global,
    database: &Root,
    options: TransactionOptions,
) -> Result<Value, AllocError>
    ensures value { IfOk result (λ v. json v ≡ begin_json database.now options) }
    ensures held { OnOk result (AreOptionsHeld options) }
{
    let mut members = Map::new(alloc);
    let database = database_value(alloc, database)?;
    serde_json::put(&mut members, alloc, DATABASE, database)?;
    let options = write_options(alloc, options)?;
    serde_json::put(&mut members, alloc, OPTIONS, options)?;
    Ok(Value::Object(members))
}

/// Writes a `RollbackRequest`.
fn write_rollback(alloc: Global, database: &Root, transaction: Id) -> Result<Value, AllocError>
    ensures value { IfOk result (λ v. json v ≡ rollback_json database.now transaction) }
    ensures held { OnOk result (IsEightHeld transaction) }
{
    let mut members = Map::new(alloc);
    let database = database_value(alloc, database)?;
    serde_json::put(&mut members, alloc, DATABASE, database)?;
    put_transaction(alloc, &mut members, Some(transaction))?;
    Ok(Value::Object(members))
}

pub(crate) fn database_value(alloc: Global, database: &Root) -> Result<Value, AllocError>
    ensures { IfOk result (λ v. json v ≡ database_json database.now) }
{
    Ok(Value::String(print_database(alloc, database)?.into_string()))
}
