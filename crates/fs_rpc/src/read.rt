//! Reading what stands under the method of a request.
ghost use Rattle.fs_query.specs.Asked.{Asked};
ghost use Rattle.fs_path.specs.Way.{place_of};
ghost use Rattle.serde_json.specs.View.{view as json};
ghost use Rattle.fs_json.specs.Answer.{Gives};
ghost use Rattle.fs_rpc.specs.ByMethod.{request_at};
ghost use Rattle.fs_rpc.specs.Options.{options_in};
ghost use Rattle.fs_rpc.specs.Requests.{batch_get_at, begin_at, commit_at, database_at, drafts_in, get_at, mask_in, parent_at, rollback_at, run_query_at, structured_at};
ghost use Rattle.fs_rpc.specs.RequestSteps.{commit_of_at, judged_commit_at};
ghost use Rattle.fs_request.specs.declared.when.When.{When};

use crate::distinct::read_names;
use crate::names::{
    BATCH_GET_DOCUMENTS, BATCH_GET_MEMBERS, BEGIN_MEMBERS, BEGIN_TRANSACTION, COMMIT,
    COMMIT_MEMBERS, DATABASE, DOCUMENTS, GET_DOCUMENT, GET_MEMBERS, LISTEN, MASK, NAME, PARENT,
    ROLLBACK, ROLLBACK_MEMBERS, RUN_QUERY, RUN_QUERY_MEMBERS, STRUCTURED_QUERY, TRANSACTION, WRITE,
    WRITES,
};
use crate::options::read_options_of;
use crate::streams_read::read_stream_request;
use crate::targets_read::read_listen_request;
use crate::transaction::{read_optional_transaction, read_transaction};
use crate::when::read_when;
use fs_json::{Bad, member, only, read_document_name, required, unless_refused};
use fs_path::{Ids, Paths, Root, Rule, Text, Way, check_database, parse_parent};
use fs_query::Query;
use fs_queryjson::{judge_query, walk_query};
use fs_request::{Request, When};
use fs_status::Id;
use fs_writejson::{Drafts, judge, read_drafts, read_mask};
use serde_json::Value;
use std::alloc::Global;

/// What a method asks for by its content. One that isn't built is told by its name, whatever its content.
pub fn read_method(alloc: Global, root: &Root, method: &str, v: &Value) -> Result<Request, Bad>
    ensures { Gives (λ r. r) result (request_at root.now method.now (json v.now)) }
{
    let place = Way::method(method);
    match method {
        COMMIT => read_commit(alloc, root, v, &place),
        GET_DOCUMENT => read_get(alloc, root, v, &place),
        BATCH_GET_DOCUMENTS => read_batch_get(alloc, root, v, &place),
        RUN_QUERY => read_run_query(alloc, root, v, &place),
        BEGIN_TRANSACTION => read_begin(alloc, root, v, &place),
        ROLLBACK => read_rollback(alloc, root, v, &place),
        LISTEN => read_listen_request(alloc, root, v, &place),
        WRITE => read_stream_request(alloc, root, v, &place),
        _ => Err(Bad::Method(Text::from_str(alloc, method)?)),
    }
}

/// Reads a `CommitRequest`.
#[tactic(auto, unfolding(crate::specs::Requests::commit_at))]
fn read_commit(alloc: Global, root: &Root, v: &Value, way: &Way<'_>) -> Result<Request, Bad>
    ensures { Gives (λ r. r) result (commit_at root.now (json v.now) (place_of way.now)) }
{
    only(alloc, v, &COMMIT_MEMBERS, way)?;
    read_database(alloc, root, v, way)?;
    let drafts = read_drafts_of(alloc, root, v, way)?;
    read_commit_of(alloc, root, drafts, v, way)
}

// A commit of these writes, whose rules are tested last.
fn read_commit_of(
    alloc: Global,
    root: &Root,
    drafts: Drafts,
    v: &Value,
    way: &Way<'_>,
) -> Result<Request, Bad>
    ensures { Gives (λ r. r) result
        (commit_of_at root.now drafts (json v.now) (place_of way.now)) }
{
    match read_optional_transaction(alloc, v, TRANSACTION, way) {
        Ok(transaction) => judged_commit(alloc, root, drafts, transaction, way),
        Err(bad) => {
            drop(drafts);
            Err(bad)
        }
    }
}

fn judged_commit(
    alloc: Global,
    root: &Root,
    drafts: Drafts,
    transaction: Option<Id>,
    way: &Way<'_>,
) -> Result<Request, Bad>
    ensures { Gives (λ r. r) result (judged_commit_at root.now drafts transaction (place_of way.now)) }
{
    let writes = judge(alloc, drafts, &way.member(WRITES))?;
    Ok(Request::Commit {
        database: root.copy(alloc)?,
        writes,
        transaction,
    })
}

/// Reads a `GetDocumentRequest`.
#[tactic(auto, unfolding(crate::specs::Requests::get_at))]
fn read_get(alloc: Global, root: &Root, v: &Value, way: &Way<'_>) -> Result<Request, Bad>
    ensures { Gives (λ r. r) result (get_at root.now (json v.now) (place_of way.now)) }
{
    only(alloc, v, &GET_MEMBERS, way)?;
    let name = required(alloc, v, NAME, way)?;
    let name = read_document_name(alloc, root, name, &way.member(NAME))?;
    let mask = read_mask_of(alloc, v, way)?;
    let when = read_when(alloc, v, way)?;
    Ok(Request::GetDocument { name, mask, when })
}

/// Reads a `BatchGetDocumentsRequest`. A name that stands twice is asked for once.
#[tactic(auto, unfolding(crate::specs::Requests::batch_get_at))]
fn read_batch_get(alloc: Global, root: &Root, v: &Value, way: &Way<'_>) -> Result<Request, Bad>
    ensures { Gives (λ r. r) result (batch_get_at root.now (json v.now) (place_of way.now)) }
{
    only(alloc, v, &BATCH_GET_MEMBERS, way)?;
    read_database(alloc, root, v, way)?;
    let names = required(alloc, v, DOCUMENTS, way)?;
    let documents = read_names(alloc, root, names, &way.member(DOCUMENTS))?;
    let mask = read_mask_of(alloc, v, way)?;
    let when = read_when(alloc, v, way)?;
    Ok(Request::BatchGetDocuments {
        database: root.copy(alloc)?,
        documents,
        mask,
        when,
    })
}

/// Reads a `RunQueryRequest`.
#[tactic(auto, unfolding(crate::specs::Requests::run_query_at))]
fn read_run_query(alloc: Global, root: &Root, v: &Value, way: &Way<'_>) -> Result<Request, Bad>
    ensures { Gives (λ r. r) result (run_query_at root.now (json v.now) (place_of way.now)) }
{
    only(alloc, v, &RUN_QUERY_MEMBERS, way)?;
    let parent = required(alloc, v, PARENT, way)?;
    let parent = read_parent(alloc, root, parent, &way.member(PARENT))?;
    let database = root.copy(alloc)?;
    let (query, when) = read_structured(alloc, &parent, v, way)?;
    Ok(Request::RunQuery {
        database,
        query,
        when,
    })
}

// The query, whose rules are tested after the walk of the whole request, and when it is asked.
#[tactic(auto, unfolding(crate::specs::Requests::structured_at))]
fn read_structured(
    alloc: Global,
    parent: &Ids,
    v: &Value,
    way: &Way<'_>,
) -> Result<(Query, When), Bad>
    ensures { Gives {Y = Asked × When} (λ asked. asked) result
        (structured_at parent.now (json v.now) (place_of way.now)) }
{
    let structured = required(alloc, v, STRUCTURED_QUERY, way)?;
    let walked = walk_query(alloc, parent, structured, &way.member(STRUCTURED_QUERY))?;
    let when = match read_when(alloc, v, way) {
        Ok(when) => when,
        Err(bad) => {
            drop(walked);
            return Err(bad);
        }
    };
    let query = judge_query(alloc, walked, &way.member(STRUCTURED_QUERY))?;
    Ok((query, when))
}

/// Reads a `BeginTransactionRequest`.
#[tactic(auto, unfolding(crate::specs::Requests::begin_at))]
fn read_begin(alloc: Global, root: &Root, v: &Value, way: &Way<'_>) -> Result<Request, Bad>
    ensures { Gives (λ r. r) result (begin_at root.now (json v.now) (place_of way.now)) }
{
    only(alloc, v, &BEGIN_MEMBERS, way)?;
    read_database(alloc, root, v, way)?;
    let options = read_options_of(alloc, v, way)?;
    Ok(Request::BeginTransaction {
        database: root.copy(alloc)?,
        options,
    })
}

/// Reads a `RollbackRequest`.
#[tactic(auto, unfolding(crate::specs::Requests::rollback_at))]
fn read_rollback(alloc: Global, root: &Root, v: &Value, way: &Way<'_>) -> Result<Request, Bad>
    ensures { Gives (λ r. r) result (rollback_at root.now (json v.now) (place_of way.now)) }
{
    only(alloc, v, &ROLLBACK_MEMBERS, way)?;
    read_database(alloc, root, v, way)?;
    let transaction = required(alloc, v, TRANSACTION, way)?;
    let transaction = read_transaction(alloc, transaction, &way.member(TRANSACTION))?;
    Ok(Request::Rollback {
        database: root.copy(alloc)?,
        transaction,
    })
}

// The database has to be the root's.
pub(crate) fn read_database(alloc: Global, root: &Root, v: &Value, way: &Way<'_>) -> Result<(), Bad>
    ensures { Gives (λ u. u) result (database_at root.now (json v.now) (place_of way.now)) }
{
    let database = required(alloc, v, DATABASE, way)?;
    let way = way.member(DATABASE);
    match database.as_str() {
        Some(text) => unless_refused(alloc, check_database(root, text), &way),
        None => Err(Bad::at(alloc, Rule::G, &way)),
    }
}

pub(crate) fn read_parent(alloc: Global, root: &Root, v: &Value, way: &Way<'_>) -> Result<Ids, Bad>
    ensures { Gives (λ ids. ids) result (parent_at root.now (json v.now) (place_of way.now)) }
{
    match v.as_str() {
        Some(text) => unless_refused(alloc, parse_parent(alloc, root, text), way),
        None => Err(Bad::at(alloc, Rule::G, way)),
    }
}

// The writes of a request as they are walked, of which there are none where the list is absent.
pub(crate) fn read_drafts_of(
    alloc: Global,
    root: &Root,
    v: &Value,
    way: &Way<'_>,
) -> Result<Drafts, Bad>
    ensures { Gives (λ ds. ds) result (drafts_in root.now (json v.now) (place_of way.now)) }
{
    match member(alloc, v, WRITES, way)? {
        Some(list) => read_drafts(alloc, root, list, &way.member(WRITES)),
        None => Ok(Drafts::new(alloc)),
    }
}

fn read_mask_of(alloc: Global, v: &Value, way: &Way<'_>) -> Result<Option<Paths>, Bad>
    ensures { Gives (λ m. m) result (mask_in (json v.now) (place_of way.now)) }
{
    match member(alloc, v, MASK, way)? {
        Some(mask) => Ok(Some(read_mask(alloc, mask, &way.member(MASK))?)),
        None => Ok(None),
    }
}
