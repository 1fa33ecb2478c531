//! Requests.
ghost use Rattle.std.specs.Prelude.{◌≡◌, IfOk};

use crate::id::copy_id;
use crate::options::TransactionOptions;
use crate::stream_request::StreamRequest;
use crate::when::When;
use fs_path::{Bytes, DocName, Names, Paths, Root, Text};
use fs_query::{Query, Target};
use fs_status::Id;
use fs_write::Writes;
use std::alloc::{AllocError, Global};

/// What a request asks for: one variant for each method of `google.firestore.v1.Firestore` that is built.
/// (docs/DECISIONS.md, "A request holds its database".)
#[derive(Drop)]
pub enum Request {
    /// `commit`: writes that are all made at one time, or not at all, and end the transaction, where they are of one. (v1
    /// reference, `CommitRequest`.)
    Commit {
        database: Root,
        writes: Writes,
        transaction: Option<Id>,
    },
    /// `getDocument`: one document, or of its fields those that the mask names. (`GetDocumentRequest`.)
    GetDocument {
        name: DocName,
        mask: Option<Paths>,
        when: When,
    },
    /// `batchGetDocuments`: several documents, each asked for once, in the order in which they were named first, all as of
    /// one time. (`BatchGetDocumentsRequest`.)
    BatchGetDocuments {
        database: Root,
        documents: Names,
        mask: Option<Paths>,
        when: When,
    },
    /// `runQuery`: the documents that a query answers, as of one time. The parent of its collection stands in the query's
    /// scope. (`RunQueryRequest`.)
    RunQuery {
        database: Root,
        query: Query,
        when: When,
    },
    /// `beginTransaction`: a transaction begins, whose number is the answer. (`BeginTransactionRequest`.)
    BeginTransaction {
        database: Root,
        options: TransactionOptions,
    },
    /// `rollback`: a transaction ends without writes. (`RollbackRequest`.)
    Rollback {
        database: Root,
        transaction: Id,
    },
    /// `listen` with `addTarget`: the session listens to a target from here on, by an id of its own. A token that an earlier session was
    /// given for it resumes it. (`ListenRequest`, `Target`.)
    AddTarget {
        database: Root,
        id: u32,
        target: Target,
        token: Option<Bytes>,
    },
    /// `listen` with `removeTarget`: the session listens to a target no longer. The number may be no id of a target. (`ListenRequest`.)
    RemoveTarget {
        database: Root,
        id: i32,
    },
    /// `write`: a stream of batches is opened or taken over, is given a batch, or is asked for. (`WriteRequest`.)
    Write {
        database: Root,
        asked: StreamRequest,
    },
}

fn copy_mask(alloc: Global, mask: &Option<Paths>) -> Result<Option<Paths>, AllocError>
    ensures { IfOk result (λ m. m ≡ mask.now) }
{
    match mask {
        Some(paths) => Ok(Some(paths.copy(alloc)?)),
        None => Ok(None),
    }
}

fn copy_token(alloc: Global, token: &Option<Bytes>) -> Result<Option<Bytes>, AllocError>
    ensures { IfOk result (λ t. t ≡ token.now) }
{
    match token {
        Some(token) => Ok(Some(token.copy(alloc)?)),
        None => Ok(None),
    }
}

// A copy of each is made in a function of its own: what is owned where memory runs out is then little.

fn copy_commit(
    alloc: Global,
    database: &Root,
    writes: &Writes,
    transaction: Option<Id>,
) -> Result<Request, AllocError>
    ensures { IfOk result (λ r. r ≡ Request.Commit database.now writes.now transaction) }
{
    let database = database.copy(alloc)?;
    Ok(Request::Commit {
        database,
        writes: writes.copy(alloc)?,
        transaction,
    })
}

fn copy_get(
    alloc: Global,
    name: &DocName,
    mask: &Option<Paths>,
    when: When,
) -> Result<Request, AllocError>
    ensures { IfOk result (λ r. r ≡ Request.GetDocument name.now mask.now when) }
{
    let mask = copy_mask(alloc, mask)?;
    Ok(Request::GetDocument {
        name: name.copy(alloc)?,
        mask,
        when,
    })
}

fn copy_batch_get(
    alloc: Global,
    database: &Root,
    documents: &Names,
    mask: &Option<Paths>,
    when: When,
) -> Result<Request, AllocError>
    ensures { IfOk result (λ r. r ≡ Request.BatchGetDocuments database.now documents.now mask.now when) }
{
    let database = database.copy(alloc)?;
    let mask = copy_mask(alloc, mask)?;
    Ok(Request::BatchGetDocuments {
        database,
        documents: documents.copy(alloc)?,
        mask,
        when,
    })
}

fn copy_run_query(
    alloc: Global,
    database: &Root,
    query: &Query,
    when: When,
) -> Result<Request, AllocError>
    ensures { IfOk result (λ r. r ≡ Request.RunQuery database.now query.now when) }
{
    let database = database.copy(alloc)?;
    Ok(Request::RunQuery {
        database,
        query: query.copy(alloc)?,
        when,
    })
}

fn copy_add_target(
    alloc: Global,
    database: &Root,
    id: u32,
    target: &Target,
    token: &Option<Bytes>,
) -> Result<Request, AllocError>
    ensures { IfOk result (λ r. r ≡ Request.AddTarget database.now id target.now token.now) }
{
    let database = database.copy(alloc)?;
    let token = copy_token(alloc, token)?;
    Ok(Request::AddTarget {
        database,
        id,
        target: target.copy(alloc)?,
        token,
    })
}

fn copy_write(alloc: Global, database: &Root, asked: &StreamRequest) -> Result<Request, AllocError>
    ensures { IfOk result (λ r. r ≡ Request.Write database.now asked.now) }
{
    let database = database.copy(alloc)?;
    Ok(Request::Write {
        database,
        asked: asked.copy(alloc)?,
    })
}

impl Request {
    pub fn copy(&self, alloc: Global) -> Result<Request, AllocError>
        ensures { IfOk result (λ r. r ≡ self.now) }
    {
        match self {
            Request::Commit {
                database,
                writes,
                transaction,
            } => copy_commit(alloc, database, writes, *transaction),
            Request::GetDocument { name, mask, when } => copy_get(alloc, name, mask, *when),
            Request::BatchGetDocuments {
                database,
                documents,
                mask,
                when,
            } => copy_batch_get(alloc, database, documents, mask, *when),
            Request::RunQuery {
                database,
                query,
                when,
            } => copy_run_query(alloc, database, query, *when),
            Request::BeginTransaction { database, options } => Ok(Request::BeginTransaction {
                database: database.copy(alloc)?,
                options: *options,
            }),
            Request::Rollback {
                database,
                transaction,
            } => Ok(Request::Rollback {
                database: database.copy(alloc)?,
                transaction: *transaction,
            }),
            Request::AddTarget {
                database,
                id,
                target,
                token,
            } => copy_add_target(alloc, database, *id, target, token),
            Request::RemoveTarget { database, id } => Ok(Request::RemoveTarget {
                database: database.copy(alloc)?,
                id: *id,
            }),
            Request::Write { database, asked } => copy_write(alloc, database, asked),
        }
    }
}

/// A request with the id by which its answer is told from others.
#[derive(Drop)]
pub struct Envelope {
    pub id: Option<Text>,
    pub request: Request,
}

impl Envelope {
    pub fn copy(&self, alloc: Global) -> Result<Envelope, AllocError>
        ensures { IfOk result (λ e. e ≡ self.now) }
    {
        Ok(Envelope {
            id: copy_id(alloc, &self.id)?,
            request: self.request.copy(alloc)?,
        })
    }
}
