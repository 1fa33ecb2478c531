//! Messages: the answers to requests, and what sessions are told of their targets and streams.
use fs_path::{DocName, List, Text};
use fs_query::ListenMessage;
use fs_status::{Code, Id, Refusal, message};
use fs_time::Micros;
use fs_value::{Document, Documents};
use fs_write::WriteResults;
use std::alloc::{AllocError, Global};

/// What a client is told: the answer to each method that is built, with the id of the request where that had one, what the
/// targets that it listens to are, what its streams are, and the error.
#[derive(Drop)]
pub enum Message {
    /// The writes were made at this time. (v1 reference, `CommitResponse`.)
    Commit {
        id: Option<Text>,
        time: Micros,
        results: WriteResults,
    },
    GetDocument {
        id: Option<Text>,
        document: Document,
    },
    /// The names that were asked for, in their order. (`BatchGetDocumentsResponse`.)
    BatchGetDocuments {
        id: Option<Text>,
        answers: Answers,
    },
    /// The documents that a query answers, all at this time. (`RunQueryResponse`.)
    RunQuery {
        id: Option<Text>,
        documents: Documents,
        time: Micros,
    },
    /// A transaction of this number was begun. (`BeginTransactionResponse`.)
    BeginTransaction {
        id: Option<Text>,
        transaction: Id,
    },
    /// A transaction was rolled back.
    Rollback {
        id: Option<Text>,
    },
    /// How the targets of the session change. It answers no request, so it has no id. (`ListenResponse`.)
    Listen(ListenMessage),
    /// A stream by its number, and its token: how many of its batches are finished. It answers by stream, so it has no id.
    /// (`WriteResponse`.)
    Write {
        stream: u64,
        token: u64,
        answer: StreamAnswer,
    },
    /// The request was refused. (`google.rpc.Status`.)
    Error {
        id: Option<Text>,
        code: Code,
        message: Text,
    },
}

impl Message {
    ghost use Rattle.std.specs.Prelude.{◌≡◌, IfOk};
    ghost use Rattle.fs_request.specs.Refused.{refused};

    /// The message that tells a refusal.
    pub fn refused(
        alloc: Global,
        id: Option<Text>,
        refusal: &Refusal,
    ) -> Result<Message, AllocError>
        ensures { IfOk result (λ m. m ≡ refused id refusal.now) }
    {
        Ok(Message::Error {
            id,
            code: refusal.code,
            message: message(alloc, refusal)?,
        })
    }
}

/// What is told of a name that was asked for: the document that stood there at a time, or that none did.
#[derive(Drop)]
pub enum BatchAnswer {
    Found(Document, Micros),
    Missing(DocName, Micros),
}

/// Answers in their order.
pub type Answers = List<BatchAnswer>;

/// What is told of a write stream.
#[derive(Drop)]
pub enum StreamAnswer {
    /// Nothing new: the stream was opened or resumed, or was asked for.
    Stands,
    /// A batch was committed at this time.
    Committed { time: Micros, results: WriteResults },
    /// A batch was refused.
    Refused { code: Code, message: Text },
}
