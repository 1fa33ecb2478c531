//! The names of methods and members.

/// The method of each request, in the order of the walk. The first eight are built.
pub const METHODS: [&str; 17] = [
    COMMIT,
    GET_DOCUMENT,
    BATCH_GET_DOCUMENTS,
    RUN_QUERY,
    BEGIN_TRANSACTION,
    ROLLBACK,
    LISTEN,
    WRITE,
    "createIndex",
    "createDocument",
    "updateDocument",
    "deleteDocument",
    "partitionQuery",
    "runAggregationQuery",
    "listDocuments",
    "listCollectionIds",
    "batchWrite",
];

pub const COMMIT: &str = "commit";

pub const GET_DOCUMENT: &str = "getDocument";

pub const BATCH_GET_DOCUMENTS: &str = "batchGetDocuments";

pub const RUN_QUERY: &str = "runQuery";

pub const BEGIN_TRANSACTION: &str = "beginTransaction";

pub const ROLLBACK: &str = "rollback";

/// The method of a change of targets, and the member of what a session that listens is told.
pub const LISTEN: &str = "listen";

/// The method of a request of a write stream, and the member of what is told of one.
pub const WRITE: &str = "write";

/// The members of an envelope beside its method.
pub const ENVELOPE_HEAD: [&str; 1] = [ID];

/// Those of a line with a request on a session.
pub const SESSION_HEAD: [&str; 2] = [SESSION, ID];

pub const SESSION: &str = "session";

pub const ID: &str = "id";

pub const COMMIT_MEMBERS: [&str; 3] = [DATABASE, WRITES, TRANSACTION];

pub const GET_MEMBERS: [&str; 4] = [NAME, MASK, TRANSACTION, READ_TIME];

pub const BATCH_GET_MEMBERS: [&str; 5] = [DATABASE, DOCUMENTS, MASK, TRANSACTION, READ_TIME];

pub const RUN_QUERY_MEMBERS: [&str; 4] = [PARENT, STRUCTURED_QUERY, TRANSACTION, READ_TIME];

pub const BEGIN_MEMBERS: [&str; 2] = [DATABASE, OPTIONS];

pub const ROLLBACK_MEMBERS: [&str; 2] = [DATABASE, TRANSACTION];

/// When documents are read, of which at most one way is given.
pub const WHEN_MEMBERS: [&str; 2] = [TRANSACTION, READ_TIME];

pub const DATABASE: &str = "database";

pub const WRITES: &str = "writes";

pub const NAME: &str = "name";

pub const MASK: &str = "mask";

pub const DOCUMENTS: &str = "documents";

pub const PARENT: &str = "parent";

pub const STRUCTURED_QUERY: &str = "structuredQuery";

pub const TRANSACTION: &str = "transaction";

pub const READ_TIME: &str = "readTime";

pub const OPTIONS: &str = "options";

/// The options of a transaction, of which at most one is given.
pub const OPTIONS_MEMBERS: [&str; 2] = [READ_ONLY, READ_WRITE];

pub const READ_ONLY: &str = "readOnly";

pub const READ_ONLY_MEMBERS: [&str; 1] = [READ_TIME];

pub const READ_WRITE: &str = "readWrite";

pub const READ_WRITE_MEMBERS: [&str; 1] = [RETRY_TRANSACTION];

pub const RETRY_TRANSACTION: &str = "retryTransaction";

/// The members of a message.
pub const MESSAGE_MEMBERS: [&str; 5] = [ERROR, ID, LISTEN, RESULT, WRITE];

/// Those of which just one is there.
pub const OUTCOMES: [&str; 4] = [RESULT, LISTEN, WRITE, ERROR];

pub const ERROR: &str = "error";

pub const RESULT: &str = "result";

pub const ERROR_MEMBERS: [&str; 3] = [CODE, MESSAGE, STATUS];

pub const CODE: &str = "code";

pub const MESSAGE: &str = "message";

pub const STATUS: &str = "status";

pub const COMMIT_RESULT_MEMBERS: [&str; 2] = [COMMIT_TIME, WRITE_RESULTS];

pub const COMMIT_TIME: &str = "commitTime";

pub const WRITE_RESULTS: &str = "writeResults";

pub const BEGIN_RESULT_MEMBERS: [&str; 1] = [TRANSACTION];

pub const BATCH_ANSWER_MEMBERS: [&str; 3] = [FOUND, MISSING, READ_TIME];

pub const FOUND_OR_MISSING: [&str; 2] = [FOUND, MISSING];

pub const FOUND: &str = "found";

pub const MISSING: &str = "missing";

pub const QUERY_ANSWER_MEMBERS: [&str; 2] = [DOCUMENT, READ_TIME];

pub const DOCUMENT: &str = "document";

/// The members of what a session that listens is told, of which just one is there.
pub const LISTEN_MEMBERS: [&str; 4] = [
    TARGET_CHANGE,
    DOCUMENT_CHANGE,
    DOCUMENT_DELETE,
    DOCUMENT_REMOVE,
];

pub const TARGET_CHANGE: &str = "targetChange";

pub const DOCUMENT_CHANGE: &str = "documentChange";

pub const DOCUMENT_DELETE: &str = "documentDelete";

pub const DOCUMENT_REMOVE: &str = "documentRemove";

pub const CHANGE_MEMBERS: [&str; 5] = [
    CAUSE,
    READ_TIME,
    RESUME_TOKEN,
    TARGET_CHANGE_TYPE,
    TARGET_IDS,
];

pub const CAUSE: &str = "cause";

pub const CAUSE_MEMBERS: [&str; 2] = [CODE, MESSAGE];

pub const RESUME_TOKEN: &str = "resumeToken";

pub const TARGET_CHANGE_TYPE: &str = "targetChangeType";

pub const TARGET_IDS: &str = "targetIds";

pub const NO_CHANGE: &str = "NO_CHANGE";

pub const ADD: &str = "ADD";

pub const REMOVE: &str = "REMOVE";

pub const CURRENT: &str = "CURRENT";

pub const RESET: &str = "RESET";

pub const DOCUMENT_CHANGE_MEMBERS: [&str; 3] = [DOCUMENT, REMOVED_TARGET_IDS, TARGET_IDS];

pub const REMOVED_TARGET_IDS: &str = "removedTargetIds";

/// The members of a document that was deleted, or removed from views.
pub const GONE_MEMBERS: [&str; 3] = [DOCUMENT, READ_TIME, REMOVED_TARGET_IDS];

/// The members of a request that changes the targets of a session.
pub const LISTEN_REQUEST_MEMBERS: [&str; 4] = [DATABASE, ADD_TARGET, REMOVE_TARGET, LABELS];

/// Those of which just one is there.
pub const TARGET_CHANGES: [&str; 2] = [ADD_TARGET, REMOVE_TARGET];

pub const ADD_TARGET: &str = "addTarget";

pub const REMOVE_TARGET: &str = "removeTarget";

pub const LABELS: &str = "labels";

pub const ADD_TARGET_MEMBERS: [&str; 7] = [
    TARGET_ID,
    QUERY,
    DOCUMENTS,
    RESUME_TOKEN,
    EXPECTED_COUNT,
    ONCE,
    READ_TIME,
];

pub const TARGET_ID: &str = "targetId";

/// What a target is, of which just one is there.
pub const TARGET_MEMBERS: [&str; 2] = [QUERY, DOCUMENTS];

pub const QUERY: &str = "query";

pub const EXPECTED_COUNT: &str = "expectedCount";

/// The members of a target that aren't built.
pub const UNBUILT_OF_TARGET: [&str; 2] = [ONCE, READ_TIME];

pub const ONCE: &str = "once";

pub const QUERY_TARGET_MEMBERS: [&str; 2] = [PARENT, STRUCTURED_QUERY];

pub const DOCUMENTS_TARGET_MEMBERS: [&str; 1] = [DOCUMENTS];

/// The members of a request of a write stream.
pub const WRITE_MEMBERS: [&str; 5] = [DATABASE, STREAM_ID, WRITES, STREAM_TOKEN, LABELS];

pub const STREAM_ID: &str = "streamId";

pub const STREAM_TOKEN: &str = "streamToken";

/// The members of what is told of a write stream.
pub const STREAM_ANSWER_MEMBERS: [&str; 5] = [
    COMMIT_TIME,
    ERROR,
    STREAM_ID,
    STREAM_TOKEN,
    WRITE_RESULTS,
];

/// What is told of a batch, of which at most one is there.
pub const BATCH_OUTCOMES: [&str; 2] = [COMMIT_TIME, ERROR];
