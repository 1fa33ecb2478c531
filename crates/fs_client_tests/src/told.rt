//! What a client shows, sends and refuses, as the tables have it. What stands in a row has a space before it.
use fs_client::{BatchRefusal, ClientError, View};
use fs_path::{List, Names};
use fs_query::Cause;
use fs_queue::QueueError;
use fs_request::Envelope;
use fs_rpc::write_request;
use fs_time::Micros;
use fs_value::{Document, Documents, Field, Value};
use std::alloc::{AllocError, Global};
use std::fmt::Write as _;

/// What a step tells, but for want of memory.
pub(crate) type Told = Result<String, AllocError>;

pub(crate) fn time_told(alloc: Global, time: Option<Micros>) -> Told {
    match time {
        Some(time) => time.get().to_string(alloc),
        None => String::from_str(alloc, "none"),
    }
}

pub(crate) fn number_told(alloc: Global, number: Option<u64>) -> Told {
    match number {
        Some(number) => number.to_string(alloc),
        None => String::from_str(alloc, "none"),
    }
}

// A field, as `n:1`.
fn push_field(told: &mut String, field: &Field) -> Result<(), AllocError> {
    told.push_str(field.key.as_str())?;
    match &field.value {
        Value::Integer(n) => write!(told, ":{n}"),
        _ => told.push_str(":?"),
    }
}

// A document, as ` c/a {m:2,n:1}`.
fn push_document(told: &mut String, document: &Document) -> Result<(), AllocError> {
    let path = document.name.ids().unwrap_or("?");
    write!(told, " {path} {{")?;
    let mut between = "";
    for field in document.fields.as_fields().as_slice() {
        told.push_str(between)?;
        push_field(told, field)?;
        between = ",";
    }
    told.push_str("}")
}

pub(crate) fn documents_told(alloc: Global, documents: &Documents) -> Told {
    let mut told = String::new(alloc);
    for document in documents.as_slice() {
        push_document(&mut told, document)?;
    }
    Ok(told)
}

// Names with a mark, as ` *c/a`.
fn marked(alloc: Global, names: &Names) -> Told {
    let mut told = String::new(alloc);
    for name in names.as_slice() {
        let path = name.ids().unwrap_or("?");
        write!(told, " *{path}")?;
    }
    Ok(told)
}

/// A view, as `1 cache c/a {n:2} *c/a`: its snapshot, where it is from, its documents, and those that are pending.
pub(crate) fn view_told(alloc: Global, view: &View) -> Told {
    let time = time_told(alloc, view.snapshot)?;
    let from = if view.from_cache { "cache" } else { "live" };
    let documents = documents_told(alloc, &view.documents)?;
    let pending = marked(alloc, &view.pending)?;
    format!(in alloc; "{time} {from}{documents}{pending}")
}

/// An error, with the rule that is broken behind it.
pub(crate) fn error_told(alloc: Global, error: &ClientError) -> Told {
    match error {
        ClientError::Memory(_) => Err(AllocError),
        ClientError::Rule(rule) => {
            let number = rule.number;
            format!(in alloc; "{error}: {number}")
        }
        _ => error.to_string(alloc),
    }
}

pub(crate) fn unwritten_told(alloc: Global, error: &QueueError) -> Told {
    match error {
        QueueError::Memory(_) => Err(AllocError),
        _ => error.to_string(alloc),
    }
}

pub(crate) fn cause_told(alloc: Global, cause: Option<&Cause>) -> Told {
    let Some(cause) = cause else {
        return String::from_str(alloc, "none");
    };
    let code = cause.code;
    let message = cause.message.as_str();
    format!(in alloc; "{code} {message}")
}

/// A batch that was refused, as `1 NOT_FOUND missing`.
pub(crate) fn refusal_told(alloc: Global, refusal: &Option<BatchRefusal>) -> Told {
    let Some(refusal) = refusal else {
        return String::from_str(alloc, "none");
    };
    let batch = refusal.batch;
    let status = refusal.code.status();
    let message = refusal.message.as_str();
    format!(in alloc; "{batch} {status} {message}")
}

/// Requests as they are sent.
pub(crate) fn sent_told(alloc: Global, sent: &List<Envelope>) -> Told {
    let mut told = String::new(alloc);
    for envelope in sent.as_slice() {
        let text = write_request(alloc, envelope)?;
        told.push_str(" ")?;
        told.push_str(text.as_str())?;
    }
    Ok(told)
}
