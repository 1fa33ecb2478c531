//! Writes what reads of several documents are answered.
ghost use Rattle.std.specs.Prelude.{◌≡◌, ◌++◌, [], codes, map, OnOk};
ghost use Rattle.std.specs.List.{AllByRecursion};
ghost use Rattle.serde_json.specs.Data.{array, member, object, string};
ghost use Rattle.serde_json.specs.View.{items_of};
ghost use Rattle.fs_path.specs.Document.{document_text};
ghost use Rattle.fs_json.specs.Time.{IsTimeHeld};
ghost use Rattle.fs_time.specs.Rfc3339.{time_text};
ghost use Rattle.fs_valjson.specs.Document.{document_json};
ghost use Rattle.fs_valjson.specs.Tokens.{tokens_of};
ghost use Rattle.fs_valjson.specs.Valid.{IsDocumentHeld};
ghost use Rattle.fs_rpc.specs.MessageJson.{batch_answer_json, query_answer_json, query_answers_json, read_at};
ghost use Rattle.fs_rpc.specs.MessageSteps.{IsAnswerHeld};
ghost use Rattle.fs_rpc.specs.Tokens.{answers_json};

use crate::names::{DOCUMENT, FOUND, MISSING, READ_TIME};
use fs_path::{DocName, print_document};
use fs_request::BatchAnswer;
use fs_time::{Micros, print};
use fs_valjson::{push_document, push_text, push_time};
use fs_value::Document;
use json::Writer;
use std::alloc::{AllocError, Global};

// ---- several names

/// Writes what is told of names, in their order (v1 reference, `BatchGetDocumentsResponse`). All were read at one time, so its text is printed once.
///
/// `[{"found":{..},"readTime":"2024-01-01T00:00:00Z"},{"missing":"..","readTime":"2024-01-01T00:00:00Z"}]`
pub(crate) fn push_answers(
    alloc: Global,
    line: &mut Writer,
    answers: &[BatchAnswer],
) -> Result<(), AllocError>
    ensures tokens { OnOk result (line.new.tokens ≡ line.old.tokens ++ tokens_of (answers_json answers.now)) }
    ensures before { line.new.before ≡ line.old.before }
    ensures held { OnOk result (AllByRecursion IsAnswerHeld answers.now) }
{
    let time = first_time(answers);
    let text = print(alloc, time)?;
    push_each(alloc, line, answers, time, &text)
}

// The time of the first answer, if there is one.
fn first_time(answers: &[BatchAnswer]) -> Micros {
    match answers {
        [BatchAnswer::Found(_, time), ..] => *time,
        [BatchAnswer::Missing(_, time), ..] => *time,
        [] => Micros::new(0).unwrap(),
    }
}

fn push_each(
    alloc: Global,
    line: &mut Writer,
    answers: &[BatchAnswer],
    known: Micros,
    text: &str,
) -> Result<(), AllocError>
    requires { text.now ≡ time_text known }
    ensures tokens { OnOk result (line.new.tokens ≡ line.old.tokens ++ tokens_of (answers_json answers.now)) }
    ensures before { line.new.before ≡ line.old.before }
    ensures held { OnOk result (AllByRecursion IsAnswerHeld answers.now) }
{
    line.begin_array()?;
    for answer in answers {
        push_answer(alloc, line, answer, known, text)?;
    }
    line.end_array()
}

fn push_answer(
    alloc: Global,
    line: &mut Writer,
    answer: &BatchAnswer,
    known: Micros,
    text: &str,
) -> Result<(), AllocError>
    requires { text.now ≡ time_text known }
    ensures tokens { OnOk result (line.new.tokens ≡ line.old.tokens ++ tokens_of (batch_answer_json answer.now)) }
    ensures before { line.new.before ≡ line.old.before }
    ensures held { OnOk result (IsAnswerHeld answer.now) }
{
    match answer {
        BatchAnswer::Found(document, time) => {
            push_read(alloc, line, FOUND, document, *time, known, text)
        }
        BatchAnswer::Missing(name, time) => push_missing(alloc, line, name, *time, known, text),
    }
}

fn push_missing(
    alloc: Global,
    line: &mut Writer,
    name: &DocName,
    time: Micros,
    known: Micros,
    text: &str,
) -> Result<(), AllocError>
    requires { text.now ≡ time_text known }
    ensures tokens { OnOk result (line.new.tokens
        ≡ line.old.tokens ++ tokens_of (object (member (codes "missing") (string (document_text name.now)) (read_at time)))) }
    ensures before { line.new.before ≡ line.old.before }
    ensures held { OnOk result (IsTimeHeld time) }
{
    line.begin_object()?;
    push_text(line, MISSING, print_document(alloc, name)?.as_str())?;
    push_time(alloc, line, READ_TIME, time, known, text)?;
    line.end_object()
}

// A document under a name, and the time at which it was read.
fn push_read(
    alloc: Global,
    line: &mut Writer,
    name: &str,
    document: &Document,
    time: Micros,
    known: Micros,
    text: &str,
) -> Result<(), AllocError>
    requires { text.now ≡ time_text known }
    ensures tokens { OnOk result (line.new.tokens
        ≡ line.old.tokens ++ tokens_of (object (member name.now (document_json document.now) (read_at time)))) }
    ensures before { line.new.before ≡ line.old.before }
    ensures held { OnOk result (IsDocumentHeld document.now × IsTimeHeld time) }
{
    line.begin_object()?;
    line.key(name)?;
    push_document(alloc, line, document)?;
    push_time(alloc, line, READ_TIME, time, known, text)?;
    line.end_object()
}

// ---- queries

/// Writes what a query is answered: an item for each document, and where there is none, one that has its time alone.
/// (v1 reference, `RunQueryResponse`.)
///
/// `[{"document":{..},"readTime":"2024-01-01T00:00:00Z"}]`, and `[{"readTime":"2024-01-01T00:00:00Z"}]`
pub(crate) fn push_query_answers(
    alloc: Global,
    line: &mut Writer,
    documents: &[Document],
    time: Micros,
) -> Result<(), AllocError>
    ensures tokens { OnOk result (line.new.tokens
        ≡ line.old.tokens ++ tokens_of (array (query_answers_json documents.now time))) }
    ensures before { line.new.before ≡ line.old.before }
    ensures held { OnOk result (AllByRecursion IsDocumentHeld documents.now) }
    ensures dated { OnOk result (IsTimeHeld time) }
{
    let text = print(alloc, time)?;
    match documents {
        [] => push_none(line, time, &text),
        _ => push_some(alloc, line, documents, time, &text),
    }
}

fn push_none(line: &mut Writer, time: Micros, text: &str) -> Result<(), AllocError>
    requires { text.now ≡ time_text time }
    ensures tokens { OnOk result (line.new.tokens ≡ line.old.tokens ++ tokens_of (array (query_answers_json [] time))) }
    ensures before { line.new.before ≡ line.old.before }
{
    line.begin_array()?;
    line.begin_object()?;
    push_text(line, READ_TIME, text)?;
    line.end_object()?;
    line.end_array()
}

fn push_some(
    alloc: Global,
    line: &mut Writer,
    documents: &[Document],
    time: Micros,
    text: &str,
) -> Result<(), AllocError>
    requires { text.now ≡ time_text time }
    ensures tokens { OnOk result (line.new.tokens
        ≡ line.old.tokens ++ tokens_of (array (items_of (map (query_answer_json time) documents.now)))) }
    ensures before { line.new.before ≡ line.old.before }
    ensures held { OnOk result (AllByRecursion IsDocumentHeld documents.now) }
{
    line.begin_array()?;
    for document in documents {
        push_read(alloc, line, DOCUMENT, document, time, time, text)?;
    }
    line.end_array()
}
