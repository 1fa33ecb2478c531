//! Reads the documents that a request was answered.
ghost use Rattle.std.specs.Prelude.{◌≡◌, ℤ, List, Option, IfOk, filter_map, is_some};
ghost use Rattle.std.specs.List.{list_all};
ghost use Rattle.std.specs.Ordering.{int_eq};
ghost use Rattle.fs_path.specs.Way.{place_of};
ghost use Rattle.fs_value.specs.declared.document.Document.{Document};
ghost use Rattle.serde_json.specs.View.{items_view, view as json};
ghost use Rattle.fs_json.specs.Answer.{Gives};
ghost use Rattle.fs_json.specs.Walk.{each_at};
ghost use Rattle.fs_rpc.specs.ReadResults.{answered, batch_answer_at, document_in, found_at, is_one_answer, missing_at, query_answer_at, answers_time};

use crate::names::{
    BATCH_ANSWER_MEMBERS, DOCUMENT, FOUND, FOUND_OR_MISSING, MISSING, QUERY_ANSWER_MEMBERS,
    READ_TIME,
};
use fs_json::{
    Bad, ReadsItem, member, one_of, only, read_document_name, read_items, read_required_time,
};
use fs_path::{List as Items, Root, Way};
use fs_request::{Answers, BatchAnswer};
use fs_time::Micros;
use fs_valjson::read_document;
use fs_value::{Document, Documents};
use serde_json::Value;
use std::alloc::{AllocError, Global};

/// Reads what was told of each name that was asked for.
pub(crate) fn read_answers(
    alloc: Global,
    root: &Root,
    items: &[Value],
    way: &Way<'_>,
) -> Result<Answers, Bad>
    ensures { Gives (λ xs. xs) result
        (each_at (batch_answer_at root.now) (items_view items.now) 0 (place_of way.now)) }
{
    read_items(alloc, &AnswerReader { root }, items, way)
}

/// Reads what was told of a name of a list.
#[derive(Drop)]
struct AnswerReader<'a> {
    root: &'a Root,
}

impl ReadsItem for AnswerReader<'_> {
    type Item = BatchAnswer;

    ghost reading = { λ reader. batch_answer_at reader.root.now };

    fn read(&self, alloc: Global, item: &Value, way: &Way<'_>) -> Result<BatchAnswer, Bad> {
        read_answer(alloc, self.root, item, way)
    }
}

/// Reads what was told of one name. (v1 reference, `BatchGetDocumentsResponse`.)
#[tactic(auto, unfolding(crate::specs::ReadResults::batch_answer_at))]
fn read_answer(alloc: Global, root: &Root, v: &Value, way: &Way<'_>) -> Result<BatchAnswer, Bad>
    ensures { Gives (λ a. a) result (batch_answer_at root.now (json v.now) (place_of way.now)) }
{
    only(alloc, v, &BATCH_ANSWER_MEMBERS, way)?;
    match one_of(alloc, v, &FOUND_OR_MISSING, way)? {
        (FOUND, content) => read_found(alloc, root, content, v, way),
        (_, content) => read_missing(alloc, root, content, v, way),
    }
}

fn read_found(
    alloc: Global,
    root: &Root,
    content: &Value,
    v: &Value,
    way: &Way<'_>,
) -> Result<BatchAnswer, Bad>
    ensures { Gives (λ a. a) result (found_at root.now (json content.now) (json v.now) (place_of way.now)) }
{
    let document = read_document(alloc, root, content, &way.member(FOUND))?;
    let time = read_required_time(alloc, v, READ_TIME, way)?;
    Ok(BatchAnswer::Found(document, time))
}

fn read_missing(
    alloc: Global,
    root: &Root,
    content: &Value,
    v: &Value,
    way: &Way<'_>,
) -> Result<BatchAnswer, Bad>
    ensures { Gives (λ a. a) result (missing_at root.now (json content.now) (json v.now) (place_of way.now)) }
{
    let name = read_document_name(alloc, root, content, &way.member(MISSING))?;
    let time = read_required_time(alloc, v, READ_TIME, way)?;
    Ok(BatchAnswer::Missing(name, time))
}

/// Reads the items of a query's answer.
pub(crate) fn read_query_answers(
    alloc: Global,
    root: &Root,
    items: &[Value],
    way: &Way<'_>,
) -> Result<Items<(Option<Document>, Micros)>, Bad>
    ensures { Gives {Y = List (Option Document × ℤ)} (λ l. l) result
        (each_at (query_answer_at root.now) (items_view items.now) 0 (place_of way.now)) }
{
    read_items(alloc, &QueryAnswerReader { root }, items, way)
}

/// Reads an item of a query's answer.
#[derive(Drop)]
struct QueryAnswerReader<'a> {
    root: &'a Root,
}

impl ReadsItem for QueryAnswerReader<'_> {
    type Item = (Option<Document>, Micros);

    ghost reading = { λ reader. query_answer_at reader.root.now };

    fn read(
        &self,
        alloc: Global,
        item: &Value,
        way: &Way<'_>,
    ) -> Result<(Option<Document>, Micros), Bad> {
        read_query_answer(alloc, self.root, item, way)
    }
}

/// Reads one item: a document, which may be absent, and the time of the read. (v1 reference, `RunQueryResponse`.)
#[tactic(auto, unfolding(crate::specs::ReadResults::query_answer_at))]
fn read_query_answer(
    alloc: Global,
    root: &Root,
    v: &Value,
    way: &Way<'_>,
) -> Result<(Option<Document>, Micros), Bad>
    ensures { Gives {Y = Option Document × ℤ} (λ a. a) result
        (query_answer_at root.now (json v.now) (place_of way.now)) }
{
    only(alloc, v, &QUERY_ANSWER_MEMBERS, way)?;
    let document = read_document_of(alloc, root, v, way)?;
    let time = read_required_time(alloc, v, READ_TIME, way)?;
    Ok((document, time))
}

fn read_document_of(
    alloc: Global,
    root: &Root,
    v: &Value,
    way: &Way<'_>,
) -> Result<Option<Document>, Bad>
    ensures { Gives {Y = Option Document} (λ d. d) result
        (document_in root.now (json v.now) (place_of way.now)) }
{
    match member(alloc, v, DOCUMENT, way)? {
        Some(document) => Ok(Some(read_document(alloc, root, document, &way.member(DOCUMENT))?)),
        None => Ok(None),
    }
}

/// The documents of a query's answer and its time, if its items are one answer.
pub(crate) fn answered(
    alloc: Global,
    items: Items<(Option<Document>, Micros)>,
) -> Result<Option<(Documents, Micros)>, AllocError>
    ensures { IfOk result (λ one. one ≡ answered items) }
{
    match answers_time(items.as_slice()) {
        Some(time) => Ok(Some((documents_of(alloc, items.into_vec())?, time))),
        None => Ok(None),
    }
}

/// The documents of items, without those that have none.
fn documents_of(
    alloc: Global,
    items: Vec<(Option<Document>, Micros)>,
) -> Result<Documents, AllocError>
    ensures { IfOk result (λ ds. ds ≡ filter_map (λ a. a.0) items.items) }
{
    let documents = items.into_iter().filter_map(|item| item.0).collect(alloc)?;
    Ok(Documents::of(documents))
}

/// The time of items that are one answer.
fn answers_time(items: &[(Option<Document>, Micros)]) -> Option<Micros>
    ensures { result ≡ answers_time items.now }
{
    match items {
        [] => None,
        [(_, time), ..] => if is_one_answer(*time, items) {
            Some(*time)
        } else {
            None
        },
    }
}

/// Whether items are one answer: all are of this time, and one without a document stands alone.
fn is_one_answer(time: Micros, items: &[(Option<Document>, Micros)]) -> bool
    ensures { result ≡ is_one_answer time items.now }
{
    all_at(time, items) && (all_found(items) || items.len() == 1)
}

fn all_at(time: Micros, items: &[(Option<Document>, Micros)]) -> bool
    ensures { result ≡ list_all (λ a. int_eq a.1 time) items.now }
{
    items.iter().all(|item| item.1 == time)
}

fn all_found(items: &[(Option<Document>, Micros)]) -> bool
    ensures { result ≡ list_all (λ a. is_some a.0) items.now }
{
    items.iter().all(|item| item.0.is_some())
}
