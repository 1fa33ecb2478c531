//! Reads as of a time.
ghost use Rattle.std.specs.Prelude.{◌≡◌, ◌≤ℤ◌, IfOk, Some, map, codes};
ghost use Rattle.fs_path.specs.Place.{member_place};
ghost use Rattle.fs_path.specs.declared.place.Rule.TheVariants.{Q};
ghost use Rattle.fs_status.specs.Refusal.{refusal_of};
ghost use Rattle.fs_status.specs.declared.reason.Reason.TheVariants as reasons;
ghost use Rattle.fs_machine.specs.Request.{query_refusal};
ghost use Rattle.std.specs.FinMap.{get, values};
ghost use Rattle.fs_history.specs.History.{at};
ghost use Rattle.fs_machine.specs.Read.{batch_answers, batch_get_answer, get_answer, masked, query_answer, refusal_from, run_answer, time_refusal, told_of};
ghost use Rattle.fs_query.specs.AnswerTo.{answer_to};

use fs_machine::Answer;
use fs_past::Past;
use fs_path::{DocName, Names, Paths, Rule, Text, Way};
use fs_query::{Query, QueryRule, check_with, project};
use fs_request::{Answers, BatchAnswer, Message, copy_id};
use fs_status::{Reason, Refusal};
use fs_time::Micros;
use fs_value::{Document, Documents};
use std::alloc::{AllocError, Global};

/// Why a time isn't one from another on, up to what is released.
pub(crate) fn refusal_from(past: &Past, from: Micros, time: Micros) -> Option<Refusal>
    ensures value { result ≡ refusal_from from past.now time }
{
    if time < from {
        return Some(Refusal::of(Reason::TooOld(time, from)));
    }
    let released = past.released();
    if released < time {
        return Some(Refusal::of(Reason::TooNew(time, released)));
    }
    None
}

/// Why a time can't be read.
pub(crate) fn time_refusal(past: &Past, time: Micros) -> Option<Refusal>
    ensures value { result ≡ time_refusal past.now time }
{
    refusal_from(past, past.floor(), time)
}

// A document with the fields that a mask names, or with all of them where there is none.
fn masked(alloc: Global, document: &Document, mask: &Option<Paths>) -> Result<Document, AllocError>
    ensures { IfOk result (λ d. d ≡ masked mask.now document.now) }
{
    match mask {
        Some(paths) => project(alloc, document, paths),
        None => document.copy(alloc),
    }
}

// ---- one document

/// Reads a document, at a time that can be read.
pub(crate) fn read_document(
    alloc: Global,
    past: &Past,
    id: &Option<Text>,
    name: &DocName,
    mask: &Option<Paths>,
    time: Micros,
) -> Result<Answer, AllocError>
    requires from { past.now.floor ≤ℤ time }
    requires to { time ≤ℤ past.now.released }
    ensures { IfOk result (λ a. a ≡ get_answer past.now id.now name.now mask.now time) }
{
    match past.get(name, time) {
        Some(document) => Ok(Answer::Reply(Message::GetDocument {
            id: copy_id(alloc, id)?,
            document: masked(alloc, document, mask)?,
        })),
        None => Ok(Answer::Refused(Refusal::of(Reason::NoDocument(time)))),
    }
}

// ---- several documents

/// Reads several documents, in the order of their names in the request, at a time that can be read.
pub(crate) fn read_batch(
    alloc: Global,
    past: &Past,
    id: &Option<Text>,
    names: &Names,
    mask: &Option<Paths>,
    time: Micros,
) -> Result<Answer, AllocError>
    requires from { past.now.floor ≤ℤ time }
    requires to { time ≤ℤ past.now.released }
    ensures { IfOk result (λ a. a ≡ batch_get_answer past.now id.now names.now mask.now time) }
{
    Ok(Answer::Reply(Message::BatchGetDocuments {
        id: copy_id(alloc, id)?,
        answers: all_at(alloc, past, names, mask, time)?,
    }))
}

fn all_at(
    alloc: Global,
    past: &Past,
    names: &Names,
    mask: &Option<Paths>,
    time: Micros,
) -> Result<Answers, AllocError>
    requires from { past.now.floor ≤ℤ time }
    requires to { time ≤ℤ past.now.released }
    ensures { IfOk result (λ answers. answers ≡ batch_answers (at past.now.history time) time mask.now names.now) }
{
    let mut answers = Answers::new(alloc);
    for name in names.as_slice() {
        answers.push(one_at(alloc, past, name, mask, time)?)?;
    }
    Ok(answers)
}

fn one_at(
    alloc: Global,
    past: &Past,
    name: &DocName,
    mask: &Option<Paths>,
    time: Micros,
) -> Result<BatchAnswer, AllocError>
    requires from { past.now.floor ≤ℤ time }
    requires to { time ≤ℤ past.now.released }
    ensures { IfOk result (λ a. a ≡ told_of time mask.now name.now (get (at past.now.history time) name.now)) }
{
    match past.get(name, time) {
        Some(document) => Ok(BatchAnswer::Found(masked(alloc, document, mask)?, time)),
        None => Ok(BatchAnswer::Missing(name.copy(alloc)?, time)),
    }
}

// ---- queries

/// Why a query isn't run: the least rule that it breaks.
pub(crate) fn query_refusal(alloc: Global, query: &Query) -> Result<Option<Refusal>, AllocError>
    ensures { IfOk result (λ r. r ≡ query_refusal query.now) }
{
    match check_with(alloc, query)? {
        Some(rule) => Ok(Some(broken(alloc, rule)?)),
        None => Ok(None),
    }
}

fn broken(alloc: Global, rule: QueryRule) -> Result<Refusal, AllocError>
    ensures { IfOk result (λ r. r ≡ refusal_of (reasons.Rule (Q rule.number rule.count) (member_place (codes "runQuery") (codes "structuredQuery")))) }
{
    let place = Way::method("runQuery")
        .member("structuredQuery")
        .place(alloc)?;
    Ok(Refusal::of(Reason::Rule(Rule::Q(rule.number, rule.count), place)))
}

/// Runs a query, at a time that can be read. Only the documents that it answers are copied.
pub(crate) fn read_query(
    alloc: Global,
    past: &Past,
    id: &Option<Text>,
    query: &Query,
    time: Micros,
) -> Result<Answer, AllocError>
    requires from { past.now.floor ≤ℤ time }
    requires to { time ≤ℤ past.now.released }
    ensures { IfOk result (λ a. a ≡ run_answer past.now id.now query.now time) }
{
    Ok(Answer::Reply(Message::RunQuery {
        id: copy_id(alloc, id)?,
        documents: answer_at(alloc, past, query, time)?,
        time,
    }))
}

fn answer_at(
    alloc: Global,
    past: &Past,
    query: &Query,
    time: Micros,
) -> Result<Documents, AllocError>
    requires from { past.now.floor ≤ℤ time }
    requires to { time ≤ℤ past.now.released }
    ensures { IfOk result (λ ds. ds ≡ query_answer (at past.now.history time) query.now) }
{
    let found = past.run(alloc, query, time)?;
    selected(alloc, found, &query.select)
}

// The same documents as a query selects their fields.
fn selected(
    alloc: Global,
    found: Documents,
    select: &Option<Paths>,
) -> Result<Documents, AllocError>
    ensures { IfOk result (λ ds. ds ≡ map (masked select.now) found) }
{
    match select {
        Some(paths) => projected(alloc, &found, paths),
        None => Ok(found),
    }
}

fn projected(alloc: Global, found: &Documents, paths: &Paths) -> Result<Documents, AllocError>
    ensures { IfOk result (λ ds. ds ≡ map (masked (Some paths.now)) found.now) }
{
    let mut documents = Documents::new(alloc);
    for document in found.as_slice() {
        documents.push(project(alloc, document, paths)?)?;
    }
    Ok(documents)
}
