//! One write, on the document of its name.
ghost use Rattle.std.specs.Prelude.{◌≡◌, ◌≢◌, IfOk, IfErr, Ok, Some, option_map};
ghost use Rattle.std.specs.List.{list_any};
ghost use Rattle.fs_status.specs.Refusal.{refusal_of};
ghost use Rattle.fs_status.specs.declared.reason.Reason.TheVariants.{Memory};
ghost use Rattle.fs_value.specs.FieldPaths.{get_fields};
ghost use Rattle.fs_write.specs.Local.{untimed, written_locally};
ghost use Rattle.fs_write.specs.OneWrite.{has_long_path, unmet, with_field, merged, fields_there, fields_left, document_left, unfit, written, carried_out, one_write};
ghost use Rattle.fs_value.specs.Same.{same_fields};
ghost use Rattle.fs_write.specs.Refused.{reason_of, refused};
ghost use Rattle.fs_write.specs.Transforms.{transformed, transform_results};

use crate::apply::apply_transforms;
use crate::change::copy_document;
use crate::limits::LONGEST_TRANSFORM_PATH;
use crate::transform::{Transform, Transforms};
use crate::value_rules::are_fields_deep;
use crate::write::{Act, Precondition, Write};
use crate::write_result::WriteResult;
use fs_edit::OpenFields;
use fs_path::{DocName, FieldPath, Paths};
use fs_status::{Code, Reason, Refusal};
use fs_time::Micros;
use fs_value::{Document, Fields, LARGEST_DOCUMENT, SharedFields, Values, fields_same, get, size};
use std::alloc::{AllocError, Global};

// Why a precondition isn't met, for the write of this number.
fn unmet(condition: &Precondition, there: &Option<Document>, write: u32) -> Option<Reason>
    ensures { result ≡ option_map (reason_of write) (unmet condition.now there.now) }
{
    match condition {
        Precondition::None => None,
        Precondition::Exists(wanted) => match (*wanted, there) {
            (true, None) => Some(Reason::Missing(write)),
            (false, Some(_)) => Some(Reason::Exists(write)),
            _ => None,
        },
        Precondition::UpdateTime(time) => match there {
            Some(document) if document.updated == *time => None,
            Some(document) => Some(Reason::OtherTime(write, Some(document.updated))),
            None => Some(Reason::OtherTime(write, None)),
        },
    }
}

// The fields at the paths of a mask become those of the input, or are deleted where the input hasn't them.
fn merge(alloc: Global, fields: Fields, input: &Fields, mask: &Paths) -> Result<Fields, AllocError>
    ensures { IfOk result (λ fs. fs ≡ merged mask.now input.now fields) }
{
    let mut opened = OpenFields::open(alloc, fields)?;
    for path in mask.as_slice() {
        opened = merge_one(alloc, opened, input, path)?;
    }
    opened.close(alloc)
}

fn merge_one(
    alloc: Global,
    fields: OpenFields,
    input: &Fields,
    path: &FieldPath,
) -> Result<OpenFields, AllocError>
    ensures { IfOk result (λ fs. fs ≡ with_field path.now.parts (get_fields path.now.parts input.now) fields) }
{
    match get(input, path) {
        Some(value) => fields.set(alloc, path, value.copy(alloc)?),
        None => fields.unset(alloc, path),
    }
}

fn fields_there(alloc: Global, there: &Option<Document>) -> Result<Fields, AllocError>
    ensures { IfOk result (λ fs. fs ≡ fields_there there.now) }
{
    match there {
        Some(document) => document.fields.as_fields().copy(alloc),
        None => Ok(Fields::new(alloc)),
    }
}

// The fields that an act leaves, or none where it leaves no document.
fn fields_left(
    alloc: Global,
    act: &Act,
    there: &Option<Document>,
) -> Result<Option<SharedFields>, AllocError>
    ensures { IfOk result (λ r. r ≡ fields_left act.now there.now) }
{
    match act {
        Act::Set { fields, .. } => Ok(Some(fields.copy()?)),
        Act::Merge { fields, mask, .. } => {
            let before = fields_there(alloc, there)?;
            let left = merge(alloc, before, fields.as_fields(), mask)?;
            Ok(Some(SharedFields::of(alloc, left)?))
        }
        Act::Delete { .. } => Ok(None),
    }
}

// Whether a transform's path has more names than any may have.
// (docs/DECISIONS.md, "A transform's path may have any length as it is read".)
fn some_long_path(transforms: &[Transform]) -> bool
    ensures { result ≡ list_any has_long_path transforms.now }
{
    transforms
        .iter()
        .any(|t| t.path.parts.len() > LONGEST_TRANSFORM_PATH)
}

// The fields after the transforms, and the transforms' results.
fn transform(
    alloc: Global,
    fields: SharedFields,
    transforms: &Transforms,
    time: Micros,
) -> Result<(SharedFields, Values), AllocError>
    ensures fields { IfOk result (λ r. r.0 ≡ transformed transforms.now time fields) }
    ensures results { IfOk result (λ r. r.1 ≡ transform_results transforms.now time fields) }
{
    // Then the document goes on sharing the fields that the write was given.
    if transforms.is_empty() {
        return Ok((fields, Values::new(alloc)));
    }
    let fields = fields.into_fields(alloc)?;
    let (fields, results) = apply_transforms(alloc, fields, transforms, time)?;
    Ok((SharedFields::of(alloc, fields)?, results))
}

/// Whether fields are the same.
pub(crate) fn is_same(a: &SharedFields, b: &SharedFields) -> bool
    ensures { result ≡ same_fields a.now b.now }
{
    let one = a.as_fields();
    let other = b.as_fields();
    fields_same(one, other)
}

// The document that these fields make of the one that is there.
fn document_left(
    alloc: Global,
    there: Option<Document>,
    name: &DocName,
    fields: SharedFields,
    time: Micros,
) -> Result<Document, AllocError>
    ensures { IfOk result (λ d. d ≡ document_left there name.now fields time) }
{
    let created = match there {
        None => time,
        Some(before) => {
            if is_same(&before.fields, &fields) {
                return Ok(before);
            }
            before.created
        }
    };
    Ok(Document {
        name: name.copy(alloc)?,
        fields,
        created,
        updated: time,
    })
}

// Why a document may not be left, for the write of this number.
fn unfit(document: &Document, write: u32) -> Option<Reason>
    ensures { result ≡ option_map (reason_of write) (unfit document.now) }
{
    if are_fields_deep(document.fields.as_fields()) {
        return Some(Reason::DeepAfter(write));
    }
    let bytes = size(document);
    if bytes > LARGEST_DOCUMENT {
        return Some(Reason::LargeAfter(write, bytes));
    }
    None
}

// The document that is left and the write's result, if it may be left.
fn written(
    document: Document,
    transforms: Values,
    number: u32,
) -> Result<(Option<Document>, WriteResult), Refusal>
    ensures ok { IfOk result (λ r. written document transforms ≡ Ok r) }
    ensures err { IfErr result (λ e. refused number (written document transforms) ≡ Some e) }
{
    if let Some(reason) = unfit(&document, number) {
        return Err(Refusal::of(reason));
    }
    let answer = WriteResult {
        updated: Some(document.updated),
        transforms,
    };
    Ok((Some(document), answer))
}

// What the write leaves and answers, where its act leaves these fields.
fn carried_out(
    alloc: Global,
    there: Option<Document>,
    fields: SharedFields,
    write: &Write,
    number: u32,
    time: Micros,
) -> Result<(Option<Document>, WriteResult), Refusal>
    ensures ok { IfOk result (λ r. carried_out (Some fields) there write.now time ≡ Ok r) }
    ensures err { IfErr result (λ e. e ≢ refusal_of Memory → refused number (carried_out (Some fields) there write.now time) ≡ Some e) }
{
    if some_long_path(write.transforms.as_slice()) {
        return Err(Refusal::of(Reason::DeepAfter(number)));
    }
    let (fields, transforms) = transform(alloc, fields, &write.transforms, time)?;
    let document = document_left(alloc, there, write.name(), fields, time)?;
    written(document, transforms, number)
}

// The same, by the act that leaves fields, or none.
fn acted(
    alloc: Global,
    there: Option<Document>,
    write: &Write,
    number: u32,
    time: Micros,
) -> Result<(Option<Document>, WriteResult), Refusal>
    ensures ok { IfOk result (λ r. carried_out (fields_left write.now.act there) there write.now time ≡ Ok r) }
    ensures err { IfErr result (λ e. e ≢ refusal_of Memory
        → refused number (carried_out (fields_left write.now.act there) there write.now time) ≡ Some e) }
{
    match fields_left(alloc, &write.act, &there)? {
        Some(fields) => carried_out(alloc, there, fields, write, number, time),
        None => Ok((
            None,
            WriteResult {
                updated: None,
                transforms: Values::new(alloc),
            },
        )),
    }
}

/// Carries out the write of this number in its commit, on the document that is there or none. It answers the document
/// that is left, if one is, and the write's result.
pub(crate) fn carry_out(
    alloc: Global,
    there: Option<Document>,
    write: &Write,
    number: u32,
    time: Micros,
) -> Result<(Option<Document>, WriteResult), Refusal>
    ensures ok { IfOk result (λ r. one_write there write.now time ≡ Ok r) }
    ensures err { IfErr result (λ e. e ≢ refusal_of Memory → refused number (one_write there write.now time) ≡ Some e) }
{
    if let Some(reason) = unmet(&write.condition, &there, number) {
        return Err(Refusal::of(reason));
    }
    acted(alloc, there, write, number, time)
}

// The document that is there, which a refusal leaves, but for want of memory.
fn kept_at(
    alloc: Global,
    refusal: &Refusal,
    there: &Option<Document>,
) -> Result<Option<Document>, AllocError>
    ensures same { IfOk result (λ d. d ≡ there.now) }
    ensures told { IfOk result (λ _. refusal.now ≢ refusal_of Memory) }
{
    if refusal.code == Code::OutOfMemory {
        return Err(AllocError);
    }
    copy_document(alloc, there)
}

// The precondition without an update time.
fn untimed(condition: Precondition) -> Precondition
    ensures { result ≡ untimed condition }
{
    match condition {
        Precondition::UpdateTime(_) => Precondition::None,
        _ => condition,
    }
}

/// What a client makes of a write that no server has answered yet, on the document that it has, or has not: at its own moment, without
/// a look at when the document was updated last. A write that would be refused has no effect.
/// (Cloud Firestore documentation, "Access data offline".)
#[tactic(auto, using(crate::proofs::Locally::unmet_stays, crate::proofs::Locally::met_done, crate::proofs::Locally::met_refused))]
pub fn write_locally(
    alloc: Global,
    there: &Option<Document>,
    write: &Write,
    moment: Micros,
) -> Result<Option<Document>, AllocError>
    ensures { IfOk result (λ d. d ≡ written_locally there.now write.now moment) }
{
    if unmet(&untimed(write.condition), there, 0).is_some() {
        return copy_document(alloc, there);
    }
    match acted(alloc, copy_document(alloc, there)?, write, 0, moment) {
        Ok((left, _)) => Ok(left),
        Err(refusal) => kept_at(alloc, &refusal, there),
    }
}
