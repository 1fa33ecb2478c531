//! Reads writes.
ghost use Rattle.std.specs.Prelude.{◌≡◌, List, Option, option_map, IfOk};
ghost use Rattle.std.specs.List.{AllByRecursion};
ghost use Rattle.fs_path.specs.Way.{place_of};
ghost use Rattle.fs_path.specs.declared.field.FieldPath.{FieldPath};
ghost use Rattle.fs_json.specs.Answer.{Gives};
ghost use Rattle.serde_json.specs.View.{view as json};
ghost use Rattle.fs_write.specs.declared.write.Act.{Act as Acted};
ghost use Rattle.fs_writejson.specs.Draft.{Beside as Told, act_at, beside_at, draft_at, draft_of, drafts_at, mask_in, with_mask};
ghost use Rattle.fs_writejson.specs.Rules.{write_at};
ghost use Rattle.fs_writejson.specs.Valid.{IsDraftOf, IsWriteOf};

use crate::condition::read_condition_of;
use crate::draft::{Draft, Drafts};
use crate::mask::read_mask;
use crate::names::{DELETE, UNBUILT_MEMBERS, UPDATE, UPDATE_MASK, WRITE_MEMBERS};
use crate::rules::permitted;
use crate::transform::read_transforms_of;
use fs_json::{Bad, ReadsItem, member, only, read_document_name, read_each, refuse_unbuilt};
use fs_path::{Paths, Root, Rule, Way};
use fs_valjson::read_document;
use fs_write::{Act, Precondition, Transforms, Write};
use serde_json::Value;
use std::alloc::Global;

/// Reads one write: the walk, and then the rules of writes, which are told at its place. (v1 reference, "Write".)
pub fn read_write(alloc: Global, root: &Root, v: &Value, way: &Way<'_>) -> Result<Write, Bad>
    ensures gives { Gives (λ w. w) result (write_at root.now (json v.now) (place_of way.now)) }

    // It writes a document of the root, its references are names of documents, and it breaks no rule.
    ensures valid { IfOk result (λ w. IsWriteOf root.now w) }
{
    let draft = read_draft(alloc, root, v, way)?;
    permitted(alloc, draft, way)
}

/// Reads the writes of a commit, each walked whole before the next. Their rules are tested by `judge`, since they come
/// after the walk of the whole request.
pub fn read_drafts(alloc: Global, root: &Root, v: &Value, way: &Way<'_>) -> Result<Drafts, Bad>
    ensures gives { Gives (λ ds. ds) result (drafts_at root.now (json v.now) (place_of way.now)) }

    // Each writes a document of the root, and its references are names of documents.
    ensures valid { IfOk result (λ ds. AllByRecursion (IsDraftOf root.now) ds) }
{
    read_each(alloc, &DraftReader { root }, v, way)
}

/// Reads a write of a list, whose document is one of the root.
#[derive(Drop)]
struct DraftReader<'a> {
    root: &'a Root,
}

impl ReadsItem for DraftReader<'_> {
    type Item = Draft;

    ghost reading = { λ reader. draft_at reader.root.now };

    fn read(&self, alloc: Global, item: &Value, way: &Way<'_>) -> Result<Draft, Bad> {
        read_draft(alloc, self.root, item, way)
    }
}

/// The walk of a write.
///
/// At the way `x` the reader of `{"update":{"name":1},"updateMask":{"fieldPaths":["a..b"]}}` refuses at `x.update.name`,
/// and where the name is good at `x.updateMask.fieldPaths[0]`. `{"delete":1,"verify":"a"}` is refused at `x.delete`, and
/// where that is a name, `verify` is told as not built.
#[tactic(auto, unfolding(crate::specs::Draft::draft_at))]
fn read_draft(alloc: Global, root: &Root, v: &Value, way: &Way<'_>) -> Result<Draft, Bad>
    ensures { Gives (λ d. d) result (draft_at root.now (json v.now) (place_of way.now)) }
{
    only(alloc, v, &WRITE_MEMBERS, way)?;
    let update = member(alloc, v, UPDATE, way)?;
    let delete = member(alloc, v, DELETE, way)?;
    let act = read_act(alloc, root, v, way, update, delete)?;
    match read_beside(alloc, v, way) {
        Ok(beside) => Ok(draft_of(act, beside)),
        Err(bad) => {
            drop(act);
            Err(bad)
        }
    }
}

/// What a write has beside its act.
#[derive(Drop)]
struct Beside {
    mask: Option<Paths>,
    transforms: Transforms,
    is_numeric: bool,
    condition: Precondition,
}

fn read_beside(alloc: Global, v: &Value, way: &Way<'_>) -> Result<Beside, Bad>
    ensures { Gives {Y = Told} (λ b. record { mask = b.mask; transforms = (b.transforms, b.is_numeric); condition = b.condition })
        result (beside_at (json v.now) (place_of way.now)) }
{
    refuse_unbuilt(alloc, v, &UNBUILT_MEMBERS, way)?;
    let mask = read_mask_of(alloc, v, way)?;
    let (transforms, is_numeric) = read_transforms_of(alloc, v, way)?;
    let condition = read_condition_of(alloc, v, way)?;
    Ok(Beside {
        mask,
        transforms,
        is_numeric,
        condition,
    })
}

fn draft_of(act: Act, beside: Beside) -> Draft
    ensures { result ≡ draft_of (with_mask act beside.mask) (beside.transforms, beside.is_numeric) beside.condition }
{
    let (act, idle_mask) = with_mask(act, beside.mask);
    Draft {
        write: Write {
            act,
            transforms: beside.transforms,
            condition: beside.condition,
        },
        idle_mask,
        is_numeric: beside.is_numeric,
    }
}

/// What a write does: just one of an update, which has no mask yet, and a delete.
/// (docs/DECISIONS.md, "A write has to have exactly one of `update` and `delete`".)
fn read_act(
    alloc: Global,
    root: &Root,
    v: &Value,
    way: &Way<'_>,
    update: Option<&Value>,
    delete: Option<&Value>,
) -> Result<Act, Bad>
    ensures { Gives (λ a. a) result (act_at root.now (json v.now) (place_of way.now)
        (option_map (λ x. json x.now) update.entry) (option_map (λ x. json x.now) delete.entry)) }
{
    match (update, delete) {
        (Some(document), None) => {
            let document = read_document(alloc, root, document, &way.member(UPDATE))?;
            Ok(Act::Set {
                name: document.name,
                fields: document.fields,
            })
        }
        (None, Some(name)) => {
            let name = read_document_name(alloc, root, name, &way.member(DELETE))?;
            Ok(Act::Delete { name })
        }
        (None, None) => {
            refuse_unbuilt(alloc, v, &UNBUILT_MEMBERS, way)?;
            Err(Bad::at(alloc, Rule::E(1), way))
        }
        (Some(_), Some(_)) => Err(Bad::at(alloc, Rule::E(1), way)),
    }
}

fn read_mask_of(alloc: Global, write: &Value, way: &Way<'_>) -> Result<Option<Paths>, Bad>
    ensures { Gives {Y = Option (List FieldPath)} (λ mask. mask) result
        (mask_in (json write.now) (place_of way.now)) }
{
    match member(alloc, write, UPDATE_MASK, way)? {
        Some(mask) => Ok(Some(read_mask(alloc, mask, &way.member(UPDATE_MASK))?)),
        None => Ok(None),
    }
}

/// An update with its mask, which may be absent. A delete may have none: one that it is given stands beside it.
fn with_mask(act: Act, mask: Option<Paths>) -> (Act, Option<Paths>)
    ensures { result ≡ with_mask act mask }
{
    match (act, mask) {
        (Act::Set { name, fields }, Some(mask)) => (Act::Merge { name, fields, mask }, None),
        (act, mask) => (act, mask),
    }
}
