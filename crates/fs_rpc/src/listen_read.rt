//! Reads what a session that listens is told.
ghost use Rattle.std.specs.Prelude.{◌≡◌, ℕ, ℤ, List, Option, codes};
ghost use Rattle.fs_path.specs.Place.{member_place};
ghost use Rattle.fs_path.specs.Way.{place_of};
ghost use Rattle.fs_path.specs.declared.name.DocName.{DocName};
ghost use Rattle.serde_json.specs.View.{view as json};
ghost use Rattle.fs_json.specs.Answer.{Gives};
ghost use Rattle.fs_json.specs.Members.{required_as};
ghost use Rattle.fs_query.specs.declared.listen.Cause.{Cause};
ghost use Rattle.fs_rpc.specs.ReadListen.{absent_at, cause_at, cause_in, change_by, current_at, deleted_at, document_change_at, gone_at, kind_in, listen_at, natural_of, no_change_at, no_targets_at, number_at, remove_at, removed_at, target_change_at, targets_alone_at, targets_in, token_at, told_at};

use crate::names::{
    ADD, CAUSE, CAUSE_MEMBERS, CHANGE_MEMBERS, CODE, CURRENT, DOCUMENT, DOCUMENT_CHANGE,
    DOCUMENT_CHANGE_MEMBERS, DOCUMENT_DELETE, GONE_MEMBERS, LISTEN_MEMBERS, MESSAGE, NO_CHANGE,
    READ_TIME, REMOVE, REMOVED_TARGET_IDS, RESET, RESUME_TOKEN, TARGET_CHANGE, TARGET_CHANGE_TYPE,
    TARGET_IDS,
};
use fs_json::{
    Bad, ReadsItem, member, one_of, only, read_bytes, read_document_name, read_each,
    read_required_text, read_required_time, read_small, read_text, required,
};
use fs_path::{Bytes, DocName, Root, Rule, Text, Way};
use fs_query::{Cause, ListenMessage, Numbers};
use fs_time::Micros;
use fs_valjson::read_document;
use serde_json::Value;
use std::alloc::Global;

/// Reads what a session that listens is told. (v1 reference, `ListenResponse`.)
#[tactic(auto, unfolding(crate::specs::ReadListen::listen_at))]
pub(crate) fn read_listen(
    alloc: Global,
    root: &Root,
    v: &Value,
    way: &Way<'_>,
) -> Result<ListenMessage, Bad>
    ensures { Gives (λ m. m) result (listen_at root.now (json v.now) (place_of way.now)) }
{
    only(alloc, v, &LISTEN_MEMBERS, way)?;
    let (name, content) = one_of(alloc, v, &LISTEN_MEMBERS, way)?;
    read_told(alloc, root, name, content, way)
}

// Reads what stands under this name, behind the way.
fn read_told(
    alloc: Global,
    root: &Root,
    name: &str,
    v: &Value,
    way: &Way<'_>,
) -> Result<ListenMessage, Bad>
    ensures { Gives (λ m. m) result
        (told_at root.now name.now (json v.now) (member_place (place_of way.now) name.now)) }
{
    match name {
        TARGET_CHANGE => read_target_change(alloc, v, &way.member(name)),
        DOCUMENT_CHANGE => read_document_change(alloc, root, v, &way.member(name)),
        DOCUMENT_DELETE => read_deleted(alloc, root, v, &way.member(name)),
        _ => read_removed(alloc, root, v, &way.member(name)),
    }
}

// ---- changes of targets

/// Reads a change of targets. Its kind is read first, since it decides which members there are. (v1 reference,
/// `TargetChange`.)
#[tactic(auto, unfolding(crate::specs::ReadListen::target_change_at))]
fn read_target_change(alloc: Global, v: &Value, way: &Way<'_>) -> Result<ListenMessage, Bad>
    ensures { Gives (λ m. m) result (target_change_at (json v.now) (place_of way.now)) }
{
    only(alloc, v, &CHANGE_MEMBERS, way)?;
    let kind = read_kind(alloc, v, way)?;
    read_by_kind(alloc, kind.as_str(), v, way)
}

// The name of the kind, which by default is that nothing changed.
fn read_kind(alloc: Global, v: &Value, way: &Way<'_>) -> Result<Text, Bad>
    ensures { Gives (λ t. t) result (kind_in (json v.now) (place_of way.now)) }
{
    match member(alloc, v, TARGET_CHANGE_TYPE, way)? {
        Some(kind) => read_text(alloc, kind, &way.member(TARGET_CHANGE_TYPE)),
        None => Ok(Text::from_str(alloc, NO_CHANGE)?),
    }
}

fn read_by_kind(alloc: Global, kind: &str, v: &Value, way: &Way<'_>) -> Result<ListenMessage, Bad>
    ensures { Gives (λ m. m) result (change_by kind.now (json v.now) (place_of way.now)) }
{
    match kind {
        NO_CHANGE => read_no_change(alloc, v, way),
        ADD => Ok(ListenMessage::Add {
            targets: read_targets_alone(alloc, v, way)?,
        }),
        REMOVE => read_remove(alloc, v, way),
        CURRENT => read_current(alloc, v, way),
        RESET => Ok(ListenMessage::Reset {
            targets: read_targets_alone(alloc, v, way)?,
        }),
        _ => Err(Bad::at(alloc, Rule::G, &way.member(TARGET_CHANGE_TYPE))),
    }
}

#[tactic(auto, unfolding(crate::specs::ReadListen::targets_alone_at))]
fn read_targets_alone(alloc: Global, v: &Value, way: &Way<'_>) -> Result<Numbers, Bad>
    ensures { Gives (λ ns. ns) result (targets_alone_at (json v.now) (place_of way.now)) }
{
    refuse_given(alloc, v, CAUSE, way)?;
    refuse_given(alloc, v, READ_TIME, way)?;
    refuse_given(alloc, v, RESUME_TOKEN, way)?;
    read_targets(alloc, v, TARGET_IDS, way)
}

#[tactic(auto, unfolding(crate::specs::ReadListen::remove_at))]
fn read_remove(alloc: Global, v: &Value, way: &Way<'_>) -> Result<ListenMessage, Bad>
    ensures { Gives (λ m. m) result (remove_at (json v.now) (place_of way.now)) }
{
    let cause = read_optional_cause(alloc, v, way)?;
    refuse_given(alloc, v, READ_TIME, way)?;
    refuse_given(alloc, v, RESUME_TOKEN, way)?;
    let targets = read_targets(alloc, v, TARGET_IDS, way)?;
    Ok(ListenMessage::Remove { targets, cause })
}

#[tactic(auto, unfolding(crate::specs::ReadListen::current_at))]
fn read_current(alloc: Global, v: &Value, way: &Way<'_>) -> Result<ListenMessage, Bad>
    ensures { Gives (λ m. m) result (current_at (json v.now) (place_of way.now)) }
{
    refuse_given(alloc, v, CAUSE, way)?;
    let time = read_required_time(alloc, v, READ_TIME, way)?;
    let token = read_token(alloc, v, way)?;
    let targets = read_targets(alloc, v, TARGET_IDS, way)?;
    Ok(ListenMessage::Current {
        targets,
        time,
        token,
    })
}

#[tactic(auto, unfolding(crate::specs::ReadListen::no_change_at))]
fn read_no_change(alloc: Global, v: &Value, way: &Way<'_>) -> Result<ListenMessage, Bad>
    ensures { Gives (λ m. m) result (no_change_at (json v.now) (place_of way.now)) }
{
    refuse_given(alloc, v, CAUSE, way)?;
    let time = read_required_time(alloc, v, READ_TIME, way)?;
    let token = read_token(alloc, v, way)?;
    let targets = read_targets(alloc, v, TARGET_IDS, way)?;
    refuse_targets(alloc, targets.as_slice(), &way.member(TARGET_IDS))?;
    Ok(ListenMessage::NoChange { time, token })
}

/// Refuses a member that is there.
pub(crate) fn refuse_given(alloc: Global, v: &Value, name: &str, way: &Way<'_>) -> Result<(), Bad>
    ensures { Gives (λ u. u) result (absent_at name.now (json v.now) (place_of way.now)) }
{
    match member(alloc, v, name, way)? {
        Some(_) => Err(Bad::at(alloc, Rule::G, &way.member(name))),
        None => Ok(()),
    }
}

/// Refuses targets where none may be named.
fn refuse_targets(alloc: Global, targets: &[u32], way: &Way<'_>) -> Result<(), Bad>
    ensures { Gives (λ u. u) result (no_targets_at (place_of way.now) targets.now) }
{
    match targets {
        [] => Ok(()),
        _ => Err(Bad::at(alloc, Rule::G, way)),
    }
}

fn read_token(alloc: Global, v: &Value, way: &Way<'_>) -> Result<Bytes, Bad>
    ensures { Gives (λ b. b) result (required_as token_at (codes "resumeToken") (json v.now) (place_of way.now)) }
{
    let token = required(alloc, v, RESUME_TOKEN, way)?;
    read_bytes(alloc, token, &way.member(RESUME_TOKEN))
}

fn read_optional_cause(alloc: Global, v: &Value, way: &Way<'_>) -> Result<Option<Cause>, Bad>
    ensures { Gives {Y = Option Cause} (λ c. c) result (cause_in (json v.now) (place_of way.now)) }
{
    match member(alloc, v, CAUSE, way)? {
        Some(cause) => Ok(Some(read_cause(alloc, cause, &way.member(CAUSE))?)),
        None => Ok(None),
    }
}

#[tactic(auto, unfolding(crate::specs::ReadListen::cause_at))]
fn read_cause(alloc: Global, v: &Value, way: &Way<'_>) -> Result<Cause, Bad>
    ensures { Gives (λ c. c) result (cause_at (json v.now) (place_of way.now)) }
{
    only(alloc, v, &CAUSE_MEMBERS, way)?;
    let code = read_required_number(alloc, v, CODE, way)?;
    let message = read_required_text(alloc, v, MESSAGE, way)?;
    Ok(Cause { code, message })
}

// ---- documents

/// Reads a document as it is in the views of targets. (v1 reference, `DocumentChange`.)
#[tactic(auto, unfolding(crate::specs::ReadListen::document_change_at))]
fn read_document_change(
    alloc: Global,
    root: &Root,
    v: &Value,
    way: &Way<'_>,
) -> Result<ListenMessage, Bad>
    ensures { Gives (λ m. m) result (document_change_at root.now (json v.now) (place_of way.now)) }
{
    only(alloc, v, &DOCUMENT_CHANGE_MEMBERS, way)?;
    let content = required(alloc, v, DOCUMENT, way)?;
    let document = read_document(alloc, root, content, &way.member(DOCUMENT))?;
    let left = read_targets(alloc, v, REMOVED_TARGET_IDS, way)?;
    let targets = read_targets(alloc, v, TARGET_IDS, way)?;
    Ok(ListenMessage::Changed {
        document,
        targets,
        left,
    })
}

fn read_deleted(alloc: Global, root: &Root, v: &Value, way: &Way<'_>) -> Result<ListenMessage, Bad>
    ensures { Gives (λ m. m) result (deleted_at root.now (json v.now) (place_of way.now)) }
{
    let Gone { name, time, left } = read_gone(alloc, root, v, way)?;
    Ok(ListenMessage::Deleted { name, time, left })
}

fn read_removed(alloc: Global, root: &Root, v: &Value, way: &Way<'_>) -> Result<ListenMessage, Bad>
    ensures { Gives (λ m. m) result (removed_at root.now (json v.now) (place_of way.now)) }
{
    let Gone { name, time, left } = read_gone(alloc, root, v, way)?;
    Ok(ListenMessage::Removed { name, time, left })
}

/// A document that the views of some targets have no longer.
#[derive(Drop)]
struct Gone {
    name: DocName,
    time: Micros,
    left: Numbers,
}

/// Reads it. (v1 reference, `DocumentDelete`, `DocumentRemove`.)
#[tactic(auto, unfolding(crate::specs::ReadListen::gone_at))]
fn read_gone(alloc: Global, root: &Root, v: &Value, way: &Way<'_>) -> Result<Gone, Bad>
    ensures { Gives {Y = DocName × ℤ × List ℕ} (λ g. (g.name, g.time, g.left)) result
        (gone_at root.now (json v.now) (place_of way.now)) }
{
    only(alloc, v, &GONE_MEMBERS, way)?;
    let content = required(alloc, v, DOCUMENT, way)?;
    let name = read_document_name(alloc, root, content, &way.member(DOCUMENT))?;
    let time = read_required_time(alloc, v, READ_TIME, way)?;
    let left = read_targets(alloc, v, REMOVED_TARGET_IDS, way)?;
    Ok(Gone { name, time, left })
}

// ---- numbers

/// Reads the numbers of targets, of which there are none where the list is absent.
fn read_targets(alloc: Global, v: &Value, name: &str, way: &Way<'_>) -> Result<Numbers, Bad>
    ensures { Gives (λ ns. ns) result (targets_in name.now (json v.now) (place_of way.now)) }
{
    match member(alloc, v, name, way)? {
        Some(targets) => {
            let read = read_each(alloc, &NumberReader, targets, &way.member(name))?;
            Ok(Numbers::of(read.into_vec()))
        }
        None => Ok(Numbers::new(alloc)),
    }
}

/// Reads a number of a list.
struct NumberReader;

impl ReadsItem for NumberReader {
    type Item = u32;

    ghost reading = { λ _. number_at };

    fn read(&self, alloc: Global, item: &Value, way: &Way<'_>) -> Result<u32, Bad> {
        read_number(alloc, item, way)
    }
}

fn read_required_number(alloc: Global, v: &Value, name: &str, way: &Way<'_>) -> Result<u32, Bad>
    ensures { Gives (λ n. n) result (required_as number_at name.now (json v.now) (place_of way.now)) }
{
    let number = required(alloc, v, name, way)?;
    read_number(alloc, number, &way.member(name))
}

/// Reads a 32-bit integer that isn't negative.
pub(crate) fn read_number(alloc: Global, v: &Value, way: &Way<'_>) -> Result<u32, Bad>
    ensures { Gives (λ n. n) result (number_at (json v.now) (place_of way.now)) }
{
    let signed = read_small(alloc, v, way)?;
    match natural(signed) {
        Some(number) => Ok(number),
        None => Err(Bad::at(alloc, Rule::G, way)),
    }
}

#[tactic(auto, using(crate::proofs::Naturals::natural_below, crate::proofs::Naturals::natural_above))]
fn natural(signed: i32) -> Option<u32>
    ensures { result ≡ natural_of signed }
{
    if signed < 0 {
        None
    } else {
        Some(signed.unsigned_abs())
    }
}
