//! Reads the requests of a session that listens.
ghost use Rattle.std.specs.Prelude.{ℤ, List, ℕ, Option, None, Some, codes};
ghost use Rattle.fs_path.specs.Place.{member_place};
ghost use Rattle.fs_path.specs.Way.{place_of};
ghost use Rattle.fs_path.specs.declared.name.Root.{Root as Rooted};
ghost use Rattle.serde_json.specs.View.{members_view, view as json};
ghost use Rattle.fs_json.specs.Answer.{Gives, made};
ghost use Rattle.fs_json.specs.Members.{member_or, required_as};
ghost use Rattle.fs_json.specs.Scalars.{small_at};
ghost use Rattle.fs_query.specs.declared.target.Target.{Target as Listened};
ghost use Rattle.fs_rpc.specs.ReadListen.{token_at};
ghost use Rattle.fs_rpc.specs.ReadTargets.{add_target_at, documents_target_at, labels_at, labels_in, listen_request_at, permitted_request, permitted_target, query_target_at, remove_target_at, some_names, target_at, target_change_by, target_id_at, texts_at};
ghost use Rattle.fs_rpc.specs.RequestSteps.{added_at, behind_at, beside_target_at, ignored_at};
ghost use Rattle.fs_request.specs.declared.request.Request.{Request as Requested};

use crate::distinct::read_names;
use crate::listen_read::read_number;
use crate::names::{
    ADD_TARGET, ADD_TARGET_MEMBERS, DOCUMENTS, DOCUMENTS_TARGET_MEMBERS, EXPECTED_COUNT, LABELS,
    LISTEN_REQUEST_MEMBERS, PARENT, QUERY, QUERY_TARGET_MEMBERS, RESUME_TOKEN, STRUCTURED_QUERY,
    TARGET_CHANGES, TARGET_ID, TARGET_MEMBERS, UNBUILT_OF_TARGET,
};
use crate::read::{read_database, read_parent};
use fs_json::{Bad, member, one_of, only, read_bytes, read_small, refuse_unbuilt, required};
use fs_path::{Bytes, Names, Root, Rule, Way};
use fs_query::Target;
use fs_queryjson::{refuse_broken, walk_listened};
use fs_request::Request;
use serde_json::{Map, Value};
use std::alloc::Global;

/// Reads a `ListenRequest`: a target is added, or one is removed. The rules of a target's query are tested after the walk of the
/// whole request.
#[tactic(auto, unfolding(crate::specs::ReadTargets::listen_request_at))]
pub(crate) fn read_listen_request(
    alloc: Global,
    root: &Root,
    v: &Value,
    way: &Way<'_>,
) -> Result<Request, Bad>
    ensures { Gives (λ r. r) result (listen_request_at root.now (json v.now) (place_of way.now)) }
{
    only(alloc, v, &LISTEN_REQUEST_MEMBERS, way)?;
    read_database(alloc, root, v, way)?;
    let (name, content) = one_of(alloc, v, &TARGET_CHANGES, way)?;
    let request = read_change(alloc, root, name, content, way)?;
    match read_behind(alloc, &request, v, way) {
        Ok(()) => Ok(request),
        Err(bad) => {
            drop(request);
            Err(bad)
        }
    }
}

// What comes behind the change of targets: the labels, and then the rules.
fn read_behind(alloc: Global, request: &Request, v: &Value, way: &Way<'_>) -> Result<(), Bad>
    ensures { Gives {Y = Requested} (λ u. request.now) result
        (behind_at request.now (json v.now) (place_of way.now)) }
{
    read_labels(alloc, v, way)?;
    refuse_broken_request(alloc, request, way)
}

// Refuses a request whose query breaks a rule.
fn refuse_broken_request(alloc: Global, request: &Request, way: &Way<'_>) -> Result<(), Bad>
    ensures { Gives {Y = Requested} (λ u. request.now) result (permitted_request request.now (place_of way.now)) }
{
    match request {
        Request::AddTarget { target, .. } => {
            let way = way.member(ADD_TARGET);
            let way = way.member(QUERY);
            refuse_broken_target(alloc, target, &way.member(STRUCTURED_QUERY))
        }
        _ => Ok(()),
    }
}

fn refuse_broken_target(alloc: Global, target: &Target, way: &Way<'_>) -> Result<(), Bad>
    ensures { Gives {Y = Listened} (λ u. target.now) result (permitted_target target.now (place_of way.now)) }
{
    match target {
        Target::Query(query) => refuse_broken(alloc, query, way),
        Target::Documents(_) => Ok(()),
    }
}

// Reads what stands under this name, behind the way.
fn read_change(
    alloc: Global,
    root: &Root,
    name: &str,
    v: &Value,
    way: &Way<'_>,
) -> Result<Request, Bad>
    ensures { Gives (λ r. r) result
        (target_change_by root.now name.now (json v.now) (member_place (place_of way.now) name.now)) }
{
    match name {
        ADD_TARGET => read_add_target(alloc, root, v, &way.member(name)),
        _ => read_remove_target(alloc, root, v, &way.member(name)),
    }
}

/// Reads the number of the target that is to be removed, which may be no id of one.
fn read_remove_target(alloc: Global, root: &Root, v: &Value, way: &Way<'_>) -> Result<Request, Bad>
    ensures { Gives (λ r. r) result (remove_target_at root.now (json v.now) (place_of way.now)) }
{
    let id = read_small(alloc, v, way)?;
    Ok(Request::RemoveTarget {
        database: root.copy(alloc)?,
        id,
    })
}

// ---- targets

/// Reads a target that is added. (v1 reference, `Target`.)
#[tactic(auto, unfolding(crate::specs::ReadTargets::add_target_at))]
fn read_add_target(alloc: Global, root: &Root, v: &Value, way: &Way<'_>) -> Result<Request, Bad>
    ensures { Gives (λ r. r) result (add_target_at root.now (json v.now) (place_of way.now)) }
{
    only(alloc, v, &ADD_TARGET_MEMBERS, way)?;
    let id = read_target_id(alloc, v, way)?;
    let (name, content) = one_of(alloc, v, &TARGET_MEMBERS, way)?;
    let target = read_target(alloc, root, name, content, way)?;
    add_target(alloc, root, id, target, v, way)
}

// Puts a target together with the token beside it.
fn add_target(
    alloc: Global,
    root: &Root,
    id: u32,
    target: Target,
    v: &Value,
    way: &Way<'_>,
) -> Result<Request, Bad>
    ensures { Gives (λ r. r) result (added_at root.now id target (json v.now) (place_of way.now)) }
{
    match read_beside(alloc, root, v, way) {
        Ok((database, token)) => Ok(Request::AddTarget {
            database,
            id,
            target,
            token,
        }),
        Err(bad) => {
            drop(target);
            Err(bad)
        }
    }
}

// The database, and the token that a target is resumed with.
fn read_beside(
    alloc: Global,
    root: &Root,
    v: &Value,
    way: &Way<'_>,
) -> Result<(Root, Option<Bytes>), Bad>
    ensures { Gives {Y = Rooted × Option (List ℕ)} (λ b. b) result
        (beside_target_at root.now (json v.now) (place_of way.now)) }
{
    let token = read_bytes_of(alloc, v, RESUME_TOKEN, way)?;
    match pass_ignored(alloc, root, v, way) {
        Ok(database) => Ok((database, token)),
        Err(bad) => {
            drop(token);
            Err(bad)
        }
    }
}

// How many documents are expected is ignored, and two members aren't built.
fn pass_ignored(alloc: Global, root: &Root, v: &Value, way: &Way<'_>) -> Result<Root, Bad>
    ensures { Gives {Y = Rooted} (λ r. r) result
        (ignored_at root.now (json v.now) (place_of way.now)) }
{
    read_small_of(alloc, v, EXPECTED_COUNT, way)?;
    refuse_unbuilt(alloc, v, &UNBUILT_OF_TARGET, way)?;
    Ok(root.copy(alloc)?)
}

/// Reads the id of a target, which is at least 1.
fn read_target_id(alloc: Global, v: &Value, way: &Way<'_>) -> Result<u32, Bad>
    ensures { Gives (λ n. n) result (required_as target_id_at (codes "targetId") (json v.now) (place_of way.now)) }
{
    let id = required(alloc, v, TARGET_ID, way)?;
    some_number(alloc, id, &way.member(TARGET_ID))
}

fn some_number(alloc: Global, v: &Value, way: &Way<'_>) -> Result<u32, Bad>
    ensures { Gives (λ n. n) result (target_id_at (json v.now) (place_of way.now)) }
{
    let number = read_number(alloc, v, way)?;
    if number == 0 {
        Err(Bad::at(alloc, Rule::G, way))
    } else {
        Ok(number)
    }
}

// Reads what a target is, by the name that it stands under, behind the way.
fn read_target(
    alloc: Global,
    root: &Root,
    name: &str,
    v: &Value,
    way: &Way<'_>,
) -> Result<Target, Bad>
    ensures { Gives (λ t. t) result
        (target_at root.now name.now (json v.now) (member_place (place_of way.now) name.now)) }
{
    match name {
        QUERY => read_query_target(alloc, root, v, &way.member(name)),
        _ => read_documents_target(alloc, root, v, &way.member(name)),
    }
}

/// Reads a query that is listened to, as it is walked. (`Target.QueryTarget`.)
#[tactic(auto, unfolding(crate::specs::ReadTargets::query_target_at))]
fn read_query_target(alloc: Global, root: &Root, v: &Value, way: &Way<'_>) -> Result<Target, Bad>
    ensures { Gives (λ t. t) result (query_target_at root.now (json v.now) (place_of way.now)) }
{
    only(alloc, v, &QUERY_TARGET_MEMBERS, way)?;
    let parent = required(alloc, v, PARENT, way)?;
    let parent = read_parent(alloc, root, parent, &way.member(PARENT))?;
    let structured = required(alloc, v, STRUCTURED_QUERY, way)?;
    let query = walk_listened(alloc, &parent, structured, &way.member(STRUCTURED_QUERY))?;
    Ok(Target::Query(query))
}

/// Reads the names of documents that are listened to, each once. There has to be one. (`Target.DocumentsTarget`.)
#[tactic(auto, unfolding(crate::specs::ReadTargets::documents_target_at))]
fn read_documents_target(
    alloc: Global,
    root: &Root,
    v: &Value,
    way: &Way<'_>,
) -> Result<Target, Bad>
    ensures { Gives (λ t. t) result (documents_target_at root.now (json v.now) (place_of way.now)) }
{
    only(alloc, v, &DOCUMENTS_TARGET_MEMBERS, way)?;
    let list = required(alloc, v, DOCUMENTS, way)?;
    let names = read_names(alloc, root, list, &way.member(DOCUMENTS))?;
    let names = some_names(alloc, names, &way.member(DOCUMENTS))?;
    Ok(Target::Documents(names))
}

fn some_names(alloc: Global, names: Names, way: &Way<'_>) -> Result<Names, Bad>
    ensures { Gives (λ ns. ns) result (some_names (place_of way.now) names) }
{
    if names.is_empty() {
        drop(names);
        Err(Bad::at(alloc, Rule::G, way))
    } else {
        Ok(names)
    }
}

// ---- what stands beside a target

// Bytes that may be absent.
fn read_bytes_of(alloc: Global, v: &Value, name: &str, way: &Way<'_>) -> Result<Option<Bytes>, Bad>
    ensures { Gives {Y = Option (List ℕ)} (λ b. b) result
        (member_or None (λ x p. made Some (token_at x p)) name.now (json v.now) (place_of way.now)) }
{
    match member(alloc, v, name, way)? {
        Some(bytes) => Ok(Some(read_bytes(alloc, bytes, &way.member(name))?)),
        None => Ok(None),
    }
}

// A number of 32 bits, its sign included, that may be absent.
fn read_small_of(alloc: Global, v: &Value, name: &str, way: &Way<'_>) -> Result<Option<i32>, Bad>
    ensures { Gives {Y = Option ℤ} (λ n. n) result
        (member_or None (λ x p. made Some (small_at x p)) name.now (json v.now) (place_of way.now)) }
{
    match member(alloc, v, name, way)? {
        Some(number) => Ok(Some(read_small(alloc, number, &way.member(name))?)),
        None => Ok(None),
    }
}

// Labels have to be texts, and are ignored.
pub(crate) fn read_labels(alloc: Global, v: &Value, way: &Way<'_>) -> Result<(), Bad>
    ensures { Gives (λ u. u) result (labels_in (json v.now) (place_of way.now)) }
{
    match member(alloc, v, LABELS, way)? {
        Some(labels) => read_texts(alloc, labels, &way.member(LABELS)),
        None => Ok(()),
    }
}

fn read_texts(alloc: Global, v: &Value, way: &Way<'_>) -> Result<(), Bad>
    ensures { Gives (λ u. u) result (labels_at (json v.now) (place_of way.now)) }
{
    match v {
        Value::Object(members) => read_members(alloc, members, way),
        _ => Err(Bad::at(alloc, Rule::G, way)),
    }
}

// Refuses a member that is no text.
fn read_members(alloc: Global, members: &Map<String, Value>, way: &Way<'_>) -> Result<(), Bad>
    ensures { Gives (λ u. u) result (texts_at (members_view members.now.entries) (place_of way.now)) }
{
    for (key, v) in members.iter() {
        if v.as_str().is_none() {
            return Err(Bad::at(alloc, Rule::G, &way.member(key.as_str())));
        }
    }
    Ok(())
}
