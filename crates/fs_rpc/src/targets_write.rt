//! Writes the requests of a session that listens.
ghost use Rattle.std.specs.Prelude.{◌≡◌, IfOk, IfSome, OnOk};
ghost use Rattle.serde_json.specs.View.{members_view, view as json};
ghost use Rattle.fs_json.specs.Base64.{bytes_json};
ghost use Rattle.fs_rpc.specs.ListenJson.{number_json};
ghost use Rattle.fs_rpc.specs.MessageSteps.{IsTokenHeld};
ghost use Rattle.fs_rpc.specs.RequestJson.{add_target_json, documents_target_json, listen_add_json, listen_remove_json, query_target_json};
ghost use Rattle.fs_rpc.specs.RequestSteps.{IsNumberHeld, IsQueryHeld, IsTargetHeld, with_target_put, with_token_put};

use crate::names::{
    ADD_TARGET, DATABASE, DOCUMENTS, PARENT, QUERY, REMOVE_TARGET, RESUME_TOKEN, STRUCTURED_QUERY,
    TARGET_ID,
};
use crate::request_write::{database_value, parent_value, query_value, write_names};
use fs_json::{write_bytes, write_small};
use fs_path::{Bytes, DocName, Root};
use fs_query::{Query, Target};
use serde_json::{Map, Value};
use std::alloc::{AllocError, Global};

/// Writes a `ListenRequest` that adds a target.
pub(crate) fn write_listen_add(
    alloc: Global,
    database: &Root,
    id: u32,
    target: &Target,
    token: &Option<Bytes>,
) -> Result<Value, AllocError>
    ensures value { IfOk result (λ v. json v ≡ listen_add_json database.now id target.now token.now) }
    ensures held { OnOk result (IsTargetHeld target.now × IfSome token.now IsTokenHeld) }
{
    let mut members = Map::new(alloc);
    let added = add_target_value(alloc, database, id, target, token)?;
    serde_json::put(&mut members, alloc, ADD_TARGET, added)?;
    let database = database_value(alloc, database)?;
    serde_json::put(&mut members, alloc, DATABASE, database)?;
    Ok(Value::Object(members))
}

/// Writes one that removes a target.
pub(crate) fn write_listen_remove(
    alloc: Global,
    database: &Root,
    id: i32,
) -> Result<Value, AllocError>
    ensures value { IfOk result (λ v. json v ≡ listen_remove_json database.now id) }
    ensures held { OnOk result (IsNumberHeld id) }
{
    let mut members = Map::new(alloc);
    let database = database_value(alloc, database)?;
    serde_json::put(&mut members, alloc, DATABASE, database)?;
    serde_json::put(&mut members, alloc, REMOVE_TARGET, write_small(id))?;
    Ok(Value::Object(members))
}

// A target with its id, and its token, where it has one.
fn add_target_value(
    alloc: Global,
    database: &Root,
    id: u32,
    target: &Target,
    token: &Option<Bytes>,
) -> Result<Value, AllocError>
    ensures value { IfOk result (λ v. json v ≡ add_target_json database.now id target.now token.now) }
    ensures held { OnOk result (IsTargetHeld target.now × IfSome token.now IsTokenHeld) }
{
    let mut members = Map::new(alloc);
    put_target(alloc, &mut members, database, target)?;
    put_token(alloc, &mut members, token)?;
    serde_json::put(&mut members, alloc, TARGET_ID, number_value(id))?;
    Ok(Value::Object(members))
}

/// Puts in what is listened to, under its kind's name.
fn put_target(
    alloc: Global,
    members: &mut Map<String, Value>,
    database: &Root,
    target: &Target,
) -> Result<(), AllocError>
    ensures value { OnOk result (members_view members.new.entries
        ≡ with_target_put database.now target.now (members_view members.old.entries)) }
    ensures held { OnOk result (IsTargetHeld target.now) }
{
    match target {
        Target::Query(query) => {
            let written = query_target_value(alloc, database, query)?;
            serde_json::put(members, alloc, QUERY, written)
        }
        Target::Documents(names) => {
            let written = documents_target_value(alloc, names.as_slice())?;
            serde_json::put(members, alloc, DOCUMENTS, written)
        }
    }
}

fn query_target_value(alloc: Global, database: &Root, query: &Query) -> Result<Value, AllocError>
    ensures value { IfOk result (λ v. json v ≡ query_target_json database.now query.now) }
    ensures held { OnOk result (IsQueryHeld query.now) }
{
    let mut members = Map::new(alloc);
    let structured = query_value(alloc, query)?;
    serde_json::put(&mut members, alloc, STRUCTURED_QUERY, structured)?;
    let parent = parent_value(alloc, database, &query.scope)?;
    serde_json::put(&mut members, alloc, PARENT, parent)?;
    Ok(Value::Object(members))
}

fn documents_target_value(alloc: Global, names: &[DocName]) -> Result<Value, AllocError>
    ensures { IfOk result (λ v. json v ≡ documents_target_json names.now) }
{
    let mut members = Map::new(alloc);
    let names = write_names(alloc, names)?;
    serde_json::put(&mut members, alloc, DOCUMENTS, Value::Array(names))?;
    Ok(Value::Object(members))
}

fn number_value(number: u32) -> Value
    ensures { json result ≡ number_json number }
{
    Value::from(number)
}

/// Puts in a token, where there is one. One without bytes is there too.
fn put_token(
    alloc: Global,
    members: &mut Map<String, Value>,
    token: &Option<Bytes>,
) -> Result<(), AllocError>
    ensures value { OnOk result (members_view members.new.entries
        ≡ with_token_put token.now (members_view members.old.entries)) }
    ensures held { OnOk result (IfSome token.now IsTokenHeld) }
{
    match token {
        Some(token) => {
            let written = token_value(alloc, token)?;
            serde_json::put(members, alloc, RESUME_TOKEN, written)
        }
        None => Ok(()),
    }
}

fn token_value(alloc: Global, token: &Bytes) -> Result<Value, AllocError>
    ensures value { IfOk result (λ j. json j ≡ bytes_json token.now) }
    ensures held { OnOk result (IsTokenHeld token.now) }
{
    write_bytes(alloc, token)
}
