//! Reads and writes documents.
ghost use Rattle.std.specs.Prelude.{◌≡◌, ℕ, List, false, Ok, IfOk, OnOk};
ghost use Rattle.fs_path.specs.Document.{IsDocumentOf};
ghost use Rattle.fs_path.specs.Way.{place_of};
ghost use Rattle.fs_path.specs.declared.name.Root.{Root};
ghost use Rattle.fs_value.specs.Data.{members_of};
ghost use Rattle.serde_json.specs.Written.{has_float};
ghost use Rattle.serde_json.specs.View.{view as json, members_view};
ghost use Rattle.fs_json.specs.Answer.{Gives};
ghost use Rattle.fs_valjson.specs.Document.{Content as Told, content_at, document_at, update_json, untimed, fields_in, time_in};
ghost use Rattle.fs_valjson.specs.Steps.{with_fields_put};
ghost use Rattle.fs_valjson.specs.Valid.{IsValid};
ghost use Rattle.fs_valjson.specs.Writing.{MembersHaveNames};

use crate::names::{CREATE_TIME, DOCUMENT_MEMBERS, FIELDS, NAME, UPDATE_TIME};
use crate::read::read_fields;
use crate::write::write_members;
use fs_json::{Bad, member, only, read_document_name, read_optional_time, required};
use fs_path::{DocName, Root, Way, print_document};
use fs_time::Micros;
use fs_value::{Document, Fields, SharedFields};
use serde_json::{Map, Value};
use std::alloc::{AllocError, Global};

/// Reads a document of this root. Fields that are absent are none, and a time that is absent is 1970-01-01T00:00:00Z,
/// as `google.protobuf.Timestamp` has it: a document in a write has no times.
#[tactic(auto, unfolding(crate::specs::Document::document_at))]
pub fn read_document(alloc: Global, root: &Root, v: &Value, way: &Way<'_>) -> Result<Document, Bad>
    ensures gives { Gives (λ d. d) result (document_at root.now (json v.now) (place_of way.now)) }

    // It is a document of the root, and its references are names of documents.
    ensures valid { IfOk result (λ d. IsValid root.now d) }
{
    only(alloc, v, &DOCUMENT_MEMBERS, way)?;
    let name = required(alloc, v, NAME, way)?;
    let name = read_document_name(alloc, root, name, &way.member(NAME))?;
    match read_content(alloc, v, way) {
        Ok(content) => Ok(Document {
            name,
            fields: content.fields,
            created: content.created,
            updated: content.updated,
        }),
        Err(bad) => {
            drop(name);
            Err(bad)
        }
    }
}

/// What a document has beside its name.
#[derive(Drop)]
struct Content {
    fields: SharedFields,
    created: Micros,
    updated: Micros,
}

fn read_content(alloc: Global, v: &Value, way: &Way<'_>) -> Result<Content, Bad>
    ensures { Gives {Y = Told} (λ c. record { fields = c.fields; created = c.created; updated = c.updated }) result
        (content_at (json v.now) (place_of way.now)) }
{
    let fields = read_fields_of(alloc, v, way)?;
    let fields = SharedFields::of(alloc, fields)?;
    let created = read_time_of(alloc, v, CREATE_TIME, way)?;
    let updated = read_time_of(alloc, v, UPDATE_TIME, way)?;
    Ok(Content {
        fields,
        created,
        updated,
    })
}

fn read_fields_of(alloc: Global, v: &Value, way: &Way<'_>) -> Result<Fields, Bad>
    ensures { Gives (λ fs. fs) result (fields_in (json v.now) (place_of way.now)) }
{
    match member(alloc, v, FIELDS, way)? {
        Some(fields) => read_fields(alloc, fields, &way.member(FIELDS)),
        None => Ok(Fields::new(alloc)),
    }
}

fn read_time_of(alloc: Global, v: &Value, name: &str, way: &Way<'_>) -> Result<Micros, Bad>
    ensures { Gives (λ t. t) result (time_in name.now (json v.now) (place_of way.now)) }
{
    match read_optional_time(alloc, v, name, way)? {
        Some(time) => Ok(time),
        None => Ok(Micros::new(0).unwrap()),
    }
}

/// Writes a document as an update has it: its name and its fields, which are left out where they are none, and no times.
pub fn write_update(alloc: Global, name: &DocName, fields: &Fields) -> Result<Value, AllocError>
    ensures value { IfOk result (λ j. json j ≡ update_json name.now fields.now) }
    ensures no_float { IfOk result (λ j. has_float (json j) ≡ false) }

    // Where it is a document of the root, and its references are names of documents, it is read back, at any place. The
    // times that it hasn't are read as the first moment of 1970.
    ensures reads_back { IfOk result (λ j. (root : Root) (place : List ℕ) → IsDocumentOf root name.now
        → MembersHaveNames (members_of fields.now) → document_at root (json j) place ≡ Ok (untimed name.now fields.now)) }
{
    let mut members = Map::new(alloc);
    let written = write_members(alloc, fields)?;
    put_fields(alloc, &mut members, written)?;
    let name = print_document(alloc, name)?.into_string();
    serde_json::put(&mut members, alloc, NAME, Value::String(name))?;
    Ok(Value::Object(members))
}

/// Puts in the fields, where there are any.
fn put_fields(
    alloc: Global,
    members: &mut Map<String, Value>,
    fields: Map<String, Value>,
) -> Result<(), AllocError>
    ensures { OnOk result (members_view members.new.entries
        ≡ with_fields_put (members_view fields.entries) (members_view members.old.entries)) }
{
    if fields.is_empty() {
        return Ok(());
    }
    serde_json::put(members, alloc, FIELDS, Value::Object(fields))
}
