//! Writes writes.
ghost use Rattle.std.specs.Prelude.{◌≡◌, ℕ, List, false, Ok, IfOk, OnOk, codes};
ghost use Rattle.fs_path.specs.declared.name.Root.{Root};
ghost use Rattle.serde_json.specs.Data.{put};
ghost use Rattle.serde_json.specs.View.{members_view, view as json};
ghost use Rattle.serde_json.specs.Written.{has_float};
ghost use Rattle.fs_json.specs.Members.{with_one};
ghost use Rattle.fs_writejson.specs.Rules.{write_at};
ghost use Rattle.fs_writejson.specs.Held.{IsActHeld, IsConditionHeld};
ghost use Rattle.fs_writejson.specs.Steps.{with_act_put, with_condition_put};
ghost use Rattle.fs_writejson.specs.Valid.{IsWriteOf};
ghost use Rattle.fs_writejson.specs.Written.{write_json};

use crate::mask::write_mask;
use crate::names::{CURRENT_DOCUMENT, DELETE, EXISTS, UPDATE, UPDATE_MASK, UPDATE_TIME};
use crate::write_transform::put_transforms;
use fs_json::write_time;
use fs_path::print_document;
use fs_valjson::write_update;
use fs_write::{Act, Precondition, Write};
use serde_json::{Map, Value};
use std::alloc::{AllocError, Global};

/// Writes a write. A mask is there also where it is empty, and a precondition and transforms only where there are some.
/// (v1 reference, "Write".)
pub fn write_write(alloc: Global, write: &Write) -> Result<Value, AllocError>
    ensures value { IfOk result (λ j. json j ≡ write_json write.now) }

    // It has no float, so what is printed of it is told byte for byte.
    ensures no_float { IfOk result (λ j. has_float (json j) ≡ false) }

    // Where it writes a document of the root, its references are names of documents, and it breaks no rule, it is read
    // back as the same write, at any place.
    ensures reads_back { IfOk result (λ j. (root : Root) (place : List ℕ) → IsWriteOf root write.now
        → write_at root (json j) place ≡ Ok write.now) }
{
    let mut members = Map::new(alloc);
    put_act(alloc, &mut members, &write.act)?;
    put_transforms(alloc, &mut members, &write.transforms)?;
    put_condition(alloc, &mut members, write.condition)?;
    Ok(Value::Object(members))
}

fn put_act(alloc: Global, members: &mut Map<String, Value>, act: &Act) -> Result<(), AllocError>
    ensures value { OnOk result (members_view members.new.entries
        ≡ with_act_put act.now (members_view members.old.entries)) }
    ensures held { OnOk result (IsActHeld act.now) }
{
    match act {
        Act::Set { name, fields } => {
            let update = write_update(alloc, name, fields.as_fields())?;
            serde_json::put(members, alloc, UPDATE, update)
        }
        Act::Merge { name, fields, mask } => {
            let update = write_update(alloc, name, fields.as_fields())?;
            serde_json::put(members, alloc, UPDATE, update)?;
            serde_json::put(members, alloc, UPDATE_MASK, write_mask(alloc, mask)?)
        }
        Act::Delete { name } => {
            let name = print_document(alloc, name)?.into_string();
            serde_json::put(members, alloc, DELETE, Value::String(name))
        }
    }
}

fn put_condition(
    alloc: Global,
    members: &mut Map<String, Value>,
    condition: Precondition,
) -> Result<(), AllocError>
    ensures value { OnOk result (members_view members.new.entries
        ≡ with_condition_put condition (members_view members.old.entries)) }
    ensures held { OnOk result (IsConditionHeld condition) }
{
    match condition {
        Precondition::None => Ok(()),
        Precondition::Exists(there) => put_one(alloc, members, EXISTS, Value::Bool(there)),
        Precondition::UpdateTime(time) => {
            put_one(alloc, members, UPDATE_TIME, write_time(alloc, time)?)
        }
    }
}

/// Puts in a precondition of this one member.
fn put_one(
    alloc: Global,
    members: &mut Map<String, Value>,
    name: &str,
    content: Value,
) -> Result<(), AllocError>
    ensures { OnOk result (members_view members.new.entries
        ≡ put (codes "currentDocument") (with_one name.now (json content)) (members_view members.old.entries)) }
{
    let mut inside = Map::new(alloc);
    serde_json::put(&mut inside, alloc, name, content)?;
    serde_json::put(members, alloc, CURRENT_DOCUMENT, Value::Object(inside))
}
