//! Ids, by which an answer is told from others.
ghost use Rattle.std.specs.Prelude.{◌≡◌, ℕ, List, Option, OnOk};
ghost use Rattle.serde_json.specs.View.{members_view, view as json};
ghost use Rattle.fs_json.specs.Answer.{Gives};
ghost use Rattle.fs_rpc.specs.Id.{id_at, with_id_put};

use crate::names::ID;
use fs_json::{Bad, member, read_text, write_text};
use fs_path::{Text, Way};
use serde_json::{Map, Value};
use std::alloc::{AllocError, Global};

/// The id of a request or of its answer, which may be absent.
pub(crate) fn read_id(alloc: Global, v: &Value) -> Result<Option<Text>, Bad>
    ensures { Gives {Y = Option (List ℕ)} (λ id. id) result (id_at (json v.now)) }
{
    match member(alloc, v, ID, &Way::method(""))? {
        Some(id) => Ok(Some(read_text(alloc, id, &Way::method(ID))?)),
        None => Ok(None),
    }
}

/// Puts in the id, where there is one.
pub(crate) fn put_id(
    alloc: Global,
    members: &mut Map<String, Value>,
    id: &Option<Text>,
) -> Result<(), AllocError>
    ensures { OnOk result (members_view members.new.entries
        ≡ with_id_put id.now (members_view members.old.entries)) }
{
    match id {
        Some(id) => serde_json::put(members, alloc, ID, write_text(alloc, id)?),
        None => Ok(()),
    }
}
