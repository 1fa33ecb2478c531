//! Lists that are left out where they are empty.
ghost use Rattle.std.specs.Prelude.{◌≡◌, OnOk};
ghost use Rattle.serde_json.specs.View.{items_view, members_view};
ghost use Rattle.fs_rpc.specs.Steps.{with_list_put};

use serde_json::{Map, Value};
use std::alloc::{AllocError, Global};

/// Puts in a list under this name, where it has items.
pub(crate) fn put_list(
    alloc: Global,
    members: &mut Map<String, Value>,
    name: &str,
    items: Vec<Value>,
) -> Result<(), AllocError>
    ensures { OnOk result (members_view members.new.entries
        ≡ with_list_put name.now (items_view items.items) (members_view members.old.entries)) }
{
    if items.is_empty() {
        return Ok(());
    }
    serde_json::put(members, alloc, name, Value::Array(items))
}
