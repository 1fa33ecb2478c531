//! How the names that an id takes come in.
ghost use Rattle.std.specs.Prelude.{◌≡◌, OnOk, OnErr};
ghost use Rattle.fs_locks.specs.Tree.{SameBut, HasMore, TakesMore, SameTaken};

use crate::holders::Holders;
use crate::taken::Taken;
use crate::tree::put_all;
use fs_path::DocName;
use fs_status::Id;
use std::alloc::{AllocError, Global};
use std::collections::BTreeMap;

// Notes the names that an id has taken.
fn note(
    alloc: Global,
    by_id: &mut BTreeMap<Id, Taken>,
    id: Id,
    names: &mut Vec<DocName>,
) -> Result<(), AllocError>
    ensures ok { OnOk result (TakesMore by_id.old.entries by_id.new.entries id names.old.items) }
    ensures err { OnErr result (SameTaken by_id.old.entries by_id.new.entries) }
    ensures stay { OnErr result (names.new.items ≡ names.old.items) }
{
    let room = Taken::with_room(alloc, names.len())?;
    let taken = by_id.entry(id)?.or_insert(room);
    taken.append(names)?;
    Ok(())
}

// Puts in names that an id holds from now on. Where memory runs out, some of them may be in the tree of names, and none is noted.
pub(crate) fn put_new(
    alloc: Global,
    by_name: &mut BTreeMap<DocName, Holders>,
    by_id: &mut BTreeMap<Id, Taken>,
    id: Id,
    names: &mut Vec<DocName>,
) -> Result<(), AllocError>
    ensures more { OnOk result (HasMore by_name.old.entries by_name.new.entries id names.old.items) }
    ensures noted { OnOk result (TakesMore by_id.old.entries by_id.new.entries id names.old.items) }
    ensures some { OnErr result (SameBut by_name.old.entries by_name.new.entries id names.old.items) }
    ensures same { OnErr result (SameTaken by_id.old.entries by_id.new.entries) }
    ensures stay { OnErr result (names.new.items ≡ names.old.items) }
{
    put_all(alloc, by_name, names.as_slice(), id)?;
    note(alloc, by_id, id, names)
}
