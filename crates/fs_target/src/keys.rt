//! The names that a map has.
ghost use Rattle.std.specs.Prelude.{◌≡◌, IsSome, IsTrue, OnOk};
ghost use Rattle.std.specs.BTreeMap.{get};
ghost use Rattle.std.specs.BTreeSet.{contains};
ghost use Rattle.fs_path.specs.NameOrder.{name_cmp};
ghost use Rattle.fs_path.specs.declared.name.DocName.{DocName};

use fs_path::DocName;
use std::alloc::{AllocError, Global};
use std::collections::{BTreeMap, BTreeSet};

/// Adds the names that a map has.
pub(crate) fn add_keys<V>(
    alloc: Global,
    map: &BTreeMap<DocName, V>,
    names: &mut BTreeSet<DocName>,
) -> Result<(), AllocError>
    ensures kept { (name : DocName) → IsTrue (contains name_cmp names.old name) → IsTrue (contains name_cmp names.new name) }
    ensures added { OnOk result ((name : DocName) → IsSome (get name_cmp map.now name) → IsTrue (contains name_cmp names.new name)) }
{
    for name in map.keys() {
        names.insert(name.copy(alloc)?)?;
    }
    Ok(())
}
