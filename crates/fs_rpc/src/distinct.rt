//! Names of documents, each once.
ghost use Rattle.std.specs.Prelude.{◌≡◌, IfOk};
ghost use Rattle.fs_path.specs.Way.{place_of};
ghost use Rattle.serde_json.specs.View.{items_view, view as json};
ghost use Rattle.fs_json.specs.Answer.{Gives};
ghost use Rattle.fs_rpc.specs.Requests.{each_once_at, names_at};

use fs_json::{Bad, read_document_name, read_json_list};
use fs_path::{DocName, Names, Root, Way};
use indexmap::IndexSet;
use serde_json::Value;
use std::alloc::{AllocError, Global};

/// The names of a list, each once, where it stands first:
///
///     c/z, c/a, c/z    are    c/z, c/a
pub fn read_names(alloc: Global, root: &Root, v: &Value, way: &Way<'_>) -> Result<Names, Bad>
    ensures { Gives (λ ns. ns) result (names_at root.now (json v.now) (place_of way.now)) }
{
    let items = read_json_list(alloc, v, way)?;
    let seen = read_items(alloc, root, items, way)?;
    Ok(Names::of(in_order(alloc, seen)?))
}

fn read_items(
    alloc: Global,
    root: &Root,
    items: &[Value],
    way: &Way<'_>,
) -> Result<IndexSet<DocName>, Bad>
    ensures { Gives (λ s. s.keys) result (each_once_at root.now (items_view items.now) 0 (place_of way.now)) }
{
    let mut seen = IndexSet::new(alloc);
    for (i, item) in items.iter().enumerate() {
        let name = read_document_name(alloc, root, item, &way.item(i as u64))?;
        seen.insert(name)?;
    }
    Ok(seen)
}

fn in_order(alloc: Global, seen: IndexSet<DocName>) -> Result<Vec<DocName>, AllocError>
    ensures { IfOk result (λ v. v.items ≡ seen.keys) }
{
    let mut names = Vec::with_capacity(alloc, seen.len())?;
    for name in seen {
        names.push(name)?;
    }
    Ok(names)
}
