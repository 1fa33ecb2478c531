//! Lists, read item by item.
ghost use Rattle.std.specs.Prelude.{ℕ, List, Result};
ghost use Rattle.fs_path.specs.Way.{place_of};
ghost use Rattle.serde_json.specs.Data.{Data};
ghost use Rattle.serde_json.specs.View.{items_view, view as json};
ghost use Rattle.fs_json.specs.Answer.{Gives};
ghost use Rattle.fs_json.specs.Walk.{all_at, each_at};
ghost use Rattle.fs_json.specs.declared.bad.Bad.{Bad};

use crate::bad::Bad;
use crate::scalars::read_json_list;
use fs_path::{List as Items, Way};
use serde_json::Value;
use std::alloc::Global;

/// What reads an item of a list, with what it knows besides.
pub trait ReadsItem {
    type Item: Drop;

    /// An item's JSON, at its place.
    ghost reading: { Self → Data → List ℕ → Result Self.Item Bad };

    fn read(&self, alloc: Global, item: &Value, way: &Way<'_>) -> Result<Self::Item, Bad>
        ensures { Gives (λ x. x) result (reading self.now (json item.now) (place_of way.now)) };
}

/// Reads a list, up to the first item that is at fault.
pub fn read_each<R: ReadsItem>(
    alloc: Global,
    reader: &R,
    v: &Value,
    way: &Way<'_>,
) -> Result<Items<R::Item>, Bad>
    ensures { Gives (λ xs. xs) result (all_at (R.reading reader.now) (json v.now) (place_of way.now)) }
{
    read_items(alloc, reader, read_json_list(alloc, v, way)?, way)
}

/// Reads the items of a list, up to the first that is at fault.
pub fn read_items<R: ReadsItem>(
    alloc: Global,
    reader: &R,
    items: &[Value],
    way: &Way<'_>,
) -> Result<Items<R::Item>, Bad>
    ensures { Gives (λ xs. xs) result (each_at (R.reading reader.now) (items_view items.now) 0 (place_of way.now)) }
{
    let mut found = Items::new(alloc);
    for (i, item) in items.iter().enumerate() {
        let one = reader.read(alloc, item, &way.item(i as u64))?;
        found.push(one)?;
    }
    Ok(found)
}
