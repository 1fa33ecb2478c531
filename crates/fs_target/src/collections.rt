//! The collections that targets listen to.
ghost use Rattle.std.specs.Prelude.{◌≡◌, IfOk, IsTrue, OnOk, map};
ghost use Rattle.std.specs.BTreeSet.{contains_text};
ghost use Rattle.std.specs.List.{AllByRecursion};
ghost use Rattle.fs_path.specs.Scope.{collection_id};
ghost use Rattle.fs_target.specs.Collections.{AreKept, HasAll, HasThoseOf};
ghost use Rattle.fs_target.specs.Seen.{seen};

use crate::entry::Entry;
use fs_path::DocName;
use fs_query::Target;
use std::alloc::{AllocError, Global};
use std::collections::BTreeSet;

/// The ids of the collections that targets listen to, so that a name is looked up among them, and no target is looked at. There may be more: what
/// a removed target listened to stays until they are swept.
///
///     1 is the query of c, 2 the documents d/a and e/a    c, d, e        room for 8
///     2 is removed                                        c, d, e
///     3 to 8 are the queries of f to k                    c to k         9 are more than there is room for
///     9 is the query of l                                 c, f to k, l   room for 22, twice the 7 that were left, and 8
#[derive(Drop)]
pub(crate) struct Collections {
    // serves the copies of ids
    alloc: Global,
    pub(crate) ids: BTreeSet<String>,
    // how many there may be before the next target sweeps them
    room: usize,
}

// What there is room for beside twice as many as a sweep has left.
const SPARE: usize = 8;

// The id of the collection that a document is in.
fn collection_id(name: &DocName) -> &str
    ensures { result.now ≡ collection_id name.now }
{
    let count = name.len();
    if count == 0 {
        return "";
    }
    name.id(count.saturating_sub(2))
}

fn put_id(alloc: Global, ids: &mut BTreeSet<String>, id: &str) -> Result<(), AllocError>
    ensures kept { AreKept ids.old ids.new }
    ensures put { OnOk result (IsTrue (contains_text ids.new id.now)) }
{
    if ids.contains(id) {
        return Ok(());
    }
    ids.insert(String::from_str(alloc, id)?)?;
    Ok(())
}

// Puts in the collection of each name.
fn put_names(alloc: Global, ids: &mut BTreeSet<String>, names: &[DocName]) -> Result<(), AllocError>
    ensures kept { AreKept ids.old ids.new }
    ensures put { OnOk result (AllByRecursion (λ name. IsTrue (contains_text ids.new (collection_id name))) names.now) }
{
    for name in names {
        put_id(alloc, ids, collection_id(name))?;
    }
    Ok(())
}

// Puts in the collections that a target listens to.
fn put(alloc: Global, ids: &mut BTreeSet<String>, target: &Target) -> Result<(), AllocError>
    ensures kept { AreKept ids.old ids.new }
    ensures put { OnOk result (HasThoseOf ids.new target.now) }
{
    match target {
        Target::Query(query) => put_id(alloc, ids, query.scope.id().as_str()),
        Target::Documents(names) => put_names(alloc, ids, names.as_slice()),
    }
}

// Those that entries listen to.
fn ids_of(alloc: Global, entries: &[Entry]) -> Result<BTreeSet<String>, AllocError>
    ensures { IfOk result (λ ids. HasAll ids (map seen entries.now)) }
{
    let mut ids = BTreeSet::new(alloc);
    for entry in entries {
        put(alloc, &mut ids, &entry.target)?;
    }
    Ok(ids)
}

impl Collections {
    ghost use Rattle.std.specs.Prelude.{◌≡◌, OnOk, map};
    ghost use Rattle.std.specs.BTreeSet.{IsEmpty, contains_text};
    ghost use Rattle.fs_path.specs.Scope.{collection_id};
    ghost use Rattle.fs_target.specs.Collections.{HasAll, HasThoseOf};
    ghost use Rattle.fs_target.specs.Seen.{seen};

    /// None.
    pub(crate) fn new(alloc: Global) -> Collections
        ensures { IsEmpty result.ids }
    {
        Collections {
            alloc,
            ids: BTreeSet::new(alloc),
            room: SPARE,
        }
    }

    /// Puts in those of one more target, beside those of entries. Where there are more than there is room for, they are first made anew from the
    /// entries, so that they don't grow for ever. Where memory runs out, what was put in stays.
    pub(crate) fn add(&mut self, entries: &[Entry], target: &Target) -> Result<(), AllocError>
        requires { HasAll self.old.ids (map seen entries.now) }
        ensures kept { HasAll self.new.ids (map seen entries.now) }
        ensures put { OnOk result (HasThoseOf self.new.ids target.now) }
    {
        if self.ids.len() > self.room {
            self.ids = ids_of(self.alloc, entries)?;
            self.room = self.ids.len().saturating_mul(2).saturating_add(SPARE);
        }
        put(self.alloc, &mut self.ids, target)
    }

    /// Whether the collection of a document is among them.
    pub(crate) fn have(&self, name: &DocName) -> bool
        ensures { result ≡ contains_text self.now.ids (collection_id name.now) }
    {
        self.ids.contains(collection_id(name))
    }
}
