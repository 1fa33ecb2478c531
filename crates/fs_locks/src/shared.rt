//! What transactions hold shared.
ghost use Rattle.std.specs.Prelude.{◌≡◌, ◌++◌, OnOk, OnErr, IfErr, length, take, ◌-◌};
ghost use Rattle.std.specs.List.Sorted.{IsStrictlySortedBy};
ghost use Rattle.std.specs.Map.{keys_of};
ghost use Rattle.std.specs.Option.{IfSome, option_map, option_to_list};
ghost use Rattle.std.specs.Ordering.{nat_cmp};
ghost use Rattle.fs_locks.specs.Marks.{IsMarked};
ghost use Rattle.fs_locks.specs.Shares.{shared_by, with_share, without_last_share};

use crate::cut::collection_of;
use crate::held::Held;
use crate::index::Index;
use crate::least::lesser;
use crate::reads::{Noted, Reads};
use crate::share::Share;
use crate::tree::{first_at, is_held};
use fs_path::{DocName, Names};
use fs_status::Id;
use std::alloc::{AllocError, Global};
use std::collections::BTreeMap;
use std::collections::btree_map::Entry;
use std::marker::Model;

/// The shared holds. Contracts see what each id has read, by rising ids, and the index is no part of that.
///
///     2 holds c/a, and the collection x below c/a; 5 holds the group x below the root
///         by id: 2: c/a, collection c/a x       index: names: c/a: 2
///                5: group x                            collections: x: below c/a: 2
///                                                      groups: x: below the root: 5
///
/// (docs/DECISIONS.md, "A shared hold stands twice".)
#[derive(Drop)]
pub(crate) struct Shared {
    index: Index,
    by_id: BTreeMap<Id, Reads>,
}

impl Model for Shared {
    ghost use Rattle.fs_locks.specs.Shares.{Shares, shares_code};

    ghost Value = { Shares };

    ghost coded = { shares_code };

    ghost use Rattle.fs_locks.specs.Marks.{HoldSomething};
    ghost use Rattle.fs_locks.specs.Spots.{IsIndex};

    ghost view = { λ s. s.by_id.entries };

    ghost invariant = { λ s. IsIndex s.index s.by_id.entries × HoldSomething s.by_id.entries };
}

impl Shared {
    ghost use Rattle.std.specs.Prelude.{◌≡◌, ◌&&◌, ◌==◌, ℕ, [], IsTrue, OnOk, OnErr, not};
    ghost use Rattle.std.specs.List.{list_any};
    ghost use Rattle.fs_path.specs.declared.name.DocName.{DocName};
    ghost use Rattle.fs_locks.specs.Holds.{IsLeastOther};
    ghost use Rattle.fs_locks.specs.Shares.{is_shared, with_share, without_last_share, without_shares};

    pub(crate) fn new(alloc: Global) -> Shared
        ensures { result ≡ [] }
    {
        Shared {
            index: Index::new(alloc),
            by_id: BTreeMap::new(alloc),
        }
    }

    // From now on an id holds what it has read, beside what it held. Where memory runs out, nothing is changed.
    pub(crate) fn hold(&mut self, alloc: Global, id: Id, held: Held) -> Result<(), AllocError>
        ensures ok { OnOk result (self.new ≡ with_share self.old id held) }
        ensures back { OnOk result (without_last_share self.new id ≡ self.old) }
        ensures err { OnErr result (self.new ≡ self.old) }
    {
        let share = Share::new(alloc, held)?;
        let again = self.index.has(&share, id);
        self.index.put(alloc, &share, id)?;
        if let Err(noted) = note(alloc, &mut self.by_id, id, Noted { share, again }) {
            if !again {
                self.index.take(&noted.share, id);
            }
            return Err(AllocError);
        }
        Ok(())
    }

    // What an id came to hold last is taken back. It takes no memory.
    pub(crate) fn take_back(&mut self, id: Id)
        ensures { self.new ≡ without_last_share self.old id }
    {
        if let Some(noted) = take_last(&mut self.by_id, id) {
            if !noted.again {
                self.index.take(&noted.share, id);
            }
        }
    }

    // Whether a name touches what an id holds. It takes no memory.
    pub(crate) fn is_touched(&self, id: Id, name: &DocName) -> bool
        ensures { result ≡ is_shared self.now id name.now }
    {
        if is_held(&self.index.names, name, id) {
            return true;
        }
        match collection_of(name) {
            Some((path, last)) => self.index.has_over(path, last, id),
            None => false,
        }
    }

    // The least id other than `by` with a hold that one of these names touches. It takes no memory.
    pub(crate) fn conflict(&self, names: &Names, by: Id) -> Option<Id>
        ensures { IsLeastOther (λ i. IsTrue (list_any (is_shared self.now i) names.now)) by result }
    {
        let mut first = None;
        for name in names.as_slice() {
            first = lesser(first, self.first_touched(name, by));
        }
        first
    }

    // The least other id with a hold that a name touches.
    fn first_touched(&self, name: &DocName, by: Id) -> Option<Id>
        ensures { IsLeastOther (λ i. IsTrue (is_shared self.now i name.now)) by result }
    {
        let first = first_at(&self.index.names, name, by);
        match collection_of(name) {
            Some((path, id)) => lesser(first, self.index.first_over(path, id, by)),
            None => first,
        }
    }

    // An id holds nothing any more. It takes no memory.
    pub(crate) fn release_all(&mut self, id: Id)
        ensures left { self.new ≡ without_shares self.old id }
        ensures others { (i : ℕ) (n : DocName) → is_shared self.new i n ≡ (not (i == id) && is_shared self.old i n) }
    {
        if let Some(reads) = self.by_id.remove(&id) {
            self.index.take_all(reads.as_slice(), id);
        }
    }
}

// Notes what an id has read. Where memory runs out, it is given back, and nothing is noted.
fn note(alloc: Global, by_id: &mut BTreeMap<Id, Reads>, id: Id, noted: Noted) -> Result<(), Noted>
    requires { IsMarked (shared_by id by_id.old.entries) noted.share noted.again }
    ensures ok { OnOk result (by_id.new.entries ≡ with_share by_id.old.entries id noted.share) }
    ensures err { OnErr result (by_id.new.entries ≡ by_id.old.entries) }
    ensures back { IfErr result (λ n. n ≡ noted) }
    ensures rising { OnOk result (IsStrictlySortedBy nat_cmp (keys_of by_id.old.entries)) }
{
    let Ok(entry) = by_id.entry(id) else {
        return Err(noted);
    };
    match entry {
        Entry::Occupied(found) => found.into_mut().push(noted),
        Entry::Vacant(free) => {
            let mut reads = Reads::new(alloc);
            reads.push(noted)?;
            free.insert(reads);
            Ok(())
        }
    }
}

// Takes out what an id has read last, and the id where it holds nothing more.
fn take_last(by_id: &mut BTreeMap<Id, Reads>, id: Id) -> Option<Noted>
    ensures left { by_id.new.entries ≡ without_last_share by_id.old.entries id }
    ensures last { shared_by id by_id.old.entries ≡ take (length (shared_by id by_id.old.entries) - 1) (shared_by id by_id.old.entries) ++ option_to_list (option_map (λ n. n.share) result) }
    ensures marked { IfSome result (λ n. IsMarked (take (length (shared_by id by_id.old.entries) - 1) (shared_by id by_id.old.entries)) n.share n.again) }
    ensures rising { IsStrictlySortedBy nat_cmp (keys_of by_id.old.entries) }
{
    let reads = by_id.get_mut(&id)?;
    let last = reads.pop();
    if reads.is_empty() {
        by_id.remove(&id);
    }
    last
}
