//! Who holds the scopes with one collection id, by the paths below which they lie.
ghost use Rattle.std.specs.Prelude.{◌≡◌, ◌||◌, ◌&&◌, ◌==◌, ℕ, List, IsTrue, OnOk, OnErr, not};
ghost use Rattle.fs_path.specs.TextOrder.{text_eq};
ghost use Rattle.fs_locks.specs.Holds.{IsLeastOther};
ghost use Rattle.fs_locks.specs.Tree.{has};
ghost use Rattle.fs_locks.specs.Spots.{ids_under};

use crate::cut::parent_of;
use crate::holders::Holders;
use crate::least::lesser;
use fs_status::Id;
use std::alloc::{AllocError, Global};
use std::collections::BTreeMap;

/// Who holds something below the root, and below each path, as `c/a`.
#[derive(Drop)]
pub(crate) struct Parents {
    root: Holders,
    below: BTreeMap<String, Holders>,
}

// Puts in a hold below a path.
fn put(
    alloc: Global,
    tree: &mut BTreeMap<String, Holders>,
    path: &str,
    id: Id,
) -> Result<(), AllocError>
    ensures ok { OnOk result ((i : ℕ) (t : List ℕ) → has i (ids_under tree.new t) ≡ ((text_eq path.now t && i == id) || has i (ids_under tree.old t))) }
    ensures err { OnErr result ((i : ℕ) (t : List ℕ) → has i (ids_under tree.new t) ≡ has i (ids_under tree.old t)) }
{
    match tree.get_mut(path) {
        Some(holders) => holders.insert(id),
        None => {
            let mut first = Holders::new(alloc);
            first.insert(id)?;
            tree.insert(String::from_str(alloc, path)?, first)?;
            Ok(())
        }
    }
}

// Takes out a hold, and the path with it where nobody holds anything below it any more.
fn take(tree: &mut BTreeMap<String, Holders>, path: &str, id: Id)
    ensures { (i : ℕ) (t : List ℕ) → has i (ids_under tree.new t) ≡ (not (text_eq path.now t && i == id) && has i (ids_under tree.old t)) }
{
    let Some(holders) = tree.get_mut(path) else {
        return;
    };
    holders.remove(id);
    if holders.is_empty() {
        tree.remove(path);
    }
}

impl Parents {
    ghost use Rattle.std.specs.Prelude.{◌≡◌, ◌↔◌, ◌≤◌, ◌||◌, ◌&&◌, ◌==◌, ℕ, List, Option, IsTrue, OnOk, OnErr, not, false};
    ghost use Rattle.std.specs.Option.{option_copied};
    ghost use Rattle.fs_path.specs.Cursor.{rest_segments};
    ghost use Rattle.fs_locks.specs.Holds.{IsLeastOther};
    ghost use Rattle.fs_locks.specs.Tree.{has};
    ghost use Rattle.fs_locks.specs.Paths.{path_eq};
    ghost use Rattle.fs_locks.specs.Spots.{under, HoldsAbove};

    pub(crate) fn new(alloc: Global) -> Parents
        ensures { (i : ℕ) (t : Option (List ℕ)) → has i (under result t) ≡ false }
    {
        Parents {
            root: Holders::new(alloc),
            below: BTreeMap::new(alloc),
        }
    }

    pub(crate) fn is_empty(&self) -> bool
        ensures { IsTrue result → (i : ℕ) (t : Option (List ℕ)) → has i (under self.now t) ≡ false }
    {
        self.root.is_empty() && self.below.is_empty()
    }

    // Whether an id holds something right below a path.
    pub(crate) fn has(&self, path: Option<&str>, id: Id) -> bool
        ensures { result ≡ has id (under self.now (option_copied path.entry)) }
    {
        match path {
            Some(text) => match self.below.get(text) {
                Some(holders) => holders.contains(id),
                None => false,
            },
            None => self.root.contains(id),
        }
    }

    pub(crate) fn put(
        &mut self,
        alloc: Global,
        path: Option<&str>,
        id: Id,
    ) -> Result<(), AllocError>
        ensures ok { OnOk result ((i : ℕ) (t : Option (List ℕ)) → has i (under self.new t) ≡ ((path_eq (option_copied path.entry) t && i == id) || has i (under self.old t))) }
        ensures err { OnErr result ((i : ℕ) (t : Option (List ℕ)) → has i (under self.new t) ≡ has i (under self.old t)) }
    {
        match path {
            Some(text) => put(alloc, &mut self.below, text, id),
            None => self.root.insert(id),
        }
    }

    pub(crate) fn take(&mut self, path: Option<&str>, id: Id)
        ensures { (i : ℕ) (t : Option (List ℕ)) → has i (under self.new t) ≡ (not (path_eq (option_copied path.entry) t && i == id) && has i (under self.old t)) }
    {
        match path {
            Some(text) => take(&mut self.below, text, id),
            None => self.root.remove(id),
        }
    }

    // Whether an id holds something below a path, or below one with which it begins.
    pub(crate) fn has_above(&self, path: Option<&str>, id: Id) -> bool
        ensures { IsTrue result ↔ HoldsAbove self.now (rest_segments (option_copied path.entry)) 0 id }
    {
        let mut rest = path;
        while let Some(text) = rest {
            if self.has(rest, id) {
                return true;
            }
            rest = parent_of(text).0;
        }
        self.has(None, id)
    }

    // The least other id that holds something right below a path.
    pub(crate) fn first_at(&self, path: Option<&str>, by: Id) -> Option<Id>
        ensures { IsLeastOther (λ i. IsTrue (has i (under self.now (option_copied path.entry)))) by result }
    {
        match path {
            Some(text) => match self.below.get(text) {
                Some(holders) => holders.first_other(by),
                None => None,
            },
            None => self.root.first_other(by),
        }
    }

    // The least other id that holds something below a path, or below one with which it begins.
    pub(crate) fn first_above(&self, path: Option<&str>, by: Id) -> Option<Id>
        ensures { IsLeastOther (HoldsAbove self.now (rest_segments (option_copied path.entry)) 0) by result }
    {
        let mut first = None;
        let mut rest = path;
        while let Some(text) = rest {
            first = lesser(first, self.first_at(rest, by));
            rest = parent_of(text).0;
        }
        lesser(first, self.first_at(None, by))
    }
}
