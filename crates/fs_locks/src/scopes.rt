//! Who holds scopes of one kind.
use crate::parents::Parents;
use fs_status::Id;
use std::alloc::{AllocError, Global};
use std::collections::BTreeMap;

/// Who holds the collections, or the groups, by the collections' id, and then by the path below which they lie.
#[derive(Drop)]
pub(crate) struct Scopes {
    by_id: BTreeMap<String, Parents>,
}

impl Scopes {
    ghost use Rattle.std.specs.Prelude.{◌≡◌, ◌↔◌, ◌||◌, ◌&&◌, ◌==◌, ℕ, List, Option, IsTrue, OnOk, OnErr, not, false};
    ghost use Rattle.std.specs.Option.{option_copied};
    ghost use Rattle.fs_path.specs.Cursor.{rest_segments};
    ghost use Rattle.fs_path.specs.TextOrder.{text_eq};
    ghost use Rattle.fs_locks.specs.Holds.{IsLeastOther};
    ghost use Rattle.fs_locks.specs.Paths.{path_eq};
    ghost use Rattle.fs_locks.specs.Spots.{in_scopes, StandsAbove};

    pub(crate) fn new(alloc: Global) -> Scopes
        ensures { (x : List ℕ) (t : Option (List ℕ)) (i : ℕ) → in_scopes result x t i ≡ false }
    {
        Scopes {
            by_id: BTreeMap::new(alloc),
        }
    }

    // Whether an id holds the collections with an id right below a path.
    pub(crate) fn has(&self, name: &str, path: Option<&str>, id: Id) -> bool
        ensures { result ≡ in_scopes self.now name.now (option_copied path.entry) id }
    {
        match self.by_id.get(name) {
            Some(parents) => parents.has(path, id),
            None => false,
        }
    }

    pub(crate) fn put(
        &mut self,
        alloc: Global,
        name: &str,
        path: Option<&str>,
        id: Id,
    ) -> Result<(), AllocError>
        ensures ok { OnOk result ((x : List ℕ) (t : Option (List ℕ)) (i : ℕ) → in_scopes self.new x t i ≡ (((text_eq name.now x && path_eq (option_copied path.entry) t) && i == id) || in_scopes self.old x t i)) }
        ensures err { OnErr result ((x : List ℕ) (t : Option (List ℕ)) (i : ℕ) → in_scopes self.new x t i ≡ in_scopes self.old x t i) }
    {
        match self.by_id.get_mut(name) {
            Some(parents) => parents.put(alloc, path, id),
            None => {
                let mut first = Parents::new(alloc);
                first.put(alloc, path, id)?;
                self.by_id.insert(String::from_str(alloc, name)?, first)?;
                Ok(())
            }
        }
    }

    // Takes out a hold, and the collections' id with it where nobody holds any of them any more.
    pub(crate) fn take(&mut self, name: &str, path: Option<&str>, id: Id)
        ensures { (x : List ℕ) (t : Option (List ℕ)) (i : ℕ) → in_scopes self.new x t i ≡ (not ((text_eq name.now x && path_eq (option_copied path.entry) t) && i == id) && in_scopes self.old x t i) }
    {
        let Some(parents) = self.by_id.get_mut(name) else {
            return;
        };
        parents.take(path, id);
        if parents.is_empty() {
            self.by_id.remove(name);
        }
    }

    // Whether an id holds the collections with an id below a path, or below one with which it begins.
    pub(crate) fn has_above(&self, name: &str, path: Option<&str>, id: Id) -> bool
        ensures { IsTrue result ↔ StandsAbove self.now name.now (rest_segments (option_copied path.entry)) id }
    {
        match self.by_id.get(name) {
            Some(parents) => parents.has_above(path, id),
            None => false,
        }
    }

    // The least other id that holds the collections with an id right below a path.
    pub(crate) fn first_at(&self, name: &str, path: Option<&str>, by: Id) -> Option<Id>
        ensures { IsLeastOther (λ i. IsTrue (in_scopes self.now name.now (option_copied path.entry) i)) by result }
    {
        match self.by_id.get(name) {
            Some(parents) => parents.first_at(path, by),
            None => None,
        }
    }

    // The least other id that holds the collections with an id below a path, or below one with which it begins.
    pub(crate) fn first_above(&self, name: &str, path: Option<&str>, by: Id) -> Option<Id>
        ensures { IsLeastOther (StandsAbove self.now name.now (rest_segments (option_copied path.entry))) by result }
    {
        match self.by_id.get(name) {
            Some(parents) => parents.first_above(path, by),
            None => None,
        }
    }
}
