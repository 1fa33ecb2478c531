//! Who holds one name.
ghost use Rattle.std.specs.Prelude.{◌≡◌};

use fs_status::Id;
use std::alloc::{AllocError, Global};
use std::collections::BTreeSet;
use std::marker::Model;

/// The ids that hold one name. Contracts see them as a list, in their order.
#[derive(Drop)]
pub(crate) struct Holders {
    ids: BTreeSet<Id>,
}

impl Model for Holders {
    ghost use Rattle.std.specs.Prelude.{ℕ, List};
    ghost use Rattle.std.specs.Coded.{coded_list, coded_ℕ};

    ghost Value = { List ℕ };

    ghost coded = { coded_list coded_ℕ };

    ghost view = { λ h. h.ids.keys };
}

impl Holders {
    ghost use Rattle.std.specs.Prelude.{◌≡◌, ◌↔◌, ◌||◌, ◌&&◌, ◌==◌, ℕ, IsTrue, OnOk, OnErr, not, []};
    ghost use Rattle.fs_locks.specs.Holds.{IsLeastOther};
    ghost use Rattle.fs_locks.specs.Tree.{has};

    pub(crate) fn new(alloc: Global) -> Holders
        ensures { result ≡ [] }
    {
        Holders {
            ids: BTreeSet::new(alloc),
        }
    }

    pub(crate) fn is_empty(&self) -> bool
        ensures { IsTrue result ↔ (self.now ≡ []) }
    {
        self.ids.is_empty()
    }

    pub(crate) fn contains(&self, id: Id) -> bool
        ensures { result ≡ has id self.now }
    {
        self.ids.contains(&id)
    }

    pub(crate) fn insert(&mut self, id: Id) -> Result<(), AllocError>
        ensures ok { OnOk result ((i : ℕ) → has i self.new ≡ (i == id || has i self.old)) }
        ensures err { OnErr result (self.new ≡ self.old) }
    {
        self.ids.insert(id)?;
        Ok(())
    }

    pub(crate) fn remove(&mut self, id: Id)
        ensures { (i : ℕ) → has i self.new ≡ (not (i == id) && has i self.old) }
    {
        self.ids.remove(&id);
    }

    // The least of them other than an id.
    pub(crate) fn first_other(&self, by: Id) -> Option<Id>
        ensures { IsLeastOther (λ i. IsTrue (has i self.now)) by result }
    {
        for id in self.ids.iter() {
            if *id != by {
                return Some(*id);
            }
        }
        None
    }
}
