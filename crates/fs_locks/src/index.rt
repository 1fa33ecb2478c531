//! Where shared holds are looked up.
use crate::held::Held;
use crate::holders::Holders;
use crate::least::lesser;
use crate::reads::Noted;
use crate::scopes::Scopes;
use crate::share::{Share, stand_id};
use crate::tree::{is_held, put, take};
use fs_path::{DocName, Scope};
use fs_status::Id;
use std::alloc::{AllocError, Global};
use std::collections::BTreeMap;

/// Who holds which names, collections and groups. Where memory ran out, a name may stand here with nobody that holds it.
#[derive(Drop)]
pub(crate) struct Index {
    pub(crate) names: BTreeMap<DocName, Holders>,
    pub(crate) collections: Scopes,
    pub(crate) groups: Scopes,
}

impl Index {
    ghost use Rattle.std.specs.Prelude.{◌≡◌, ◌↔◌, ◌∷◌, [], ℕ, IsTrue, OnOk, OnErr, false, true};
    ghost use Rattle.std.specs.Option.{option_copied};
    ghost use Rattle.fs_locks.specs.Holds.{IsLeastOther};
    ghost use Rattle.fs_locks.specs.Marks.{helds};
    ghost use Rattle.fs_locks.specs.Spots.{Spot, is_at_spot, stands, StandsOver, SameIndex, IndexMore, IndexLess};

    pub(crate) fn new(alloc: Global) -> Index
        ensures { (s : Spot) (i : ℕ) → stands result s i ≡ false }
    {
        Index {
            names: BTreeMap::new(alloc),
            collections: Scopes::new(alloc),
            groups: Scopes::new(alloc),
        }
    }

    // Whether an id stands where something is held.
    pub(crate) fn has(&self, share: &Share, id: Id) -> bool
        ensures { (s : Spot) → is_at_spot s share.now ≡ true → stands self.now s id ≡ result }
    {
        match share.held() {
            Held::Name(name) => is_held(&self.names, name, id),
            Held::Scope(scope) => match scope {
                Scope::Collection { .. } => {
                    self.collections.has(stand_id(scope), share.path(), id)
                }
                Scope::Group { .. } => self.groups.has(stand_id(scope), share.path(), id),
            },
        }
    }

    pub(crate) fn put(&mut self, alloc: Global, share: &Share, id: Id) -> Result<(), AllocError>
        ensures ok { OnOk result (IndexMore self.old self.new id (share.now ∷ [])) }
        ensures err { OnErr result (SameIndex self.old self.new) }
    {
        match share.held() {
            Held::Name(name) => put(alloc, &mut self.names, name, id),
            Held::Scope(scope) => match scope {
                Scope::Collection { .. } => {
                    self.collections
                        .put(alloc, stand_id(scope), share.path(), id)
                }
                Scope::Group { .. } => { self.groups.put(alloc, stand_id(scope), share.path(), id) }
            },
        }
    }

    pub(crate) fn take(&mut self, share: &Share, id: Id)
        ensures { IndexLess self.old self.new id (share.now ∷ []) }
    {
        match share.held() {
            Held::Name(name) => take(&mut self.names, name, id),
            Held::Scope(scope) => match scope {
                Scope::Collection { .. } => {
                    self.collections.take(stand_id(scope), share.path(), id)
                }
                Scope::Group { .. } => self.groups.take(stand_id(scope), share.path(), id),
            },
        }
    }

    pub(crate) fn take_all(&mut self, notes: &[Noted], id: Id)
        ensures { IndexLess self.old self.new id (helds notes.now) }
    {
        for noted in notes {
            self.take(&noted.share, id);
        }
    }

    // Whether an id stands where a collection is looked up, or a group that it belongs to.
    pub(crate) fn has_over(&self, path: Option<&str>, name: &str, id: Id) -> bool
        ensures { IsTrue result ↔ StandsOver self.now (option_copied path.entry) name.now id }
    {
        self.collections.has(name, path, id) || self.groups.has_above(name, path, id)
    }

    // The least other id that stands where a collection is looked up, or a group that it belongs to.
    pub(crate) fn first_over(&self, path: Option<&str>, id: &str, by: Id) -> Option<Id>
        ensures { IsLeastOther (StandsOver self.now (option_copied path.entry) id.now) by result }
    {
        let right_below = self.collections.first_at(id, path, by);
        lesser(right_below, self.groups.first_above(id, path, by))
    }
}
