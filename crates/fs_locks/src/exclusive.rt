//! The names that commits hold exclusively.
use crate::held::Held;
use crate::hold::put_new;
use crate::holders::Holders;
use crate::taken::Taken;
use crate::tree::{first_among, first_at, first_in, fresh, take_all};
use fs_path::{DocName, Names};
use fs_status::Id;
use std::alloc::{AllocError, Global};
use std::collections::BTreeMap;
use std::marker::Model;

/// The exclusive holds. Contracts see a list of them, in the order of names, and for one name of ids.
///
///     1 holds c/a and c/b, 3 holds c/b       by name: c/a: 1        by id: 1: c/a, c/b
///                                                     c/b: 1, 3            3: c/b
///     after `release_all(1)`                 by name: c/b: 3        by id: 3: c/b
///
/// (docs/DECISIONS.md, "A hold stands twice", "Those that hold a name are an ordered set".)
#[derive(Drop)]
pub(crate) struct Exclusive {
    // who holds each name; none is there that nobody holds
    by_name: BTreeMap<DocName, Holders>,
    // all that an id holds is among what it took
    by_id: BTreeMap<Id, Taken>,
}

impl Model for Exclusive {
    ghost use Rattle.std.specs.Prelude.{List};
    ghost use Rattle.std.specs.Coded.{coded_list};
    ghost use Rattle.fs_locks.specs.Holds.{Hold, hold_code};

    ghost Value = { List Hold };

    ghost coded = { coded_list hold_code };

    ghost use Rattle.fs_locks.specs.Tree.{holds_of, AreTaken};

    ghost view = { λ l. holds_of l.by_name.entries };

    ghost invariant = { λ l. AreTaken l.by_name.entries l.by_id.entries };
}

impl Exclusive {
    ghost use Rattle.std.specs.Prelude.{◌≡◌, ◌||◌, ◌&&◌, ◌==◌, ℕ, [], IsTrue, OnOk, OnErr, not};
    ghost use Rattle.fs_path.specs.declared.name.DocName.{DocName};
    ghost use Rattle.fs_locks.specs.Holds.{is_in, is_held, HoldsOne, HoldsTouched, IsLeastOther};
    ghost use Rattle.fs_locks.specs.HoldOrder.{IsCanonical};

    // Nothing is held. The allocator serves the holds that come.
    pub(crate) fn new(alloc: Global) -> Exclusive
        ensures value { result ≡ [] }
        ensures canonical { IsCanonical result }
    {
        Exclusive {
            by_name: BTreeMap::new(alloc),
            by_id: BTreeMap::new(alloc),
        }
    }

    // From now on an id holds these names, beside those that it held. Others may hold the same ones. Where memory runs out,
    // nothing is changed.
    pub(crate) fn hold_exclusive(
        &mut self,
        alloc: Global,
        id: Id,
        names: Names,
    ) -> Result<(), AllocError>
        ensures ok { OnOk result ((i : ℕ) (n : DocName) → is_held self.new i n ≡ (is_held self.old i n || ((i == id) && is_in n names))) }
        ensures err { OnErr result (self.new ≡ self.old) }
        ensures canonical { IsCanonical self.new }
    {
        let mut more = fresh(&self.by_name, names, id);
        if let Err(error) = put_new(alloc, &mut self.by_name, &mut self.by_id, id, &mut more) {
            take_all(&mut self.by_name, more.as_slice(), id);
            return Err(error);
        }
        Ok(())
    }

    // The least id other than `by` that holds one of these names. It takes no memory.
    pub(crate) fn behind(&self, names: &Names, by: Id) -> Option<Id>
        ensures value { IsLeastOther (HoldsOne self.now names.now) by result }
        ensures canonical { IsCanonical self.now }
    {
        first_among(&self.by_name, names.as_slice(), by)
    }

    // The least id other than `by` that holds a name. It takes no memory.
    pub(crate) fn behind_name(&self, name: &DocName, by: Id) -> Option<Id>
        ensures { IsLeastOther (λ i. IsTrue (is_held self.now i name.now)) by result }
    {
        first_at(&self.by_name, name, by)
    }

    // The least id other than `by` that holds what is touched: the name, or a name that the scope covers. It takes no memory.
    pub(crate) fn behind_scope(&self, scope: &Held, by: Id) -> Option<Id>
        ensures { IsLeastOther (HoldsTouched self.now scope.now) by result }
    {
        match scope {
            Held::Name(name) => first_at(&self.by_name, name, by),
            Held::Scope(scope) => first_in(&self.by_name, scope, by),
        }
    }

    // An id holds nothing any more. It takes no memory.
    pub(crate) fn release_all(&mut self, id: Id)
        ensures value { (i : ℕ) (n : DocName) → is_held self.new i n ≡ (not (i == id) && is_held self.old i n) }
        ensures canonical { IsCanonical self.new }
    {
        if let Some(taken) = self.by_id.remove(&id) {
            take_all(&mut self.by_name, taken.as_slice(), id);
        }
    }
}
