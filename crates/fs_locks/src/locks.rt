//! What commits and transactions hold.
use crate::exclusive::Exclusive;
use crate::held::Held;
use crate::shared::Shared;
use fs_path::{DocName, Names};
use fs_status::Id;
use std::alloc::{AllocError, Global};
use std::marker::Model;

/// Who holds what, until it is released. (Cloud Firestore documentation, "Transaction serializability and isolation".)
///
/// A commit holds exclusively the names that it writes. Several may hold a name at once: they go one after another, and each
/// waits for those before it. Contracts see a list of holds, in the order of names, and for one name of ids.
///
///     1 holds c/a and c/b, 3 holds c/b
///     `behind([c/b, c/d], 3)` is 1, and `behind([c/b, c/d], 1)` is 3
///     after `release_all(1)` only 3 holds c/b
///
/// A transaction holds shared what it has read: names, and the scopes of its queries. A name touches a hold of itself, and of
/// each scope that covers it. Contracts see what each id has read, by rising ids, in the order of its reads.
///
///     2 holds c/a, and the collection x below c/a; 5 holds the group x below the root
///     `conflict([c/a/x/b], 5)` is 2, and `conflict([c/a/x/b], 2)` is 5
///     c/a/x/b touches what 2 holds and what 5 holds, and c/b touches neither
///     `conflict([c/b/x/b], 1)` is 5, and `conflict([c/b], 1)` none
///     after `take_back(2)` it holds c/a alone, and `conflict([c/a/x/b], 5)` is none
///     after `release_all(2)` only 5 holds its group
///
/// A name costs a search for it and one among the ids that hold it, whether it is taken, looked up or released, and a scope one
/// more. `conflict` and `is_touched` also search for a name's collection and for each path with which the name begins. Only `behind_scope`
/// goes over all names, where it is asked for a scope.
/// (docs/DECISIONS.md, "Exclusive and shared holds are two structures side by side".)
#[derive(Drop)]
pub struct Locks {
    exclusive: Exclusive,
    shared: Shared,
}

impl Model for Locks {
    ghost use Rattle.fs_locks.specs.Locked.{Locked, locked_code};

    ghost Value = { Locked };

    ghost coded = { locked_code };

    ghost view = { λ l. record { exclusive = l.exclusive; shared = l.shared } };
}

impl Locks {
    ghost use Rattle.std.specs.Prelude.{◌≡◌, ◌||◌, ◌&&◌, ◌==◌, ℕ, [], IsTrue, OnOk, OnErr, not};
    ghost use Rattle.std.specs.List.{list_any};
    ghost use Rattle.fs_path.specs.declared.name.DocName.{DocName};
    ghost use Rattle.fs_locks.specs.Holds.{is_in, is_held, HoldsOne, HoldsTouched, IsLeastOther};
    ghost use Rattle.fs_locks.specs.HoldOrder.{IsCanonical};
    ghost use Rattle.fs_locks.specs.Shares.{is_shared, is_touched, with_share, without_last_share, without_shares};

    /// Nothing is held. The allocator serves the holds that come.
    pub fn new(alloc: Global) -> Locks
        ensures exclusive { result.exclusive ≡ [] }
        ensures shared { result.shared ≡ [] }
        ensures canonical { IsCanonical result.exclusive }
    {
        Locks {
            exclusive: Exclusive::new(alloc),
            shared: Shared::new(alloc),
        }
    }

    /// From now on an id holds these names exclusively, beside those that it held. Others may hold the same ones. Where memory
    /// runs out, nothing is changed.
    pub fn hold_exclusive(&mut self, alloc: Global, id: Id, names: Names) -> Result<(), AllocError>
        ensures ok { OnOk result ((i : ℕ) (n : DocName) → is_held self.new.exclusive i n ≡ (is_held self.old.exclusive i n || ((i == id) && is_in n names))) }
        ensures err { OnErr result (self.new ≡ self.old) }
        ensures shared { self.new.shared ≡ self.old.shared }
        ensures canonical { IsCanonical self.new.exclusive }
    {
        self.exclusive.hold_exclusive(alloc, id, names)
    }

    /// From now on an id holds shared what it has read, beside what it held. Others may hold the same. Where memory runs out,
    /// nothing is changed.
    pub fn hold(&mut self, alloc: Global, id: Id, held: Held) -> Result<(), AllocError>
        ensures ok { OnOk result ((i : ℕ) (n : DocName) → is_shared self.new.shared i n ≡ (is_shared self.old.shared i n || (i == id && is_touched held n))) }
        ensures kept { OnOk result (self.new.shared ≡ with_share self.old.shared id held) }
        ensures back { OnOk result (without_last_share self.new.shared id ≡ self.old.shared) }
        ensures err { OnErr result (self.new ≡ self.old) }
        ensures exclusive { self.new.exclusive ≡ self.old.exclusive }
    {
        self.shared.hold(alloc, id, held)
    }

    /// What an id came to hold shared last is taken back, as if it hadn't been held. Where it holds nothing shared, nothing is
    /// changed. It takes no memory.
    pub fn take_back(&mut self, id: Id)
        ensures shared { self.new.shared ≡ without_last_share self.old.shared id }
        ensures exclusive { self.new.exclusive ≡ self.old.exclusive }
    {
        self.shared.take_back(id);
    }

    /// The least id other than `by` that holds one of these names exclusively. It takes no memory.
    pub fn behind(&self, names: &Names, by: Id) -> Option<Id>
        ensures value { IsLeastOther (HoldsOne self.now.exclusive names.now) by result }
        ensures canonical { IsCanonical self.now.exclusive }
    {
        self.exclusive.behind(names, by)
    }

    /// The least id other than `by` that holds a name exclusively. It takes no memory.
    pub fn behind_name(&self, name: &DocName, by: Id) -> Option<Id>
        ensures { IsLeastOther (λ i. IsTrue (is_held self.now.exclusive i name.now)) by result }
    {
        self.exclusive.behind_name(name, by)
    }

    /// The least id other than `by` that holds exclusively what is touched: the name, or a name that the scope covers. It takes
    /// no memory.
    pub fn behind_scope(&self, scope: &Held, by: Id) -> Option<Id>
        ensures { IsLeastOther (HoldsTouched self.now.exclusive scope.now) by result }
    {
        self.exclusive.behind_scope(scope, by)
    }

    /// Whether a name touches what an id holds shared. It takes no memory.
    pub fn is_touched(&self, id: Id, name: &DocName) -> bool
        ensures { result ≡ is_shared self.now.shared id name.now }
    {
        self.shared.is_touched(id, name)
    }

    /// The least id other than `by` with a shared hold that one of these names touches. It takes no memory.
    pub fn conflict(&self, names: &Names, by: Id) -> Option<Id>
        ensures { IsLeastOther (λ i. IsTrue (list_any (is_shared self.now.shared i) names.now)) by result }
    {
        self.shared.conflict(names, by)
    }

    /// An id holds nothing any more. It takes no memory.
    pub fn release_all(&mut self, id: Id)
        ensures value { (i : ℕ) (n : DocName) → is_held self.new.exclusive i n ≡ (not (i == id) && is_held self.old.exclusive i n) }
        ensures shared { (i : ℕ) (n : DocName) → is_shared self.new.shared i n ≡ (not (i == id) && is_shared self.old.shared i n) }
        ensures left { self.new.shared ≡ without_shares self.old.shared id }
        ensures canonical { IsCanonical self.new.exclusive }
    {
        self.exclusive.release_all(id);
        self.shared.release_all(id);
    }
}
