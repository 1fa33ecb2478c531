//! Holds in the tree of names: how they come in, and are taken out again.
ghost use Rattle.std.specs.Prelude.{◌≡◌, ◌∷◌, [], IsTrue, OnOk, OnErr, not};
ghost use Rattle.std.specs.List.{filter, list_any};
ghost use Rattle.fs_locks.specs.Holds.{IsLeastOther};
ghost use Rattle.fs_locks.specs.Tree.{held, SameTree, SameBut, HasMore, HasLess, HoldsIn};

use crate::holders::Holders;
use crate::least::lesser;
use fs_path::{DocName, Names, Scope, covers};
use fs_status::Id;
use std::alloc::{AllocError, Global};
use std::collections::BTreeMap;

// Puts in a hold. Where memory runs out, the name may stand there with nobody that holds it.
pub(crate) fn put(
    alloc: Global,
    tree: &mut BTreeMap<DocName, Holders>,
    name: &DocName,
    id: Id,
) -> Result<(), AllocError>
    ensures ok { OnOk result (HasMore tree.old.entries tree.new.entries id (name.now ∷ [])) }
    ensures err { OnErr result (SameTree tree.old.entries tree.new.entries) }
{
    let holders = tree
        .entry(name.copy(alloc)?)?
        .or_insert(Holders::new(alloc));
    holders.insert(id)?;
    Ok(())
}

// Puts in what an id holds of these names. Where memory runs out, some of them may be in.
pub(crate) fn put_all(
    alloc: Global,
    tree: &mut BTreeMap<DocName, Holders>,
    names: &[DocName],
    id: Id,
) -> Result<(), AllocError>
    ensures ok { OnOk result (HasMore tree.old.entries tree.new.entries id names.now) }
    ensures err { OnErr result (SameBut tree.old.entries tree.new.entries id names.now) }
{
    for name in names {
        put(alloc, tree, name, id)?;
    }
    Ok(())
}

// Takes out a hold, and the name with it where nobody holds it any more.
pub(crate) fn take(tree: &mut BTreeMap<DocName, Holders>, name: &DocName, id: Id)
    ensures { HasLess tree.old.entries tree.new.entries id (name.now ∷ []) }
{
    let Some(holders) = tree.get_mut(name) else {
        return;
    };
    holders.remove(id);
    if holders.is_empty() {
        tree.remove(name);
    }
}

// Takes out what an id holds of these names.
pub(crate) fn take_all(tree: &mut BTreeMap<DocName, Holders>, names: &[DocName], id: Id)
    ensures { HasLess tree.old.entries tree.new.entries id names.now }
{
    for name in names {
        take(tree, name, id);
    }
}

// Whether an id holds a name.
pub(crate) fn is_held(tree: &BTreeMap<DocName, Holders>, name: &DocName, id: Id) -> bool
    ensures { result ≡ held tree.now.entries id name.now }
{
    match tree.get(name) {
        Some(holders) => holders.contains(id),
        None => false,
    }
}

// The least other id that holds a name.
pub(crate) fn first_at(tree: &BTreeMap<DocName, Holders>, name: &DocName, by: Id) -> Option<Id>
    ensures { IsLeastOther (λ i. IsTrue (held tree.now.entries i name.now)) by result }
{
    match tree.get(name) {
        Some(holders) => holders.first_other(by),
        None => None,
    }
}

// The least other id that holds one of these names.
pub(crate) fn first_among(
    tree: &BTreeMap<DocName, Holders>,
    names: &[DocName],
    by: Id,
) -> Option<Id>
    ensures { IsLeastOther (λ i. IsTrue (list_any (held tree.now.entries i) names.now)) by result }
{
    let mut first = None;
    for name in names {
        first = lesser(first, first_at(tree, name, by));
    }
    first
}

// The least other id that holds a name in a scope.
pub(crate) fn first_in(tree: &BTreeMap<DocName, Holders>, scope: &Scope, by: Id) -> Option<Id>
    ensures { IsLeastOther (HoldsIn tree.now.entries scope.now) by result }
{
    let mut first = None;
    for (name, holders) in tree.iter() {
        if covers(scope, name) {
            first = lesser(first, holders.first_other(by));
        }
    }
    first
}

// Those of these names that an id doesn't hold yet.
pub(crate) fn fresh(tree: &BTreeMap<DocName, Holders>, names: Names, id: Id) -> Vec<DocName>
    ensures { result.items ≡ filter (λ n. not (held tree.now.entries id n)) names }
{
    let mut fresh = names.into_vec();
    fresh.retain(
        |name|
            ensures { result ≡ not (held tree.entry.now.entries id name.now) }
        { !is_held(tree, name, id) },
    );
    fresh
}
