//! How room is made for the changes of a batch, and how they come into the chains.
ghost use Rattle.std.specs.Prelude.{◌≡◌, ◌-◌, ◌<◌, ◌≤◌, ◌∷◌, ◌++◌, [], IsTrue, OnOk, OnErr, map};
ghost use Rattle.std.specs.FinMap.{is_sorted};
ghost use Rattle.std.specs.List.{All};
ghost use Rattle.fs_path.specs.NameOrder.{name_cmp};
ghost use Rattle.fs_write.specs.Batch.{changes_by_name};
ghost use Rattle.fs_versions.specs.Rising.{AreBefore};
ghost use Rattle.fs_versions.specs.Sound.{chain_in, room_in, EndsBefore, HasChanged, HasTaken, NoLess, Puts, SameChains};

use crate::chain::Chain;
use fs_history::Version;
use fs_path::DocName;
use fs_time::Micros;
use fs_write::{Change, copy_document};
use std::alloc::{AllocError, Global};
use std::collections::BTreeMap;

// A chain stands at a name, with room for so many versions more.
fn reserve(
    alloc: Global,
    chains: &mut BTreeMap<DocName, Chain>,
    name: &DocName,
    more: usize,
) -> Result<(), AllocError>
    ensures same { SameChains chains.old.entries chains.new.entries }
    ensures kept { NoLess chains.old.entries chains.new.entries }
    ensures ok { OnOk result (more ≤ room_in name.now chains.new.entries) }
{
    let chain = chains
        .entry(name.copy(alloc)?)?
        .or_insert(Chain::new(alloc));
    chain.reserve(more)
}

/// Each name that changes name has room for so many versions more.
pub(crate) fn make_room(
    alloc: Global,
    chains: &mut BTreeMap<DocName, Chain>,
    changes: &[Change],
    more: usize,
) -> Result<(), AllocError>
    ensures same { SameChains chains.old.entries chains.new.entries }
    ensures kept { NoLess chains.old.entries chains.new.entries }
    ensures ok { OnOk result (All (λ c. more ≤ room_in c.name chains.new.entries) changes.now) }
{
    for change in changes {
        reserve(alloc, chains, &change.name, more)?;
    }
    Ok(())
}

/// Puts in the version that the one change of a batch leaves at a time, which is made room for. Where memory runs out, no chain has other
/// versions than before.
pub(crate) fn install_one(
    alloc: Global,
    chains: &mut BTreeMap<DocName, Chain>,
    change: &Change,
    time: Micros,
) -> Result<(), AllocError>
    requires { AreBefore (chain_in change.now.name chains.old.entries) time }
    ensures ok { OnOk result (HasChanged chains.old.entries chains.new.entries (change.now ∷ []) time) }
    ensures err { OnErr result (SameChains chains.old.entries chains.new.entries) }
{
    let after = copy_document(alloc, &change.after)?;
    let chain = chains
        .entry(change.name.copy(alloc)?)?
        .or_insert(Chain::new(alloc));
    chain.reserve(1)?;
    chain.push(Version { time, after });
    Ok(())
}

// Puts the version that a change leaves behind the chain of its name.
fn put(chains: &mut BTreeMap<DocName, Chain>, change: &mut Change, time: Micros)
    requires earlier { AreBefore (chain_in change.old.name chains.old.entries) time }
    requires room { 0 < room_in change.old.name chains.old.entries }
    ensures chain { Puts chains.old.entries chains.new.entries change.old.name (record {
      versions = chain_in change.old.name chains.old.entries ++ record { time = time; after = change.old.after } ∷ [];
      room = room_in change.old.name chains.old.entries - 1;
    }) }
    ensures named { change.new.name ≡ change.old.name }
{
    let chain = chains.get_mut(&change.name).unwrap();
    chain.push(Version {
        time,
        after: change.after.take(),
    });
}

/// Puts in the version that each change leaves at a time, where there is room for it. The changes keep their names.
pub(crate) fn install(chains: &mut BTreeMap<DocName, Chain>, changes: &mut [Change], time: Micros)
    requires rising { IsTrue (is_sorted name_cmp (changes_by_name changes.old)) }
    requires room { All (λ c. 1 ≤ room_in c.name chains.old.entries) changes.old }
    requires earlier { EndsBefore chains.old.entries time }
    ensures chains { HasChanged chains.old.entries chains.new.entries changes.old time }
    ensures room { HasTaken chains.old.entries chains.new.entries changes.old }
    ensures names { map (λ c. c.name) changes.new ≡ map (λ c. c.name) changes.old }
{
    for i in 0..changes.len() {
        put(chains, &mut changes[i], time);
    }
}
