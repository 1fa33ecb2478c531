//! The versions of all documents.
use crate::chain::Chain;
use crate::install::{install, install_one, make_room};
use crate::listed::documents_in;
use fs_history::{Version, histories_are_lawful};
use fs_path::{DocName, Scope};
use fs_time::Micros;
use fs_value::{Document, Documents};
use fs_write::{Change, Changes};
use std::alloc::{AllocError, Global};
use std::collections::BTreeMap;
use std::marker::Model;

/// The versions of all documents, by name, from a floor on: no time before it is read any more. A name's chain has the
/// versions above the floor, by rising time, and in front of them the one that shows at the floor, if it is a document.
/// Contracts see the chains as a finite map, beside the floor and the last time at which a batch was installed, and beside
/// all that for how many versions more each name has room.
///
///     floor 4, after batches at 5, 7 and 9       c/a: {n: 1} at 5, none at 7, {n: 3} at 9
///                                                c/b: {n: 2} at 7, none at 9
///     after `compact(8)`                         c/a: {n: 3} at 9
///                                                c/b: {n: 2} at 7, none at 9
///     after `compact(9)`                         c/a: {n: 3} at 9
///                                                no c/b
///     after `make_room` for c/a and c/c          c/a: {n: 3} at 9, and room for one more
///                                                no c/c yet, and room for one
///     after a batch at 11 is installed           c/a: {n: 3} at 9, {n: 4} at 11
///                                                c/c: {n: 5} at 11
///
/// A chain is one block of memory, and each look-up is a search for the name and a binary search in its chain. The documents
/// of a collection are one range of the names; those of its subcollections lie in it and are passed over. A compaction, and
/// a search for a group of collections, goes over all names.
/// (docs/DECISIONS.md, "What versions and stores become is a function of what they were".)
#[derive(Drop)]
pub struct Versions {
    // one may be empty, where room was made for a name without versions; contracts see no chain there
    chains: BTreeMap<DocName, Chain>,
    floor: Micros,
    // of the last batch that was installed, or the first floor; no version is later
    last: Micros,
}

impl Model for Versions {
    ghost use Rattle.fs_versions.specs.Room.{Versioned, versioned_code};

    ghost Value = { Versioned };

    ghost coded = { versioned_code };

    ghost use Rattle.fs_versions.specs.Sound.{EndsBy, chains_of, rooms_of};

    ghost view = { λ v. record {
      chains = record { by_name = chains_of v.chains.entries; floor = v.floor; last = v.last };
      room = rooms_of v.chains.entries;
    } };

    ghost invariant = { λ v. EndsBy v.chains.entries v.last };
}

impl Versions {
    ghost use Rattle.std.specs.Prelude.{◌≡◌, ◌↔◌, ◌<ℤ◌, ◌≤ℤ◌, List, ◌∷◌, [], IsTrue, IsNone, is_some, IfOk, IfSome, OnOk, OnErr, map};
    ghost use Rattle.std.specs.FinMap.{empty, get, values, is_sorted};
    ghost use Rattle.std.specs.Option.{option_copied};
    ghost use Rattle.fs_path.specs.NameOrder.{name_cmp};
    ghost use Rattle.fs_write.specs.Batch.{changes_by_name, AreChanges};
    ghost use Rattle.fs_history.specs.History.{at, whole};
    ghost use Rattle.fs_history.specs.declared.batch.Batch.{Batch};
    ghost use Rattle.fs_versions.specs.Chain.{shown_at, last_document, cut};
    ghost use Rattle.fs_versions.specs.Chains.{chain_of, HasNoEmptyChain, EndsByLast, installed, compacted, Installs, Compacts};
    ghost use Rattle.fs_versions.specs.Listed.{documents_at, documents_in};
    ghost use Rattle.fs_versions.specs.Rising.{TimesRise};
    ghost use Rattle.fs_versions.specs.Room.{HasRoom, KeepsRoom, TakesRoom};
    ghost use Rattle.fs_versions.specs.Shows.{Shows};
    ghost use Rattle.fs_versions.specs.Sound.{held};

    /// No versions, from a floor on. The allocator serves those that are installed. They show the history without batches.
    pub fn new(alloc: Global, floor: Micros) -> Versions
        ensures value { result.chains ≡ record { by_name = empty; floor = floor; last = floor } }
        ensures shows { Shows [] result.chains }
    {
        Versions {
            chains: BTreeMap::new(alloc),
            floor,
            last: floor,
        }
    }

    /// The time from which on documents can be read.
    pub fn floor(&self) -> Micros
        ensures { result ≡ self.now.chains.floor }
    {
        self.floor
    }

    /// The time of the last batch that was installed, or the first floor where none was.
    pub fn last(&self) -> Micros
        ensures value { result ≡ self.now.chains.last }
        ensures some { HasNoEmptyChain self.now.chains }
        ensures ends { EndsByLast self.now.chains }
    {
        self.last
    }

    /// Makes room for so many versions more at each name that changes name. Where memory runs out, room may have been made at some
    /// of the names. A name that gets no version after all is dropped by the next compaction.
    /// (docs/DECISIONS.md, "Room is made before anything is put in".)
    pub fn make_room(
        &mut self,
        alloc: Global,
        changes: &Changes,
        more: usize,
    ) -> Result<(), AllocError>
        ensures same { self.new.chains ≡ self.old.chains }
        ensures kept { KeepsRoom self.old.room self.new.room }
        ensures ok { OnOk result (HasRoom self.new.room more changes.now) }
    {
        make_room(alloc, &mut self.chains, changes.as_slice(), more)
    }

    /// Adds a version for each change of a batch, at its time, which is after the floor and after all times before. Each of
    /// their names has room for it, and so it takes no memory. It gives the changes back without the documents that they leave:
    /// who notes their names needs no copies of them.
    ///
    /// Versions that show a history show it with the batch afterwards, if the changes are the batch's.
    pub fn install(&mut self, changes: Changes, time: Micros) -> Changes
        requires above_floor { self.old.chains.floor <ℤ time }
        requires later { self.old.chains.last <ℤ time }
        requires rising { IsTrue (is_sorted name_cmp (changes_by_name changes)) }
        requires room { HasRoom self.old.room 1 changes }
        ensures value { self.new.chains ≡ installed self.old.chains changes time }
        ensures installs { Installs self.old.chains self.new.chains changes time }
        ensures room { TakesRoom self.old.room self.new.room changes }
        ensures names { map (λ c. c.name) result ≡ map (λ c. c.name) changes }
        ensures shows { (h : List Batch) (b : Batch) → Shows h self.old.chains → b.time ≡ time
            → AreChanges (whole h) (whole (b ∷ h)) changes → Shows (b ∷ h) self.new.chains }
    {
        histories_are_lawful();
        let mut changes = changes.into_vec();
        install(&mut self.chains, &mut changes, time);
        self.last = time;
        Changes::of(changes)
    }

    /// Installs the one change of a batch at a time, which is later than all that were installed, and makes the room that it takes: one
    /// search where `make_room` and `install` take two. Where memory runs out, nothing is changed but room.
    pub fn install_one(
        &mut self,
        alloc: Global,
        change: &Change,
        time: Micros,
    ) -> Result<(), AllocError>
        requires above_floor { self.old.chains.floor <ℤ time }
        requires later { self.old.chains.last <ℤ time }
        ensures value { OnOk result (self.new.chains ≡ installed self.old.chains (change.now ∷ []) time) }
        ensures err { OnErr result (self.new.chains ≡ self.old.chains) }
        ensures shows { OnOk result ((h : List Batch) (b : Batch) → Shows h self.old.chains → b.time ≡ time
            → AreChanges (whole h) (whole (b ∷ h)) (change.now ∷ []) → Shows (b ∷ h) self.new.chains) }
    {
        histories_are_lawful();
        install_one(alloc, &mut self.chains, change, time)?;
        self.last = time;
        Ok(())
    }

    /// The document of a name at a time, which isn't before the floor.
    pub fn at(&self, name: &DocName, time: Micros) -> Option<&Document>
        requires { self.now.chains.floor ≤ℤ time }
        ensures value { option_copied result ≡ shown_at time (chain_of self.now.chains name.now) }
        ensures shows { (h : List Batch) → Shows h self.now.chains → option_copied result ≡ get (at h time) name.now }
    {
        match self.chains.get(name) {
            Some(chain) => chain.shown(time),
            None => None,
        }
    }

    /// The newest document of a name.
    pub fn latest(&self, name: &DocName) -> Option<&Document>
        ensures value { option_copied result ≡ last_document (chain_of self.now.chains name.now) }
        ensures shows { (h : List Batch) → Shows h self.now.chains → option_copied result ≡ get (whole h) name.now }
    {
        match self.chains.get(name) {
            Some(chain) => chain.newest(),
            None => None,
        }
    }

    /// The documents at a time, which isn't before the floor, in the order of their names. They share their fields with
    /// those here.
    pub fn all_at(&self, alloc: Global, time: Micros) -> Result<Documents, AllocError>
        requires { self.now.chains.floor ≤ℤ time }
        ensures value { IfOk result (λ ds. ds ≡ documents_at self.now.chains time) }
        ensures shows { IfOk result (λ ds. (h : List Batch) → Shows h self.now.chains → ds ≡ values (at h time)) }
    {
        let mut documents = Documents::new(alloc);
        for (_, chain) in &self.chains {
            if let Some(document) = chain.shown(time) {
                documents.push(document.copy(alloc)?)?;
            }
        }
        Ok(documents)
    }

    /// The documents in the scope of a query at a time, which isn't before the floor, in the order of their names. Only
    /// pointers to them are given.
    ///
    /// A collection is one range of the names, in which those of its subcollections lie and are passed over. All names are
    /// gone over for a group of collections, and where the names are of more than one database.
    pub fn documents_in(
        &self,
        alloc: Global,
        scope: &Scope,
        time: Micros,
    ) -> Result<Vec<&Document>, AllocError>
        requires { self.now.chains.floor ≤ℤ time }
        ensures value { IfOk result (λ v. map (λ d. d.now) v.items ≡ documents_in scope.now self.now.chains time) }
        ensures shows { (h : List Batch) → Shows h self.now.chains → documents_at self.now.chains time ≡ values (at h time) }
    {
        documents_in(alloc, &self.chains, scope, time)
    }

    /// The chain of a name: its versions, by rising time, and `None` where there are none.
    pub fn chain(&self, name: &DocName) -> Option<&[Version]>
        ensures some { IfSome result (λ c. c.now ≡ chain_of self.now.chains name.now) }
        ensures none { IsNone result ↔ (chain_of self.now.chains name.now ≡ []) }
        ensures rising { TimesRise (chain_of self.now.chains name.now) }
    {
        match self.chains.get(name) {
            Some(chain) => chain.listed(),
            None => None,
        }
    }

    /// Raises the floor, and drops what no time from there on shows: the versions that others replace by then, deletions
    /// that are the newest then, and names without a version. It takes no memory.
    ///
    /// Versions that show a history show the same afterwards.
    /// (docs/DECISIONS.md, "A compaction goes over all names".)
    pub fn compact(&mut self, floor: Micros)
        requires { self.old.chains.floor ≤ℤ floor }
        ensures value { self.new.chains ≡ compacted self.old.chains floor }
        ensures cut { Compacts self.old.chains self.new.chains floor }
        ensures shows { (h : List Batch) → Shows h self.old.chains → Shows h self.new.chains }
    {
        self.chains.retain(
            |_, chain|
                ensures left { chain.new.versions ≡ cut floor chain.old.versions }
                ensures stays { result ≡ is_some (held chain.new.versions) }
            {
                chain.cut(floor);
                !chain.is_empty()
            },
        );
        self.floor = floor;
    }
}
