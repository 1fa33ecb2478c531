//! The store.
ghost use Rattle.std.specs.Prelude.{◌≡◌, ◌≤ℤ◌};
ghost use Rattle.fs_store.specs.Changes.{later};

use crate::absorb::{count_changes, install_all, make_room};
use crate::fits::{are_next, times_rise};
use crate::listened::{listened, view};
use crate::logs::Logs;
use crate::noted::Noted;
use crate::release::Release;
use crate::told::commits_told;
use fs_edge::Steps;
use fs_path::DocName;
use fs_query::{Query, Target, answer_among};
use fs_time::Micros;
use fs_value::{Document, Documents};
use fs_versions::{Version, Versions};
use fs_write::{Changes, TimedChange, TimedChanges};
use std::alloc::{AllocError, Global};
use std::marker::Model;
use std::sync::ledger::Ledger;

// The later of two times.
fn later(a: Micros, b: Micros) -> Micros
    ensures value { result ≡ later a b }
    ensures behind { b ≤ℤ result }
{
    if a <= b { b } else { a }
}

/// The documents of a database at each time from a floor up to the time that was released last. Releases bring commits,
/// and a compaction raises the floor:
///
///     new(4)                                          no documents, and 4 is read
///     absorb 4 to 8: c/a to {n: 1} at 5, gone at 7    c/a is {n: 1} at 5 and 6; 4 to 8 are read
///     absorb 8 to 9: nothing                          4 to 9 are read
///     changes(shard of c, 5, 9)                       at 7 c/a from {n: 1} to none
///     compact(7)                                      7 to 9 are read, and no change up to 7 is told any more
///
/// Before a release is absorbed, room is made for its changes, which is all that takes memory. Contracts see what is stored,
/// as `Stored`, with the room beside it. What stores of the same releases and compactions have stored is the same.
#[derive(Drop)]
pub struct Store {
    versions: Versions,
    // the names that were changed behind the floor
    logs: Logs,
    // the end of the last release, or the first floor
    absorbed: Micros,
}

impl Model for Store {
    ghost use Rattle.fs_store.specs.Room.{Housed, housed_code};

    ghost Value = { Housed };

    ghost coded = { housed_code };

    ghost use Rattle.fs_store.specs.Held.{IsHeld, AreLogged};

    ghost view = { λ s. record {
      stored = record { chains = s.versions.chains; absorbed = s.absorbed; shards = s.logs.shards; logs = s.logs.logs };
      room = s.versions.room;
      places = s.logs.rooms;
    } };

    ghost invariant = { λ s. IsHeld s.versions.chains s.absorbed × AreLogged s.versions.chains s.logs.shards s.logs.logs };
}

impl Store {
    ghost use Rattle.std.specs.Prelude.{◌≡◌, ◌↔◌, ◌<◌, ◌≤ℤ◌, List, [], ◌∷◌, IsTrue, IsNone, IfOk, IfSome, OnOk, OnErr, length};
    ghost use Rattle.std.specs.FinMap.{get, is_sorted, values};
    ghost use Rattle.std.specs.Option.{option_copied};
    ghost use Rattle.fs_history.specs.History.{at};
    ghost use Rattle.fs_history.specs.declared.batch.Batch.{Batch};
    ghost use Rattle.fs_listen.specs.View.{is_listened, view};
    ghost use Rattle.fs_match.specs.Followed.{docs_fitting};
    ghost use Rattle.fs_path.specs.NameOrder.{name_cmp};
    ghost use Rattle.fs_path.specs.Scope.{in_shard, AreShards};
    ghost use Rattle.fs_query.specs.Answer.{IsAnswer};
    ghost use Rattle.fs_value.specs.Named.{by_name};
    ghost use Rattle.fs_versions.specs.Chain.{shown_at};
    ghost use Rattle.fs_versions.specs.Chains.{chain_of};
    ghost use Rattle.fs_versions.specs.Listed.{documents_at};
    ghost use Rattle.fs_versions.specs.Room.{HasRoom, KeepsRoom};
    ghost use Rattle.fs_write.specs.Batch.{docs_of};
    ghost use Rattle.fs_history.specs.Brings.{AreChangesIn, Brings};
    ghost use Rattle.fs_store.specs.Changes.{changes_in, later};
    ghost use Rattle.fs_store.specs.Events.{store_of};
    ghost use Rattle.fs_store.specs.Fits.{Fits};
    ghost use Rattle.fs_store.specs.Next.{next_release};
    ghost use Rattle.fs_store.specs.Room.{HasPlaces, HasRoomFor, change_count};
    ghost use Rattle.fs_store.specs.Shows.{Shows};
    ghost use Rattle.fs_store.specs.Stored.{absorbed, compacted};

    /// A store without documents, which is read from a floor on, and whose changes are told by shard, of a number of shards from
    /// 1 to 16. The allocator serves what it absorbs.
    pub fn new(alloc: Global, floor: Micros, shards: u32) -> Store
        requires { AreShards shards }
        ensures value { result.stored ≡ store_of floor shards [] }
        ensures shows { Shows [] result.stored }
    {
        Store {
            versions: Versions::new(alloc, floor),
            logs: Logs::new(alloc, shards),
            absorbed: floor,
        }
    }

    /// The time from which on documents can be read.
    pub fn floor(&self) -> Micros
        ensures value { result ≡ self.now.stored.chains.floor }
        ensures within { self.now.stored.chains.floor ≤ℤ self.now.stored.absorbed }
    {
        // Whose field is looked at, what always holds of it is known.
        let _ = &self.absorbed;
        self.versions.floor()
    }

    /// The time up to which documents can be read: the end of the last release, or the first floor.
    pub fn absorbed(&self) -> Micros
        ensures value { result ≡ self.now.stored.absorbed }
        ensures within { self.now.stored.chains.floor ≤ℤ self.now.stored.absorbed }
    {
        self.absorbed
    }

    /// The number of shards by which changes are told.
    pub fn shards(&self) -> u32
        ensures value { result ≡ self.now.stored.shards }
        ensures some { AreShards self.now.stored.shards }
    {
        self.logs.shards()
    }

    /// The document of a name at a time that can be read.
    pub fn get(&self, name: &DocName, time: Micros) -> Option<&Document>
        requires from { self.now.stored.chains.floor ≤ℤ time }
        requires to { time ≤ℤ self.now.stored.absorbed }
        ensures value { option_copied result ≡ shown_at time (chain_of self.now.stored.chains name.now) }
        ensures shows { (h : List Batch) → Shows h self.now.stored → option_copied result ≡ get (at h time) name.now }
    {
        self.versions.at(name, time)
    }

    /// The answer to a query at a time that can be read. It looks at the documents in the query's scope, and copies only
    /// those that it answers, which share their fields with those here.
    /// (docs/DECISIONS.md, "A collection is one range of the names".)
    pub fn run<L: Ledger>(
        &self,
        alloc: Global,
        q: &Query,
        time: Micros,
        steps: &mut Steps<L>,
    ) -> Result<Documents, AllocError>
        requires from { self.now.stored.chains.floor ≤ℤ time }
        requires to { time ≤ℤ self.now.stored.absorbed }
        ensures answer { IfOk result (λ ds. IsAnswer q.now (documents_at self.now.stored.chains time) ds) }
        ensures shows { IfOk result (λ ds. (h : List Batch) → Shows h self.now.stored → IsAnswer q.now (values (at h time)) ds) }
        ensures steps { steps.new ≡ steps.old }
    {
        let documents = self.versions.documents_in(alloc, &q.scope, time)?;
        answer_among(alloc, q, documents.as_slice())
    }

    /// All documents that a target listens to at a time that can be read, by rising names: those that fit its query, cursors, offset and
    /// limit aside, or those that there are of its names. It looks at the documents in the query's scope, or at those of the names, and
    /// copies only those that it gives, which share their fields with those here.
    pub fn listened(
        &self,
        alloc: Global,
        target: &Target,
        time: Micros,
    ) -> Result<Documents, AllocError>
        requires from { self.now.stored.chains.floor ≤ℤ time }
        requires to { time ≤ℤ self.now.stored.absorbed }
        ensures sorted { IfOk result (λ ds. IsTrue (is_sorted name_cmp (by_name ds))) }
        ensures shows { IfOk result (λ ds. (h : List Batch) → Shows h self.now.stored
            → docs_of ds ≡ docs_fitting (is_listened target.now) (at h time)) }
    {
        listened(alloc, &self.versions, target, time)
    }

    /// The view of a target at a time that can be read, by rising names: the answer to its query, or the documents that there are of its
    /// names. It looks at no more than `listened`, and copies only what the view has. (v1 reference, `Target`.)
    /// (docs/DECISIONS.md, "A view is made from what is answered".)
    pub fn view(
        &self,
        alloc: Global,
        target: &Target,
        time: Micros,
    ) -> Result<Documents, AllocError>
        requires from { self.now.stored.chains.floor ≤ℤ time }
        requires to { time ≤ℤ self.now.stored.absorbed }
        ensures sorted { IfOk result (λ ds. IsTrue (is_sorted name_cmp (by_name ds))) }
        ensures shows { IfOk result (λ ds. (h : List Batch) → Shows h self.now.stored → docs_of ds ≡ view target.now (at h time)) }
    {
        view(alloc, &self.versions, target, time)
    }

    /// The chain of a name: its versions, by rising time, and `None` where there are none.
    pub fn chain(&self, name: &DocName) -> Option<&[Version]>
        ensures some { IfSome result (λ c. c.now ≡ chain_of self.now.stored.chains name.now) }
        ensures none { IsNone result ↔ (chain_of self.now.stored.chains name.now ≡ []) }
    {
        self.versions.chain(name)
    }

    /// What commits changed in a shard behind a time and the floor, up to another time: each commit that changed something in it, by
    /// its time, with its number and these changes. It goes over these changes alone, each of which is two searches for its name,
    /// and their documents share their fields with those here.
    /// (docs/DECISIONS.md, "A store notes what was changed, by shard".)
    pub fn changes(
        &self,
        alloc: Global,
        shard: u32,
        from: Micros,
        to: Micros,
    ) -> Result<TimedChanges, AllocError>
        requires { shard < self.now.stored.shards }
        ensures value { IfOk result (λ cs. cs ≡ changes_in self.now.stored shard from to) }
        ensures shows { IfOk result (λ cs. (h : List Batch) → Shows h self.now.stored
            → AreChangesIn h (in_shard self.now.stored.shards shard) (later from self.now.stored.chains.floor) (later to (later from self.now.stored.chains.floor)) cs) }
    {
        let from = later(from, self.versions.floor());
        commits_told(alloc, &self.versions, self.logs.between(shard, from, to))
    }

    /// Whether a release is the next one: it begins where the last one ended, its times rise, and each of its changes goes
    /// on from the newest document of its name. It takes no memory.
    /// (docs/DECISIONS.md, "A store tests a release without memory".)
    pub fn fits(&self, release: &Release) -> bool
        ensures { IsTrue result ↔ Fits self.now.stored release.now }
    {
        let commits = release.changes.as_slice();
        release.from == self.absorbed
            && times_rise(release.from, release.to, commits)
            && are_next(&self.versions, commits)
    }

    /// Makes room for a release, at each name that it changes for as many versions as it has commits, and a place for each change.
    /// Where memory runs out, nothing is changed that is stored.
    /// (docs/DECISIONS.md, "Room is made before anything is put in".)
    pub fn make_room(&mut self, alloc: Global, release: &Release) -> Result<(), AllocError>
        ensures same { self.new.stored ≡ self.old.stored }
        ensures ok { OnOk result (HasRoomFor self.new.room release.now.changes) }
        ensures places { OnOk result (HasPlaces self.new (change_count release.now.changes)) }
    {
        let commits = release.changes.as_slice();
        let Some(count) = count_changes(commits) else {
            return Err(AllocError);
        };
        self.logs.reserve(count)?;
        make_room(alloc, &mut self.versions, commits)
    }

    /// Makes room for one version more at each name that changes name, for who has the commits of a release one by one and knows
    /// that no two change the same name. Where memory runs out, nothing is changed that is stored.
    pub fn make_room_for(&mut self, alloc: Global, changes: &Changes) -> Result<(), AllocError>
        ensures same { self.new.stored ≡ self.old.stored }
        ensures kept { KeepsRoom self.old.room self.new.room }
        ensures ok { OnOk result (HasRoom self.new.room 1 changes.now) }
        ensures places { self.new.places ≡ self.old.places }
    {
        self.versions.make_room(alloc, changes, 1)
    }

    /// Makes places for so many changes, for who has made room for them one by one. Where memory runs out, nothing is changed that is
    /// stored.
    pub fn make_places(&mut self, count: usize) -> Result<(), AllocError>
        ensures same { self.new.stored ≡ self.old.stored }
        ensures room { self.new.room ≡ self.old.room }
        ensures ok { OnOk result (HasPlaces self.new count) }
    {
        self.logs.reserve(count)
    }

    /// Takes in a release that fits, where there is room for it. It takes no memory.
    ///
    /// A store that shows a history shows it with the commits of the release afterwards.
    pub fn absorb(&mut self, release: Release)
        requires fits { Fits self.old.stored release }
        requires room { HasRoomFor self.old.room release.changes }
        requires places { HasPlaces self.old (change_count release.changes) }
        ensures value { self.new.stored ≡ absorbed self.old.stored release }
        ensures shows { (h : List Batch) (k : List Batch) → Shows h self.old.stored → Brings h release.changes k
            → Shows k self.new.stored }
    {
        install_all(&mut self.versions, &mut self.logs, release.changes);
        self.absorbed = release.to;
    }

    /// Takes in the one change of the one commit of the next release, up to a time, and makes the room that it takes: what `make_room` and
    /// `absorb` do, by one search. Where memory runs out, nothing is changed that is stored.
    pub fn absorb_one(
        &mut self,
        alloc: Global,
        to: Micros,
        commit: &TimedChange,
    ) -> Result<(), AllocError>
        requires one { length commit.now.changes ≡ 1 }
        requires fits { Fits self.old.stored (next_release self.old.stored to (commit.now ∷ [])) }
        ensures value { OnOk result (self.new.stored ≡ absorbed self.old.stored (next_release self.old.stored to (commit.now ∷ []))) }
        ensures err { OnErr result (self.new.stored ≡ self.old.stored) }
        ensures shows { OnOk result ((h : List Batch) (k : List Batch) → Shows h self.old.stored → Brings h (commit.now ∷ []) k
            → Shows k self.new.stored) }
    {
        let change = &commit.changes.as_slice()[0];
        let name = change.name.copy(alloc)?;
        self.logs.reserve(1)?;
        self.versions.install_one(alloc, change, commit.time)?;
        self.logs.note(Noted {
            time: commit.time,
            id: commit.id,
            name,
        });
        self.absorbed = to;
        Ok(())
    }

    /// Raises the floor, up to the end of the last release at most, and drops what no time from there on shows. It takes no
    /// memory.
    ///
    /// A store that shows a history shows the same afterwards.
    pub fn compact(&mut self, floor: Micros)
        requires from { self.old.stored.chains.floor ≤ℤ floor }
        requires to { floor ≤ℤ self.old.stored.absorbed }
        ensures value { self.new.stored ≡ compacted self.old.stored floor }
        ensures shows { (h : List Batch) → Shows h self.old.stored → Shows h self.new.stored }
    {
        self.versions.compact(floor);
        self.logs.cut(floor);
    }
}
