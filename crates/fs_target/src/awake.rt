//! The targets of a session, each at positions of its own.
ghost use Rattle.std.specs.Prelude.{◌≡◌, ◌<◌, ◌≤◌, [], ℕ, ℤ, Option, None, Some, false, IfErr, IfOk, IsTrue, OnErr, OnOk, alloc_error, insert, length, map};
ghost use Rattle.std.specs.FinMap.{is_sorted};
ghost use Rattle.std.specs.List.{remove};
ghost use Rattle.fs_path.specs.NameOrder.{name_cmp};
ghost use Rattle.fs_path.specs.Scope.{AreShards};
ghost use Rattle.fs_value.specs.Named.{by_name};
ghost use Rattle.fs_write.specs.Batch.{docs_of};
ghost use Rattle.fs_listen.specs.Listening.{positions_at};
ghost use Rattle.fs_target.specs.Collections.{HasAll, HasThoseOf};
ghost use Rattle.fs_target.specs.Entries.{IsAbsentAt, IsKeptOut, IsThereAt, Rises};
ghost use Rattle.fs_target.specs.Held.{refusal};
ghost use Rattle.fs_target.specs.Seen.{held_of, loaded_in, seen};

use crate::collections::Collections;
use crate::cuts;
use crate::entry::{Entry, Loaded, find, id_after, place_of, put_loaded};
use crate::error::TargetError;
use crate::event::{TimedEvent, TimedEvents};
use crate::feed::{prepare_all, take_all};
use crate::kept::Kept;
use crate::positions::{position_in, positions_at};
use crate::raise::{go_all, make_all_next, messages_at};
use crate::still::{Still, all_joined, all_will_be, write_all};
use fs_listen::Cut;
use fs_path::DocName;
use fs_query::{ListenMessage, Target};
use fs_time::Micros;
use fs_value::Documents;
use std::alloc::{AllocError, Global};
use std::marker::Model;

/// The targets of a session, by rising ids, each at positions of its own. What is asked of all of them, and what happens to all of them, takes a
/// look at each.
#[derive(Drop)]
pub(crate) struct Awake {
    shards: u32,
    limit: u64,
    // the time of the last raise
    raised: Option<Micros>,
    // by rising ids
    entries: Vec<Entry>,
    // those that the entries listen to, and maybe more
    collections: Collections,
}

impl Model for Awake {
    ghost use Rattle.fs_target.specs.Prepared.{Prepared, prepared_code};

    ghost Value = { Prepared };

    ghost coded = { prepared_code };

    ghost use Rattle.std.specs.Prelude.{map};
    ghost use Rattle.fs_path.specs.Scope.{AreShards};
    ghost use Rattle.fs_target.specs.Collections.{HasAll};
    ghost use Rattle.fs_target.specs.Entries.{Rises};
    ghost use Rattle.fs_target.specs.Seen.{seen};

    ghost view = { λ t. record { shards = t.shards; limit = t.limit; raised = t.raised; entries = t.entries.items } };

    ghost invariant = { λ t. AreShards t.shards × (Rises (map seen t.entries.items) × HasAll t.collections.ids (map seen t.entries.items)) };
}

// The place for one more target, or why there is none.
fn place_for(entries: &[Entry], limit: u64, id: u32) -> Result<usize, TargetError>
    requires { Rises (map seen entries.now) }
    ensures place { IfOk result (IsAbsentAt id (map seen entries.now)) }
    ensures ok { (shards : ℕ) (raised : Option ℤ) → OnOk result (refusal id (held_of shards limit raised (map seen entries.now)) ≡ None) }
    ensures err { (shards : ℕ) (raised : Option ℤ) → IfErr result (λ e. refusal id (held_of shards limit raised (map seen entries.now)) ≡ Some e) }
{
    if entries.len() as u64 >= limit {
        return Err(TargetError::TooMany(limit));
    }
    match place_of(entries, u64::from(id)) {
        Ok(_) => Err(TargetError::InUse(id)),
        Err(i) => Ok(i),
    }
}

fn take_out(entries: &mut Vec<Entry>, i: usize)
    requires { i < length entries.old.items }
    ensures { entries.new.items ≡ remove entries.old.items i }
{
    drop(entries.remove(i));
}

// The place for one more target, whose collections are put in, or why there is none.
fn make_way(
    entries: &[Entry],
    collections: &mut Collections,
    limit: u64,
    id: u32,
    target: &Target,
) -> Result<usize, TargetError>
    requires rise { Rises (map seen entries.now) }
    requires had { HasAll collections.old.ids (map seen entries.now) }
    ensures place { IfOk result (IsAbsentAt id (map seen entries.now)) }
    ensures kept { HasAll collections.new.ids (map seen entries.now) }
    ensures put { OnOk result (HasThoseOf collections.new.ids target.now) }
    ensures ok { (shards : ℕ) (raised : Option ℤ) → OnOk result (refusal id (held_of shards limit raised (map seen entries.now)) ≡ None) }
    ensures err { (shards : ℕ) (raised : Option ℤ) → IfErr result (IsKeptOut (refusal id (held_of shards limit raised (map seen entries.now)))) }
{
    let i = match place_for(entries, limit, id) {
        Ok(i) => i,
        Err(refusal) => return Err(refusal),
    };
    match collections.add(entries, target) {
        Ok(()) => Ok(i),
        Err(error) => Err(TargetError::Memory(error)),
    }
}

fn put_in(entries: &mut Vec<Entry>, i: usize, entry: Entry) -> Result<(), TargetError>
    requires { i ≤ length entries.old.items }
    ensures ok { OnOk result (entries.new.items ≡ insert entries.old.items i entry) }
    ensures err { OnErr result (entries.new.items ≡ entries.old.items) }
    ensures memory { IfErr result (λ e. e ≡ TargetError.Memory alloc_error) }
{
    Ok(entries.insert(i, entry)?)
}

// The place of a target that is there.
fn place_there(entries: &[Entry], id: u32) -> usize
    requires rise { Rises (map seen entries.now) }
    requires there { (i : ℕ) → IsAbsentAt id (map seen entries.now) i → ⊥ }
    ensures { IsThereAt id (map seen entries.now) result }
{
    match place_of(entries, u64::from(id)) {
        Ok(i) => i,
        Err(_) => unreachable!(),
    }
}

// What a target is at that is loaded at a time.
fn loaded_at(
    alloc: Global,
    shards: u32,
    target: &Target,
    sent: Documents,
    reset: bool,
    docs: Documents,
    time: Micros,
) -> Result<Loaded, AllocError>
    requires shards { AreShards shards }
    requires sent { IsTrue (is_sorted name_cmp (by_name sent)) }
    requires docs { IsTrue (is_sorted name_cmp (by_name docs)) }
    ensures loaded { IfOk result (λ l. loaded_in l ≡ record { time = time; reset = reset; positions = positions_at shards target.now time; current = false }) }
    ensures kept { IfOk result (λ l. l.kept.kept ≡ record { sent = docs_of sent; docs = docs_of docs; staged = [] }) }
{
    let kept = Kept::new(alloc, sent, docs)?;
    Ok(Loaded {
        time,
        reset,
        positions: positions_at(alloc, shards, target, time)?,
        current: false,
        kept,
    })
}

impl Awake {
    ghost use Rattle.std.specs.Prelude.{◌≡◌, ◌<◌, Err, IfErr, IfOk, IfSome, IsFalse, IsTrue, List, None, OnErr, OnOk, alloc_error, is_some, map, option_copied, option_map};
    ghost use Rattle.std.specs.Option.{option_and_then};
    ghost use Rattle.std.specs.FinMap.{entries, get, is_sorted, keys, len};
    ghost use Rattle.std.specs.List.{AllByRecursion};
    ghost use Rattle.fs_path.specs.NameOrder.{name_cmp};
    ghost use Rattle.fs_path.specs.Scope.{AreShards};
    ghost use Rattle.fs_value.specs.Named.{by_name};
    ghost use Rattle.fs_listen.specs.Cuts.{base, cut, first_loading, is_loaded, is_ready, least, least_position};
    ghost use Rattle.fs_listen.specs.Listening.{Listened};
    ghost use Rattle.fs_target.specs.Entries.{IsKeptOut, gone_to};
    ghost use Rattle.fs_target.specs.Held.{IsListenedByNone, IsUnloaded, fed, id_after, none_held, position_in, positions_in, raised_at, refusal, staged_of, with_loaded, with_target, without_target};
    ghost use Rattle.fs_target.specs.Prepared.{ArePrepared, AreReady, held_in};
    ghost use Rattle.fs_target.specs.Raise.{kept_told};
    ghost use Rattle.fs_target.specs.Seen.{seen};
    ghost use Rattle.fs_target.specs.Staged.{IsNamed};
    ghost use Rattle.fs_target.specs.Still.{WillStand, standing};
    ghost use Rattle.fs_target.specs.declared.event.TimedEvent.{TimedEvent};

    /// No targets, of a session of a server with so many shards, 1 to 16, and of which there may be as many as the limit.
    pub(crate) fn new(alloc: Global, shards: u32, limit: u64) -> Awake
        requires { AreShards shards }
        ensures { held_in result ≡ none_held shards limit }
    {
        Awake {
            shards,
            limit,
            raised: None,
            entries: Vec::new(alloc),
            collections: Collections::new(alloc),
        }
    }

    /// Adds a target, with the time that its resume token shows. It isn't loaded. Of two refusals the limit comes first.
    pub(crate) fn add(
        &mut self,
        id: u32,
        target: Target,
        token: Option<Micros>,
    ) -> Result<(), TargetError>
        ensures ok { OnOk result (held_in self.new ≡ with_target id target token (held_in self.old)) }
        ensures err { OnErr result (held_in self.new ≡ held_in self.old) }
        ensures none { OnOk result (refusal id (held_in self.old) ≡ None) }
        ensures refused { IfErr result (IsKeptOut (refusal id (held_in self.old))) }
    {
        let entries = self.entries.as_slice();
        let i = match make_way(entries, &mut self.collections, self.limit, id, &target) {
            Ok(i) => i,
            Err(refusal) => {
                drop(target);
                return Err(refusal);
            }
        };
        let entry = Entry {
            id,
            target,
            token,
            loaded: None,
        };
        put_in(&mut self.entries, i, entry)?;
        Ok(())
    }

    /// Removes a target, and what is kept of it.
    pub(crate) fn remove(&mut self, id: u32) -> Result<(), TargetError>
        ensures ok { OnOk result ((held_in self.new ≡ without_target id (held_in self.old)) × IsTrue (is_some (get (held_in self.old).listening.targets id))) }
        ensures err { OnErr result (held_in self.new ≡ held_in self.old) }
        ensures unknown { IfErr result (λ e. (e ≡ TargetError.Unknown id) × (get (held_in self.old).listening.targets id ≡ None)) }
    {
        match place_of(self.entries.as_slice(), u64::from(id)) {
            Ok(i) => {
                take_out(&mut self.entries, i);
                Ok(())
            }
            Err(_) => Err(TargetError::Unknown(id)),
        }
    }

    /// Loads a target that isn't loaded, with the view that was sent of it and all documents that it listens to at a time, each by rising names.
    pub(crate) fn load(
        &mut self,
        alloc: Global,
        id: u32,
        sent: Documents,
        reset: bool,
        docs: Documents,
        time: Micros,
    ) -> Result<(), AllocError>
        requires there { IsUnloaded (get (held_in self.old).listening.targets id) }
        requires sent { IsTrue (is_sorted name_cmp (by_name sent)) }
        requires docs { IsTrue (is_sorted name_cmp (by_name docs)) }
        ensures ok { OnOk result (held_in self.new ≡ with_loaded id sent reset docs time (held_in self.old)) }
        ensures err { OnErr result (held_in self.new ≡ held_in self.old) }
    {
        let i = place_there(self.entries.as_slice(), id);
        let target = &self.entries[i].target;
        let loaded = loaded_at(alloc, self.shards, target, sent, reset, docs, time)?;
        put_loaded(self.entries.as_mut_slice(), i, loaded);
        Ok(())
    }

    /// Makes the events of a shard ready to be taken in: of each target those behind its position there. What is asked of the targets stays the
    /// same until `take_in`, so where none follows nothing has to be undone: the next `prepare` forgets what was made ready.
    pub(crate) fn prepare(
        &mut self,
        alloc: Global,
        shard: u32,
        events: &[TimedEvent],
    ) -> Result<(), AllocError>
        requires named { AllByRecursion IsNamed events.now }
        ensures same { held_in self.new ≡ held_in self.old }
        ensures ok { OnOk result (ArePrepared shard events.now self.new) }
    {
        prepare_all(alloc, self.entries.as_mut_slice(), shard, events)
    }

    /// Takes in the events of a shard up to a time, without memory. `prepare` has made them ready before, with no other change in between:
    /// else nothing is promised of what is kept.
    pub(crate) fn take_in(&mut self, shard: u32, to: Micros)
        ensures { (es : List TimedEvent) → ArePrepared shard es self.old → held_in self.new ≡ fed shard es to (held_in self.old) }
    {
        take_all(self.entries.as_mut_slice(), shard, to);
    }

    /// The time up to which each of the targets has been told each of its shards, or why there is none.
    pub(crate) fn cut(&self) -> Cut
        ensures { result ≡ cut (held_in self.now).listening }
    {
        cuts::cut(self.entries.as_slice())
    }

    /// How many there are.
    pub(crate) fn len(&self) -> usize
        ensures { result ≡ len (held_in self.now).listening.targets }
    {
        self.entries.len()
    }

    /// The least position of those that are loaded.
    pub(crate) fn least_position(&self) -> Option<Micros>
        ensures { result ≡ least_position (held_in self.now).listening }
    {
        cuts::least_of_all(self.entries.as_slice())
    }

    /// The time below which the session isn't raised: the greatest of the last raise, of what tokens show, and of what targets were loaded at.
    pub(crate) fn base(&self) -> Option<Micros>
        ensures { result ≡ base (held_in self.now).listening }
    {
        cuts::base(&self.raised, self.entries.as_slice())
    }

    /// The least position in a shard of those that are loaded.
    pub(crate) fn least_in(&self, shard: u32) -> Option<Micros>
        ensures { result ≡ least (positions_in shard (held_in self.now)) }
    {
        cuts::least_in(self.entries.as_slice(), shard)
    }

    /// The time of the last raise.
    pub(crate) fn raised(&self) -> Option<Micros>
        ensures { result ≡ self.now.raised }
    {
        self.raised
    }

    /// Whether the session can be raised at its cut.
    pub(crate) fn ready(&self) -> bool
        ensures { result ≡ is_ready (held_in self.now).listening }
    {
        cuts::ready(&self.raised, self.entries.as_slice())
    }

    /// The least id of a target that isn't loaded.
    pub(crate) fn unloaded(&self) -> Option<u32>
        ensures { result ≡ first_loading (entries (held_in self.now).listening.targets) }
    {
        cuts::first_loading(self.entries.as_slice())
    }

    /// The least id of a target, or the least above one.
    pub(crate) fn after(&self, id: Option<u32>) -> Option<u32>
        ensures { result ≡ id_after id (keys (held_in self.now).listening.targets) }
    {
        id_after(self.entries.as_slice(), id)
    }

    // The entry of a target.
    fn entry(&self, id: u32) -> Option<&Entry>
        ensures listened { option_map (λ e. (seen e.now).listened) result ≡ get (held_in self.now).listening.targets id }
        ensures kept { option_map (λ e. (seen e.now).kept) result ≡ get (held_in self.now).kept id }
    {
        find(self.entries.as_slice(), id)
    }

    /// Whether a document of this name may be one that a target listens to.
    pub(crate) fn may_listen(&self, name: &DocName) -> bool
        ensures { IsFalse result → IsListenedByNone name.now (held_in self.now) }
    {
        self.collections.have(name)
    }

    /// What a target listens to.
    pub(crate) fn target(&self, id: u32) -> Option<&Target>
        ensures { option_copied result ≡ option_map (λ (l : Listened). l.target) (get (held_in self.now).listening.targets id) }
    {
        match self.entry(id) {
            Some(entry) => Some(&entry.target),
            None => None,
        }
    }

    /// The time that the resume token of a target shows.
    pub(crate) fn token(&self, id: u32) -> Option<Micros>
        ensures { result ≡ option_and_then (λ (l : Listened). l.token) (get (held_in self.now).listening.targets id) }
    {
        match self.entry(id) {
            Some(entry) => entry.token,
            None => None,
        }
    }

    /// The time up to which a target that is loaded was told a shard that it has.
    pub(crate) fn position(&self, id: u32, shard: u32) -> Option<Micros>
        ensures { result ≡ position_in shard (get (held_in self.now).listening.targets id) }
    {
        let loaded = self.entry(id)?.loaded.as_ref()?;
        position_in(loaded.positions.as_slice(), shard)
    }

    /// Whether a target is loaded.
    pub(crate) fn loaded(&self, id: u32) -> Option<bool>
        ensures { result ≡ option_map (λ (l : Listened). is_loaded l.loaded) (get (held_in self.now).listening.targets id) }
    {
        match self.entry(id) {
            Some(entry) => Some(entry.loaded.is_some()),
            None => None,
        }
    }

    /// The events that are staged of a target that is loaded, by time and then by name: those behind its base.
    pub(crate) fn staged(&self, id: u32) -> Option<&[TimedEvent]>
        ensures { option_copied result ≡ staged_of (get (held_in self.now).kept id) }
    {
        let loaded = self.entry(id)?.loaded.as_ref()?;
        Some(loaded.kept.staged())
    }

    /// Makes the views ready that the targets are to go to by a raise at a time. What is asked of these stays the same until `go_to`, so where
    /// none follows nothing has to be undone: the next `make_ready` forgets what was made ready.
    pub(crate) fn make_ready(&mut self, alloc: Global, time: Micros) -> Result<(), AllocError>
        ensures same { held_in self.new ≡ held_in self.old }
        ensures ok { OnOk result (AreReady time self.new) }
    {
        make_all_next(alloc, self.entries.as_mut_slice(), time)?;
        Ok(())
    }

    /// What a raise at a time says, for which the views were made ready.
    pub(crate) fn messages(
        &self,
        alloc: Global,
        time: Micros,
    ) -> Result<Vec<ListenMessage>, AllocError>
        ensures { AreReady time self.now → IfOk result (λ v. v.items ≡ kept_told time (held_in self.now)) }
    {
        messages_at(alloc, self.entries.as_slice(), time)
    }

    /// Goes to a time, without memory, and is raised there. `make_ready` has made the views ready before, with no other change in between: else
    /// nothing is promised of what is kept.
    pub(crate) fn go_to(&mut self, time: Micros)
        ensures held { AreReady time self.old → held_in self.new ≡ raised_at time (held_in self.old) }
        ensures each { map seen self.new.entries ≡ map (gone_to time) self.old.entries }
    {
        go_all(self.entries.as_mut_slice(), time);
        self.raised = Some(time);
    }

    // ---- standing still

    /// What they are to stand still with once they are raised at a time, if they will.
    pub(crate) fn next_still(
        &self,
        alloc: Global,
        time: Micros,
    ) -> Result<Option<Still>, AllocError>
        ensures { IfOk result (λ o. IfSome o (λ s. WillStand time s self.now)) }
    {
        let positions = all_joined(alloc, self.shards, self.entries.as_slice())?;
        let base = cuts::base(&None, self.entries.as_slice());
        if all_will_be(self.entries.as_slice(), positions.as_slice(), time) {
            Ok(Some(Still { positions, base }))
        } else {
            Ok(None)
        }
    }

    /// Is raised at a time at which nothing changes.
    pub(crate) fn raise_to(&mut self, time: Micros)
        ensures { self.new ≡ record self.old { raised = Some time } }
    {
        self.raised = Some(time);
    }

    /// Writes the positions of the shards into those of each target, without memory.
    pub(crate) fn write_positions(&mut self, positions: &[Option<Micros>])
        ensures { held_in self.new ≡ held_in (standing positions.now self.old) }
    {
        write_all(self.entries.as_mut_slice(), positions);
    }
}
