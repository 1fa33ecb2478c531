//! What was changed, by shard.
ghost use Rattle.std.specs.Prelude.{◌≡◌, ◌-◌, ◌<◌, ◌≤◌, ◌∷◌, ◌++◌, [], OnOk, length, map, slice_index_or, slice_set};
ghost use Rattle.fs_store.specs.Logs.{AllBy, HavePlaces, all_cut, log_of};

use crate::log::Log;
use crate::noted::Noted;
use fs_path::{DocName, shard_of_document};
use fs_status::Id;
use fs_time::Micros;
use fs_write::{Change, Changes};
use std::alloc::{AllocError, Global};
use std::array;
use std::marker::Model;

// Makes room for so many changes more in each of the first logs.
fn reserve_first(logs: &mut [Log], count: usize, more: usize) -> Result<(), AllocError>
    requires { count ≤ length logs.old }
    ensures same { map (λ l. l.entries) logs.new ≡ map (λ l. l.entries) logs.old }
    ensures ok { OnOk result (HavePlaces count (map (λ l. l.room) logs.new) more) }
{
    for i in 0..count {
        logs[i].reserve(more)?;
    }
    Ok(())
}

fn name_of(change: Change) -> DocName
    ensures { result ≡ change.name }
{
    change.name
}

// Adds a change to the log at a place.
fn push_at(logs: &mut [Log], i: usize, noted: Noted)
    requires place { i < length logs.old }
    requires later { AllBy (map (λ l. l.entries) logs.old) noted.time }
    requires room { 1 ≤ slice_index_or (map (λ l. l.room) logs.old) i 0 }
    ensures entries { map (λ l. l.entries) logs.new
        ≡ slice_set (map (λ l. l.entries) logs.old) i (log_of (map (λ l. l.entries) logs.old) i ++ noted ∷ []) }
    ensures rooms { map (λ l. l.room) logs.new
        ≡ slice_set (map (λ l. l.room) logs.old) i (slice_index_or (map (λ l. l.room) logs.old) i 0 - 1) }
{
    logs[i].push(noted);
}

// Drops from each log what was changed up to a time.
fn cut_all(logs: &mut [Log], floor: Micros)
    ensures { map (λ l. l.entries) logs.new ≡ all_cut floor (map (λ l. l.entries) logs.old) }
{
    for i in 0..logs.len() {
        logs[i].cut(floor);
    }
}

/// What was changed in each shard, of a number of shards from 1 to 16. With four shards `c` is in shard 3 and `d` in shard 0:
///
///     a commit at 5 of c/a and d/a      0: 5 d/a     3: 5 c/a
///     one at 7 of c/b                   0: 5 d/a     3: 5 c/a, 7 c/b
///
/// So who follows a shard goes over no other's changes.
#[derive(Drop)]
pub(crate) struct Logs {
    shards: u32,
    // behind the last shard they stay empty
    logs: [Log; 16],
}

impl Model for Logs {
    ghost use Rattle.std.specs.Prelude.{map};
    ghost use Rattle.fs_store.specs.Logs.{Sharded, sharded_code};

    ghost Value = { Sharded };

    ghost coded = { sharded_code };

    ghost use Rattle.fs_path.specs.Scope.{AreShards};

    ghost view = { λ l. record { shards = l.shards; logs = map (λ x. x.entries) l.logs; rooms = map (λ x. x.room) l.logs } };

    ghost invariant = { λ l. AreShards l.shards };
}

impl Logs {
    ghost use Rattle.std.specs.Prelude.{◌≡◌, ◌+◌, ◌-◌, ◌<◌, ◌≤◌, [], ℕ, OnOk, length, map, slice_index_or, slice_set};
    ghost use Rattle.fs_path.specs.Scope.{shard_of, AreShards};
    ghost use Rattle.fs_store.specs.Logged.{noted_between};
    ghost use Rattle.fs_store.specs.Logs.{AllBy, HavePlaces, log_of, all_cut, none_noted, with_all_noted, with_noted};
    ghost use Rattle.fs_store.specs.Noted.{names_of, noted_names};

    // Nothing changed yet.
    pub(crate) fn new(alloc: Global, shards: u32) -> Logs
        requires { AreShards shards }
        ensures shards { result.shards ≡ shards }
        ensures none { result.logs ≡ none_noted }
    {
        Logs {
            shards,
            logs: array::from_fn(
                |_|
                    ensures { result.entries ≡ [] }
                { Log::new(alloc) },
            ),
        }
    }

    pub(crate) fn shards(&self) -> u32
        ensures value { result ≡ self.now.shards }
        ensures some { AreShards self.now.shards }
    {
        self.shards
    }

    // Makes room for so many changes more in each shard.
    pub(crate) fn reserve(&mut self, more: usize) -> Result<(), AllocError>
        ensures shards { self.new.shards ≡ self.old.shards }
        ensures same { self.new.logs ≡ self.old.logs }
        ensures ok { OnOk result (HavePlaces self.new.shards self.new.rooms more) }
    {
        reserve_first(&mut self.logs, self.shards as usize, more)
    }

    // Notes a change that is no earlier than any that is there.
    pub(crate) fn note(&mut self, noted: Noted)
        requires later { AllBy self.old.logs noted.time }
        requires room { 1 ≤ slice_index_or self.old.rooms (shard_of self.old.shards noted.name) 0 }
        ensures shards { self.new.shards ≡ self.old.shards }
        ensures logs { self.new.logs ≡ with_noted self.old.shards self.old.logs noted }
        ensures rooms { self.new.rooms ≡ slice_set self.old.rooms (shard_of self.old.shards noted.name)
            (slice_index_or self.old.rooms (shard_of self.old.shards noted.name) 0 - 1) }
        ensures by { AllBy self.new.logs noted.time }
    {
        let shard = shard_of_document(&noted.name, self.shards);
        push_at(&mut self.logs, shard as usize, noted);
    }

    // Notes the changes of a commit, each in its shard, where there is room for them.
    pub(crate) fn note_all(&mut self, time: Micros, id: Id, changes: Changes)
        requires later { AllBy self.old.logs time }
        requires room { HavePlaces self.old.shards self.old.rooms (length changes) }
        ensures shards { self.new.shards ≡ self.old.shards }
        ensures logs { self.new.logs ≡ with_all_noted self.old.shards self.old.logs (noted_names time id (names_of changes)) }
        ensures rooms { (n : ℕ) → HavePlaces self.old.shards self.old.rooms (length changes + n) → HavePlaces self.new.shards self.new.rooms n }
        ensures by { AllBy self.new.logs time }
    {
        // Whose field is looked at, what always holds of it is known.
        let _ = &self.shards;
        for change in changes.into_vec() {
            let name = name_of(change);
            self.note(Noted { time, id, name });
        }
    }

    // What was changed in a shard behind a time, up to another.
    pub(crate) fn between(&self, shard: u32, from: Micros, to: Micros) -> &[Noted]
        requires { shard < self.now.shards }
        ensures { result.now ≡ noted_between from to (log_of self.now.logs shard) }
    {
        self.logs[shard as usize].between(from, to)
    }

    // Drops what was changed up to a time.
    pub(crate) fn cut(&mut self, floor: Micros)
        ensures shards { self.new.shards ≡ self.old.shards }
        ensures logs { self.new.logs ≡ all_cut floor self.old.logs }
    {
        cut_all(&mut self.logs, floor);
    }
}
