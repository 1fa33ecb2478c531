//! The open transactions, each at its id.
ghost use Rattle.std.specs.Prelude.{◌≡◌, ◌++◌, OnOk, OnErr};
ghost use Rattle.fs_txn.specs.Reading.{earlier as earlier_of};

use crate::expired::{Expired, gone_at};
use crate::kind::Kind;
use crate::txn::{Txn, end_of, is_over};
use fs_history::{Reads, all_shown};
use fs_locks::Locks;
use fs_path::List;
use fs_status::Id;
use fs_time::Micros;
use std::alloc::{AllocError, Global};
use std::collections::BTreeMap;
use std::marker::Model;
use std::mem;

/// The open transactions. Contracts see them as a list, by rising id.
#[derive(Drop)]
pub(crate) struct ById {
    txns: BTreeMap<Id, Txn>,
}

impl Model for ById {
    ghost use Rattle.std.specs.Prelude.{List as Items};
    ghost use Rattle.std.specs.Coded.{coded_list};
    ghost use Rattle.fs_txn.specs.contracts.txn.Txn as txn;
    ghost use Rattle.fs_txn.specs.declared.txn.Txn.{Txn};

    ghost Value = { Items Txn };

    ghost coded = { coded_list txn.the_row.coded };

    ghost use Rattle.fs_txn.specs.Kept.{txns as listed, AreById};

    ghost view = { λ b. listed b.txns.entries };

    ghost invariant = { λ b. AreById b.txns.entries };
}

impl ById {
    ghost use Rattle.std.specs.Prelude.{◌≡◌, ◌↔◌, ◌+◌, ◌^◌, ◌<◌, ◌≤◌, ◌==◌, ◌++◌, [], None, OnOk, OnErr, IsTrue, IsSome, not, length, map};
    ghost use Rattle.std.specs.List.{filter};
    ghost use Rattle.std.specs.Option.{option_copied};
    ghost use Rattle.std.specs.Vec.{vec_len, vec_capacity};
    ghost use Rattle.fs_txn.specs.Expiry.{gone, is_over, over};
    ghost use Rattle.fs_txn.specs.Kept.{IsQuiet, Releases};
    ghost use Rattle.fs_txn.specs.Reading.{oldest, reads_in, shown_to_all};
    ghost use Rattle.fs_txn.specs.Rising.{Rise};
    ghost use Rattle.fs_txn.specs.Transactions.{txn_of, put_in, changed_at};

    pub(crate) fn new(alloc: Global) -> ById
        ensures { result ≡ [] }
    {
        ById {
            txns: BTreeMap::new(alloc),
        }
    }

    pub(crate) fn len(&self) -> usize
        ensures value { result ≡ length self.now }
        ensures few { length self.now < 2 ^ 63 }
        ensures rise { Rise self.now }
    {
        self.txns.len()
    }

    pub(crate) fn is_empty(&self) -> bool
        ensures { IsTrue result ↔ (self.now ≡ []) }
    {
        self.txns.is_empty()
    }

    pub(crate) fn get(&self, id: Id) -> Option<&Txn>
        ensures value { option_copied result ≡ txn_of id self.now }
        ensures rise { Rise self.now }
    {
        self.txns.get(&id)
    }

    // What the read-write one of an id has read.
    pub(crate) fn reads(&self, id: Id) -> Option<&Reads>
        ensures value { option_copied result ≡ reads_in id self.now }
        ensures rise { Rise self.now }
    {
        match self.get(id) {
            Some(txn) if txn.kind == Kind::ReadWrite => Some(&txn.reads),
            _ => None,
        }
    }

    pub(crate) fn insert(&mut self, txn: Txn) -> Result<(), AllocError>
        requires { txn_of txn.id self.old ≡ None }
        ensures ok { OnOk result (self.new ≡ put_in txn self.old) }
        ensures err { OnErr result (self.new ≡ self.old) }
    {
        self.txns.insert(txn.id, txn)?;
        Ok(())
    }

    pub(crate) fn use_at(&mut self, id: Id, now: Micros)
        requires { IsSome (txn_of id self.old) }
        ensures { self.new ≡ changed_at id (λ t. record t { used = now }) self.old }
    {
        self.txns.get_mut(&id).unwrap().used = now;
    }

    // Notes reads. It counts as no use.
    pub(crate) fn append_reads(
        &mut self,
        alloc: Global,
        id: Id,
        reads: Reads,
    ) -> Result<(), AllocError>
        requires { IsSome (txn_of id self.old) }
        ensures ok { OnOk result (self.new ≡ changed_at id (λ t. record t { reads = t.reads ++ reads }) self.old) }
        ensures err { OnErr result (self.new ≡ self.old) }
    {
        append(alloc, &mut self.txns.get_mut(&id).unwrap().reads, reads)
    }

    pub(crate) fn remove(&mut self, id: Id) -> Option<Txn>
        ensures rise { Rise self.old }
        ensures value { result ≡ txn_of id self.old }
        ensures rest { self.new ≡ filter (λ t. not (t.id == id)) self.old }
    {
        self.txns.remove(&id)
    }

    // Those that expire at a tick are open no more.
    pub(crate) fn drop_over(&mut self, now: Micros)
        ensures rest { self.new ≡ filter (λ t. not (is_over now t)) self.old }
        ensures rise { Rise self.old }
    {
        self.txns.retain(|_, txn| !is_over(txn, now));
    }

    // What those were shown that expire at a tick, in bytes.
    pub(crate) fn shown_over(&self, now: Micros) -> u128
        requires { shown_to_all self.now < 2 ^ 128 }
        ensures { result ≡ shown_to_all (over now self.now) }
    {
        let mut bytes: u128 = 0;
        for (_, txn) in &self.txns {
            if is_over(txn, now) {
                bytes += all_shown(&txn.reads);
            }
        }
        bytes
    }

    // Remembers those that expire at a tick. There is room for all.
    pub(crate) fn remember_over(&self, expired: &mut Vec<Expired>, now: Micros)
        requires { length self.now + vec_len expired.old ≤ vec_capacity expired.old }
        ensures items { expired.new.items ≡ expired.old.items ++ map (gone now) (over now self.now) }
        ensures len { vec_len expired.new ≡ vec_len expired.old + length (over now self.now) }
        ensures capacity { vec_capacity expired.new ≡ vec_capacity expired.old }
    {
        for (_, txn) in &self.txns {
            if is_over(txn, now) {
                expired.push_reserved(gone_at(txn, now));
            }
        }
    }

    // Those that expire at a tick hold nothing any more.
    pub(crate) fn release_over(&self, holds: &mut Locks, now: Micros)
        ensures { Releases holds.old.shared holds.new.shared now self.now }
    {
        for (id, txn) in &self.txns {
            if is_over(txn, now) {
                holds.release_all(*id);
            }
        }
    }

    // A moment before which none expires, in microseconds.
    pub(crate) fn due(&self) -> i64
        ensures { IsQuiet result self.now }
    {
        let mut due = i64::MAX;
        for (_, txn) in &self.txns {
            due = due.min(end_of(txn));
        }
        due
    }

    // The least time at which one reads.
    pub(crate) fn oldest(&self) -> Option<Micros>
        ensures { result ≡ oldest self.now }
    {
        let mut oldest = None;
        for (_, txn) in &self.txns {
            oldest = Some(earlier(oldest, txn.read_time));
        }
        oldest
    }
}

// The earlier of two times, or the one that is there.
fn earlier(other: Option<Micros>, time: Micros) -> Micros
    ensures { result ≡ earlier_of other time }
{
    match other {
        Some(other) if other < time => other,
        _ => time,
    }
}

// Puts reads behind others. Where memory runs out, these stay as they are.
fn append(alloc: Global, reads: &mut Reads, more: Reads) -> Result<(), AllocError>
    ensures ok { OnOk result (reads.new ≡ reads.old ++ more) }
    ensures err { OnErr result (reads.new ≡ reads.old) }
{
    let mut items = mem::replace(reads, List::new(alloc)).into_vec();
    let appended = items.append(&mut more.into_vec());
    *reads = List::of(items);
    appended
}
