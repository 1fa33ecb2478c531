//! Transactions that are open.
use crate::by_id::ById;
use crate::expired::{Expired, TxnError, error_in, forget_first};
use crate::kind::Kind;
use crate::reading::{hold_all, one, take_back_all};
use crate::txn::{Txn, due_with};
use fs_history::{Read, Reads, all_shown};
use fs_locks::Locks;
use fs_path::{DocName, List, Names};
use fs_status::Id;
use fs_time::Micros;
use std::alloc::{AllocError, Global};
use std::marker::Model;

/// The transactions that are open, and those that expired last. A transaction is open from its begin until it commits, is
/// rolled back, is aborted or expires: at a tick of the clock 60 seconds or more after its last use, or 270 seconds or more
/// after its begin. (v1 reference, "BeginTransaction"; Cloud Firestore documentation, "Transactions and batched writes".)
///
///     begin 1 and 2 at 0 s         1 and 2 are open
///     1 reads c/a at 30 s          a write of c/a touches what 1 has read: `held_by([c/a], 2)` is 1
///     a tick at 60 s               1 is open; 2 expired, since 0 s
///     a tick at 90 s               none is open; 1 expired, since 30 s
///
/// A call costs a logarithm of the number of open ones. A tick goes over all of them, but only where one may expire.
#[derive(Drop)]
pub struct Txns {
    by_id: ById,
    // the last that expired, with room for all that are open
    expired: Vec<Expired>,
    // of the documents that the open ones were shown
    bytes: u128,
    // what the read-write ones have read, held shared
    holds: Locks,
    // in microseconds: none expires at a tick before it
    due: i64,
}

impl Model for Txns {
    ghost use Rattle.fs_txn.specs.Transactions.{Transactions, transactions_code};

    ghost Value = { Transactions };

    ghost coded = { transactions_code };

    ghost use Rattle.std.specs.Vec.{vec_len, vec_capacity};
    ghost use Rattle.fs_txn.specs.Kept.{Holds, IsQuiet};

    ghost view = { λ t. record { «open» = t.by_id; expired = t.expired.items } };

    ghost invariant = { λ t. Holds t.by_id (vec_len t.expired) (vec_capacity t.expired) t.bytes t.holds.shared × IsQuiet t.due t.by_id };
}

impl Txns {
    ghost use Rattle.std.specs.Prelude.{◌≡◌, ◌↔◌, ◌+◌, ◌<◌, ◌^◌, [], None, Some, Err, IsTrue, IsSome, true, IfOk, IfErr, OnOk, OnErr, length, sum_by, unwrap_or};
    ghost use Rattle.std.specs.List.{list_any};
    ghost use Rattle.std.specs.Option.{option_copied};
    ghost use Rattle.fs_history.specs.Bytes.{shown_size as shown_size_of};
    ghost use Rattle.fs_history.specs.Touches.{touches};
    ghost use Rattle.fs_locks.specs.Holds.{IsLeastOther};
    ghost use Rattle.fs_txn.specs.Expiry.{error_of, expired_at};
    ghost use Rattle.fs_txn.specs.Reading.{is_reader, oldest, reads_in, shown_bytes};
    ghost use Rattle.fs_txn.specs.Rising.{IsRising};
    ghost use Rattle.fs_txn.specs.Transactions.{txn_of, expired_of, all_noted, begun, ended, noted, used_at, IsNew};
    ghost use Rattle.fs_txn.specs.Kept.{read_writes};

    /// None is open, and none has expired. The allocator serves those that come.
    pub fn new(alloc: Global) -> Txns
        ensures { result ≡ record { «open» = []; expired = [] } }
    {
        Txns {
            by_id: ById::new(alloc),
            expired: Vec::new(alloc),
            bytes: 0,
            holds: Locks::new(alloc),
            due: i64::MAX,
        }
    }

    /// How many are open.
    pub fn len(&self) -> usize
        ensures value { result ≡ length self.now.open }
        ensures rising { IsRising self.now }
    {
        self.by_id.len()
    }

    /// Whether none is open.
    pub fn is_empty(&self) -> bool
        ensures { IsTrue result ↔ (self.now.open ≡ []) }
    {
        self.by_id.is_empty()
    }

    /// The sizes of the documents that the open ones were shown, in bytes. A read-only one notes no reads, and counts none.
    pub fn bytes(&self) -> u128
        ensures { result ≡ shown_bytes self.now }
    {
        self.bytes
    }

    /// One more is open, that begins at a moment and reads at a time. (v1 reference, "BeginTransaction": `readTime`.)
    /// An error is a want of memory for it.
    pub fn begin(
        &mut self,
        alloc: Global,
        id: Id,
        kind: Kind,
        read_time: Micros,
        now: Micros,
    ) -> Result<(), AllocError>
        requires { IsNew id self.old }
        ensures ok { OnOk result (self.new ≡ begun self.old id kind read_time now) }
        ensures err { OnErr result (self.new ≡ self.old) }
    {
        self.expired.reserve(self.by_id.len() + 1)?;
        self.by_id.insert(Txn {
            id,
            kind,
            read_time,
            begun: now,
            used: now,
            reads: List::new(alloc),
        })?;
        self.due = due_with(self.due, now);
        Ok(())
    }

    /// The open one of an id. An error tells whether it is remembered that it expired.
    pub fn find(&self, id: Id) -> Result<&Txn, TxnError>
        ensures ok { IfOk result (λ t. txn_of id self.now.open ≡ Some t.now) }
        ensures err { IfErr result (λ e. e ≡ error_of (expired_of id self.now.expired)) }
        ensures none { OnErr result (txn_of id self.now.open ≡ None) }
        ensures unknown { (result ≡ Err TxnError.Unknown) ↔ IsNew id self.now }
    {
        match self.by_id.get(id) {
            Some(txn) => Ok(txn),
            None => Err(error_in(self.expired.as_slice(), id)),
        }
    }

    /// An open one is used at a moment and makes a read, which a read-write one notes behind its others. An error is a want of
    /// memory for the read.
    pub fn note_read(
        &mut self,
        alloc: Global,
        id: Id,
        r: Read,
        now: Micros,
    ) -> Result<(), AllocError>
        requires there { IsSome (txn_of id self.old.open) }
        requires fits { shown_bytes self.old + shown_size_of r < 2 ^ 128 }
        ensures ok { OnOk result (self.new ≡ noted self.old id r now) }
        ensures err { OnErr result (self.new ≡ self.old) }
    {
        self.note_reads(alloc, id, one(alloc, r)?, now)
    }

    /// An open one is used at a moment and makes these reads one after another, which a read-write one notes behind its others.
    /// An error is a want of memory for one of them, and then none is noted.
    pub fn note_reads(
        &mut self,
        alloc: Global,
        id: Id,
        reads: Reads,
        now: Micros,
    ) -> Result<(), AllocError>
        requires there { IsSome (txn_of id self.old.open) }
        requires fits { shown_bytes self.old + sum_by shown_size_of reads < 2 ^ 128 }
        ensures ok { OnOk result (self.new ≡ all_noted self.old id reads now) }
        ensures err { OnErr result (self.new ≡ self.old) }
    {
        if self.is_read_write(id) {
            self.add_reads(alloc, id, reads, now)
        } else {
            drop(reads);
            self.use_at(id, now);
            Ok(())
        }
    }

    /// An open one is used at a moment, without a read. It takes no memory.
    pub fn use_at(&mut self, id: Id, now: Micros)
        requires { IsSome (txn_of id self.old.open) }
        ensures { self.new ≡ used_at self.old id now }
    {
        self.by_id.use_at(id, now);
        self.due = due_with(self.due, now);
    }

    /// What the open read-write one of an id has read.
    pub fn reads(&self, id: Id) -> Option<&Reads>
        ensures { option_copied result ≡ reads_in id self.now.open }
    {
        self.by_id.reads(id)
    }

    /// The one of an id is open no more: it committed, was rolled back or was aborted. What it had read, if it was an open
    /// read-write one, is the answer. It takes no memory.
    pub fn end(&mut self, id: Id) -> Option<Reads>
        ensures value { result ≡ reads_in id self.old.open }
        ensures rest { self.new ≡ ended self.old id }
    {
        let txn = self.by_id.remove(id)?;
        self.holds.release_all(id);
        self.bytes -= all_shown(&txn.reads);
        match txn.kind {
            Kind::ReadWrite => Some(txn.reads),
            Kind::ReadOnly => None,
        }
    }

    /// The least open read-write one other than `by` with a read that a write of one of these names touches. It takes no
    /// memory. (Cloud Firestore documentation, "Transaction serializability and isolation".)
    pub fn held_by(&self, names: &Names, by: Id) -> Option<Id>
        ensures { IsLeastOther (λ i. IsTrue (list_any (λ n. is_reader self.now n i) names.now)) by result }
    {
        self.holds.conflict(names, by)
    }

    /// Whether a write of a name touches what the open read-write one of an id has read. It costs a search for the name, and one for each
    /// path with which it begins. (Cloud Firestore documentation, "Transaction serializability and isolation".)
    pub fn has_read(&self, id: Id, name: &DocName) -> bool
        ensures reader { result ≡ is_reader self.now name.now id }
        ensures touches { result ≡ list_any (touches name.now) (unwrap_or (reads_in id self.now.open) []) }
    {
        // (its list is known to rise once it is read)
        let _ = self.by_id.len();
        self.holds.is_touched(id, name)
    }

    /// Whether a write of one of these names does.
    /// (Cloud Firestore documentation, "Transaction serializability and isolation".)
    pub fn touched_by(&self, id: Id, names: &Names) -> bool
        ensures { result ≡ list_any (λ n. is_reader self.now n id) names.now }
    {
        names.as_slice().iter().any(|name| self.has_read(id, name))
    }

    /// The least time at which an open one reads.
    pub fn oldest(&self) -> Option<Micros>
        ensures { result ≡ oldest self.now.open }
    {
        self.by_id.oldest()
    }

    /// The clock ticks: those whose time has run out expire. It takes no memory.
    pub fn expire(&mut self, now: Micros)
        ensures { self.new ≡ expired_at now self.old }
    {
        if now.get() < self.due {
            return;
        }
        self.bytes -= self.by_id.shown_over(now);
        self.by_id.release_over(&mut self.holds, now);
        self.by_id.remember_over(&mut self.expired, now);
        self.by_id.drop_over(now);
        forget_first(&mut self.expired);
        self.due = self.by_id.due();
    }

    // Whether the open one of an id reads and writes.
    fn is_read_write(&self, id: Id) -> bool
        ensures { result ≡ read_writes id self.now.open }
    {
        match self.by_id.get(id) {
            Some(txn) => txn.kind == Kind::ReadWrite,
            None => false,
        }
    }

    // A read-write one is used at a moment, and has these reads more.
    fn add_reads(
        &mut self,
        alloc: Global,
        id: Id,
        reads: Reads,
        now: Micros,
    ) -> Result<(), AllocError>
        requires there { read_writes id self.old.open ≡ true }
        requires fits { shown_bytes self.old + sum_by shown_size_of reads < 2 ^ 128 }
        ensures ok { OnOk result (self.new ≡ all_noted self.old id reads now) }
        ensures err { OnErr result (self.new ≡ self.old) }
    {
        let count = reads.len();
        let size = all_shown(&reads);
        hold_all(alloc, &mut self.holds, id, reads.as_slice())?;
        if let Err(error) = self.by_id.append_reads(alloc, id, reads) {
            take_back_all(&mut self.holds, id, count);
            return Err(error);
        }
        self.by_id.use_at(id, now);
        self.due = due_with(self.due, now);
        self.bytes += size;
        Ok(())
    }
}
