//! Calls that the program doesn't make, and a value of a depth that none from a script has.
use crate::short::{fields_of, micros, name};
use fs_history::{Batch, Journal, Read, Reads, shown_size};
use fs_status::Id;
use fs_time::Micros;
use fs_txn::{Kind, TxnError, Txns};
use fs_value::{Document, Value, Values, compare, depth, same};
use fs_versions::Versions;
use fs_write::{Change, Writes};
use std::alloc::Global;
use std::cmp::Ordering;
use std::process::Abort;

// ---- values

fn in_array(rt: &impl Abort, alloc: Global, inner: Value) -> Value {
    let mut values = Values::new(alloc);
    values.push(inner).expect(rt, "memory");
    Value::Array(values)
}

// A value of depth 100, of arrays, with a truth value at its bottom.
fn nested(rt: &impl Abort, alloc: Global, bottom: bool) -> Value {
    let mut value = Value::Boolean(bottom);
    for _ in 1..100 {
        value = in_array(rt, alloc, value);
    }
    value
}

fn is_above(deep: Value, copied: Value, other: Value) -> bool {
    same(&deep, &copied) && compare(&deep, &other) == Ordering::Greater && depth(&other) == 100
}

// A comparison that came twice to each inner value would not end.
#[test]
fn values_of_depth_100_are_compared(rt: HostRuntime) {
    let alloc = rt.alloc();
    let (deep, other) = (nested(&rt, alloc, true), nested(&rt, alloc, false));
    let copied = deep.copy(alloc).expect(&rt, "memory");
    assert!(rt; is_above(deep, copied, other));
}

// ---- versions

// `c/a` is made at a time.
fn creation(rt: &impl Abort, alloc: Global, time: Micros) -> Change {
    let after = Document {
        name: name(rt, alloc),
        fields: fields_of(rt, alloc, 1),
        created: time,
        updated: time,
    };
    Change {
        name: name(rt, alloc),
        before: None,
        after: Some(after),
    }
}

fn count_at(rt: &impl Abort, alloc: Global, versions: &Versions, at: i64) -> usize {
    let at = micros(rt, at);
    assert!(rt; versions.floor() <= at);
    versions.all_at(alloc, at).expect(rt, "memory").len()
}

fn install(rt: &impl Abort, alloc: Global, versions: &mut Versions, time: Micros) {
    assert!(rt; versions.floor() < time && versions.last() < time);
    let change = creation(rt, alloc, time);
    let installed = versions.install_one(alloc, &change, time);
    drop(change);
    installed.expect(rt, "memory");
}

#[test]
fn all_documents_of_a_time(rt: HostRuntime) {
    let alloc = rt.alloc();
    let mut versions = Versions::new(alloc, micros(&rt, 0));
    install(&rt, alloc, &mut versions, micros(&rt, 2));
    let (before, then) = (
        count_at(&rt, alloc, &versions, 1),
        count_at(&rt, alloc, &versions, 2),
    );
    drop(versions);
    assert!(rt; before == 0 && then == 1);
}

// ---- transactions

// Begins one at 0 that reads at 0.
fn begin(rt: &impl Abort, alloc: Global, txns: &mut Txns, id: Id) {
    let is_new = match txns.find(id) {
        Err(TxnError::Unknown) => true,
        _ => false,
    };
    assert!(rt; is_new);
    let (at, now) = (micros(rt, 0), micros(rt, 0));
    txns.begin(alloc, id, Kind::ReadWrite, at, now)
        .expect(rt, "memory");
}

// It reads `c/a`, where no document is, at a moment.
fn note(rt: &impl Abort, alloc: Global, txns: &mut Txns, id: Id, now: Micros) {
    let is_open = txns.find(id).is_ok();
    assert!(rt; is_open);
    let read = Read::Name {
        name: name(rt, alloc),
        shown: None,
    };
    let bytes = txns.bytes().saturating_add(shown_size(&read));
    assert!(rt; bytes < 1_000_000);
    txns.note_read(alloc, id, read, now).expect(rt, "memory");
}

fn use_open(rt: &impl Abort, txns: &mut Txns, id: Id, now: Micros) {
    let is_open = txns.find(id).is_ok();
    assert!(rt; is_open);
    txns.use_at(id, now);
}

fn has_read(txns: &Txns, id: Id) -> bool {
    match txns.reads(id) {
        Some(reads) => reads.len() == 1,
        None => false,
    }
}

fn open_at(txns: &mut Txns, now: Micros) -> usize {
    txns.expire(now);
    txns.len()
}

// A minute after its last use, and not before.
#[test]
fn a_transaction_expires_a_minute_after_its_last_use(rt: HostRuntime) {
    let alloc = rt.alloc();
    let id = Id::new(1);
    let mut txns = Txns::new(alloc);
    begin(&rt, alloc, &mut txns, id);
    note(&rt, alloc, &mut txns, id, micros(&rt, 30_000_000));
    use_open(&rt, &mut txns, id, micros(&rt, 31_000_000));
    let is_read = has_read(&txns, id);
    let before = open_at(&mut txns, micros(&rt, 90_999_999));
    let after = open_at(&mut txns, micros(&rt, 91_000_000));
    drop(txns);
    assert!(rt; is_read && before == 1 && after == 0);
}

// ---- histories

fn add(rt: &impl Abort, alloc: Global, journal: &mut Journal, time: Micros) {
    assert!(rt; journal.ends_before(time));
    let batch = Batch {
        time,
        id: Id::new(7),
        writes: Writes::new(alloc),
        reads: Reads::new(alloc),
    };
    journal.reserve(1).expect(rt, "memory");
    journal.push(batch);
}

#[test]
fn a_journal_ends_before_later_times(rt: HostRuntime) {
    let alloc = rt.alloc();
    let mut journal = Journal::new(alloc);
    let (time, later) = (micros(&rt, 3), micros(&rt, 4));
    add(&rt, alloc, &mut journal, time);
    let (at, behind) = (journal.ends_before(time), journal.ends_before(later));
    drop(journal);
    assert!(rt; !at && behind);
}
