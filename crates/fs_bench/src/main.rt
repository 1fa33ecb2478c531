//! Times what the libraries cost: `measure` prints nanoseconds of names and documents, `versions=1000` those of a million
//! versions of so many documents. Without a word it does nothing.
#![tactic(auto)]

mod versions;

use fs_path::{DocName, Text};
use fs_time::Micros;
use fs_value::{Document, Fields, SharedFields, Value};
use std::alloc::{AllocError, Global};
use std::time::Instant;
use std::{env, io};

/// How often each step is made.
const ROUNDS: u32 = 1_000_000;

fn main(rt: HostRuntime) -> io::Result<()> {
    for word in env::args(&rt)? {
        measure_what(&rt, word.as_str())?;
    }
    Ok(())
}

// What a word names, with its number.
fn measure_what(rt: &HostRuntime, word: &str) -> io::Result<()> {
    let (what, count) = word.split_once("=").unwrap_or((word, ""));
    let count = count.parse::<u32>().unwrap_or(0);
    match what {
        "measure" => measure(rt),
        "versions" => versions::measure(rt, count),
        _ => Ok(()),
    }
}

fn measure(rt: &HostRuntime) -> io::Result<()> {
    measure_names(rt)?;
    measure_documents(rt)
}

fn measure_names(rt: &HostRuntime) -> io::Result<()> {
    let one = a_name(rt.alloc(), "m00000", 1)?;
    let other = a_name(rt.alloc(), "m00000", 2)?;
    compare(rt, &one, &other)
}

fn compare(rt: &HostRuntime, one: &DocName, other: &DocName) -> io::Result<()> {
    let start = Instant::now(rt)?;
    let less = times_less(one, other);
    tell(
        rt,
        "comparing two names that differ in the last id",
        start,
        less,
    )
}

// What each round took, and how many came to something.
fn tell(rt: &HostRuntime, step: &str, start: Instant, count: u32) -> io::Result<()> {
    let each = start.elapsed(rt)?.as_nanos() / ROUNDS as u128;
    println!(rt; "{step}: {each} ns ({count})")
}

fn measure_documents(rt: &HostRuntime) -> io::Result<()> {
    let document = a_document(rt.alloc())?;
    copy(rt, &document)
}

fn copy(rt: &HostRuntime, document: &Document) -> io::Result<()> {
    let start = Instant::now(rt)?;
    let copies = copies_of(rt.alloc(), document)?;
    tell(
        rt,
        "copying a document of ten fields, and dropping it",
        start,
        copies,
    )
}

fn times_less(one: &DocName, other: &DocName) -> u32 {
    let mut less = 0u32;
    for round in 0..ROUNDS {
        // The two take turns, so that no round knows its answer from the one before.
        let (a, b) = if round % 2 == 0 {
            (one, other)
        } else {
            (other, one)
        };
        if a.cmp(b).is_lt() {
            less = less.saturating_add(1);
        }
    }
    less
}

fn copies_of(alloc: Global, document: &Document) -> Result<u32, AllocError> {
    let mut copies = 0u32;
    for _ in 0..ROUNDS {
        let copy = document.copy(alloc)?;
        if copy.created == document.created {
            copies = copies.saturating_add(1);
        }
    }
    Ok(copies)
}

// The name of a message: the front of its id, and a number.
fn a_name(alloc: Global, front: &str, number: u64) -> Result<DocName, AllocError> {
    let path = format!(in alloc; "demo/(default)/rooms/r12/messages/{front}{number}")?;
    DocName::of_path(path).ok_or(AllocError)
}

// Ten texts of 24 bytes. (Whoever copies a document shares its fields, whatever their kinds.)
fn ten_fields(alloc: Global) -> Result<SharedFields, AllocError> {
    let mut fields = Fields::new(alloc);
    put_ten(alloc, &mut fields)?;
    SharedFields::of(alloc, fields)
}

fn put_ten(alloc: Global, fields: &mut Fields) -> Result<(), AllocError> {
    for i in 0..10u32 {
        let key = Text::of(format!(in alloc; "f{i}")?);
        let text = Text::of(format!(in alloc; "{i:024}")?);
        fields.put(key, Value::String(text))?;
    }
    Ok(())
}

// One integer.
fn one_field(alloc: Global, n: i64) -> Result<SharedFields, AllocError> {
    let mut fields = Fields::new(alloc);
    fields.put(Text::from_str(alloc, "n")?, Value::Integer(n))?;
    SharedFields::of(alloc, fields)
}

// The moment that is so many microseconds after 1970 began.
fn moment(micros: u32) -> Micros {
    match Micros::new(i64::from(micros)) {
        Some(time) => time,
        None => unreachable!(),
    }
}

fn a_document(alloc: Global) -> Result<Document, AllocError> {
    let name = a_name(alloc, "m00000", 1)?;
    let fields = ten_fields(alloc)?;
    Ok(document_of(name, fields, moment(1)))
}

// The document that was made at a time.
fn document_of(name: DocName, fields: SharedFields, time: Micros) -> Document {
    Document {
        name,
        fields,
        created: time,
        updated: time,
    }
}
