//! Tables of lines: what is given, an arrow, and what is made of it.
use crate::made::{Make, made};
use fs_json::Bad;
use std::alloc::{AllocError, Global};
use std::process::Abort;

// What the short forms of a line stand for, in the order in which they are spelled out.
const SHORT: [(&str, &str); 8] = [
    ("~", "@/documents"),
    ("@", "projects/demo/databases/(default)"),
    ("1us", "2024-01-01T00:00:00.000001Z"),
    ("2us", "2024-01-01T00:00:00.000002Z"),
    ("0s", "2024-01-01T00:00:00Z"),
    ("$0", "AAAAAAAAAAA="),
    ("$1", "AAAAAAAAAAE="),
    ("$2", "AAAAAAAAAAI="),
];

fn spelled_out(rt: &impl Abort, alloc: Global, table: &str) -> String {
    let mut text = String::from_str(alloc, table).expect(rt, "memory");
    for (form, long) in &SHORT {
        let longer = text.as_str().replace(alloc, form, long);
        text = longer.expect(rt, "memory");
    }
    text
}

// What was made, or the refusal with its place.
fn shown(alloc: Global, made: Result<String, Bad>) -> Result<String, AllocError> {
    match made {
        Ok(text) => Ok(text),
        Err(Bad::At(rule, place)) => format!(in alloc; "{rule:?} at {}", place.as_str()),
        Err(Bad::Method(name)) => format!(in alloc; "method {}", name.as_str()),
        Err(Bad::Memory(e)) => Err(e),
    }
}

// Whether a line gives what stands behind its arrow. Tables leave out what is the same.
fn is_so(rt: &impl Abort, alloc: Global, make: Make, line: &str) -> bool {
    let (text, want) = line.split_once(" =>").unwrap_or((line, "an arrow"));
    let want = want.trim();
    let want = if want.is_empty() { text } else { want };
    let shown = shown(alloc, made(rt, alloc, make, text));
    shown.expect(rt, "memory").trim() == want
}

/// Asserts that each line of a table gives what stands behind its arrow.
pub(crate) fn holds<R: Abort + AllocGlobal>(rt: &R, make: Make, table: &str) {
    let alloc = rt.alloc();
    let table = spelled_out(rt, alloc, table);
    for line in table.lines() {
        assert!(rt; is_so(rt, alloc, make, line), "{line}");
    }
}
