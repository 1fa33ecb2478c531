//! Scripts whose source or sink fails.
ghost use Rattle.fs_machine.specs.Config.{IsAllowed};
ghost use Rattle.fs_machine.specs.Limits.{AreAllowed};

use crate::short::root;
use fs_edge::{MemorySink, MemorySource, Pace, Paces, Status};
use fs_path::Bytes;
use fs_replay::{Config, Limits, Mode, replay};
use std::alloc::Global;
use std::process::Abort;

const A_COMMIT: &str =
    r#"{"session":"s","id":"1","commit":{"database":"projects/demo/databases/(default)","writes":[{"delete":"projects/demo/databases/(default)/documents/c/a"}]}}"#;

const ITS_REPLY: &str =
    r#"{"id":"1","result":{"commitTime":"2024-01-01T00:00:00.000001Z","writeResults":[{}]},"session":"s"}
"#;

const ANOTHER: &str =
    r#"{"session":"s","id":"2","commit":{"database":"projects/demo/databases/(default)"}}"#;

/// Four shards.
pub(crate) fn config(rt: &impl Abort, alloc: Global) -> Config
    ensures { IsAllowed result }
{
    Config {
        root: root(rt, alloc),
        mode: Mode::Pessimistic,
        shards: 4,
    }
}

/// The greatest limits.
pub(crate) fn allowed(rt: &impl Abort) -> Limits
    ensures { AreAllowed result }
{
    let limits = Limits::greatest();
    assert!(rt; limits.are_allowed());
    limits
}

// The lines of a script.
fn script(rt: &impl Abort, alloc: Global) -> Bytes {
    let lines = format!(in alloc; "{A_COMMIT}\n{ANOTHER}\n").expect(rt, "memory");
    Bytes::from_slice(alloc, lines.as_bytes()).expect(rt, "memory")
}

/// Whether a script from a source into a sink that goes by these paces ends so, and has written this.
pub(crate) fn ends_so(
    rt: &impl Abort,
    alloc: Global,
    limits: Limits,
    mut source: MemorySource,
    writes: Paces,
    want: Status,
    text: &[u8],
) -> bool
    requires { AreAllowed limits }
{
    let mut sink = MemorySink::new(alloc, writes);
    let status = replay(alloc, config(rt, alloc), limits, &mut source, &mut sink);
    status == want && sink.given().as_slice() == text
}

#[test]
fn a_source_that_fails_leaves_the_lines_before(rt: HostRuntime) {
    let alloc = rt.alloc();
    let first = Pace::AtMost(A_COMMIT.len() as u64 + 1);
    let reads = Paces::of(vec![in alloc; first, Pace::Fail].expect(&rt, "memory"));
    let source = MemorySource::new(script(&rt, alloc), reads);
    let is_so = ends_so(
        &rt,
        alloc,
        allowed(&rt),
        source,
        Paces::free(alloc),
        Status::ReadFault,
        ITS_REPLY.as_bytes(),
    );
    assert!(rt; is_so);
}

// One byte at each of so many calls, and then what this pace has.
fn bytes_and(rt: &impl Abort, alloc: Global, bytes: usize, then: Pace) -> Paces {
    let mut paces = Vec::new(alloc);
    for _ in 0..bytes {
        paces.push(Pace::AtMost(1)).expect(rt, "memory");
    }
    paces.push(then).expect(rt, "memory");
    Paces::of(paces)
}

// Whether a sink that fails behind so many bytes has these, or all where it goes on.
fn has_front(rt: &impl Abort, alloc: Global, bytes: usize, then: Pace, want: Status) -> bool {
    let commit = Bytes::from_slice(alloc, A_COMMIT.as_bytes()).expect(rt, "memory");
    let source = MemorySource::new(commit, Paces::free(alloc));
    let writes = bytes_and(rt, alloc, bytes, then);
    let front = ITS_REPLY.as_bytes().get(..bytes).expect(rt, "a front");
    ends_so(rt, alloc, allowed(rt), source, writes, want, front)
}

#[test]
fn a_sink_has_a_front_of_the_transcript(rt: HostRuntime) {
    let alloc = rt.alloc();
    for bytes in 0..4usize {
        assert!(rt; has_front(&rt, alloc, bytes, Pace::Fail, Status::WriteFault));
    }
    // One that takes a byte at a time has the whole.
    assert!(rt; has_front(&rt, alloc, ITS_REPLY.len(), Pace::Free, Status::Ok));
}
