//! Sources and sinks over readers and writers that fail or stop short, and those in memory, by their paces.
use fs_edge::{
    Gave, MemorySink, MemorySource, Pace, Paces, RealSink, RealSource, Sink, Source, Took,
};
use fs_path::Bytes;
use std::alloc::Global;
use std::io;
use std::io::{ErrorKind, Read, Write};
use std::process::Abort;

/// A reader or writer that fails at its first call, and then moves at most two bytes at each.
#[derive(Drop)]
struct FailsOnce<T> {
    inner: T,
    has_failed: bool,
}

impl<R: Read> Read for FailsOnce<R> {
    fn read(&mut self, buf: &mut [u8]) -> io::Result<usize> {
        if !self.has_failed {
            self.has_failed = true;
            return Err(ErrorKind::Other.into());
        }
        let most = buf.len().min(2);
        self.inner.read(&mut buf[..most])
    }
}

impl<W: Write> Write for FailsOnce<W> {
    fn write(&mut self, buf: &[u8]) -> io::Result<usize> {
        if !self.has_failed {
            self.has_failed = true;
            return Err(ErrorKind::Other.into());
        }
        let most = buf.len().min(2);
        self.inner.write(&buf[..most])
    }

    fn flush(&mut self) -> io::Result<()> {
        self.inner.flush()
    }
}

// ---- sources

// Whether a read into a buffer of four bytes gives this, and these bytes.
fn reads_one<S: Source>(source: &mut S, want: Took, text: &str) -> bool {
    let mut buffer = [0u8; 4];
    let took = source.read(&mut buffer);
    took == want && buffer.starts_with(text.as_bytes())
}

/// Whether reads give these again and again, each with the bytes that it put into the buffer.
fn reads<S: Source>(source: &mut S, wants: &[(Took, &str)]) -> bool {
    for (want, text) in wants {
        if !reads_one(source, *want, text) {
            return false;
        }
    }
    true
}

const BY_PACES: [(Took, &str); 4] = [
    (Took::Bytes(2), "ab"),
    (Took::Failed, ""),
    (Took::Bytes(3), "cde"),
    (Took::End, ""),
];

const AFTER_A_FAILURE: [(Took, &str); 5] = [
    (Took::Failed, ""),
    (Took::Bytes(2), "ab"),
    (Took::Bytes(2), "cd"),
    (Took::Bytes(1), "e"),
    (Took::End, ""),
];

fn in_memory(rt: &impl Abort, alloc: Global) -> MemorySource {
    let paces = Vec::from_slice(alloc, &[Pace::AtMost(2), Pace::Fail]).expect(rt, "memory");
    let bytes = Bytes::from_slice(alloc, b"abcde").expect(rt, "memory");
    MemorySource::new(bytes, Paces::of(paces))
}

#[test]
fn a_source_goes_on_after_a_failure(rt: HostRuntime) {
    assert!(rt; reads(&mut in_memory(&rt, rt.alloc()), &BY_PACES));
    let reader = FailsOnce {
        inner: b"abcde".as_slice(),
        has_failed: false,
    };
    assert!(rt; reads(&mut RealSource::new(reader), &AFTER_A_FAILURE));
}

// ---- sinks

/// Whether pieces that are written one after another give these.
fn gives<K: Sink>(sink: &mut K, wants: &[(&str, Gave)]) -> bool {
    for (piece, want) in wants {
        if sink.write(piece.as_bytes()) != *want {
            return false;
        }
    }
    true
}

const GIVEN_BY_PACES: [(&str, Gave); 6] = [
    ("abc", Gave::Bytes(2)),
    ("c", Gave::Failed),
    ("c", Gave::Failed),
    ("", Gave::Failed),
    ("c", Gave::Bytes(1)),
    ("", Gave::Bytes(0)),
];

const UNTIL_FULL: [(&str, Gave); 4] = [
    ("", Gave::Bytes(0)),
    ("a", Gave::Bytes(1)),
    ("bc", Gave::Bytes(1)),
    ("c", Gave::Failed),
];

const GIVEN_AFTER_A_FAILURE: [(&str, Gave); 3] = [
    ("abc", Gave::Failed),
    ("abc", Gave::Bytes(2)),
    ("c", Gave::Bytes(1)),
];

const PACES: [Pace; 4] = [Pace::AtMost(2), Pace::Fail, Pace::AtMost(0), Pace::Fail];

fn memory_takes(rt: &impl Abort, alloc: Global) -> bool {
    let paces = Vec::from_slice(alloc, &PACES).expect(rt, "memory");
    let mut sink = MemorySink::new(alloc, Paces::of(paces));
    gives(&mut sink, &GIVEN_BY_PACES) && sink.given().as_slice() == b"abc".as_slice()
}

fn room_takes() -> bool {
    let mut room = [0u8; 2];
    gives(&mut RealSink::new(room.as_mut_slice()), &UNTIL_FULL)
        && room.as_slice() == b"ab".as_slice()
}

fn a_failing_writer_takes(alloc: Global) -> bool {
    let mut written = Vec::new(alloc);
    let writer = FailsOnce {
        inner: &mut written,
        has_failed: false,
    };
    gives(&mut RealSink::new(writer), &GIVEN_AFTER_A_FAILURE)
        && written.as_slice() == b"abc".as_slice()
}

#[test]
fn a_sink_goes_on_after_a_failure(rt: HostRuntime) {
    let alloc = rt.alloc();
    assert!(rt; memory_takes(&rt, alloc) && a_failing_writer_takes(alloc));
}

#[test]
fn a_sink_takes_what_it_has_room_for(rt: HostRuntime) {
    assert!(rt; room_takes());
}
