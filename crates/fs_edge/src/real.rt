//! A source over one of std's readers and a sink over one of its writers, such as standard input and output.
ghost use Rattle.std.specs.Prelude.{◌≡◌, ◌≢◌, ◌≤◌, None};
ghost use Rattle.fs_edge.specs.Count.{one_more};
ghost use Rattle.fs_edge.specs.Real.{reader_of, read_faults_of, ends_of, TakesFromReader, writer_of, write_faults_of, GivesToWriter};
ghost use Rattle.fs_edge.specs.Sink.{WriteAdds, Takes};
ghost use Rattle.fs_edge.specs.Source.{ReadGives, Fills};

use crate::count::count;
use crate::sink::{Gave, Sink};
use crate::source::{Source, Took};
use std::io::{Read, Write};

/// A source over one of std's readers. It counts each error as a fault. What is left is told by the reader, where it
/// tells what remains in it, and not by the source.
/// (docs/DECISIONS.md, "A real source or sink says what its reader or writer tells, as clauses of its own".)
#[derive(Drop)]
pub struct RealSource<R> {
    reader: R,
    faults: u64,
    ends: u64,
}

impl<R: Read> RealSource<R> {
    /// A source that reads from here on what the reader gives.
    pub fn new(reader: R) -> RealSource<R>
        ensures reader { reader_of result ≡ reader }
        ensures faults { read_faults_of result ≡ 0 }
        ensures ends { ends_of result ≡ 0 }
    {
        RealSource {
            reader,
            faults: 0,
            ends: 0,
        }
    }
}

impl<R: Read> Source for RealSource<R> {
    ghost left = { λ _. None };

    ghost faults = { read_faults_of };

    ghost ends = { ends_of };

    fn read(&mut self, into: &mut [u8]) -> Took
        ensures reads { ReadGives result into.new None None }
        ensures fills { Fills result into.old }
        ensures faults { read_faults_of self.old ≤ read_faults_of self.new }
        ensures failed { result ≡ Took.Failed → read_faults_of self.new ≡ one_more (read_faults_of self.old) }
        ensures no_fault { result ≢ Took.Failed → read_faults_of self.new ≡ read_faults_of self.old }
        ensures ends { ends_of self.old ≤ ends_of self.new }
        ensures ended { result ≡ Took.End → ends_of self.new ≡ one_more (ends_of self.old) }
        ensures no_end { result ≢ Took.End → ends_of self.new ≡ ends_of self.old }

        // What it gives comes from the reader, and it tells the end only where the reader is at its end.
        ensures reader { TakesFromReader result into.new (R.remaining (reader_of self.old)) (R.remaining (reader_of self.new)) }
    {
        if into.is_empty() {
            return Took::Bytes(0);
        }
        match self.reader.read(into) {
            Ok(0) => {
                count(&mut self.ends);
                Took::End
            }
            Ok(most) => Took::Bytes(most),
            Err(_) => {
                count(&mut self.faults);
                Took::Failed
            }
        }
    }
}

/// A sink over one of std's writers. It counts each error as a fault, and a write that takes none of a piece. What it
/// took is told by the writer, where it tells what it holds, and not by the sink.
#[derive(Drop)]
pub struct RealSink<W> {
    writer: W,
    faults: u64,
}

impl<W: Write> RealSink<W> {
    /// A sink that writes from here on to the writer.
    pub fn new(writer: W) -> RealSink<W>
        ensures writer { writer_of result ≡ writer }
        ensures faults { write_faults_of result ≡ 0 }
    {
        RealSink { writer, faults: 0 }
    }
}

impl<W: Write> Sink for RealSink<W> {
    ghost given = { λ _. None };

    ghost faults = { write_faults_of };

    fn write(&mut self, from: &[u8]) -> Gave
        ensures writes { WriteAdds result from.now None None }
        ensures takes { Takes result from.now }
        ensures faults { write_faults_of self.old ≤ write_faults_of self.new }
        ensures failed { result ≡ Gave.Failed → write_faults_of self.new ≡ one_more (write_faults_of self.old) }
        ensures no_fault { result ≢ Gave.Failed → write_faults_of self.new ≡ write_faults_of self.old }

        // The writer holds besides exactly what the sink says that it took.
        ensures writer { GivesToWriter result from.now (W.contents (writer_of self.old)) (W.contents (writer_of self.new)) }
    {
        match self.writer.write(from) {
            Ok(0) if !from.is_empty() => {
                count(&mut self.faults);
                Gave::Failed
            }
            Ok(most) => Gave::Bytes(most),
            Err(_) => {
                count(&mut self.faults);
                Gave::Failed
            }
        }
    }
}
