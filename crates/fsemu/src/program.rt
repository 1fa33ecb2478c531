//! The process around a run: its words, its standard streams and its exit status.
ghost use Rattle.std.specs.Prelude.{◌≡◌, ◌≢◌, ◌↔◌, codes, drop, map, string_bytes, IsSome, IfOk, IfSome, OnErr};
ghost use Rattle.std.specs.Result.{result_unwrap_or};
ghost use Rattle.fs_edge.specs.Status.{exit_code_of};
ghost use Rattle.fs_machine.specs.Limits.{greatest};
ghost use Rattle.fs_replay.specs.Moved.{Gained};
ghost use Rattle.fs_replay.specs.Run.{Ends, ReadFaults, WriteFaults};
ghost use Rattle.fs_replay.specs.Transcript.{transcript};
ghost use Rattle.fsemu.specs.Words.{IfAsked, IsCommand};

use crate::run::run;
use fs_edge::{MemoryClock, MemoryDoors, Moments, RealSink, RealSource, Sink, Source, Status};
use fs_time::Micros;
use std::alloc::{AllocError, Global};
use std::env;
use std::io::ErrorKind;

/// What the program tells whose words are no command.
const USAGE: &str = "usage: fsemu replay|serve|client|generate";

/// Runs the program over standard input and output.
pub fn start(rt: &HostRuntime) -> Result<Status, AllocError> {
    let alloc = rt.alloc();
    let given: Vec<String> = match env::args(rt) {
        Ok(given) => given.collect(alloc)?,
        Err(e) if e.kind() == ErrorKind::OutOfMemory => return Err(AllocError),
        // A word that isn't UTF-8 is no command.
        Err(_) => return Ok(Status::Usage),
    };
    let mut source = RealSource::new(rt.stdin());
    let mut sink = RealSink::new(rt.stdout());
    started(rt, alloc, &given, &mut source, &mut sink)
}

/// Runs the program on the words that the process was given, the first of which is its own name. No command that is built
/// opens a door or asks the clock. Where memory runs out before the run, nothing is read or written.
fn started<Rt, S: Source, K: Sink>(
    rt: &Rt,
    alloc: Global,
    given: &[String],
    source: &mut S,
    sink: &mut K,
) -> Result<Status, AllocError>
    ensures usage { IfOk result (λ status. (status ≡ Status.Usage) ↔ ¬ (IsCommand (map string_bytes (drop 1 given.now)))) }
    ensures untouched { result ≡ Ok Status.Usage → (source.new ≡ source.old) × (sink.new ≡ sink.old) }
    ensures err { OnErr result ((source.new ≡ source.old) × (sink.new ≡ sink.old)) }
    ensures no_door_fault { result ≢ Ok Status.DoorFault }

    // At status 0 the sink has gained the transcript of all that the source had, and nothing is tried again.
    ensures transcript { result ≡ Ok Status.Ok → IfAsked (map string_bytes (drop 1 given.now)) (λ config. IfSome (S.left source.old) (λ script.
        Gained (K.given sink.old) (K.given sink.new) (transcript config greatest script))) }
    ensures read_faults { ReadFaults (result_unwrap_or result Status.Memory) (S.faults source.old) (S.faults source.new) }
    ensures ends { Ends (result_unwrap_or result Status.Memory) (S.ends source.old) (S.ends source.new) }
    ensures write_faults { WriteFaults (result_unwrap_or result Status.Memory) (K.faults sink.old) (K.faults sink.new) }
{
    let words = words_of(given);
    let moments = Moments::of(vec![in alloc; Micros::new(0).unwrap()]?);
    let mut doors = MemoryDoors::new();
    let mut clock = MemoryClock::new(moments);
    Ok(run(rt, alloc, words, source, sink, &mut doors, &mut clock))
}

/// The words of the command line, without the program's own name.
pub fn words_of(given: &[String]) -> &[String]
    ensures { result.now ≡ drop 1 given.now }
{
    match given {
        [] => given,
        [_, words @ ..] => words,
    }
}

/// What is told on standard error after a run, or after memory ran out before it.
pub fn usage_of(ended: &Result<Status, AllocError>) -> Option<&'static str>
    ensures told { IsSome result ↔ (ended.now ≡ Ok Status.Usage) }
    ensures text { IfSome result (λ text. text.now ≡ codes "usage: fsemu replay|serve|client|generate") }
{
    match ended {
        Ok(Status::Usage) => Some(USAGE),
        _ => None,
    }
}

/// The exit status after a run, or after memory ran out before it.
pub fn exit_code(ended: Result<Status, AllocError>) -> u8
    ensures { result ≡ exit_code_of (result_unwrap_or ended Status.Memory) }
{
    match ended {
        Ok(status) => status.exit_code(),
        Err(_) => Status::Memory.exit_code(),
    }
}
