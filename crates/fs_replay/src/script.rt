//! The top call: a script from a source, and its transcript into a sink.
ghost use Rattle.std.specs.Prelude.{◌≡◌, ◌≢◌, ◌⊎◌, [], length, IfOk, IfSome, OnErr};
ghost use Rattle.std.specs.Result.{result_unwrap_or};
ghost use Rattle.fs_machine.specs.Config.{IsAllowed};
ghost use Rattle.fs_machine.specs.Limits.{AreAllowed};
ghost use Rattle.fs_replay.specs.Limits.{longest_input};
ghost use Rattle.fs_replay.specs.Moved.{TakenUpTo, IfTaken, Gained, GainedFront};
ghost use Rattle.fs_replay.specs.Run.{CutsThroughout, Ends, GrowsThroughout, IsSerialThroughout, KeptThroughout, LinesAreEvents, RaisedThroughout, ReadFaults, WriteFaults, Wrote};
ghost use Rattle.fs_replay.specs.Throughout.{AnswersThroughout, ListenersThroughout, StreamsThroughout};
ghost use Rattle.fs_replay.specs.Transcript.{lines_of, transcript};

use crate::gather::gather;
use crate::laws::scripts_are_lawful;
use crate::play::play;
use fs_edge::{Sink, Source, Status};
use fs_server::{Config, Limits};
use std::alloc::{AllocError, Global};

/// Reads a script from the source to its end, carries it out on a server of this configuration and these limits, and writes the
/// transcript to the sink.
///
/// `Ok` where the source told its end and all was written; `ReadFault` or `InputLimit` where the lines were carried out that
/// had come with their newline by then; `WriteFault` or `Memory` where the sink has a beginning of the transcript.
/// (docs/DECISIONS.md, "The whole input is read before its first line is carried out".)
pub fn replay<S: Source, K: Sink>(
    alloc: Global,
    config: Config,
    limits: Limits,
    source: &mut S,
    sink: &mut K,
) -> Status
    requires config { IsAllowed config }
    requires limits { AreAllowed limits }
    ensures some { (result ≢ Status.Usage) × (result ≢ Status.DoorFault) }

    // At status 0 all that the source had was read, and the sink has gained its transcript.
    ensures all_read { result ≡ Status.Ok → IfSome (S.left source.new) (λ rest. rest ≡ []) }
    ensures transcript { result ≡ Status.Ok → IfSome (S.left source.old) (λ script.
        Gained (K.given sink.old) (K.given sink.new) (transcript config limits script)) }

    // At each status some bytes were taken, and the sink has gained what they give.
    ensures taken { TakenUpTo longest_input (S.left source.old) (S.left source.new) }
    ensures written { IfTaken (S.left source.old) (S.left source.new) (λ taken.
        Wrote config limits result taken (K.given sink.old) (K.given sink.new)) }

    // Wherever their events are cut, what always holds of a server does, what was committed by then explains every read in it, and what
    // stood then at a time that was released stands there for good. Each cut between lines is one between events.
    ensures lines { IfTaken (S.left source.old) (S.left source.new) (λ taken. LinesAreEvents config limits (lines_of taken)) }
    ensures kept { IfTaken (S.left source.old) (S.left source.new) (λ taken. KeptThroughout config limits (lines_of taken)) }
    ensures serial { IfTaken (S.left source.old) (S.left source.new) (λ taken. IsSerialThroughout config limits (lines_of taken)) }
    ensures grows { IfTaken (S.left source.old) (S.left source.new) (λ taken. GrowsThroughout config limits (lines_of taken)) }

    // Wherever they are cut, and what a session was told by then ends with NO_CHANGE, whoever gathered all of it has just the views of
    // all its targets at that one time, which never falls.
    ensures cuts { IfTaken (S.left source.old) (S.left source.new) (λ taken. CutsThroughout config limits (lines_of taken)) }

    // Between lines, unless the script settles by hand, each session that listens to anything was raised at the released time.
    ensures raised { IfTaken (S.left source.old) (S.left source.new) (λ taken. RaisedThroughout config limits (lines_of taken)) }

    // Wherever their events are cut, each answer has its cause, each read is of its time, and what was answered stays right; each batch of a
    // write stream is committed once at most, and messages come once, in order; and RESET, CURRENT and NO_CHANGE are sent where they have to be.
    ensures answers { IfTaken (S.left source.old) (S.left source.new) (λ taken. AnswersThroughout config limits (lines_of taken)) }
    ensures streams { IfTaken (S.left source.old) (S.left source.new) (λ taken. StreamsThroughout config limits (lines_of taken)) }
    ensures listeners { IfTaken (S.left source.old) (S.left source.new) (λ taken. ListenersThroughout config limits (lines_of taken)) }

    // Where that is nothing, the sink isn't asked.
    ensures unasked { IfTaken (S.left source.old) (S.left source.new) (λ taken. transcript config limits taken ≡ [] → sink.new ≡ sink.old) }

    // A fault has its cause in what was handed in, and nothing is tried again.
    ensures read_faults { ReadFaults result (S.faults source.old) (S.faults source.new) }
    ensures ends { Ends result (S.ends source.old) (S.ends source.new) }
    ensures write_faults { WriteFaults result (K.faults sink.old) (K.faults sink.new) }

    // The input limit is told exactly where so many bytes were taken, but for a write fault and want of memory.
    ensures limit { result ≡ Status.InputLimit → IfTaken (S.left source.old) (S.left source.new) (λ taken.
        length taken ≡ longest_input) }
    ensures limit_told { IfTaken (S.left source.old) (S.left source.new) (λ taken. length taken ≡ longest_input
        → (result ≡ Status.InputLimit) ⊎ ((result ≡ Status.WriteFault) ⊎ (result ≡ Status.Memory))) }
{
    scripts_are_lawful();
    match replay_all(alloc, config, limits, source, sink) {
        Ok(status) => status,
        Err(_) => Status::Memory,
    }
}

// The same, where want of memory has its own answer.
fn replay_all<S: Source, K: Sink>(
    alloc: Global,
    config: Config,
    limits: Limits,
    source: &mut S,
    sink: &mut K,
) -> Result<Status, AllocError>
    requires config { IsAllowed config }
    requires limits { AreAllowed limits }
    ensures all_read { IfOk result (λ status. status ≡ Status.Ok → IfSome (S.left source.new) (λ rest. rest ≡ [])) }
    ensures transcript { IfOk result (λ status. status ≡ Status.Ok → IfSome (S.left source.old) (λ script.
        Gained (K.given sink.old) (K.given sink.new) (transcript config limits script))) }
    ensures taken { TakenUpTo longest_input (S.left source.old) (S.left source.new) }
    ensures written { IfOk result (λ status. IfTaken (S.left source.old) (S.left source.new) (λ taken.
        Wrote config limits status taken (K.given sink.old) (K.given sink.new))) }
    ensures some { IfOk result (λ status. (status ≢ Status.Usage) × (status ≢ Status.DoorFault)) }
    ensures unasked { IfTaken (S.left source.old) (S.left source.new) (λ taken. transcript config limits taken ≡ [] → sink.new ≡ sink.old) }
    ensures read_faults { ReadFaults (result_unwrap_or result Status.Memory) (S.faults source.old) (S.faults source.new) }
    ensures ends { Ends (result_unwrap_or result Status.Memory) (S.ends source.old) (S.ends source.new) }
    ensures write_faults { WriteFaults (result_unwrap_or result Status.Memory) (K.faults sink.old) (K.faults sink.new) }
    ensures limit { IfOk result (λ status. status ≡ Status.InputLimit → IfTaken (S.left source.old) (S.left source.new)
        (λ taken. length taken ≡ longest_input)) }
    ensures limit_told { IfOk result (λ status. IfTaken (S.left source.old) (S.left source.new) (λ taken.
        length taken ≡ longest_input → (status ≡ Status.InputLimit) ⊎ (status ≡ Status.WriteFault))) }
    ensures err { OnErr result (IfTaken (S.left source.old) (S.left source.new) (λ taken.
        GainedFront (K.given sink.old) (K.given sink.new) (transcript config limits taken))) }
{
    let input = gather(alloc, source)?;
    if !play(
        alloc,
        config,
        limits,
        &input.bytes,
        input.stop.is_whole(),
        sink,
    )? {
        return Ok(Status::WriteFault);
    }
    Ok(input.stop.status())
}
