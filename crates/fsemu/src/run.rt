//! The top call: a command, by the words of its command line.
ghost use Rattle.std.specs.Prelude.{◌≡◌, ◌≢◌, ◌↔◌, ◌⊎◌, [], length, map, string_bytes, IfSome};
ghost use Rattle.fs_machine.specs.Limits.{greatest};
ghost use Rattle.fs_replay.specs.Limits.{longest_input};
ghost use Rattle.fs_replay.specs.Moved.{TakenUpTo, IfTaken, Gained};
ghost use Rattle.fs_replay.specs.Run.{CutsThroughout, Ends, GrowsThroughout, IsSerialThroughout, KeptThroughout, LinesAreEvents, RaisedThroughout, ReadFaults, WriteFaults, Wrote};
ghost use Rattle.fs_replay.specs.Throughout.{AnswersThroughout, ListenersThroughout, StreamsThroughout};
ghost use Rattle.fs_replay.specs.Transcript.{lines_of, transcript};
ghost use Rattle.fsemu.specs.Words.{IfAsked, IsCommand};

use crate::agreed::is_agreed;
use crate::words::read_words;
use fs_edge::{Clock, Doors, Sink, Source, Status};
use fs_machine::Limits;
use fs_replay::{replay, scripts_are_lawful};
use std::alloc::Global;

/// Runs the program on the words of its command line. `replay` with its options reads a script from the source to its end,
/// carries it out, and writes the transcript to the sink. All other words are no command: nothing is read or written then.
/// (docs/DECISIONS.md, "`run` takes the doors and the clock though no command uses them yet".)
pub fn run<Rt, S: Source, K: Sink, D: Doors, C: Clock>(
    _rt: &Rt,
    alloc: Global,
    words: &[String],
    source: &mut S,
    sink: &mut K,
    doors: &mut D,
    clock: &mut C,
) -> Status
    ensures usage { (result ≡ Status.Usage) ↔ ¬ (IsCommand (map string_bytes words.now)) }
    ensures untouched { result ≡ Status.Usage → (source.new ≡ source.old) × (sink.new ≡ sink.old) }

    // No command that is built opens a door or asks the time.
    ensures doors { doors.new ≡ doors.old }
    ensures clock { clock.new ≡ clock.old }
    ensures no_door_fault { result ≢ Status.DoorFault }

    // At status 0 all that the source had was read, and the sink has gained its transcript.
    ensures all_read { result ≡ Status.Ok → IfSome (S.left source.new) (λ rest. rest ≡ []) }
    ensures transcript { result ≡ Status.Ok → IfAsked (map string_bytes words.now) (λ config. IfSome (S.left source.old) (λ script.
        Gained (K.given sink.old) (K.given sink.new) (transcript config greatest script))) }

    // At each status some bytes were taken, and the sink has gained what they give.
    ensures taken { TakenUpTo longest_input (S.left source.old) (S.left source.new) }
    ensures written { IfAsked (map string_bytes words.now) (λ config. IfTaken (S.left source.old) (S.left source.new) (λ taken.
        Wrote config greatest result taken (K.given sink.old) (K.given sink.new))) }

    // Wherever their events are cut, what always holds of a server does, what was committed by then explains every read in it, and what
    // stood then at a time that was released stands there for good. Each cut between lines is one between events.
    ensures lines { IfAsked (map string_bytes words.now) (λ config. IfTaken (S.left source.old) (S.left source.new) (λ taken.
        LinesAreEvents config greatest (lines_of taken))) }
    ensures kept { IfAsked (map string_bytes words.now) (λ config. IfTaken (S.left source.old) (S.left source.new) (λ taken.
        KeptThroughout config greatest (lines_of taken))) }
    ensures serial { IfAsked (map string_bytes words.now) (λ config. IfTaken (S.left source.old) (S.left source.new) (λ taken.
        IsSerialThroughout config greatest (lines_of taken))) }
    ensures grows { IfAsked (map string_bytes words.now) (λ config. IfTaken (S.left source.old) (S.left source.new) (λ taken.
        GrowsThroughout config greatest (lines_of taken))) }

    // Wherever they are cut, and what a session was told by then ends with NO_CHANGE, whoever gathered all of it has just the views of
    // all its targets at that one time, which never falls.
    ensures cuts { IfAsked (map string_bytes words.now) (λ config. IfTaken (S.left source.old) (S.left source.new) (λ taken.
        CutsThroughout config greatest (lines_of taken))) }

    // Between lines, unless the script settles by hand, each session that listens to anything was raised at the released time.
    ensures raised { IfAsked (map string_bytes words.now) (λ config. IfTaken (S.left source.old) (S.left source.new) (λ taken.
        RaisedThroughout config greatest (lines_of taken))) }

    // Wherever their events are cut, each answer has its cause, each read is of its time, and what was answered stays right; each batch of a
    // write stream is committed once at most, and messages come once, in order; and RESET, CURRENT and NO_CHANGE are sent where they have to be.
    ensures answers { IfAsked (map string_bytes words.now) (λ config. IfTaken (S.left source.old) (S.left source.new) (λ taken.
        AnswersThroughout config greatest (lines_of taken))) }
    ensures streams { IfAsked (map string_bytes words.now) (λ config. IfTaken (S.left source.old) (S.left source.new) (λ taken.
        StreamsThroughout config greatest (lines_of taken))) }
    ensures listeners { IfAsked (map string_bytes words.now) (λ config. IfTaken (S.left source.old) (S.left source.new) (λ taken.
        ListenersThroughout config greatest (lines_of taken))) }

    // Where that is nothing, the sink isn't asked.
    ensures unasked { IfAsked (map string_bytes words.now) (λ config. IfTaken (S.left source.old) (S.left source.new) (λ taken.
        transcript config greatest taken ≡ [] → sink.new ≡ sink.old)) }

    // A fault has its cause in what was handed in, and nothing is tried again.
    ensures read_faults { ReadFaults result (S.faults source.old) (S.faults source.new) }
    ensures ends { Ends result (S.ends source.old) (S.ends source.new) }
    ensures write_faults { WriteFaults result (K.faults sink.old) (K.faults sink.new) }

    // The input limit is told exactly where so many bytes were taken, but for a write fault and want of memory.
    ensures limit { result ≡ Status.InputLimit → IfTaken (S.left source.old) (S.left source.new) (λ taken.
        length taken ≡ longest_input) }
    ensures limit_told { IfTaken (S.left source.old) (S.left source.new) (λ taken. length taken ≡ longest_input
        → (result ≡ Status.InputLimit) ⊎ ((result ≡ Status.WriteFault) ⊎ ((result ≡ Status.Memory) ⊎ (result ≡ Status.Usage)))) }
{
    scripts_are_lawful();
    let options = match read_words(alloc, words) {
        Ok(Some(options)) => options,
        Ok(None) => return Status::Usage,
        Err(_) => return Status::Memory,
    };
    if !is_agreed(alloc, words, &options) {
        return Status::Memory;
    }
    match options.config(alloc) {
        Ok(config) => replay(alloc, config, Limits::greatest(), source, sink),
        Err(_) => Status::Memory,
    }
}
