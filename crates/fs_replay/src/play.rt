//! Carrying out a script, line by line.
ghost use Rattle.std.specs.Prelude.{◌≡◌, ◌∷◌, ◌++◌, ◌≤◌, [], length, IfOk, OnOk, OnErr};
ghost use Rattle.std.specs.Bool.{OnTrue, OnFalse};
ghost use Rattle.fs_edge.specs.Count.{one_more};
ghost use Rattle.fs_machine.specs.Config.{IsAllowed};
ghost use Rattle.fs_machine.specs.Limits.{AreAllowed};
ghost use Rattle.fs_replay.specs.Limits.{longest_input};
ghost use Rattle.fs_replay.specs.Moved.{Gained, GainedFront};
ghost use Rattle.fs_replay.specs.Step.{start};
ghost use Rattle.fs_replay.specs.Transcript.{lines_of, played};

use crate::held::say_held;
use crate::lines::first_line;
use crate::output::{pass_on, put};
use crate::state::State;
use crate::step::carry_out;
use fs_edge::Sink;
use fs_server::{Config, Limits};
use std::alloc::{AllocError, Global};
use std::mem::forget;

// The last line of a script counts where the script is whole, and then what still waits is told. It is left out where the script was cut
// off in it.
fn carry_last(
    alloc: Global,
    state: &mut State,
    number: u64,
    line: &[u8],
    whole: bool,
    out: &mut Vec<u8>,
) -> Result<(), AllocError>
    requires { lines_of line.now ≡ line.now ∷ [] }
    ensures { OnOk result (out.new.items ≡ out.old.items ++ played whole state.old number line.now) }
{
    if whole {
        carry_out(alloc, state, number, line, out)?;
        say_held(alloc, state, out)?;
    }
    Ok(())
}

// Carries out the lines of a script on a state, from the first on.
fn play_on<K: Sink>(
    alloc: Global,
    state: &mut State,
    script: &[u8],
    whole: bool,
    sink: &mut K,
) -> Result<bool, AllocError>
    requires { length script.now ≤ longest_input }
    ensures played { IfOk result (λ done. OnTrue done (Gained (K.given sink.old) (K.given sink.new)
        (played whole state.old 1 script.now))) }
    ensures failed { IfOk result (λ done. OnFalse done (GainedFront (K.given sink.old) (K.given sink.new)
        (played whole state.old 1 script.now))) }
    ensures no_fault { IfOk result (λ done. OnTrue done (K.faults sink.new ≡ K.faults sink.old)) }
    ensures cause { IfOk result (λ done. OnFalse done (K.faults sink.new ≡ one_more (K.faults sink.old))) }
    ensures err { OnErr result (GainedFront (K.given sink.old) (K.given sink.new)
        (played whole state.old 1 script.now)) }
    ensures err_no_fault { OnErr result (K.faults sink.new ≡ K.faults sink.old) }
    ensures unasked { played whole state.old 1 script.now ≡ [] → sink.new ≡ sink.old }
{
    let mut out = Vec::new(alloc);
    let mut rest = script;
    let mut number = 1;
    'lines: while let Some((line, after)) = first_line(rest) {
        carry_out(alloc, state, number, line, &mut out)?;
        if !pass_on(sink, &mut out) {
            return Ok(false);
        }
        rest = after;
        number += 1;
    }
    carry_last(alloc, state, number, rest, whole, &mut out)?;
    Ok(put(sink, &out))
}

/// Carries out the lines of a script, and gives what they write to the sink. The last line counts where the script is
/// whole, and is left out where it was cut off in it. False where the sink failed.
/// (docs/DECISIONS.md, "A run doesn't give its documents back one by one".)
pub fn play<K: Sink>(
    alloc: Global,
    config: Config,
    limits: Limits,
    script: &[u8],
    whole: bool,
    sink: &mut K,
) -> Result<bool, AllocError>
    requires config { IsAllowed config }
    requires limits { AreAllowed limits }
    requires length { length script.now ≤ longest_input }
    ensures played { IfOk result (λ done. OnTrue done (Gained (K.given sink.old) (K.given sink.new)
        (played whole (start config limits) 1 script.now))) }
    ensures failed { IfOk result (λ done. OnFalse done (GainedFront (K.given sink.old) (K.given sink.new)
        (played whole (start config limits) 1 script.now))) }
    ensures no_fault { IfOk result (λ done. OnTrue done (K.faults sink.new ≡ K.faults sink.old)) }
    ensures cause { IfOk result (λ done. OnFalse done (K.faults sink.new ≡ one_more (K.faults sink.old))) }
    ensures err { OnErr result (GainedFront (K.given sink.old) (K.given sink.new)
        (played whole (start config limits) 1 script.now)) }
    ensures err_no_fault { OnErr result (K.faults sink.new ≡ K.faults sink.old) }
    ensures unasked { played whole (start config limits) 1 script.now ≡ [] → sink.new ≡ sink.old }
{
    let mut state = State::new(alloc, config, limits);
    let done = play_on(alloc, &mut state, script, whole, sink);
    // A run ends here, and its memory goes back whole: giving back each document by itself took an eighth of the time.
    forget(state);
    done
}
