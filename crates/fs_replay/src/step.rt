//! What one line does: to the server and its sessions, and to the output.
ghost use Rattle.std.specs.Prelude.{◌≡◌, ◌++◌, OnOk};
ghost use Rattle.fs_machine.specs.Tick.{later};
ghost use Rattle.fs_status.specs.declared.reason.LineFault.TheVariants.{DoesNotApply};
ghost use Rattle.fs_status.specs.declared.reason.Reason.TheVariants as reasons;
ghost use Rattle.fs_replay.specs.Directory.{number_of};
ghost use Rattle.fs_replay.specs.Played.{Plays};
ghost use Rattle.fs_replay.specs.Step.{after_line, clocks, error_line, leaves, line_output, line_played, loads_by_hand, matches_by_hand, raises_by_hand, settles_by_hand, tries_by_hand};
ghost use Rattle.fs_replay.specs.Settling.{closed};

use crate::ask::ask_in_session;
use crate::calls::{match_shard, raise};
use crate::close::{close, empty, settle_one, try_all};
use crate::line::read_line;
use crate::reply::{say_error, say_refused};
use crate::request::Line;
use crate::serve::load_target;
use crate::state::State;
use fs_rpc::SessionRequest;
use fs_status::{Code, Id, LineFault, Reason};
use fs_time::Micros;
use std::alloc::{AllocError, Global};

fn later(a: Micros, b: Micros) -> Micros
    ensures { result ≡ later a b }
{
    if a < b { b } else { a }
}

// The clock goes on to a moment, and never back.
fn clock(
    alloc: Global,
    state: &mut State,
    time: Micros,
    out: &mut Vec<u8>,
) -> Result<(), AllocError>
    ensures { OnOk result (Plays (clocks state.old time) state.new out.old.items out.new.items) }
{
    let now = later(state.moment, time);
    state.server.tick(alloc, now)?;
    state.moment = now;
    close(alloc, state, out)
}

fn compact(
    alloc: Global,
    state: &mut State,
    time: Micros,
    out: &mut Vec<u8>,
) -> Result<(), AllocError>
    ensures { OnOk result (Plays (line_played state.old 0 (Line.Compact time)) state.new out.old.items out.new.items) }
{
    let _ = state.server.compact(time);
    close(alloc, state, out)
}

fn leave(
    alloc: Global,
    state: &mut State,
    number: u64,
    name: &str,
    out: &mut Vec<u8>,
) -> Result<(), AllocError>
    ensures { OnOk result (Plays (leaves state.old number name.now (number_of name.now state.old.directory))
        state.new out.old.items out.new.items) }
{
    match state.directory.number_of(name) {
        Some(session) => {
            state.server.leave(session);
            state.directory.remove(name);
            close(alloc, state, out)
        }
        None => say_does_not_apply(alloc, number, out),
    }
}

// A line is of a form, and does not apply as things stand.
fn say_does_not_apply(alloc: Global, number: u64, out: &mut Vec<u8>) -> Result<(), AllocError>
    ensures { OnOk result (out.new.items ≡ out.old.items ++ error_line (reasons.Line DoesNotApply) number) }
{
    say_refused(alloc, Reason::Line(LineFault::DoesNotApply), number, out)
}

// From now on the script settles by hand, or no more.
fn settle_by_hand(
    alloc: Global,
    state: &mut State,
    manual: bool,
    out: &mut Vec<u8>,
) -> Result<(), AllocError>
    ensures { OnOk result (Plays (closed (record state.old { manual = manual })) state.new out.old.items out.new.items) }
{
    state.manual = manual;
    close(alloc, state, out)
}

fn settle_named(
    alloc: Global,
    state: &mut State,
    number: u64,
    commit: Id,
    out: &mut Vec<u8>,
) -> Result<(), AllocError>
    ensures { OnOk result (Plays (settles_by_hand state.old number commit) state.new out.old.items out.new.items) }
{
    if state.manual && state.server.is_pending(commit) {
        settle_one(alloc, state, commit, out)
    } else {
        say_does_not_apply(alloc, number, out)
    }
}

fn retry(alloc: Global, state: &mut State, number: u64, out: &mut Vec<u8>) -> Result<(), AllocError>
    ensures { OnOk result (Plays (tries_by_hand state.old number) state.new out.old.items out.new.items) }
{
    if state.manual {
        try_all(alloc, state, out)
    } else {
        say_does_not_apply(alloc, number, out)
    }
}

// The target of a session is loaded, unless it is loaded.
fn load_named(
    alloc: Global,
    state: &mut State,
    number: u64,
    name: &str,
    target: u32,
    at: Option<Micros>,
    out: &mut Vec<u8>,
) -> Result<(), AllocError>
    ensures { OnOk result (Plays (loads_by_hand state.old number name.now target at) state.new out.old.items out.new.items) }
{
    if !state.manual {
        return say_does_not_apply(alloc, number, out);
    }
    match state.directory.number_of(name) {
        Some(session) if state.server.is_loaded(session, target) != Some(true) => {
            load_target(alloc, state, name, session, target, at, out)
        }
        _ => say_does_not_apply(alloc, number, out),
    }
}

fn match_by_hand(
    alloc: Global,
    state: &mut State,
    number: u64,
    shard: u32,
    out: &mut Vec<u8>,
) -> Result<(), AllocError>
    ensures { OnOk result (Plays (matches_by_hand state.old number shard) state.new out.old.items out.new.items) }
{
    if state.manual && shard < state.server.shards() {
        match_shard(alloc, &mut state.server, shard)?;
        empty(alloc, state, out)
    } else {
        say_does_not_apply(alloc, number, out)
    }
}

fn raise_named(
    alloc: Global,
    state: &mut State,
    number: u64,
    name: &str,
    out: &mut Vec<u8>,
) -> Result<(), AllocError>
    ensures { OnOk result (Plays (raises_by_hand state.old number name.now) state.new out.old.items out.new.items) }
{
    if !state.manual {
        return say_does_not_apply(alloc, number, out);
    }
    match state.directory.number_of(name) {
        Some(session) => {
            raise(alloc, &mut state.server, session)?;
            empty(alloc, state, out)
        }
        None => say_does_not_apply(alloc, number, out),
    }
}

fn request(
    alloc: Global,
    state: &mut State,
    number: u64,
    asked: SessionRequest,
    out: &mut Vec<u8>,
) -> Result<(), AllocError>
    ensures { OnOk result (Plays (line_played state.old number (Line.Asked asked)) state.new out.old.items out.new.items) }
{
    ask_in_session(alloc, state, asked, out)?;
    close(alloc, state, out)
}

// Carries out a line that was read.
fn carry_out_read(
    alloc: Global,
    state: &mut State,
    number: u64,
    line: Line,
    out: &mut Vec<u8>,
) -> Result<(), AllocError>
    ensures { OnOk result (Plays (line_played state.old number line) state.new out.old.items out.new.items) }
{
    match line {
        Line::Empty => Ok(()),
        Line::NotBuilt => {
            say_error(alloc, Code::Unimplemented, "line not read yet", number, out)
        }
        Line::Refused(reason) => say_refused(alloc, reason, number, out),
        Line::Asked(asked) => request(alloc, state, number, asked, out),
        Line::Clock(time) => clock(alloc, state, time, out),
        Line::Compact(time) => compact(alloc, state, time, out),
        Line::Leave(name) => leave(alloc, state, number, name.as_str(), out),
        Line::Manual(manual) => settle_by_hand(alloc, state, manual, out),
        Line::Settle(commit) => settle_named(alloc, state, number, commit, out),
        Line::Retry => retry(alloc, state, number, out),
        Line::Load {
            session,
            target,
            at,
        } => load_named(alloc, state, number, session.as_str(), target, at, out),
        Line::Match(shard) => match_by_hand(alloc, state, number, shard, out),
        Line::Raise(name) => raise_named(alloc, state, number, name.as_str(), out),
    }
}

/// Carries out a line, and adds what it writes to the output.
pub fn carry_out(
    alloc: Global,
    state: &mut State,
    number: u64,
    line: &[u8],
    out: &mut Vec<u8>,
) -> Result<(), AllocError>
    ensures output { OnOk result (out.new.items ≡ out.old.items ++ line_output state.old number line.now) }
    ensures state { OnOk result (state.new ≡ after_line state.old number line.now) }
{
    let read = read_line(alloc, state.server.root(), line)?;
    carry_out_read(alloc, state, number, read, out)
}
