//! What is done after each line: the outboxes are emptied, and what can be is settled.
ghost use Rattle.std.specs.Prelude.{◌≡◌, ◌++◌, ◌<◌, IfOk, IsSome, OnOk, length, is_some};
ghost use Rattle.fs_machine.specs.Pending.{next_pending};
ghost use Rattle.fs_machine.specs.Retry.{retry_answer};
ghost use Rattle.fs_machine.specs.Settle.{pending_of};
ghost use Rattle.fs_machine.specs.declared.parked_request.ParkedRequest.{ParkedRequest};
ghost use Rattle.fs_replay.specs.Outboxes.{drained, drain_output};
ghost use Rattle.fs_replay.specs.Played.{Plays};
ghost use Rattle.fs_replay.specs.Settling.{closed, did_something, emptied, retry_output, settles, settles_next, settling, tries, tries_all, turn, waits_on};

use crate::ask::say_answer;
use crate::calls::{retry, settle};
use crate::directory::{Directory, Named};
use crate::reply::say_all;
use crate::serve::serve;
use crate::state::State;
use fs_server::{Answer, Parked, Server};
use fs_status::Id;
use std::alloc::{AllocError, Global};

/// The outboxes are emptied. Unless the script settles by hand, commits are settled then, and requests that wait are tried again, until
/// nothing is left to do; and then sessions are told what changed of their targets.
pub fn close(alloc: Global, state: &mut State, out: &mut Vec<u8>) -> Result<(), AllocError>
    ensures { OnOk result (Plays (closed state.old) state.new out.old.items out.new.items) }
{
    empty(alloc, state, out)?;
    if state.manual {
        return Ok(());
    }
    settle_all(alloc, state, out)?;
    serve(alloc, state, out)
}

// Turns are made until one does nothing.
fn settle_all(alloc: Global, state: &mut State, out: &mut Vec<u8>) -> Result<(), AllocError>
    ensures { OnOk result (Plays (settling state.old) state.new out.old.items out.new.items) }
{
    'turns: while take_turn(alloc, state, out)? {}
    Ok(())
}

// The earliest pending commit is settled, and each request that waits is tried once: whether that did something.
fn take_turn(alloc: Global, state: &mut State, out: &mut Vec<u8>) -> Result<bool, AllocError>
    ensures plays { OnOk result (Plays (turn state.old) state.new out.old.items out.new.items) }
    ensures done { IfOk result (λ done. done ≡ did_something state.old state.new) }
{
    let waited = state.server.parked();
    let settled = settle_next(alloc, state, out)?;
    try_all(alloc, state, out)?;
    Ok(settled || state.server.parked() < waited)
}

// Whether a commit was pending.
fn settle_next(alloc: Global, state: &mut State, out: &mut Vec<u8>) -> Result<bool, AllocError>
    ensures plays { OnOk result (Plays (settles_next state.old) state.new out.old.items out.new.items) }
    ensures some { IfOk result (λ some. some ≡ is_some (next_pending state.old.server.past)) }
{
    match state.server.next_pending() {
        Some(commit) => {
            settle_one(alloc, state, commit, out)?;
            Ok(true)
        }
        None => Ok(false),
    }
}

/// A pending commit is settled, and the outboxes are emptied.
pub fn settle_one(
    alloc: Global,
    state: &mut State,
    commit: Id,
    out: &mut Vec<u8>,
) -> Result<(), AllocError>
    requires { IsSome (pending_of state.old.server.past commit) }
    ensures { OnOk result (Plays (settles state.old commit) state.new out.old.items out.new.items) }
{
    settle(alloc, &mut state.server, commit)?;
    empty(alloc, state, out)
}

/// Each request that waits is tried once, in the order of arrival.
pub fn try_all(alloc: Global, state: &mut State, out: &mut Vec<u8>) -> Result<(), AllocError>
    ensures { OnOk result (Plays (tries_all state.old) state.new out.old.items out.new.items) }
{
    let mut place = 0;
    let mut untried = state.server.parked();
    'requests: while untried > 0 {
        if try_one(alloc, state, place, out)? {
            place += 1;
        }
        untried -= 1;
    }
    Ok(())
}

// The request that waits at a place is tried again, and the outboxes are emptied: whether it waits on.
fn try_one(
    alloc: Global,
    state: &mut State,
    place: u64,
    out: &mut Vec<u8>,
) -> Result<bool, AllocError>
    requires { place < length state.old.server.parked }
    ensures plays { OnOk result (Plays (tries state.old place) state.new out.old.items out.new.items) }
    ensures waits { IfOk result (λ waits. waits ≡ waits_on (retry_answer state.old.server place)) }
{
    let parked = state.server.parked_at(alloc, place)?;
    let answer = retry(alloc, &mut state.server, place)?;
    say_tried(alloc, &state.directory, &parked, &answer, out)?;
    let waits = matches!(answer, Answer::Held(_));
    drop(answer);
    empty(alloc, state, out)?;
    Ok(waits)
}

// Adds why a request is refused that was tried again.
fn say_tried(
    alloc: Global,
    directory: &Directory,
    parked: &Parked,
    answer: &Answer,
    out: &mut Vec<u8>,
) -> Result<(), AllocError>
    ensures { OnOk result ((r : ParkedRequest) → r.session ≡ parked.now.session → r.envelope.id ≡ parked.now.id → r.stream ≡ parked.now.stream
        → out.new.items ≡ out.old.items ++ retry_output directory.now r answer.now) }
{
    if parked.stream.is_some() {
        return Ok(());
    }
    match directory.name_of(parked.session) {
        Some(name) => say_answer(alloc, name, &parked.id, answer, out),
        None => Ok(()),
    }
}

/// Empties the outboxes, and writes what they held.
pub fn empty(alloc: Global, state: &mut State, out: &mut Vec<u8>) -> Result<(), AllocError>
    ensures { OnOk result (Plays (emptied state.old) state.new out.old.items out.new.items) }
{
    drain(alloc, &mut state.server, state.directory.as_slice(), out)
}

fn drain(
    alloc: Global,
    server: &mut Server,
    named: &[Named],
    out: &mut Vec<u8>,
) -> Result<(), AllocError>
    ensures server { OnOk result (server.new ≡ drained named.now server.old) }
    ensures output { OnOk result (out.new.items ≡ out.old.items ++ drain_output named.now server.old) }
{
    match named {
        [] => Ok(()),
        [first, rest @ ..] => {
            let messages = server.take_outbox(alloc, first.number);
            say_all(alloc, first.name.as_str(), messages.as_slice(), out)?;
            drain(alloc, server, rest, out)
        }
    }
}
