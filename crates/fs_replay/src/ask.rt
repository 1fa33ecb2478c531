//! Requests on the sessions of a script.
ghost use Rattle.std.specs.Prelude.{◌≡◌, ◌++◌, Ok, Err, IfOk, OnOk};
ghost use Rattle.fs_replay.specs.Directory.{number_of};
ghost use Rattle.fs_replay.specs.Line.{reason_of};
ghost use Rattle.fs_replay.specs.Outboxes.{reply_output};
ghost use Rattle.fs_replay.specs.Played.{Plays};
ghost use Rattle.fs_replay.specs.Step.{entered, entry, in_session, requested};

use crate::calls::{ask, open};
use crate::reply::{refuse, say};
use crate::state::State;
use fs_json::Bad;
use fs_path::Text;
use fs_request::{Envelope, Request};
use fs_rpc::SessionRequest;
use fs_server::Answer;
use fs_status::{Reason, Refusal};
use std::alloc::{AllocError, Global};

/// Carries out a request on a session, which opens with its first one.
pub fn ask_in_session(
    alloc: Global,
    state: &mut State,
    asked: SessionRequest,
    out: &mut Vec<u8>,
) -> Result<(), AllocError>
    ensures { OnOk result (Plays (in_session state.old asked (number_of asked.session state.old.directory))
        state.new out.old.items out.new.items) }
{
    let SessionRequest {
        session,
        id,
        request,
    } = asked;
    match request {
        Ok(request) => {
            let envelope = Envelope { id, request };
            let done = ask_as(alloc, state, session.as_str(), &envelope, out);
            drop(envelope);
            done
        }
        Err(bad) => refuse_as(alloc, state, session.as_str(), &id, bad, out),
    }
}

// The number of the session of a name, which opens if it isn't open; or why it may not.
fn enter(alloc: Global, state: &mut State, name: &str) -> Result<Result<u32, Refusal>, AllocError>
    ensures number { IfOk result (λ r. r ≡ entry state.old (number_of name.now state.old.directory)) }
    ensures state { OnOk result (state.new ≡ entered state.old name.now (number_of name.now state.old.directory)) }
{
    if let Some(number) = state.directory.number_of(name) {
        return Ok(Ok(number));
    }
    match open(alloc, &mut state.server)? {
        Ok(number) => {
            state.directory.add(Text::from_str(alloc, name)?, number)?;
            Ok(Ok(number))
        }
        Err(refusal) => Ok(Err(refusal)),
    }
}

// Carries out a request that is read.
fn ask_as(
    alloc: Global,
    state: &mut State,
    name: &str,
    envelope: &Envelope,
    out: &mut Vec<u8>,
) -> Result<(), AllocError>
    ensures { OnOk result (Plays (in_session state.old (record { session = name.now; id = envelope.now.id; request = Ok envelope.now.request })
        (number_of name.now state.old.directory)) state.new out.old.items out.new.items) }
{
    let entered = enter(alloc, state, name)?;
    let done = match &entered {
        Ok(number) => reply_to(alloc, state, name, *number, envelope, out),
        Err(refusal) => refuse(alloc, name, &envelope.id, refusal, out),
    };
    drop(entered);
    done
}

// Refuses one that isn't read.
fn refuse_as(
    alloc: Global,
    state: &mut State,
    name: &str,
    id: &Option<Text>,
    bad: Bad,
    out: &mut Vec<u8>,
) -> Result<(), AllocError>
    ensures { OnOk result (Plays (in_session state.old (record { session = name.now; id = id.now; request = Err bad })
        (number_of name.now state.old.directory)) state.new out.old.items out.new.items) }
{
    let refusal = match enter(alloc, state, name)? {
        Ok(_) => Refusal::of(reason_of(bad)),
        Err(refusal) => refusal,
    };
    let refused = refuse(alloc, name, id, &refusal, out);
    drop(refusal);
    refused
}

// Why a request that isn't read is refused.
fn reason_of(bad: Bad) -> Reason
    ensures { result ≡ reason_of bad }
{
    match bad {
        Bad::At(rule, place) => Reason::Rule(rule, place),
        Bad::Method(name) => Reason::Method(name),
        Bad::Memory(_) => Reason::Memory,
    }
}

fn reply_to(
    alloc: Global,
    state: &mut State,
    name: &str,
    number: u32,
    envelope: &Envelope,
    out: &mut Vec<u8>,
) -> Result<(), AllocError>
    ensures { OnOk result (Plays (requested state.old name.now number envelope.now) state.new out.old.items out.new.items) }
{
    let answer = ask(alloc, &mut state.server, number, envelope)?;
    let said = say_answer(alloc, name, &envelope.id, &answer, out);
    drop(answer);
    said
}

/// Adds what a request is answered at once.
pub fn say_answer(
    alloc: Global,
    name: &str,
    id: &Option<Text>,
    answer: &Answer,
    out: &mut Vec<u8>,
) -> Result<(), AllocError>
    ensures { OnOk result (out.new.items ≡ out.old.items ++ reply_output name.now id.now answer.now) }
{
    match answer {
        Answer::Reply(message) => say(alloc, name, message, out),
        Answer::Prepared(_, _) => Ok(()),
        Answer::Held(_) => Ok(()),
        Answer::InProgress(_) => Ok(()),
        Answer::Refused(refusal) => refuse(alloc, name, id, refusal, out),
    }
}
