//! What is told at the end of a script of the requests that still wait.
ghost use Rattle.std.specs.Prelude.{◌≡◌, ◌++◌, ◌<◌, IfOk, OnOk, Some, length, slice_get};
ghost use Rattle.serde_json.specs.Data.{no_members};
ghost use Rattle.serde_json.specs.Written.{compact_text};
ghost use Rattle.fs_valjson.specs.Tokens.{member_tokens, tokens_of};
ghost use Rattle.fs_machine.specs.declared.parked_request.ParkedRequest.{ParkedRequest};
ghost use Rattle.fs_replay.specs.Held.{held_json, held_line, held_lines, with_held};
ghost use Rattle.fs_replay.specs.Reply.{json_line};

use crate::directory::Directory;
use crate::reply::add_line;
use crate::state::State;
use fs_rpc::push_id;
use fs_server::{Parked, Server};
use fs_status::Id;
use fs_valjson::push_text;
use json::Writer;
use std::alloc::{AllocError, Global};

/// Most lines are shorter, and need no more room than this.
const ROOM: usize = 128;

/// Adds a line for each request that waits, in the order of arrival.
pub fn say_held(alloc: Global, state: &State, out: &mut Vec<u8>) -> Result<(), AllocError>
    ensures { OnOk result (out.new.items ≡ out.old.items ++ held_lines state.now) }
{
    for place in 0..state.server.parked() {
        say_one(alloc, &state.directory, &state.server, place, out)?;
    }
    Ok(())
}

fn say_one(
    alloc: Global,
    directory: &Directory,
    server: &Server,
    place: u64,
    out: &mut Vec<u8>,
) -> Result<(), AllocError>
    requires { place < length server.now.parked }
    ensures { OnOk result ((r : ParkedRequest) → slice_get server.now.parked place ≡ Some r
        → out.new.items ≡ out.old.items ++ held_line directory.now server.now r) }
{
    let parked = server.parked_at(alloc, place)?;
    match parked.stream {
        Some(stream) => {
            let number = stream.to_string(alloc)?;
            say_waits(alloc, "stream", &number, &parked, out)
        }
        None => match directory.name_of(parked.session) {
            Some(name) => say_waits(alloc, "session", name, &parked, out),
            None => Ok(()),
        },
    }
}

// The line of a request, by the member that tells who asks.
fn say_waits(
    alloc: Global,
    member: &str,
    asker: &str,
    parked: &Parked,
    out: &mut Vec<u8>,
) -> Result<(), AllocError>
    ensures { OnOk result (out.new.items ≡ out.old.items ++ json_line (held_json (member.now, asker.now) parked.now)) }
{
    let line = held_bytes(alloc, member, asker, parked)?;
    let said = add_line(out, &line);
    drop(line);
    said
}

// `{"held":"1","id":"9","session":"s"}`
fn held_bytes(
    alloc: Global,
    member: &str,
    asker: &str,
    parked: &Parked,
) -> Result<Vec<u8>, AllocError>
    ensures { IfOk result (λ b. b.items ≡ compact_text (held_json (member.now, asker.now) parked.now)) }
{
    let mut line = Writer::new(Vec::with_capacity(alloc, ROOM)?);
    push_held(alloc, &mut line, member, asker, parked)?;
    Ok(line.into_inner())
}

fn push_held(
    alloc: Global,
    line: &mut Writer,
    member: &str,
    asker: &str,
    parked: &Parked,
) -> Result<(), AllocError>
    ensures tokens { OnOk result (line.new.tokens ≡ line.old.tokens ++ tokens_of (held_json (member.now, asker.now) parked.now)) }
    ensures before { line.new.before ≡ line.old.before }
{
    line.begin_object()?;
    push_holder(alloc, line, parked.held)?;
    push_id(line, &parked.id)?;
    push_text(line, member, asker)?;
    line.end_object()
}

// The number of what holds it, where something does.
fn push_holder(alloc: Global, line: &mut Writer, held: Option<Id>) -> Result<(), AllocError>
    ensures tokens { OnOk result (line.new.tokens ≡ line.old.tokens ++ member_tokens (with_held held no_members)) }
    ensures before { line.new.before ≡ line.old.before }
{
    match held {
        Some(id) => push_number(alloc, line, id),
        None => Ok(()),
    }
}

fn push_number(alloc: Global, line: &mut Writer, id: Id) -> Result<(), AllocError>
    ensures tokens { OnOk result (line.new.tokens ≡ line.old.tokens ++ member_tokens (with_held (Some id) no_members)) }
    ensures before { line.new.before ≡ line.old.before }
{
    let digits = format!(in alloc; "{}", id.get())?;
    push_text(line, "held", &digits)
}
