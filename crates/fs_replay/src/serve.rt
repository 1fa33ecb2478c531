//! What is done after each line for the sessions that listen: targets are loaded, shards are matched, and sessions are raised.
ghost use Rattle.std.specs.Prelude.{◌≡◌, ◌++◌, ◌<◌, OnOk, length, slice_index_or};
ghost use Rattle.fs_replay.specs.Played.{Plays};
ghost use Rattle.fs_replay.specs.Settling.{loads_each, loads_of, loads_one, matches_all, raises_each, serves, tells};
ghost use Rattle.fs_replay.specs.Step.{load_output, loads};
ghost use Rattle.fs_replay.specs.declared.directory.Named.{Named};

use crate::calls::{load, match_shard, raise};
use crate::close::empty;
use crate::reply::{refuse, say_all};
use crate::state::State;
use fs_status::Refusal;
use fs_time::Micros;
use std::alloc::{AllocError, Global};

/// Each target that isn't loaded is loaded, each shard is matched up to what is released, and each session is raised, and told so.
pub fn serve(alloc: Global, state: &mut State, out: &mut Vec<u8>) -> Result<(), AllocError>
    ensures { OnOk result (Plays (serves state.old) state.new out.old.items out.new.items) }
{
    load_each(alloc, state, out)?;
    match_all(alloc, state)?;
    raise_each(alloc, state, out)
}

// ---- loading

fn load_each(alloc: Global, state: &mut State, out: &mut Vec<u8>) -> Result<(), AllocError>
    ensures { OnOk result (Plays (loads_each state.old.directory state.old) state.new out.old.items out.new.items) }
{
    for place in 0..state.directory.len() {
        load_at(alloc, state, place, out)?;
    }
    Ok(())
}

// The targets of the session at a place that aren't loaded.
fn load_at(
    alloc: Global,
    state: &mut State,
    place: usize,
    out: &mut Vec<u8>,
) -> Result<(), AllocError>
    requires { place < length state.old.directory }
    ensures { OnOk result ((n : Named) → Plays (loads_of (slice_index_or state.old.directory place n) state.old) state.new out.old.items out.new.items) }
{
    let session = state.directory.as_slice()[place].number;
    'targets: while let Some(target) = state.server.unloaded(session) {
        load_one(alloc, state, place, session, target, out)?;
    }
    Ok(())
}

fn load_one(
    alloc: Global,
    state: &mut State,
    place: usize,
    session: u32,
    target: u32,
    out: &mut Vec<u8>,
) -> Result<(), AllocError>
    requires within { place < length state.old.directory }
    requires number { (n : Named) → session ≡ (slice_index_or state.old.directory place n).number }
    ensures { OnOk result ((n : Named) → Plays (loads_one (slice_index_or state.old.directory place n) target state.old) state.new out.old.items out.new.items) }
{
    let _ = load(alloc, &mut state.server, session, target, None)?;
    tell(alloc, state, place, session, out)
}

/// Loads a target of a session by hand, at a time or at what is released.
pub fn load_target(
    alloc: Global,
    state: &mut State,
    name: &str,
    session: u32,
    target: u32,
    at: Option<Micros>,
    out: &mut Vec<u8>,
) -> Result<(), AllocError>
    ensures { OnOk result (Plays (loads state.old name.now session target at) state.new out.old.items out.new.items) }
{
    let refusal = load(alloc, &mut state.server, session, target, at)?;
    say_refusal(alloc, name, refusal, out)?;
    empty(alloc, state, out)
}

fn say_refusal(
    alloc: Global,
    name: &str,
    refusal: Option<Refusal>,
    out: &mut Vec<u8>,
) -> Result<(), AllocError>
    ensures { OnOk result (out.new.items ≡ out.old.items ++ load_output name.now refusal) }
{
    match refusal {
        Some(refusal) => {
            let said = refuse(alloc, name, &None, &refusal, out);
            drop(refusal);
            said
        }
        None => Ok(()),
    }
}

// ---- matching

fn match_all(alloc: Global, state: &mut State) -> Result<(), AllocError>
    ensures { OnOk result (state.new ≡ (matches_all state.old).state) }
{
    for shard in 0..state.server.shards() {
        match_shard(alloc, &mut state.server, shard)?;
    }
    Ok(())
}

// ---- raising

fn raise_each(alloc: Global, state: &mut State, out: &mut Vec<u8>) -> Result<(), AllocError>
    ensures { OnOk result (Plays (raises_each state.old.directory state.old) state.new out.old.items out.new.items) }
{
    for place in 0..state.directory.len() {
        let session = state.directory.as_slice()[place].number;
        raise(alloc, &mut state.server, session)?;
        tell(alloc, state, place, session, out)?;
    }
    Ok(())
}

// The messages of the session at a place are taken, and written.
fn tell(
    alloc: Global,
    state: &mut State,
    place: usize,
    session: u32,
    out: &mut Vec<u8>,
) -> Result<(), AllocError>
    requires within { place < length state.old.directory }
    requires number { (n : Named) → session ≡ (slice_index_or state.old.directory place n).number }
    ensures { OnOk result ((n : Named) → Plays (tells (slice_index_or state.old.directory place n) state.old) state.new out.old.items out.new.items) }
{
    let messages = state.server.take_outbox(alloc, session);
    let name = state.directory.as_slice()[place].name.as_str();
    say_all(alloc, name, messages.as_slice(), out)
}
