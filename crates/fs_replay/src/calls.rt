//! Calls of the server that may want memory, which ends a run.
ghost use Rattle.std.specs.Prelude.{◌≡◌, ◌≢◌, ◌<◌, IfOk, IsSome, OnOk, Some, length};
ghost use Rattle.fs_status.specs.Refusal.{refusal_of};
ghost use Rattle.fs_status.specs.declared.reason.Reason.TheVariants.{Memory};
ghost use Rattle.fs_machine.specs.Load.{load_refusal, loaded};
ghost use Rattle.fs_machine.specs.Match.{matched};
ghost use Rattle.fs_machine.specs.Open.{open_answer, opened};
ghost use Rattle.fs_machine.specs.Raise.{raised};
ghost use Rattle.fs_machine.specs.Request.{answered, asked};
ghost use Rattle.fs_machine.specs.Retry.{retried, retry_answer};
ghost use Rattle.fs_machine.specs.Settle.{pending_of, settled};

use fs_request::Envelope;
use fs_server::{Answer, Server, Settled};
use fs_status::{Id, Reason, Refusal};
use fs_time::Micros;
use std::alloc::{AllocError, Global};

/// Opens a session.
pub fn open(alloc: Global, server: &mut Server) -> Result<Result<u32, Refusal>, AllocError>
    ensures told { IfOk result (λ answer. answer ≡ open_answer server.old) }
    ensures state { OnOk result (server.new ≡ opened server.old) }
{
    let answer = server.open(alloc);
    if let Err(refusal) = &answer
        && let Reason::Memory = &refusal.reason
    {
        drop(answer);
        return Err(AllocError);
    }
    Ok(answer)
}

/// Asks the server on a session.
pub fn ask(
    alloc: Global,
    server: &mut Server,
    session: u32,
    envelope: &Envelope,
) -> Result<Answer, AllocError>
    ensures told { IfOk result (λ a. a ≡ answered server.old session envelope.now) }
    ensures state { OnOk result (server.new ≡ asked server.old session envelope.now) }
{
    let answer = server.request(alloc, session, envelope);
    if let Answer::Refused(refusal) = &answer
        && let Reason::Memory = &refusal.reason
    {
        drop(answer);
        return Err(AllocError);
    }
    Ok(answer)
}

/// Tries the request again that waits at a place.
pub fn retry(alloc: Global, server: &mut Server, place: u64) -> Result<Answer, AllocError>
    requires { place < length server.old.parked }
    ensures told { IfOk result (λ a. Some a ≡ retry_answer server.old place) }
    ensures state { OnOk result (server.new ≡ retried server.old place) }
{
    let answer = server.retry(alloc, place);
    if let Answer::Refused(refusal) = &answer
        && let Reason::Memory = &refusal.reason
    {
        drop(answer);
        return Err(AllocError);
    }
    Ok(answer)
}

/// Loads a target of a session: why it isn't loaded, if it isn't.
pub fn load(
    alloc: Global,
    server: &mut Server,
    session: u32,
    target: u32,
    at: Option<Micros>,
) -> Result<Option<Refusal>, AllocError>
    ensures told { IfOk result (λ r. r ≡ load_refusal server.old session target at) }
    ensures state { OnOk result (server.new ≡ loaded server.old session target at) }
{
    match server.load(alloc, session, target, at) {
        Ok(()) => Ok(None),
        Err(refusal) => unless_memory(refusal),
    }
}

fn unless_memory(refusal: Refusal) -> Result<Option<Refusal>, AllocError>
    ensures told { IfOk result (λ r. r ≡ Some refusal) }
    ensures other { OnOk result (refusal ≢ refusal_of Memory) }
{
    if let Reason::Memory = &refusal.reason {
        drop(refusal);
        return Err(AllocError);
    }
    Ok(Some(refusal))
}

/// Matches a shard, up to what is released.
pub fn match_shard(alloc: Global, server: &mut Server, shard: u32) -> Result<(), AllocError>
    requires { shard < server.old.config.shards }
    ensures { OnOk result (server.new ≡ matched server.old shard server.old.past.released) }
{
    let (events, to) = server.events(alloc, shard)?;
    let done = server.feed(alloc, shard, &events, to);
    drop(events);
    done
}

/// Raises a session.
pub fn raise(alloc: Global, server: &mut Server, session: u32) -> Result<(), AllocError>
    ensures { OnOk result (server.new ≡ raised server.old session) }
{
    let _ = server.raise(alloc, session)?;
    Ok(())
}

/// Settles a pending commit.
pub fn settle(alloc: Global, server: &mut Server, commit: Id) -> Result<(), AllocError>
    requires { IsSome (pending_of server.old.past commit) }
    ensures { OnOk result (server.new ≡ settled server.old commit) }
{
    let outcome = server.outcome(alloc, commit)?;
    match server.settle(alloc, commit, outcome) {
        Settled::Released(_) => Ok(()),
        Settled::Waiting(_) => Ok(()),
        Settled::Dropped => Ok(()),
        Settled::Memory(_) => Err(AllocError),
    }
}
