//! Settling commits, and releasing what can be.
ghost use Rattle.std.specs.Prelude.{◌≡◌, IfOk, IsSome, OnOk, OnErr, Some};
ghost use Rattle.fs_request.specs.Refused.{refused as refused_by};
ghost use Rattle.fs_machine.specs.Release.{all_answered, committed_out, past_released};
ghost use Rattle.fs_machine.specs.Sessions.{delivered};
ghost use Rattle.fs_machine.specs.Settle.{ComesTo, dropped_from, pending_of, refused_to};
ghost use Rattle.fs_machine.specs.declared.unreleased.Unreleased.{Unreleased};
ghost use Rattle.fs_past.specs.Bringing.{BringsMore};
ghost use Rattle.fs_sessions.specs.Place.{all_delivered};
ghost use Rattle.fs_server.specs.Answering.{AreAnswerable, CanFinishFor};
ghost use Rattle.fs_server.specs.Settling.{is_refused, settled_so, Decides};

use crate::answering::{answers, finish_all, refuse_batch};
use crate::server::Server;
use fs_machine::{Asker, Outcome, Reply, Settled, Unreleased};
use fs_past::Past;
use fs_path::Text;
use fs_request::{Message, copy_id};
use fs_sessions::Sessions;
use fs_status::{Id, Refusal};
use fs_stream::Streams;
use fs_target::targets_are_lawful;
use fs_time::Micros;
use std::alloc::{AllocError, Global};

// The pending commit of a number.
fn pending(past: &Past, id: Id) -> &Unreleased
    requires { IsSome (pending_of past.now id) }
    ensures { pending_of past.now id ≡ Some result.now }
{
    match past.commit(id) {
        Some(commit) => commit,
        None => unreachable!(),
    }
}

// The session that asked is told a refusal.
fn tell_refused(
    alloc: Global,
    sessions: &mut Sessions,
    session: u32,
    request: &Option<Text>,
    refusal: &Refusal,
) -> Result<(), AllocError>
    ensures ok { OnOk result (sessions.new ≡ delivered session (refused_by request.now refusal.now) sessions.old) }
    ensures err { OnErr result (sessions.new ≡ sessions.old) }
{
    let request = copy_id(alloc, request)?;
    let message = Message::refused(alloc, request, refusal)?;
    sessions.deliver(session, message)
}

// A pending commit is dropped, and the session that asked is told why, or its stream has finished the batch so.
fn reject(
    alloc: Global,
    past: &mut Past,
    streams: &mut Streams,
    sessions: &mut Sessions,
    id: Id,
    refusal: Refusal,
) -> Result<(), AllocError>
    requires pending { IsSome (pending_of past.old id) }
    requires finishes { (u : Unreleased) → pending_of past.old id ≡ Some u → CanFinishFor streams.old u.asker }
    ensures past { OnOk result (past.new ≡ record past.old { unreleased = dropped_from id past.old.unreleased }) }
    ensures told { OnOk result ((u : Unreleased) → pending_of past.old id ≡ Some u
        → (streams.new, sessions.new) ≡ refused_to u.asker refusal (streams.old, sessions.old)) }
    ensures err { OnErr result (past.new ≡ past.old) }
    ensures err_streams { OnErr result (streams.new ≡ streams.old) }
    ensures err_told { OnErr result (sessions.new ≡ sessions.old) }
{
    match &pending(past, id).asker {
        Asker::Session { session, request } => {
            let told = tell_refused(alloc, sessions, *session, request, &refusal);
            drop(refusal);
            told?;
        }
        Asker::Stream(stream) => refuse_batch(alloc, streams, sessions, *stream, refusal)?,
    }
    past.reject(id);
    Ok(())
}

// A pending commit is accepted or dropped, by what its writes come to.
fn decide(
    alloc: Global,
    past: &mut Past,
    streams: &mut Streams,
    sessions: &mut Sessions,
    id: Id,
    outcome: Outcome,
) -> Result<(), AllocError>
    requires comes { ComesTo past.old id outcome }
    requires finishes { (u : Unreleased) → pending_of past.old id ≡ Some u → CanFinishFor streams.old u.asker }
    ensures ok { OnOk result (Decides past.old (streams.old, sessions.old) id outcome past.new (streams.new, sessions.new)) }
    ensures err { OnErr result (past.new ≡ past.old) }
    ensures err_streams { OnErr result (streams.new ≡ streams.old) }
    ensures err_told { OnErr result (sessions.new ≡ sessions.old) }
{
    match outcome {
        Outcome::Effects(changes, results) => {
            past.accept(id, changes, results);
            Ok(())
        }
        Outcome::Refused(refusal) => reject(alloc, past, streams, sessions, id, refusal),
    }
}

// What can be is released, and sessions have these replies. Where memory runs out, nothing is changed.
fn release_told(
    alloc: Global,
    past: &mut Past,
    sessions: &mut Sessions,
    replies: Vec<Reply>,
) -> Result<(), AllocError>
    ensures past { OnOk result (past.new ≡ past_released past.old) }
    ensures brings { OnOk result (BringsMore past.old past.new) }
    ensures told { OnOk result (sessions.new ≡ all_delivered replies.items sessions.old) }
    ensures err { OnErr result (past.new ≡ past.old) }
    ensures err_told { OnErr result (sessions.new ≡ sessions.old) }
{
    let to = sessions.deliver_all(alloc, replies)?;
    match past.release(alloc) {
        Ok(()) => Ok(()),
        Err(error) => {
            sessions.take_all_back(to);
            Err(error)
        }
    }
}

/// What can be is released, sessions have their replies, and streams keep their responses. Where memory runs out, nothing is changed.
/// (docs/DECISIONS.md, "Replies are delivered before what they tell is released".)
pub(crate) fn release(
    alloc: Global,
    past: &mut Past,
    streams: &mut Streams,
    sessions: &mut Sessions,
) -> Result<(), AllocError>
    requires { AreAnswerable streams.old (committed_out past.old) }
    ensures past { OnOk result (past.new ≡ past_released past.old) }
    ensures brings { OnOk result (BringsMore past.old past.new) }
    ensures told { OnOk result ((streams.new, sessions.new) ≡ all_answered (committed_out past.old) (streams.old, sessions.old)) }
    ensures err { OnErr result (past.new ≡ past.old) }
    ensures err_streams { OnErr result (streams.new ≡ streams.old) }
    ensures err_told { OnErr result (sessions.new ≡ sessions.old) }
{
    let commits = past.committed(alloc)?;
    let (replies, responses) = answers(alloc, streams, commits)?;
    match release_told(alloc, past, sessions, replies) {
        Ok(()) => {
            finish_all(streams, responses);
            Ok(())
        }
        Err(error) => {
            drop(responses);
            Err(error)
        }
    }
}

// What has become of a commit of this time, once what can be is released.
fn settled_so(dropped: bool, time: Micros, released: Micros) -> Settled
    ensures { result ≡ settled_so dropped time released }
{
    if dropped {
        return Settled::Dropped;
    }
    if released < time {
        Settled::Waiting(time)
    } else {
        Settled::Released(time)
    }
}

fn is_refused(outcome: &Outcome) -> bool
    ensures { result ≡ is_refused outcome.now }
{
    matches!(outcome, Outcome::Refused(_))
}

impl Server {
    ghost use Rattle.std.specs.Prelude.{◌≡◌, IfOk, IsSome};
    ghost use Rattle.fs_machine.specs.Settle.{ComesTo, Settles, pending_of};
    ghost use Rattle.fs_machine.specs.Grows.{Grows};

    /// What the writes of a pending commit come to, on what the commits before it leave. It stays so as long as the commit is pending,
    /// whatever else comes meanwhile. It is never refused for want of memory.
    /// (docs/DECISIONS.md, "What writes come to doesn't hang on memory".)
    pub fn outcome(&self, alloc: Global, commit: Id) -> Result<Outcome, AllocError>
        requires { IsSome (pending_of self.now.past commit) }
        ensures { IfOk result (λ o. ComesTo self.now.past commit o) }
    {
        self.past.outcome(alloc, commit)
    }

    /// A pending commit is settled with what its writes come to: it is accepted, or dropped where they are refused. Then what can be
    /// is released: the accepted commits before which none is pending, whose replies go to the outboxes in the order of their times.
    /// The batch of a stream is finished by it, and its response is kept, and goes to whichever session owns the stream by then.
    /// Commits may be settled in any order. Where memory runs out before the commit is accepted or dropped, all is as before; where it
    /// runs out then, the release is owed, and the next tick or settling makes it.
    pub fn settle(&mut self, alloc: Global, commit: Id, outcome: Outcome) -> Settled
        requires { ComesTo self.old.past commit outcome }
        ensures settles { Settles self.old self.new commit result }
        ensures grows { Grows self.old.past self.new.past }
    {
        self.stand();
        targets_are_lawful();
        let time = pending(&self.past, commit).time();
        let dropped = is_refused(&outcome);
        if let Err(_) = decide(
            alloc,
            &mut self.past,
            &mut self.streams,
            &mut self.sessions,
            commit,
            outcome,
        ) {
            return Settled::Memory(None);
        }
        match release(alloc, &mut self.past, &mut self.streams, &mut self.sessions) {
            Ok(()) => settled_so(dropped, time, self.past.released()),
            Err(_) => Settled::Memory(Some(time)),
        }
    }
}
