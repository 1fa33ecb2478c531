//! Requests.
use crate::changes::make;
use crate::numbers::{ids_after, number_of};
use crate::server::Server;
use fs_history::Reads;
use fs_machine::{Answer, ParkedRequest};
use fs_request::{Envelope, Request};
use fs_status::{Id, Reason, Refusal};
use std::alloc::{AllocError, Global};

impl Server {
    ghost use Rattle.std.specs.Prelude.{◌≡◌, ◌≢◌, false, None, Some, nat_le, length, IfOk, OnOk, OnErr};
    ghost use Rattle.fs_status.specs.Refusal.{refusal_of};
    ghost use Rattle.fs_status.specs.declared.reason.Reason.TheVariants.{Memory};
    ghost use Rattle.fs_machine.specs.Grows.{Grows};
    ghost use Rattle.fs_machine.specs.Request.{answered, arrival_refusal, asked, check_refusal, held_by};
    ghost use Rattle.fs_machine.specs.declared.answer.Answer.TheVariants.{Refused};
    ghost use Rattle.fs_server.specs.Noted.{is_streaming, noted_reads};
    ghost use Rattle.fs_server.specs.Plain.{after_plain, told_plain};

    /// A request comes on a session: what it is answered at once. A commit that passes no limit is prepared, and its reply comes
    /// to the outbox of the session once it is settled and released. One that writes a name which a commit writes that isn't released
    /// yet waits (`Held`), until it is tried again; in pessimistic mode a commit of no transaction waits too for the open transactions that
    /// have read what it writes, and a read in a read-write transaction for the commits that aren't released and write what it reads.
    /// Reads are answered as of the time that they ask for, or of what is released, or of their transaction's. A transaction begins, and
    /// ends by its commit or a rollback; the commit of one that is in conflict is aborted. A target is added, or removed: one that isn't added
    /// is told to be removed, with the cause, unless the request breaks a rule or the session has another target of its id.
    ///
    /// A write stream is opened or resumed, or asked where it is, and is answered at once. Its next batch is such a commit; the response
    /// comes to whichever session owns the stream by then, and is kept: the same batch once more is answered by it, or told that it is in
    /// progress still (`InProgress`).
    ///
    /// Of several refusals the first of these is told: a rule of queries that is broken; limits, in the order in which `Limits` has them; a
    /// transaction that isn't open, or only reads and is to write, a stream that the session doesn't own or may not, or a stream token that isn't
    /// the next one or that before it, or a target that is there or isn't; a read time that is too old or too
    /// new, or a resume token that is none or shows a later time than what is released; that as many requests wait as may; a conflict; that
    /// no document is there. Where memory runs out, all is as before. (v1 reference, "Commit", "GetDocument",
    /// "BatchGetDocuments", "RunQuery", "BeginTransaction", "Rollback", "Listen", "Write".)
    pub fn request(&mut self, alloc: Global, session: u32, envelope: &Envelope) -> Answer
        ensures told { result ≢ Refused (refusal_of Memory) → result ≡ answered self.old session envelope.now }
        ensures state { result ≢ Refused (refusal_of Memory) → self.new ≡ asked self.old session envelope.now }
        ensures memory { result ≡ Refused (refusal_of Memory) → self.new ≡ self.old }
        ensures grows { Grows self.old.past self.new.past }
    {
        self.stand();
        match self.asked(alloc, session, envelope) {
            Ok(answer) => answer,
            Err(_) => Answer::Refused(Refusal::of(Reason::Memory)),
        }
    }

    fn asked(
        &mut self,
        alloc: Global,
        session: u32,
        envelope: &Envelope,
    ) -> Result<Answer, AllocError>
        ensures told { IfOk result (λ a. a ≡ answered self.old session envelope.now) }
        ensures state { OnOk result (self.new ≡ asked self.old session envelope.now) }
        ensures err { OnErr result (self.new ≡ self.old) }
    {
        match &envelope.request {
            Request::AddTarget {
                id,
                target,
                token,
                ..
            } => self.add_target(alloc, session, *id, target, token),
            Request::RemoveTarget { id, .. } => self.remove_target(alloc, session, *id),
            Request::Write { database, asked } => {
                self.write(alloc, session, &envelope.id, database, asked)
            }
            _ => self.ask(alloc, session, envelope),
        }
    }

    // One that is of no target and no stream.
    fn ask(
        &mut self,
        alloc: Global,
        session: u32,
        envelope: &Envelope,
    ) -> Result<Answer, AllocError>
        requires { is_streaming envelope.now.request ≡ false }
        ensures told { IfOk result (λ a. a ≡ told_plain self.old session envelope.now) }
        ensures state { OnOk result (self.new ≡ after_plain self.old session envelope.now) }
        ensures err { OnErr result (self.new ≡ self.old) }
    {
        let reads = self.shown(alloc, &envelope.request)?;
        match self.arrival_refusal(alloc, session, &envelope.request, &reads)? {
            Some(refusal) => Ok(Answer::Refused(refusal)),
            None => self.arrive(alloc, session, envelope, reads),
        }
    }

    // It passes no limit: it draws its number, if it draws one.
    fn arrive(
        &mut self,
        alloc: Global,
        session: u32,
        envelope: &Envelope,
        reads: Reads,
    ) -> Result<Answer, AllocError>
        requires plain { is_streaming envelope.now.request ≡ false }
        requires limits { arrival_refusal self.old session envelope.now.request ≡ None }
        requires reads { reads ≡ noted_reads self.old envelope.now.request }
        ensures told { IfOk result (λ a. a ≡ told_plain self.old session envelope.now) }
        ensures state { OnOk result (self.new ≡ after_plain self.old session envelope.now) }
        ensures err { OnErr result (self.new ≡ self.old) }
    {
        self.stand();
        match self.check_refusal(&envelope.request) {
            Some(refusal) => {
                self.numbers.ids = ids_after(self.numbers.ids, &envelope.request);
                Ok(Answer::Refused(refusal))
            }
            None => self.wait_or_go(alloc, session, envelope, reads),
        }
    }

    // It waits, or nothing holds it.
    fn wait_or_go(
        &mut self,
        alloc: Global,
        session: u32,
        envelope: &Envelope,
        reads: Reads,
    ) -> Result<Answer, AllocError>
        requires plain { is_streaming envelope.now.request ≡ false }
        requires limits { arrival_refusal self.old session envelope.now.request ≡ None }
        requires check { check_refusal self.old session envelope.now.request ≡ None }
        requires reads { reads ≡ noted_reads self.old envelope.now.request }
        ensures told { IfOk result (λ a. a ≡ told_plain self.old session envelope.now) }
        ensures state { OnOk result (self.new ≡ after_plain self.old session envelope.now) }
        ensures err { OnErr result (self.new ≡ self.old) }
    {
        self.past.hold_all(alloc)?;
        match self.holder(alloc, &envelope.request, &reads)? {
            Some(holder) => self.park(alloc, session, envelope, holder),
            None => self.go(alloc, session, envelope, reads),
        }
    }

    // It waits for the one of this number, unless as many wait as may.
    fn park(
        &mut self,
        alloc: Global,
        session: u32,
        envelope: &Envelope,
        holder: Id,
    ) -> Result<Answer, AllocError>
        requires plain { is_streaming envelope.now.request ≡ false }
        requires limits { arrival_refusal self.old session envelope.now.request ≡ None }
        requires check { check_refusal self.old session envelope.now.request ≡ None }
        requires held { held_by self.old envelope.now.request ≡ Some holder }
        ensures told { IfOk result (λ a. a ≡ told_plain self.old session envelope.now) }
        ensures state { OnOk result (self.new ≡ after_plain self.old session envelope.now) }
        ensures err { OnErr result (self.new ≡ self.old) }
    {
        self.stand();
        if self.waiting_is_full() {
            let refusal = Refusal::at_limit(alloc, "parked", self.limits.parked)?;
            self.numbers.ids = ids_after(self.numbers.ids, &envelope.request);
            return Ok(Answer::Refused(refusal));
        }
        let request = ParkedRequest {
            session,
            id: number_of(self.numbers.ids, &envelope.request),
            stream: None,
            envelope: envelope.copy(alloc)?,
        };
        self.waiting.push(request)?;
        self.numbers.ids = ids_after(self.numbers.ids, &envelope.request);
        Ok(Answer::Held(holder))
    }

    // Nothing holds it.
    fn go(
        &mut self,
        alloc: Global,
        session: u32,
        envelope: &Envelope,
        reads: Reads,
    ) -> Result<Answer, AllocError>
        requires plain { is_streaming envelope.now.request ≡ false }
        requires limits { arrival_refusal self.old session envelope.now.request ≡ None }
        requires check { check_refusal self.old session envelope.now.request ≡ None }
        requires free { held_by self.old envelope.now.request ≡ None }
        requires reads { reads ≡ noted_reads self.old envelope.now.request }
        ensures told { IfOk result (λ a. a ≡ told_plain self.old session envelope.now) }
        ensures state { OnOk result (self.new ≡ after_plain self.old session envelope.now) }
        ensures err { OnErr result (self.new ≡ self.old) }
    {
        self.stand();
        let id = number_of(self.numbers.ids, &envelope.request);
        let (answer, change) = self.carry_out(alloc, session, id, None, envelope, reads)?;
        if let Err(error) = make(alloc, &mut self.past, &mut self.txns, change) {
            drop(answer);
            return Err(error);
        }
        self.numbers.ids = ids_after(self.numbers.ids, &envelope.request);
        Ok(answer)
    }

    /// Whether as many requests wait as may.
    pub(crate) fn waiting_is_full(&self) -> bool
        ensures { result ≡ nat_le self.now.limits.parked (length self.now.parked) }
    {
        self.limits.parked <= self.waiting.len() as u64
    }
}
