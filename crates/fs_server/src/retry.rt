//! Requests that wait, and are tried again.
use crate::answering::refuse_batch;
use crate::changes::make;
use crate::server::Server;
use fs_history::Reads;
use fs_machine::{Answer, Parked};
use fs_request::{Request, copy_id};
use fs_status::{Id, Reason, Refusal};
use std::alloc::{AllocError, Global};

impl Server {
    ghost use Rattle.std.specs.Prelude.{◌≡◌, ◌≢◌, ◌<◌, ℕ, None, Some, false, IfOk, OnOk, OnErr, length, option_map, slice_get};
    ghost use Rattle.fs_status.specs.Refusal.{refusal_of};
    ghost use Rattle.fs_status.specs.declared.reason.Reason.TheVariants.{Memory};
    ghost use Rattle.fs_machine.specs.Grows.{Grows};
    ghost use Rattle.fs_machine.specs.Commit.{unless_closed};
    ghost use Rattle.fs_machine.specs.Request.{check_refusal, held_by, retry_refusal};
    ghost use Rattle.fs_machine.specs.Retry.{parked_of, retried, retry_answer};
    ghost use Rattle.fs_machine.specs.declared.answer.Answer.TheVariants.{Refused};
    ghost use Rattle.fs_machine.specs.declared.parked_request.ParkedRequest.{ParkedRequest};
    ghost use Rattle.fs_server.specs.Changes.{IsClear};
    ghost use Rattle.fs_server.specs.Noted.{is_streaming, noted_reads};

    /// How many requests wait.
    pub fn parked(&self) -> u64
        ensures { result ≡ length self.now.parked }
    {
        self.waiting.len() as u64
    }

    /// What is told of the request that waits at a place, counted from 0 in the order of arrival.
    pub fn parked_at(&self, alloc: Global, place: u64) -> Result<Parked, AllocError>
        requires { place < length self.now.parked }
        ensures { IfOk result (λ p. Some p ≡ option_map (parked_of self.now) (slice_get self.now.parked place)) }
    {
        let request = self.waiting.at(place as usize);
        let held = self.held_by(alloc, &request.envelope.request)?;
        Ok(Parked {
            session: request.session,
            id: copy_id(alloc, &request.envelope.id)?,
            stream: request.stream,
            held,
        })
    }

    // Whom a request waits for.
    fn held_by(&self, alloc: Global, request: &Request) -> Result<Option<Id>, AllocError>
        ensures { IfOk result (λ h. h ≡ held_by self.now request.now) }
    {
        let reads = self.shown(alloc, request)?;
        let held = self.holder(alloc, request, &reads);
        drop(reads);
        held
    }

    /// The request that waits at a place is tried again: what it is answered. One that still has to wait stays where it is
    /// (`Held`); else it waits no more, and is carried out as if it came now, or refused: for a limit that it would pass by now, or since
    /// its transaction isn't open any more. The batch of a stream that is refused is finished with that, and so whoever owns the stream is told.
    /// Where memory runs out, all is as before.
    pub fn retry(&mut self, alloc: Global, place: u64) -> Answer
        requires { place < length self.old.parked }
        ensures told { result ≢ Refused (refusal_of Memory) → Some result ≡ retry_answer self.old place }
        ensures state { result ≢ Refused (refusal_of Memory) → self.new ≡ retried self.old place }
        ensures memory { result ≡ Refused (refusal_of Memory) → self.new ≡ self.old }
        ensures grows { Grows self.old.past self.new.past }
    {
        self.stand();
        match self.try_again(alloc, place as usize) {
            Ok(answer) => answer,
            Err(_) => Answer::Refused(Refusal::of(Reason::Memory)),
        }
    }

    fn try_again(&mut self, alloc: Global, place: usize) -> Result<Answer, AllocError>
        requires { place < length self.old.parked }
        ensures told { IfOk result (λ a. Some a ≡ retry_answer self.old place) }
        ensures state { OnOk result (self.new ≡ retried self.old place) }
        ensures err { OnErr result (self.new ≡ self.old) }
    {
        self.stand();
        let request = &self.waiting.at(place).envelope.request;
        let reads = self.shown(alloc, request)?;
        match self.refusal(alloc, request, &reads) {
            Ok(None) => self.try_clear(alloc, place, reads),
            Ok(Some(refusal)) => {
                drop(reads);
                self.give_up(alloc, place, refusal)
            }
            Err(error) => {
                drop(reads);
                Err(error)
            }
        }
    }

    // It is refused, and waits no more. Its stream is told, if it is the batch of one.
    fn give_up(
        &mut self,
        alloc: Global,
        place: usize,
        refusal: Refusal,
    ) -> Result<Answer, AllocError>
        requires within { place < length self.old.parked }
        requires refused { (r : ParkedRequest) → slice_get self.old.parked place ≡ Some r
            → unless_closed (retry_refusal self.old r.envelope.request) (check_refusal self.old r.session r.envelope.request) ≡ Some refusal }
        ensures told { IfOk result (λ a. Some a ≡ retry_answer self.old place) }
        ensures state { OnOk result (self.new ≡ retried self.old place) }
        ensures err { OnErr result (self.new ≡ self.old) }
    {
        self.stand();
        match self.waiting.at(place).stream {
            Some(stream) => {
                let told = refusal.copy(alloc)?;
                refuse_batch(alloc, &mut self.streams, &mut self.sessions, stream, told)?;
                self.waiting.remove(place);
                Ok(Answer::Refused(refusal))
            }
            None => {
                self.waiting.remove(place);
                Ok(Answer::Refused(refusal))
            }
        }
    }

    // Why it waits no more and isn't carried out.
    fn refusal(
        &self,
        alloc: Global,
        request: &Request,
        reads: &Reads,
    ) -> Result<Option<Refusal>, AllocError>
        requires plain { is_streaming request.now ≡ false }
        requires reads { reads.now ≡ noted_reads self.now request.now }
        ensures { IfOk result (λ r. (session : ℕ) → r ≡ unless_closed (retry_refusal self.now request.now) (check_refusal self.now session request.now)) }
    {
        match self.retry_refusal(alloc, request, reads)? {
            Some(refusal) => Ok(Some(refusal)),
            None => Ok(self.check_refusal(request)),
        }
    }

    // Nothing stands in its way but what may hold it.
    fn try_clear(&mut self, alloc: Global, place: usize, reads: Reads) -> Result<Answer, AllocError>
        requires within { place < length self.old.parked }
        requires clear { (r : ParkedRequest) → slice_get self.old.parked place ≡ Some r → IsClear self.old r.session r.envelope.request reads }
        ensures told { IfOk result (λ a. Some a ≡ retry_answer self.old place) }
        ensures state { OnOk result (self.new ≡ retried self.old place) }
        ensures err { OnErr result (self.new ≡ self.old) }
    {
        self.past.hold_all(alloc)?;
        let request = &self.waiting.at(place).envelope.request;
        match self.holder(alloc, request, &reads)? {
            Some(id) => Ok(Answer::Held(id)),
            None => self.go_on(alloc, place, reads),
        }
    }

    // Nothing holds it.
    fn go_on(&mut self, alloc: Global, place: usize, reads: Reads) -> Result<Answer, AllocError>
        requires within { place < length self.old.parked }
        requires clear { (r : ParkedRequest) → slice_get self.old.parked place ≡ Some r → IsClear self.old r.session r.envelope.request reads }
        requires free { (r : ParkedRequest) → slice_get self.old.parked place ≡ Some r → held_by self.old r.envelope.request ≡ None }
        ensures told { IfOk result (λ a. Some a ≡ retry_answer self.old place) }
        ensures state { OnOk result (self.new ≡ retried self.old place) }
        ensures err { OnErr result (self.new ≡ self.old) }
    {
        self.stand();
        let request = self.waiting.at(place);
        let (answer, change) = self.carry_out(
            alloc,
            request.session,
            request.id,
            request.stream,
            &request.envelope,
            reads,
        )?;
        if let Err(error) = make(alloc, &mut self.past, &mut self.txns, change) {
            drop(answer);
            return Err(error);
        }
        self.waiting.remove(place);
        Ok(answer)
    }
}
