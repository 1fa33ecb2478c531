//! Opening sessions.
use crate::server::Server;
use fs_status::{Reason, Refusal};
use fs_target::targets_are_lawful;
use std::alloc::{AllocError, Global};

// No session has a number so high.
const SESSION_NUMBERS: u64 = 4_294_967_296;

impl Server {
    ghost use Rattle.std.specs.Prelude.{◌≡◌, ◌≢◌, Err, IfOk, OnOk, OnErr};
    ghost use Rattle.fs_status.specs.Refusal.{refusal_of};
    ghost use Rattle.fs_status.specs.declared.reason.Reason.TheVariants.{Memory};
    ghost use Rattle.fs_machine.specs.Open.{is_full, open_answer, opened};
    ghost use Rattle.fs_machine.specs.Grows.{Grows};

    /// Opens a session: its number, in the order of opening, or the refusal of a session too many. Where memory runs out, all is
    /// as before.
    pub fn open(&mut self, alloc: Global) -> Result<u32, Refusal>
        ensures told { result ≢ Err (refusal_of Memory) → result ≡ open_answer self.old }
        ensures state { result ≢ Err (refusal_of Memory) → self.new ≡ opened self.old }
        ensures memory { result ≡ Err (refusal_of Memory) → self.new ≡ self.old }
        ensures grows { Grows self.old.past self.new.past }
    {
        self.stand();
        match self.opened(alloc) {
            Ok(answer) => answer,
            Err(_) => Err(Refusal::of(Reason::Memory)),
        }
    }

    fn opened(&mut self, alloc: Global) -> Result<Result<u32, Refusal>, AllocError>
        ensures told { IfOk result (λ answer. answer ≡ open_answer self.old) }
        ensures state { OnOk result (self.new ≡ opened self.old) }
        ensures err { OnErr result (self.new ≡ self.old) }
    {
        if self.is_full() {
            return Ok(Err(Refusal::at_limit(alloc, "sessions", self.limits.sessions)?));
        }
        self.stand();
        targets_are_lawful();
        let number = self.numbers.sessions as u32;
        self.listeners
            .add(alloc, number, self.config.shards, self.limits.targets)?;
        if let Err(error) = self.sessions.add(alloc, number) {
            self.listeners.take_back();
            return Err(error);
        }
        self.numbers.sessions += 1;
        Ok(Ok(number))
    }

    // Whether as many are open as may be, or no number is left.
    fn is_full(&self) -> bool
        ensures { result ≡ is_full self.now }
    {
        self.limits.sessions <= self.sessions.len() as u64
            || SESSION_NUMBERS <= self.numbers.sessions
    }
}
