//! Sessions are raised.
use crate::server::Server;
use fs_target::{Cut, TimedEvent, targets_are_lawful};
use fs_time::Micros;
use std::alloc::{AllocError, Global};

impl Server {
    ghost use Rattle.std.specs.Prelude.{◌≡◌, IfOk, IsTrue, OnErr, OnOk, false, option_copied};
    ghost use Rattle.fs_listen.specs.Cuts.{is_ready};
    ghost use Rattle.fs_listen.specs.declared.cut.Cut.TheVariants.{At};
    ghost use Rattle.fs_machine.specs.Grows.{Grows};
    ghost use Rattle.fs_machine.specs.Listen.{listening_of};
    ghost use Rattle.fs_machine.specs.Raise.{cut_of, raised, raised_to_time};
    ghost use Rattle.fs_machine.specs.Refusing.{outbox_is_full};
    ghost use Rattle.fs_server.specs.Events.{IsStagedOf};

    /// Raises a session: where its targets are together at a time, it is told how their views became what they are then, and that these are
    /// all of them. How far they are together is told in any case. Nothing comes to its outbox where they aren't, where it was raised to
    /// that time and no target is new, or where too many messages wait for it. Where memory runs out, all is as before. (v1 reference,
    /// `TargetChange`: CURRENT, NO_CHANGE.)
    pub fn raise(&mut self, alloc: Global, session: u32) -> Result<Cut, AllocError>
        ensures told { IfOk result (λ c. c ≡ cut_of self.old session) }
        ensures state { OnOk result (self.new ≡ raised self.old session) }
        ensures err { OnErr result (self.new ≡ self.old) }
        ensures grows { Grows self.old.past self.new.past }
    {
        self.stand();
        let cut = self.listeners.cut(session);
        if self.outbox_is_full(session) || !self.listeners.ready(session) {
            return Ok(cut);
        }
        if let Cut::At(time) = cut {
            self.raise_to(alloc, session, time)?;
        }
        Ok(cut)
    }

    // To the time at which its targets are together.
    fn raise_to(&mut self, alloc: Global, session: u32, time: Micros) -> Result<(), AllocError>
        requires room { outbox_is_full self.old session ≡ false }
        requires cut { cut_of self.old session ≡ At time }
        requires ready { IsTrue (is_ready (listening_of self.old session)) }
        ensures ok { OnOk result (self.new ≡ raised_to_time self.old session time) }
        ensures err { OnErr result (self.new ≡ self.old) }
    {
        self.stand();
        targets_are_lawful();
        self.listeners
            .raise(alloc, &self.past, &mut self.sessions, session, time)
    }

    /// The events that are staged of a target of a session, if it is loaded: what was changed behind its base, which is the time it was
    /// loaded at, or that of the last raise once it is current, and up to its position in the shard of each name.
    pub fn staged(&self, session: u32, target: u32) -> Option<&[TimedEvent]>
        ensures { IsStagedOf self.now session target (option_copied result) }
    {
        self.stand();
        self.listeners.loaded(session, target)?;
        self.listeners.staged(session, target)
    }
}
