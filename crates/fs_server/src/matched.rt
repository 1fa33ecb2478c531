//! What was changed in a shard, as the targets of all sessions are told it.
use crate::server::Server;
use fs_target::{TimedEvents, targets_are_lawful};
use fs_time::Micros;
use std::alloc::{AllocError, Global};

impl Server {
    ghost use Rattle.std.specs.Prelude.{◌≡◌, ◌<◌, ◌≤ℤ◌, IfOk, OnErr, OnOk};
    ghost use Rattle.std.specs.List.{AllByRecursion};
    ghost use Rattle.fs_target.specs.Staged.{IsNamed};
    ghost use Rattle.fs_machine.specs.Grows.{Grows};
    ghost use Rattle.fs_machine.specs.Match.{matched};
    ghost use Rattle.fs_server.specs.Events.{AreEvents, IsOwed};

    /// What was changed in a shard, up to what is released, to each target that is loaded, behind what that was told of it: and the released
    /// time. A target is meant by its number. It costs a look at each session, a search among its collections for each change behind the least
    /// of all positions, and the matching of what was changed with the targets of those that have the collection of a change.
    pub fn events(&self, alloc: Global, shard: u32) -> Result<(TimedEvents, Micros), AllocError>
        requires { shard < self.now.config.shards }
        ensures events { IfOk result (λ e. AreEvents self.now shard self.now.past.released e.0) }
        ensures owed { IfOk result (λ e. AllByRecursion (IsOwed shard self.now.listeners) e.0) }
        ensures named { IfOk result (λ e. AllByRecursion IsNamed e.0) }
        ensures until { IfOk result (λ e. AllByRecursion (λ x. x.time ≤ℤ self.now.past.released) e.0) }
        ensures to { IfOk result (λ e. e.1 ≡ self.now.past.released) }
    {
        self.stand();
        let to = self.past.released();
        match self.listeners.least_in(shard) {
            Some(from) if from < to => {
                let commits = self.past.changes(alloc, shard, from)?;
                Ok((self.listeners.events(alloc, shard, commits.as_slice())?, to))
            }
            _ => Ok((TimedEvents::new(alloc), to)),
        }
    }

    /// Each target that is loaded was told a shard up to a time, that of these events, which are all that was changed there behind what it
    /// was told, and its position there is that time from now on, where it was below it. Where memory runs out, all is as before.
    pub fn feed(
        &mut self,
        alloc: Global,
        shard: u32,
        events: &TimedEvents,
        to: Micros,
    ) -> Result<(), AllocError>
        requires shard { shard < self.old.config.shards }
        requires released { to ≤ℤ self.old.past.released }
        requires until { AllByRecursion (λ e. e.time ≤ℤ to) events.now }
        requires named { AllByRecursion IsNamed events.now }
        requires events { AreEvents self.old shard to events.now }
        ensures ok { OnOk result (self.new ≡ matched self.old shard to) }
        ensures err { OnErr result (self.new ≡ self.old) }
        ensures grows { Grows self.old.past self.new.past }
    {
        self.stand();
        targets_are_lawful();
        self.listeners.feed(alloc, shard, events.as_slice(), to)
    }
}
