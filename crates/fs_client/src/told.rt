//! What a client makes of what it is told of targets.
ghost use Rattle.std.specs.Prelude.{◌≡◌};
ghost use Rattle.fs_local.specs.Told.{all_forgotten};

use crate::client::Client;
use fs_cache::Cache;
use fs_path::Bytes;
use fs_query::{Cause, ListenMessage, Numbers};
use fs_time::Micros;
use std::alloc::{AllocError, Global};

// Targets are listened to no longer. It takes no memory.
fn forget_all(cache: &mut Cache, ids: &[u32])
    ensures { cache.new ≡ all_forgotten ids.now cache.old }
{
    for id in ids {
        cache.forget(*id);
    }
}

impl Client {
    ghost use Rattle.std.specs.Prelude.{◌≡◌, OnErr, OnOk};
    ghost use Rattle.fs_local.specs.Raise.{may_raise, told_unchanged};
    ghost use Rattle.fs_local.specs.Told.{told, told_removed};

    /// Takes a message of targets.
    pub(crate) fn told(&mut self, alloc: Global, m: &ListenMessage) -> Result<(), AllocError>
        ensures ok { OnOk result (self.new ≡ told m.now self.old) }
        ensures err { OnErr result (self.new ≡ self.old) }
    {
        match m {
            ListenMessage::Changed {
                document,
                targets,
                left,
            } => {
                let targets = self.targets.own(alloc, targets)?;
                let left = self.targets.own(alloc, left)?;
                self.cache
                    .set(alloc, document, targets.as_slice(), left.as_slice())
            }
            ListenMessage::Deleted { name, left, .. } => {
                let left = self.targets.own(alloc, left)?;
                self.cache.leave(alloc, name, left.as_slice())
            }
            ListenMessage::Removed { name, left, .. } => {
                let left = self.targets.own(alloc, left)?;
                self.cache.leave(alloc, name, left.as_slice())
            }
            ListenMessage::Reset { targets } => {
                let own = self.targets.own(alloc, targets)?;
                self.cache.leave_all(alloc, own.as_slice())
            }
            ListenMessage::Remove { targets, cause } => { self.told_removed(alloc, targets, cause) }
            ListenMessage::Current { targets, .. } => {
                self.targets.set_current(targets.as_slice());
                Ok(())
            }
            ListenMessage::NoChange { time, token } => self.told_unchanged(alloc, *time, token),
            ListenMessage::Add { .. } => Ok(()),
        }
    }

    // Targets are gone at the server. Those that it refused are listened to no longer.
    fn told_removed(
        &mut self,
        alloc: Global,
        targets: &Numbers,
        cause: &Option<Cause>,
    ) -> Result<(), AllocError>
        ensures ok { OnOk result (self.new ≡ told_removed targets.now cause.now self.old) }
        ensures err { OnErr result (self.new ≡ self.old) }
    {
        let own = self.targets.own(alloc, targets)?;
        let Some(cause) = cause else {
            return self.cache.leave_all(alloc, own.as_slice());
        };
        self.targets.refuse(alloc, targets.as_slice(), cause)?;
        forget_all(&mut self.cache, own.as_slice());
        Ok(())
    }

    // Whether this time is that of a snapshot.
    fn may_raise(&self, time: Micros) -> bool
        ensures { result ≡ may_raise time self.now }
    {
        let is_from = match self.cache.snapshot() {
            Some(snapshot) => snapshot <= time,
            None => true,
        };
        is_from && self.targets.all_current()
    }

    // All targets are told up to a time. If each was told whole, what is staged is a snapshot.
    fn told_unchanged(
        &mut self,
        alloc: Global,
        time: Micros,
        token: &Bytes,
    ) -> Result<(), AllocError>
        ensures ok { OnOk result (self.new ≡ told_unchanged time token.now self.old) }
        ensures err { OnErr result (self.new ≡ self.old) }
    {
        if !self.may_raise(time) {
            return Ok(());
        }
        let token = token.copy(alloc)?;
        self.cache.take(time);
        self.targets.show(token);
        self.queue.cover(time);
        self.hand.raise();
        Ok(())
    }
}
