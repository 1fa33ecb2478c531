//! The server.
ghost use Rattle.std.specs.Prelude.{◌≡◌};

use crate::settle::release;
use crate::waiting::Waiting;
use fs_machine::{Config, Limits, Messages, Numbers, machines_are_lawful};
use fs_past::{Past, Version};
use fs_path::{DocName, Root};
use fs_sessions::{Listeners, Sessions, lesser};
use fs_status::Id;
use fs_stream::Streams;
use fs_target::targets_are_lawful;
use fs_time::Micros;
use fs_txn::Txns;
use std::alloc::{AllocError, Global};
use std::marker::Model;

/// A Cloud Firestore server. A commit is first prepared, which gives it its time, then what its writes come to is told, and
/// with that it is settled. Any number may be pending, and they may be settled in any order; one is seen, and answered, once those before
/// it are settled too. A transaction is open from its begin to its commit, or until it is rolled back or expires.
///
///     open                        session 0
///     request: commit of c/a      commit 1 is pending at t1, and nobody sees it
///     request: commit of c/b      commit 2 is pending at t2
///     request: commit of c/a      it waits for commit 1, which writes c/a too
///     outcome and settle of 2     accepted; what is seen ends before t1
///     outcome and settle of 1     c/a and c/b can be read at t2, and session 0 has both replies to take, that of t1 first
///     retry of the first          commit 3 is pending at t3
///     tick to t9, compact to t5   once 3 is settled, times from t5 to t9 can be read
///
/// In pessimistic mode, where 3 was drawn last and nothing is pending:
///
///     request: begin              transaction 4 is open
///     request: 4 reads c/a        answered, and noted
///     request: commit of c/a      it draws 5, and waits for transaction 4, which has read c/a
///     request: commit of c/b in 4 commit 4 is pending, and transaction 4 isn't open any more
///     retry of the first          commit 5 is pending
/// (docs/DECISIONS.md, "A server's state is cut into groups".)
#[derive(Drop)]
pub struct Server {
    pub(crate) config: Config,
    pub(crate) limits: Limits,
    pub(crate) past: Past,
    pub(crate) txns: Txns,
    pub(crate) sessions: Sessions,
    // of the same sessions
    pub(crate) listeners: Listeners,
    // those that wait, in the order of their arrival
    pub(crate) waiting: Waiting,
    pub(crate) streams: Streams,
    pub(crate) numbers: Numbers,
}

impl Model for Server {
    ghost use Rattle.fs_machine.specs.State.{Machine, machine_code};

    ghost Value = { Machine };

    ghost coded = { machine_code };

    ghost use Rattle.fs_sessions.specs.Heard.{listeners_of};
    ghost use Rattle.fs_server.specs.Kept.{IsKept};

    ghost view = { λ s. record {
      config = s.config;
      limits = s.limits;
      past = s.past;
      txns = s.txns;
      sessions = s.sessions;
      listeners = listeners_of s.listeners;
      parked = s.waiting;
      streams = s.streams;
      numbers = s.numbers;
    } };

    ghost invariant = { λ s. IsKept s.config s.limits s.past s.txns s.sessions s.listeners s.waiting s.streams s.numbers };
}

impl Server {
    ghost use Rattle.std.specs.Prelude.{◌≡◌, ◌↔◌, ◌<◌, ◌^◌, [], IsNone, IfOk, IfSome, OnOk, OnErr, is_some};
    ghost use Rattle.fs_history.specs.Versions.{chain as chain_from};
    ghost use Rattle.fs_machine.specs.Compact.{compacted};
    ghost use Rattle.fs_machine.specs.Config.{IsAllowed};
    ghost use Rattle.fs_machine.specs.Facts.{Facts};
    ghost use Rattle.fs_machine.specs.Grows.{Grows};
    ghost use Rattle.fs_machine.specs.Laws.{AlwaysGrows};
    ghost use Rattle.fs_machine.specs.Leave.{departed};
    ghost use Rattle.fs_machine.specs.Limits.{AreAllowed};
    ghost use Rattle.fs_machine.specs.Outbox.{outbox_of, taken};
    ghost use Rattle.fs_machine.specs.State.{started};
    ghost use Rattle.fs_machine.specs.Tick.{advanced, ticked};
    ghost use Rattle.fs_machine.specs.Pending.{next_pending as next_in};
    ghost use Rattle.fs_machine.specs.Settle.{pending_of};
    ghost use Rattle.fs_past.specs.Bringing.{IsBrought};

    /// A server without documents and sessions, at a moment. The allocator serves what comes.
    pub fn new(alloc: Global, config: Config, limits: Limits, start: Micros) -> Server
        requires config { IsAllowed config }
        requires limits { AreAllowed limits }
        ensures { result ≡ started config limits start }
    {
        let past = Past::new(alloc, start, config.shards);
        let streams = Streams::new(alloc, limits.streams);
        Server {
            config,
            limits,
            past,
            txns: Txns::new(alloc),
            sessions: Sessions::new(alloc),
            listeners: Listeners::new(alloc),
            waiting: Waiting::new(alloc),
            streams,
            numbers: Numbers {
                ids: 0,
                sessions: 0,
                targets: 0,
            },
        }
    }

    /// The project and the database whose documents it has.
    pub fn root(&self) -> &Root
        ensures { result.now ≡ self.now.config.root }
    {
        &self.config.root
    }

    /// Into how many shards the collections are cut whose changes listeners are told of.
    pub fn shards(&self) -> u32
        ensures { result ≡ self.now.config.shards }
    {
        self.config.shards
    }

    /// The time up to which all that is committed can be read.
    pub fn released(&self) -> Micros
        ensures value { result ≡ self.now.past.released }
        ensures facts { Facts self.now }
    {
        self.past.released()
    }

    /// The pending commit of the least time.
    pub fn next_pending(&self) -> Option<Id>
        ensures value { result ≡ next_in self.now.past }
        ensures facts { Facts self.now }
    {
        self.stand();
        self.past.next_pending()
    }

    /// Whether the commit of a number is pending.
    pub fn is_pending(&self, commit: Id) -> bool
        ensures { result ≡ is_some (pending_of self.now.past commit) }
    {
        self.past.is_pending(commit)
    }

    /// A document's versions from the earliest time that can be read on, by rising time, and `None` where there are none.
    pub fn chain(&self, name: &DocName) -> Option<&[Version]>
        ensures some { IfSome result (λ c. c.now ≡ chain_from self.now.past.history self.now.past.floor name.now) }
        ensures none { IsNone result ↔ (chain_from self.now.past.history self.now.past.floor name.now ≡ []) }
    {
        self.past.chain(name)
    }

    /// A session ends, if it is open. Messages that it was still to be sent are lost, it listens to nothing any more, it owns no
    /// write stream, and its requests that wait are withdrawn; its pending commits go on, and so do its transactions, and the batches that
    /// streams took, whoever owns those later. It takes no memory.
    pub fn leave(&mut self, session: u32)
        ensures state { self.new ≡ departed self.old session }
        ensures grows { Grows self.old.past self.new.past }
    {
        self.stand();
        self.sessions.remove(session);
        self.listeners.remove(session);
        self.waiting.withdraw(session);
        self.streams.leave(session);
    }

    /// The clock goes on to a moment: transactions expire whose time has run out, and what can be is released: the time up to which can be
    /// read now. What is let out is answered, as by `settle`. Where memory runs out, the clock has gone on, and the release is owed: the next
    /// tick or settling makes it.
    pub fn tick(&mut self, alloc: Global, now: Micros) -> Result<Micros, AllocError>
        ensures ok { OnOk result (self.new ≡ ticked self.old now) }
        ensures told { IfOk result (λ t. t ≡ self.new.past.released) }
        ensures err { OnErr result (self.new ≡ advanced self.old now) }
        ensures grows { Grows self.old.past self.new.past }
    {
        self.stand();
        targets_are_lawful();
        self.past.advance(now);
        self.txns.expire(now);
        release(alloc, &mut self.past, &mut self.streams, &mut self.sessions)?;
        Ok(self.past.released())
    }

    /// Times before this one are given up, as far as what is released, no open transaction reads, and no target that is loaded is still to
    /// be told: the earliest time that can be read now. It takes no memory. (Cloud Firestore documentation, "Point-in-time recovery": how far back can be read.)
    pub fn compact(&mut self, to: Micros) -> Micros
        ensures state { self.new ≡ compacted self.old to }
        ensures told { result ≡ self.new.past.floor }
        ensures grows { Grows self.old.past self.new.past }
    {
        self.stand();
        let first = lesser(self.txns.oldest(), self.listeners.least_position());
        self.past.compact(to, first)
    }

    /// A session's messages, of which it has none left; none, where it isn't open. It takes no memory.
    pub fn take_outbox(&mut self, alloc: Global, session: u32) -> Messages
        ensures told { result ≡ outbox_of self.old session }
        ensures state { self.new ≡ taken self.old session }
        ensures grows { Grows self.old.past self.new.past }
    {
        self.stand();
        self.sessions.take(alloc, session)
    }

    // How many numbers requests have drawn.
    fn drawn(&self) -> u64
        ensures value { result ≡ self.now.numbers.ids }
        ensures counted { self.now.numbers.ids < 2 ^ 64 }
    {
        self.numbers.ids
    }

    // What stands at every moment, and whatever comes.
    pub(crate) fn stand(&self)
        ensures facts { Facts self.now }
        ensures allowed { AreAllowed self.now.limits }
        ensures brought { IsBrought self.now.past.history }
        ensures configured { IsAllowed self.now.config }
        ensures grows { AlwaysGrows }
        ensures counted { self.now.numbers.ids < 2 ^ 64 }
    {
        machines_are_lawful();
        let _ = self.past.last();
        let _ = self.drawn();
    }
}
