//! A client of Firestore.
ghost use Rattle.std.specs.Prelude.{◌≡◌, OnErr, OnOk};
ghost use Rattle.fs_local.specs.TakeOut.{batch_out, sent_if, with_batch};

use crate::hand::{Hand, batch_request, remove_request};
use crate::shown::{Taken, pending, shown};
use crate::targets::{Targets, add_request};
use fs_cache::Cache;
use fs_local::{BatchRefusal, ClientError, View};
use fs_path::{List, Root};
use fs_query::{Cause, Target};
use fs_queue::{Queue, QueueError};
use fs_request::{Envelope, Message};
use fs_time::Micros;
use fs_write::Writes;
use std::alloc::{AllocError, Global};
use std::collections::VecDeque;
use std::marker::Model;

/// Requests in their order.
pub type Envelopes = List<Envelope>;

/// A client of a database: the targets that it listens to, the documents of its last snapshot, and the batches that it wrote and no snapshot
/// covers. It keeps no link itself: it is told that one is there (`connected`), gives what is to be sent (`take_out`), is given each
/// message (`receive`), and is told that the link is lost (`lost`).
///
///     step                            batches                 snapshot      it shows
///     the link is lost                                        1             c/a {n: 1}, from the cache
///     it writes c/a {n: 2}            1 waits                 1             c/a {n: 2}, pending, from the cache
///     it is connected, and greeted    1 waits                 1             the same
///     what is to be sent is taken     1 is sent               1             the same
///     it was committed at 2           1 acknowledged at 2     1             the same: the snapshot doesn't have it yet
///     c/a is {n: 2}; NO_CHANGE at 2                           2             c/a {n: 2}
///
/// (Cloud Firestore documentation, "Access data offline".)
#[derive(Drop)]
pub struct Client {
    pub(crate) root: Root,
    pub(crate) cache: Cache,
    pub(crate) targets: Targets,
    pub(crate) queue: Queue,
    pub(crate) hand: Hand,
    // the oldest first
    pub(crate) refusals: VecDeque<BatchRefusal>,
}

impl Model for Client {
    ghost use Rattle.fs_local.specs.Codes.{client_code};
    ghost use Rattle.fs_local.specs.State.{Client};

    ghost Value = { Client };

    ghost coded = { client_code };

    ghost use Rattle.fs_local.specs.Stands.{Stands};

    ghost view = { λ c. record { root = c.root; cache = c.cache; targets = c.targets; queue = c.queue; hand = c.hand; refusals = c.refusals.items } };

    ghost invariant = { λ c. Stands (record { root = c.root; cache = c.cache; targets = c.targets; queue = c.queue; hand = c.hand; refusals = c.refusals.items }) };
}

// The next batch is to be sent behind all else, if one may be sent.
fn push_batch(
    alloc: Global,
    root: &Root,
    queue: &mut Queue,
    hand: &mut Hand,
) -> Result<(), AllocError>
    ensures queue { OnOk result (queue.new ≡ sent_if (batch_out root.now hand.old queue.old) queue.old) }
    ensures hand { OnOk result (hand.new ≡ record hand.old { out = with_batch hand.old.out (batch_out root.now hand.old queue.old) }) }
    ensures err { OnErr result ((queue.new ≡ queue.old) × (hand.new ≡ hand.old)) }
{
    if !hand.is_greeted() {
        return Ok(());
    }
    let Some(n) = queue.next() else {
        return Ok(());
    };
    hand.push(batch_request(alloc, root, hand.token(), queue.writes(n))?)?;
    queue.sent(n);
    Ok(())
}

impl Client {
    ghost use Rattle.std.specs.Prelude.{◌≡◌, ◌⊎◌, ◌↔◌, ◌<◌, ◌^◌, suc, Err, IfErr, IfOk, IfSome, None, OnErr, OnOk, Some, alloc_error, drop, option_map, option_to_list, take};
    ghost use Rattle.std.specs.FinMap.{get};
    ghost use Rattle.std.specs.Option.{option_copied};
    ghost use Rattle.fs_queue.specs.Refusal.{count_refusal, push_refusal};
    ghost use Rattle.fs_queue.specs.declared.error.QueueError.TheVariants as queue_error;
    ghost use Rattle.fs_local.specs.Connect.{connected, lost};
    ghost use Rattle.fs_local.specs.Listen.{listen_refusal, listened, place_refusal};
    ghost use Rattle.fs_local.specs.Receive.{received};
    ghost use Rattle.fs_local.specs.Runs.{told_refusal};
    ghost use Rattle.fs_local.specs.Shown.{view_of};
    ghost use Rattle.fs_local.specs.Stands.{Stands};
    ghost use Rattle.fs_local.specs.State.{start};
    ghost use Rattle.fs_local.specs.TakeOut.{out_of, taken_out};
    ghost use Rattle.fs_local.specs.Unlisten.{unlistened};
    ghost use Rattle.fs_local.specs.Write.{wrote};
    ghost use Rattle.fs_local.specs.declared.error.ClientError.TheVariants.{Memory, Unknown};

    /// A client of a database that listens to nothing, has nothing and was never connected. It may listen to so many targets, and have so
    /// many batches that no snapshot covers. The allocator serves what comes.
    pub fn new(alloc: Global, root: Root, targets: u64, queue: u64) -> Client
        ensures { result ≡ start root targets queue }
    {
        Client {
            root,
            cache: Cache::new(alloc),
            targets: Targets::new(alloc, targets),
            queue: Queue::new(alloc, queue),
            hand: Hand::new(alloc),
            refusals: VecDeque::new(alloc),
        }
    }

    /// Listens to a target by an id, which has to be above every id before it. Of several refusals `NotRising` comes first, then `TooMany`.
    /// (v1 reference, `Target`.)
    pub fn listen(&mut self, alloc: Global, id: u32, target: Target) -> Result<(), ClientError>
        requires some { 0 < id }
        requires within { id < 2 ^ 31 }
        ensures ok { OnOk result (self.new ≡ listened id target self.old) }
        ensures err { OnErr result (self.new ≡ self.old) }

        // `NotRising`, `TooMany` and `Rule` just where they hold, but for want of memory, which only the rules want.
        ensures place { IfSome (place_refusal id self.old.targets) (λ e. result ≡ Err e) }
        ensures refused { IfSome (listen_refusal id target self.old) (λ e. (result ≡ Err e) ⊎ (result ≡ Err (Memory alloc_error))) }
        ensures memory { listen_refusal id target self.old ≡ None → IfErr result (λ e. e ≡ Memory alloc_error) }
    {
        self.targets.check(alloc, id, &target)?;
        self.hand
            .ask(add_request(alloc, &self.root, id, &target, None)?)?;
        if let Err(e) = self.targets.listen(id, target) {
            self.hand.take_back();
            return Err(ClientError::Memory(e));
        }
        Ok(())
    }

    /// Listens to a target no longer. Documents that no other target has are gone.
    pub fn unlisten(&mut self, alloc: Global, id: u32) -> Result<(), ClientError>
        ensures ok { OnOk result (self.new ≡ unlistened id self.old) }
        ensures err { OnErr result (self.new ≡ self.old) }

        // `Unknown` just where no target of the id is listened to.
        ensures unknown { (result ≡ Err (Unknown id)) ↔ (get self.old.targets.listened id ≡ None) }
        ensures memory { IfErr result (λ e. (e ≡ Unknown id) ⊎ (e ≡ Memory alloc_error)) }
    {
        if !self.targets.has(id) {
            return Err(ClientError::Unknown(id));
        }
        self.hand.ask(remove_request(alloc, &self.root, id)?)?;
        self.targets.unlisten(id);
        self.cache.forget(id);
        Ok(())
    }

    /// Writes a batch at a moment of the client's own clock, and gives its number. What it shows has the writes from now on.
    pub fn write(
        &mut self,
        alloc: Global,
        writes: Writes,
        moment: Micros,
    ) -> Result<u64, QueueError>
        ensures ok { IfOk result (λ n. (n ≡ suc self.old.queue.given) × (self.new ≡ wrote writes moment self.old)) }
        ensures err { OnErr result (self.new ≡ self.old) }

        // `Full`, `Count` and `Rule` just where they hold, but for want of memory, which only the rules want.
        ensures count { IfSome (count_refusal writes self.old.queue) (λ e. result ≡ Err e) }
        ensures refused { IfSome (push_refusal writes self.old.queue) (λ e. (result ≡ Err e) ⊎ (result ≡ Err (queue_error.Memory alloc_error))) }
        ensures memory { push_refusal writes self.old.queue ≡ None → IfErr result (λ e. e ≡ queue_error.Memory alloc_error) }
    {
        self.queue.push(alloc, writes, moment)
    }

    /// A new link is there. The stream is opened on it, or resumed, and each target is listened to once more.
    pub fn connected(&mut self, alloc: Global) -> Result<(), AllocError>
        ensures ok { OnOk result (self.new ≡ connected self.old) }
        ensures err { OnErr result (self.new ≡ self.old) }
    {
        let mut out = Vec::new(alloc);
        out.push(self.hand.greeting(alloc, &self.root)?)?;
        self.targets.push_requests(alloc, &self.root, &mut out)?;
        self.lost();
        self.hand.connect(out);
        Ok(())
    }

    /// The link is lost. What was told since the last snapshot is thrown away, and a batch that was sent and isn't answered waits again. It
    /// takes no memory.
    pub fn lost(&mut self)
        ensures { self.new ≡ lost self.old }
    {
        self.cache.throw();
        self.targets.cut();
        self.queue.lost();
        self.hand.cut();
    }

    /// What is to be sent on the link, in its order: what was asked for since, and behind it the next batch, if one may be sent.
    pub fn take_out(&mut self, alloc: Global) -> Result<Envelopes, AllocError>
        ensures ok { IfOk result (λ out. (out ≡ out_of self.old) × (self.new ≡ taken_out self.old)) }
        ensures err { OnErr result (self.new ≡ self.old) }
    {
        push_batch(alloc, &self.root, &mut self.queue, &mut self.hand)?;
        Ok(List::of(self.hand.take()))
    }

    /// Takes a message of the link. What it isn't for is passed over.
    pub fn receive(&mut self, alloc: Global, m: &Message) -> Result<(), AllocError>
        ensures ok { OnOk result (self.new ≡ received m.now self.old) }
        ensures err { OnErr result (self.new ≡ self.old) }
    {
        match m {
            Message::Listen(told) => self.told(alloc, told),
            Message::Write {
                stream,
                token,
                answer,
            } => self.answered(alloc, *stream, *token, answer),
            _ => Ok(()),
        }
    }

    /// What is shown of a target.
    pub fn view(&self, alloc: Global, id: u32) -> Result<View, ClientError>
        ensures ok { IfOk result (λ v. view_of id self.now ≡ Some v) }

        // `Unknown` just where no target of the id is listened to.
        ensures unknown { (result ≡ Err (Unknown id)) ↔ (get self.now.targets.listened id ≡ None) }
        ensures memory { IfErr result (λ e. (e ≡ Unknown id) ⊎ (e ≡ Memory alloc_error)) }
        ensures stands { Stands self.now }
    {
        let Some(listened) = self.targets.get(id) else {
            return Err(ClientError::Unknown(id));
        };
        let overlay = self.queue.lay(alloc, &Taken { cache: &self.cache })?;
        let documents = shown(alloc, &self.cache, &overlay, &listened.target)?;
        let pending = pending(alloc, &overlay, &documents)?;
        Ok(View {
            snapshot: self.cache.snapshot(),
            from_cache: !(self.hand.is_raised() && listened.shown),
            documents,
            pending,
        })
    }

    /// Why the server refused the target of an id, if it did.
    pub fn cause(&self, id: u32) -> Option<&Cause>
        ensures { option_copied result ≡ get self.now.targets.causes id }
    {
        self.targets.cause(id)
    }

    /// The oldest refusal of a batch that wasn't handed out yet. It takes no memory.
    pub fn take_refusal(&mut self) -> Option<BatchRefusal>
        ensures value { option_to_list result ≡ take 1 self.old.refusals }
        ensures rest { self.new ≡ told_refusal self.old }
    {
        self.refusals.pop_front()
    }
}
