//! The batches of a client.
ghost use Rattle.std.specs.Prelude.{◌≡◌};
ghost use Rattle.fs_queue.specs.Queue.{phase_in};
ghost use Rattle.fs_write.specs.WrittenName.{is_written};

use crate::batch::{Acknowledged, LocalBatch, Phase};
use crate::error::QueueError;
use crate::overlay::Overlay;
use crate::push::check_rules;
use crate::shelf::{Listed, Shelf};
use fs_path::DocName;
use fs_time::Micros;
use fs_value::Documents;
use fs_write::{MOST_WRITES, Write, Writes};
use std::alloc::{AllocError, Global};
use std::collections::VecDeque;
use std::marker::Model;

/// The batches of a client, in their order: those that are acknowledged and not covered by a snapshot, and behind them those that aren't
/// answered, of which the first may be sent.
///
///     batch                    acknowledged      not answered
///     1 and 2 are written                        1, 2
///     1 is sent                                  1 (sent), 2
///     the link is lost                           1, 2
///     1 is committed at 7      1 (at 7)          2
///     2 is refused             1 (at 7)
///     a snapshot is at 7
///
/// Each call but the overlay and `cover` costs the same, however many there are. (Cloud Firestore documentation, "Access data offline".)
/// (docs/DECISIONS.md, "Batches are answered in their order".)
#[derive(Drop)]
pub struct Queue {
    // the oldest first, with room for those that aren't answered
    acknowledged: Vec<Acknowledged>,
    // the oldest first
    unanswered: VecDeque<LocalBatch>,
    // whether the first of those is sent
    sent: bool,
    given: u64,
    limit: u64,
}

impl Model for Queue {
    ghost use Rattle.fs_queue.specs.Queue.{Queue, queue_code};

    ghost Value = { Queue };

    ghost coded = { queue_code };

    ghost use Rattle.std.specs.Prelude.{length, vec_capacity};
    ghost use Rattle.fs_queue.specs.Room.{IsKept};

    ghost view = { λ q. record { limit = q.limit; given = q.given; acknowledged = q.acknowledged.items; unanswered = q.unanswered.items; sent = q.sent } };

    ghost invariant = { λ q. IsKept (vec_capacity q.acknowledged) q.given (length q.acknowledged.items) q.unanswered.items q.sent };
}

// How far a batch is that may be acknowledged.
fn phase_in(acknowledged: &[Acknowledged], n: u64) -> Option<Phase>
    ensures { result ≡ phase_in acknowledged.now n }
{
    for a in acknowledged {
        if a.number == n {
            return Some(Phase::Acknowledged(a.at));
        }
    }
    None
}

// Whether one of some writes names a document.
fn is_written_in(name: &DocName, writes: &[Write]) -> bool
    ensures { result ≡ is_written name.now writes.now }
{
    for write in writes {
        if write.name() == name {
            return true;
        }
    }
    false
}

impl Queue {
    ghost use Rattle.std.specs.Prelude.{◌≡◌, ◌≢◌, ◌⊎◌, ◌+◌, suc, true, false, Bool, Err, IfErr, IfOk, IfSome, IsTrue, None, OnErr, Some, alloc_error, length, slice_get};
    ghost use Rattle.std.specs.FinMap.{is_sorted, values};
    ghost use Rattle.fs_path.specs.NameOrder.{name_cmp};
    ghost use Rattle.fs_value.specs.Named.{by_name};
    ghost use Rattle.fs_write.specs.Batch.{docs_of};
    ghost use Rattle.fs_queue.specs.Overlay.{IsOverlay, overlay};
    ghost use Rattle.fs_queue.specs.Queue.{acknowledged_at, batches, covered_to, is_named, is_unanswered, next_of, none_queued, oldest_of, phase_of, place_of, pushed, refused_oldest, sent_on, with_link_lost, writes_in};
    ghost use Rattle.fs_queue.specs.Refusal.{count_refusal, is_full, push_refusal};
    ghost use Rattle.fs_queue.specs.declared.error.QueueError.TheVariants.{Memory};

    /// No batches, of which there may be as many as the limit. The allocator serves those that come.
    pub fn new(alloc: Global, limit: u64) -> Queue
        ensures { result ≡ none_queued limit }
    {
        Queue {
            acknowledged: Vec::new(alloc),
            unanswered: VecDeque::new(alloc),
            sent: false,
            given: 0,
            limit,
        }
    }

    /// Whether as many batches as may be aren't covered, or no number is left.
    pub fn is_full(&self) -> bool
        ensures { result ≡ is_full self.now }
    {
        let there = self.acknowledged.len() as u64 + self.unanswered.len() as u64;
        self.limit <= there || self.given == u64::MAX
    }

    /// Takes a batch, which the client wrote at a moment, and gives its number. Of several refusals `Full` comes first, then `Count`.
    pub fn push(&mut self, alloc: Global, writes: Writes, moment: Micros) -> Result<u64, QueueError>
        ensures ok { IfOk result (λ n. (n ≡ suc self.old.given) × (self.new ≡ pushed writes moment self.old)) }
        ensures err { OnErr result (self.new ≡ self.old) }

        // `Full`, `Count` and `Rule` just where they hold, but for want of memory, which only the rules want.
        ensures count { IfSome (count_refusal writes self.old) (λ e. result ≡ Err e) }
        ensures refused { IfSome (push_refusal writes self.old) (λ e. (result ≡ Err e) ⊎ (result ≡ Err (Memory alloc_error))) }
        ensures memory { push_refusal writes self.old ≡ None → IfErr result (λ e. e ≡ Memory alloc_error) }
    {
        if self.is_full() {
            return Err(QueueError::Full(self.limit));
        }
        let count = writes.len() as u64;
        if count == 0 || count > MOST_WRITES {
            return Err(QueueError::Count(count));
        }
        check_rules(alloc, writes.as_slice())?;
        self.acknowledged.reserve(self.unanswered.len() + 1)?;
        self.unanswered.push_back(LocalBatch { writes, moment })?;
        self.given += 1;
        Ok(self.given)
    }

    /// The batch that is to be sent next, which is sent alone: none where one is sent or none waits.
    pub fn next(&self) -> Option<u64>
        ensures value { result ≡ next_of self.now }

        // It is the first of those that aren't answered.
        ensures place { IfSome result (λ n. (is_unanswered self.now n ≡ true) × (place_of self.now n ≡ 0)) }
    {
        if self.sent { None } else { self.oldest() }
    }

    /// The oldest batch that isn't answered. It waits or is sent.
    pub fn oldest(&self) -> Option<u64>
        ensures { result ≡ oldest_of self.now }
    {
        if self.unanswered.is_empty() {
            None
        } else {
            Some(self.given - (self.unanswered.len() as u64 - 1))
        }
    }

    /// How far a batch is; none where it is gone, or isn't there yet.
    pub fn phase(&self, n: u64) -> Option<Phase>
        ensures { result ≡ phase_of self.now n }
    {
        let waiting = self.unanswered.len() as u64;
        if n <= self.given && self.given - n < waiting {
            let is_first = self.given - n + 1 == waiting;
            return Some(if self.sent && is_first {
                Phase::Sent
            } else {
                Phase::Waiting
            });
        }
        phase_in(self.acknowledged.as_slice(), n)
    }

    /// The writes of a batch that isn't answered.
    pub fn writes(&self, n: u64) -> &Writes
        requires { is_unanswered self.now n ≡ true }
        ensures { Some result.now ≡ writes_in (place_of self.now n) self.now.unanswered }
    {
        let place = self.unanswered.len() - (self.given - n) as usize - 1;
        &self.unanswered[place].writes
    }

    /// The batch that is next is sent.
    pub fn sent(&mut self, n: u64)
        requires { next_of self.old ≡ Some n }
        ensures { self.new ≡ sent_on self.old }
    {
        self.sent = true;
    }

    /// The oldest batch that isn't answered was committed at a time. It takes no memory.
    pub fn acknowledge(&mut self, n: u64, at: Micros)
        requires { oldest_of self.old ≡ Some n }
        ensures { self.new ≡ acknowledged_at at self.old }
    {
        let Some(batch) = self.unanswered.pop_front() else {
            return;
        };
        self.acknowledged.push_reserved(Acknowledged {
            number: n,
            batch,
            at,
        });
        self.sent = false;
    }

    /// The oldest batch that isn't answered was refused, and has no effect any longer. It takes no memory.
    pub fn refuse(&mut self, n: u64)
        requires { oldest_of self.old ≡ Some n }
        ensures { self.new ≡ refused_oldest self.old }
    {
        drop(self.unanswered.pop_front());
        self.sent = false;
    }

    /// The link is lost: the batch that is sent and not answered waits again. It takes no memory.
    pub fn lost(&mut self)
        ensures { self.new ≡ with_link_lost self.old }
    {
        self.sent = false;
    }

    /// The client has a snapshot of this time: the batches that were committed by then are gone, as their effect is in it. It takes no
    /// memory, and goes over those that are acknowledged.
    pub fn cover(&mut self, t: Micros)
        ensures { self.new ≡ covered_to t self.old }
    {
        self.acknowledged.retain(|a| t < a.at);
    }

    /// What the batches make of documents that stand somewhere.
    pub fn lay<S: Shelf>(&self, alloc: Global, shelf: &S) -> Result<Overlay, AllocError>
        ensures { IfOk result (λ o. IsOverlay (S.docs shelf.now) (batches self.now) o) }
    {
        let mut overlay = Overlay::new(alloc);
        for a in &self.acknowledged {
            overlay.add(alloc, shelf, &a.batch)?;
        }
        for batch in &self.unanswered {
            overlay.add(alloc, shelf, batch)?;
        }
        Ok(overlay)
    }

    /// The documents that the batches make of some whose names rise, by rising names. It copies all; `lay` costs what is written.
    pub fn overlay(&self, alloc: Global, docs: &Documents) -> Result<Documents, AllocError>
        requires { IsTrue (is_sorted name_cmp (by_name docs.now)) }
        ensures value { IfOk result (λ ds. ds ≡ values (overlay (docs_of docs.now) (batches self.now))) }
    {
        let listed = Listed::new(docs);
        let laid = self.lay(alloc, &listed)?;
        laid.documents(alloc, docs)
    }

    /// Whether a write of a batch names a document.
    pub fn touches(&self, name: &DocName) -> bool
        ensures { result ≡ is_named name.now (batches self.now) }
    {
        self.acknowledged
            .iter()
            .any(|a| is_written_in(name, a.batch.writes.as_slice()))
            || self
                .unanswered
                .iter()
                .any(|b| is_written_in(name, b.writes.as_slice()))
    }
}
