//! What a client makes of answers on its write stream.
ghost use Rattle.std.specs.Prelude.{◌≡◌};
ghost use Rattle.fs_local.specs.Answered.{covered_by, snapshot_by};

use crate::client::Client;
use crate::targets::Targets;
use fs_cache::Cache;
use fs_local::BatchRefusal;
use fs_path::Text;
use fs_queue::Queue;
use fs_request::StreamAnswer;
use fs_status::Code;
use fs_time::Micros;
use std::alloc::{AllocError, Global};

// Where nothing is listened to, no snapshot comes that could have a batch: the client's time becomes that of the commit. It takes no memory.
fn take_alone(cache: &mut Cache, targets: &Targets, time: Micros)
    ensures { cache.new ≡ snapshot_by time targets.now cache.old }
{
    if targets.is_empty() {
        cache.take(time);
    }
}

// The batches that a snapshot has are gone. It takes no memory.
fn cover_by(queue: &mut Queue, snapshot: Option<Micros>)
    ensures { queue.new ≡ covered_by snapshot queue.old }
{
    if let Some(time) = snapshot {
        queue.cover(time);
    }
}

impl Client {
    ghost use Rattle.std.specs.Prelude.{◌≡◌, ◌<◌, ◌^◌, suc, OnErr, OnOk};
    ghost use Rattle.fs_local.specs.Answered.{answered, committed_in, counted, greeted, refused_in, settled};
    ghost use Rattle.fs_queue.specs.Queue.{oldest_of};

    /// Takes an answer on the write stream.
    pub(crate) fn answered(
        &mut self,
        alloc: Global,
        stream: u64,
        token: u64,
        answer: &StreamAnswer,
    ) -> Result<(), AllocError>
        ensures ok { OnOk result (self.new ≡ answered stream token answer.now (greeted self.old)) }
        ensures err { OnErr result (self.new ≡ self.old) }
    {
        match answer {
            StreamAnswer::Stands => self.hand.open(stream, token),
            StreamAnswer::Committed { time, .. } => {
                if self.hand.counts(token) {
                    self.committed(*time);
                }
            }
            StreamAnswer::Refused { code, message } => {
                if self.hand.counts(token) {
                    self.refused(alloc, *code, message)?;
                }
            }
        }
        self.hand.greet();
        Ok(())
    }

    // The oldest batch that isn't answered was committed at a time. It takes no memory.
    fn committed(&mut self, time: Micros)
        requires { suc self.old.hand.token < 2 ^ 64 }
        ensures { self.new ≡ committed_in (oldest_of self.old.queue) time (counted self.old) }
    {
        self.hand.count();
        let Some(n) = self.queue.oldest() else {
            return;
        };
        self.queue.acknowledge(n, time);
        take_alone(&mut self.cache, &self.targets, time);
        cover_by(&mut self.queue, self.cache.snapshot());
    }

    // The oldest batch that isn't answered was refused.
    fn refused(&mut self, alloc: Global, code: Code, message: &Text) -> Result<(), AllocError>
        requires { suc self.old.hand.token < 2 ^ 64 }
        ensures ok { OnOk result (self.new ≡ refused_in (oldest_of self.old.queue) code message.now (counted self.old)) }
        ensures err { OnErr result (self.new ≡ self.old) }
    {
        if let Some(n) = self.queue.oldest() {
            let refusal = BatchRefusal {
                batch: n,
                code,
                message: message.copy(alloc)?,
            };
            self.refusals.push_back(refusal)?;
            self.queue.refuse(n);
        }
        self.hand.count();
        Ok(())
    }
}
