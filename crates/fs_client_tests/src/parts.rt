//! The documents and the batches of a client, each by its own calls.
use crate::forms::cut;
use crate::made::{id_of, message_of, moment, name_of, writes_of};
use crate::table::{Answers, holds};
use crate::told::{Told, documents_told, number_told, unwritten_told};
use fs_cache::Cache;
use fs_queue::{Phase, Queue};
use fs_request::Message;
use fs_time::Micros;
use std::alloc::{AllocError, Global};
use std::process::Abort;

/// What is told, taken, thrown away and forgotten, as the comment of `Cache` has it: there are no batches to be overlaid. Names rise segment
/// by segment.
const CACHE: &str = "overlay => | told doc c/a 1 1,2 | overlay => | take 3 | overlay => c/a {n:1}
told doc c/a 2 2 1 | told doc c/b 5 1 | overlay => c/a {n:1} | throw | take 4 | overlay => c/a {n:1}
forget 1 | overlay => c/a {n:1} | told doc c/b 5 1 | told gone Delete c/a 5 2 | forget 1 | overlay => c/a {n:1} | take 5 | overlay =>
told doc c/a-b 3 1 | told doc c/a/x/b 2 1 | told doc c/a 1 1 | told gone Delete c/d 5 1
take 6 | overlay => c/a {n:1} c/a/x/b {n:2} c/a-b {n:3}
told target RESET 1 | told doc c/b 4 1,2 | overlay => c/a {n:1} c/a/x/b {n:2} c/a-b {n:3} | take 7 | overlay => c/b {n:4}
told doc c/b 5  1 | told doc c/a 1 1,2 | told doc c/a 2 1 2 | take 8 | overlay => c/a {n:2} c/b {n:4}
forget 1 | overlay => c/b {n:4} | told doc c/b 6 1 | take 9 | overlay => c/b {n:6}
told gone Remove c/b 9 2 | take 9 | overlay => c/b {n:6} | forget 1 | overlay =>";

/// How far batches are, as the comment of `Queue` has it.
const QUEUE: &str = "next => none | phase 0 => none | phase 1 => none
write set c/a 1 => 1 | write delete c/b => 2 | write => more than 2 batches | phase 1 => waiting | next => 1
send | next => none | phase 1 => sent | phase 2 => waiting | phase 3 => none
lose | next => 1 | phase 1 => waiting
acknowledge 7 | phase 1 => at 7 | phase 2 => waiting | next => 2
touches c/a => true | touches c/b => true | touches c/d => false
send | phase 2 => sent | next => none | refuse | phase 2 => none | next => none | touches c/b => false
cover 6 | phase 1 => at 7 | cover 7 | phase 1 => none | touches c/a => false
write set c/d 1 => 3 | next => 3 | phase 3 => waiting | phase 2 => none";

/// What batches make of documents in a list, acknowledged ones first, as the comment of `Overlay` has it, and beside all of these.
const OVERLAY: &str =
    "overlay => | told doc c/b 1 1 | told doc c/a 1 1 | take 1 | overlay => c/a {n:1} c/b {n:1}
write add c/a 1, delete c/b => 1 | overlay => c/a {n:2} | write set c/d 5 => 2 | overlay => c/a {n:2} c/d {n:5}
acknowledge 7 | overlay => c/a {n:2} c/d {n:5}
write set c/ab 3, set b/z 4, add c/d 1, delete c/e => 3 | overlay => b/z {n:4} c/a {n:2} c/ab {n:3} c/d {n:6}
acknowledge 8 | overlay => b/z {n:4} c/a {n:2} c/ab {n:3} c/d {n:6}
cover 7 | overlay => b/z {n:4} c/a {n:1} c/ab {n:3} c/b {n:1} c/d {n:6}";

/// The documents and the batches of a client.
#[derive(Drop)]
struct Parts {
    cache: Cache,
    queue: Queue,
}

fn change(rt: &impl Abort, alloc: Global, cache: &mut Cache, text: &str) -> Result<(), AllocError> {
    let message = message_of(rt, alloc, text);
    match &message {
        Message::Listen(told) => cache.change(alloc, told),
        _ => panic!(rt; "no message of targets"),
    }
}

fn send(queue: &mut Queue) {
    if let Some(n) = queue.next() {
        queue.sent(n);
    }
}

// The oldest batch is refused, or was committed at a time.
fn finish(rt: &impl Abort, queue: &mut Queue, word: &str, text: &str) {
    if let Some(n) = queue.oldest() {
        match word {
            "refuse" => queue.refuse(n),
            "acknowledge" => queue.acknowledge(n, moment(rt, text)),
            _ => panic!(rt; "no such step"),
        }
    }
}

// What changes them.
fn make(rt: &impl Abort, parts: &mut Parts, word: &str, text: &str) {
    match word {
        "take" => parts.cache.take(moment(rt, text)),
        "throw" => parts.cache.throw(),
        "forget" => parts.cache.forget(id_of(rt, text)),
        "send" => send(&mut parts.queue),
        "lose" => parts.queue.lost(),
        "cover" => parts.queue.cover(moment(rt, text)),
        _ => finish(rt, &mut parts.queue, word, text),
    }
}

fn write(rt: &impl Abort, alloc: Global, queue: &mut Queue, text: &str) -> Told {
    match queue.push(alloc, writes_of(rt, alloc, text), moment(rt, "9")) {
        Ok(number) => number_told(alloc, Some(number)),
        Err(error) => unwritten_told(alloc, &error),
    }
}

fn at_told(alloc: Global, at: Micros) -> Told {
    let at = at.get();
    format!(in alloc; "at {at}")
}

fn phase_told(alloc: Global, phase: &Option<Phase>) -> Told {
    match phase {
        None => String::from_str(alloc, "none"),
        Some(Phase::Waiting) => String::from_str(alloc, "waiting"),
        Some(Phase::Sent) => String::from_str(alloc, "sent"),
        Some(Phase::Acknowledged(at)) => at_told(alloc, *at),
    }
}

fn touches(rt: &impl Abort, alloc: Global, queue: &Queue, path: &str) -> Told {
    queue.touches(&name_of(rt, alloc, path)).to_string(alloc)
}

// The documents with what the batches make of them.
fn overlay(alloc: Global, parts: &Parts) -> Told {
    let docs = parts.cache.documents(alloc)?;
    let laid = parts.queue.overlay(alloc, &docs)?;
    documents_told(alloc, &laid)
}

impl Answers for Parts {
    fn answer(&mut self, rt: &impl Abort, alloc: Global, step: &str) -> Told {
        let (word, rest) = cut(step, " ");
        match word {
            "overlay" => overlay(alloc, self),
            "write" => write(rt, alloc, &mut self.queue, rest),
            "next" => number_told(alloc, self.queue.next()),
            "phase" => phase_told(alloc, &self.queue.phase(u64::from(id_of(rt, rest)))),
            "touches" => touches(rt, alloc, &self.queue, rest),
            "told" => {
                change(rt, alloc, &mut self.cache, rest)?;
                Ok(String::new(alloc))
            }
            _ => {
                make(rt, self, word, rest);
                Ok(String::new(alloc))
            }
        }
    }
}

fn goes(rt: &impl Abort, alloc: Global, batches: u64, table: &str) {
    let mut parts = Parts {
        cache: Cache::new(alloc),
        queue: Queue::new(alloc, batches),
    };
    holds(rt, alloc, &mut parts, table);
    drop(parts);
}

#[test]
fn documents_are_told_taken_and_thrown_away(rt: HostRuntime) {
    goes(&rt, rt.alloc(), 0, CACHE);
}

#[test]
fn batches_wait_and_are_laid_over_documents(rt: HostRuntime) {
    let alloc = rt.alloc();
    goes(&rt, alloc, 2, QUEUE);
    goes(&rt, alloc, 3, OVERLAY);
}
