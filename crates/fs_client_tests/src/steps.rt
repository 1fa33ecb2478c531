//! Steps on a client, each a call of it.
use crate::forms::cut;
use crate::made::{id_of, message_of, moment, root, target_of, writes_of};
use crate::table::{Answers, holds};
use crate::told::{
    Told, cause_told, error_told, number_told, refusal_told, sent_told, unwritten_told, view_told,
};
use fs_client::{Client, ClientError};
use fs_write::Writes;
use std::alloc::Global;
use std::process::Abort;

/// Asserts that a table holds of a new client, which may have so many targets and batches.
pub(crate) fn goes(rt: &impl Abort, alloc: Global, targets: u64, batches: u64, table: &str) {
    let mut client = Client::new(alloc, root(rt, alloc), targets, batches);
    holds(rt, alloc, &mut client, table);
    drop(client);
}

fn done(alloc: Global, told: Result<(), ClientError>) -> Told {
    match told {
        Ok(()) => Ok(String::new(alloc)),
        Err(error) => error_told(alloc, &error),
    }
}

// Listens, as `1 all` or `2 names c/a`.
fn listen(rt: &impl Abort, alloc: Global, client: &mut Client, text: &str) -> Told {
    let (id, target) = cut(text, " ");
    let id = id_of(rt, id);
    assert!(rt; 0 < id && id < 2_147_483_648);
    let target = target_of(rt, alloc, target);
    done(alloc, client.listen(alloc, id, target))
}

// Writes at a moment of the client's clock.
fn write(rt: &impl Abort, alloc: Global, client: &mut Client, writes: Writes) -> Told {
    match client.write(alloc, writes, moment(rt, "9")) {
        Ok(number) => number_told(alloc, Some(number)),
        Err(error) => unwritten_told(alloc, &error),
    }
}

// One write so many times, as `501 delete c/a`.
fn many(rt: &impl Abort, alloc: Global, text: &str) -> Writes {
    let (number, one) = cut(text, " ");
    let one = writes_of(rt, alloc, one);
    let mut writes = Writes::new(alloc);
    if let Some(write) = one.as_slice().first() {
        for _ in 0..id_of(rt, number) {
            let copy = write.copy(alloc).expect(rt, "memory");
            writes.push(copy).expect(rt, "memory");
        }
    }
    writes
}

fn sent(alloc: Global, client: &mut Client) -> Told {
    let sent = client.take_out(alloc)?;
    sent_told(alloc, &sent)
}

fn receive(rt: &impl Abort, alloc: Global, client: &mut Client, text: &str) -> Told {
    let message = message_of(rt, alloc, text);
    client.receive(alloc, &message)?;
    Ok(String::new(alloc))
}

fn see(rt: &impl Abort, alloc: Global, client: &Client, text: &str) -> Told {
    match client.view(alloc, id_of(rt, text)) {
        Ok(view) => view_told(alloc, &view),
        Err(error) => error_told(alloc, &error),
    }
}

impl Answers for Client {
    fn answer(&mut self, rt: &impl Abort, alloc: Global, step: &str) -> Told {
        let (word, rest) = cut(step, " ");
        match word {
            "listen" => listen(rt, alloc, self, rest),
            "unlisten" => done(alloc, self.unlisten(alloc, id_of(rt, rest))),
            "write" => write(rt, alloc, self, writes_of(rt, alloc, rest)),
            "many" => write(rt, alloc, self, many(rt, alloc, rest)),
            "connect" => {
                self.connected(alloc)?;
                Ok(String::new(alloc))
            }
            "lose" => {
                self.lost();
                Ok(String::new(alloc))
            }
            "sent" => sent(alloc, self),
            "told" => receive(rt, alloc, self, rest),
            "see" => see(rt, alloc, self, rest),
            "cause" => cause_told(alloc, self.cause(id_of(rt, rest))),
            "refusal" => refusal_told(alloc, &self.take_refusal()),
            _ => panic!(rt; "no such step"),
        }
    }
}
