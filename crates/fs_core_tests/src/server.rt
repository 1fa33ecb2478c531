//! What a server tells of a document's versions, and of what is staged of a target.
use crate::replay::{allowed, config};
use crate::short::{fields_of, micros, name, root};
use fs_path::Names;
use fs_query::Target;
use fs_request::{Envelope, Request};
use fs_server::{Answer, Server, Settled};
use fs_target::are_named;
use fs_write::{Act, Precondition, Transforms, Write, Writes};
use std::alloc::Global;
use std::process::Abort;

fn is_done(answer: Answer) -> bool {
    match &answer {
        Answer::Prepared(_, _) | Answer::Reply(_) => true,
        _ => false,
    }
}

// Whether a request on session 0 is carried out.
fn asks(alloc: Global, server: &mut Server, request: Request) -> bool {
    let envelope = Envelope { id: None, request };
    let answer = server.request(alloc, 0, &envelope);
    drop(envelope);
    is_done(answer)
}

// A write that sets `n` of `c/a`.
fn write(rt: &impl Abort, alloc: Global, n: i64) -> Write {
    let act = Act::Set {
        name: name(rt, alloc),
        fields: fields_of(rt, alloc, n),
    };
    Write {
        act,
        transforms: Transforms::new(alloc),
        condition: Precondition::None,
    }
}

fn commit(rt: &impl Abort, alloc: Global, n: i64) -> Request {
    let mut writes = Writes::new(alloc);
    writes.push(write(rt, alloc, n)).expect(rt, "memory");
    Request::Commit {
        database: root(rt, alloc),
        writes,
        transaction: None,
    }
}

// A target of `c/a`.
fn listen(rt: &impl Abort, alloc: Global) -> Request {
    let mut names = Names::new(alloc);
    names.push(name(rt, alloc)).expect(rt, "memory");
    Request::AddTarget {
        database: root(rt, alloc),
        id: 1,
        target: Target::Documents(names),
        token: None,
    }
}

// Whether the next pending commit, if there is one, is settled and so released at a time.
fn settles(rt: &impl Abort, alloc: Global, server: &mut Server, time: i64) -> bool {
    let Some(commit) = server.next_pending() else {
        return false;
    };
    let is_pending = server.is_pending(commit);
    assert!(rt; is_pending);
    let outcome = server.outcome(alloc, commit).expect(rt, "memory");
    server.settle(alloc, commit, outcome) == Settled::Released(micros(rt, time))
}

// Whether `c/a` is set at a time.
fn sets(rt: &impl Abort, alloc: Global, server: &mut Server, time: i64) -> bool {
    asks(alloc, server, commit(rt, alloc, time)) && settles(rt, alloc, server, time)
}

fn versions(rt: &impl Abort, alloc: Global, server: &Server) -> usize {
    match server.chain(&name(rt, alloc)) {
        Some(chain) => chain.len(),
        None => 0,
    }
}

// Brings a shard up to the latest time.
fn match_shard(rt: &impl Abort, alloc: Global, server: &mut Server, shard: u32) {
    assert!(rt; shard < server.shards());
    let (events, to) = server.events(alloc, shard).expect(rt, "memory");
    server.feed(alloc, shard, &events, to).expect(rt, "memory");
}

// How many events are staged of the target, if each bears the name of its document.
fn staged(server: &Server) -> usize {
    match server.staged(0, 1) {
        Some(events) if are_named(events) => events.len(),
        _ => 0,
    }
}

// Whether two versions of `c/a` are told of, and to a target that is loaded at the first the second. Of four shards `c` is in shard 3.
fn tells(rt: &impl Abort, alloc: Global, server: &mut Server) -> bool {
    let is_begun = server.open(alloc).is_ok()
        && sets(rt, alloc, server, 1)
        && sets(rt, alloc, server, 2)
        && asks(alloc, server, listen(rt, alloc))
        && server.load(alloc, 0, 1, Some(micros(rt, 1))).is_ok();
    match_shard(rt, alloc, server, 3);
    is_begun && versions(rt, alloc, server) == 2 && staged(server) == 1
}

#[test]
fn versions_and_staged_events_are_told(rt: HostRuntime) {
    let alloc = rt.alloc();
    let config = config(&rt, alloc);
    let mut server = Server::new(alloc, config, allowed(&rt), micros(&rt, 0));
    let is_so = tells(&rt, alloc, &mut server);
    drop(server);
    assert!(rt; is_so);
}
