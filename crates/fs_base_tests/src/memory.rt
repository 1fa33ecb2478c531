//! A link, doors and a clock in memory.
use fs_edge::{
    Clock, Door, Doors, Heard, Hearings, Link, MemoryClock, MemoryDoors, MemoryLink, Moments, Pace,
    Paces, Sent,
};
use fs_path::Text;
use fs_time::Micros;
use std::alloc::{AllocError, Global};
use std::process::Abort;

fn hearings(rt: &impl Abort, alloc: Global, message: &str) -> Hearings {
    let mut heard = Vec::new(alloc);
    let text = Text::from_str(alloc, message).expect(rt, "memory");
    heard.push(Heard::Message(text)).expect(rt, "memory");
    heard.push(Heard::Quiet).expect(rt, "memory");
    Hearings::of(heard)
}

// A link that hears a message and then nothing, and whose second call of `send` fails.
fn link_of(rt: &impl Abort, alloc: Global, message: &str) -> MemoryLink {
    let paces = Vec::from_slice(alloc, &[Pace::Free, Pace::Fail]).expect(rt, "memory");
    MemoryLink::new(alloc, hearings(rt, alloc, message), Paces::of(paces))
}

fn hears(rt: &impl Abort, link: &mut MemoryLink, message: &str) -> bool {
    match link.receive().expect(rt, "memory") {
        Heard::Message(text) => text.as_str() == message,
        Heard::Quiet => message == "quiet",
        Heard::Closed => message == "closed",
        Heard::Failed => false,
    }
}

fn sends(rt: &impl Abort, link: &mut MemoryLink, message: &str) -> bool {
    link.send(message).expect(rt, "memory") == Sent::Done
}

fn has_sent(link: &MemoryLink, message: &str) -> bool {
    match link.sent().as_slice() {
        [sent] => sent.as_str() == message,
        _ => false,
    }
}

fn goes_on(rt: &impl Abort, link: &mut MemoryLink) -> bool {
    hears(rt, link, "one")
        && !sends(rt, link, "lost")
        && sends(rt, link, "two")
        && hears(rt, link, "quiet")
        && hears(rt, link, "closed")
        && has_sent(link, "two")
}

#[test]
fn a_link_in_memory_hears_and_sends_in_order(rt: HostRuntime) {
    let mut link = link_of(&rt, rt.alloc(), "one");
    let is_so = goes_on(&rt, &mut link);
    drop(link);
    assert!(rt; is_so);
}

fn has_failed(rt: &impl Abort, door: Result<Door<MemoryLink>, AllocError>) -> bool {
    matches!(&door.expect(rt, "memory"), Door::Failed)
}

#[test]
fn doors_without_links_fail(rt: HostRuntime) {
    let mut doors = MemoryDoors::new();
    let listened = doors.listen(8080).expect(&rt, "memory");
    let accepted = doors.accept();
    let dialed = doors.dial(8080);
    assert!(rt; listened == Sent::Failed && has_failed(&rt, accepted) && has_failed(&rt, dialed));
}

fn tells(clock: &mut MemoryClock, moment: i64) -> bool {
    clock.now().get() == moment
}

fn clock(rt: &impl Abort, alloc: Global, first: i64, second: i64) -> MemoryClock {
    let first = Micros::new(first).expect(rt, "a moment");
    let second = Micros::new(second).expect(rt, "a moment");
    let moments = Vec::from_slice(alloc, &[first, second]);
    MemoryClock::new(Moments::of(moments.expect(rt, "memory")))
}

#[test]
fn a_clock_in_memory_tells_its_last_moment_again(rt: HostRuntime) {
    let mut clock = clock(&rt, rt.alloc(), 1, 2);
    let is_so = tells(&mut clock, 1) && tells(&mut clock, 2) && tells(&mut clock, 2);
    drop(clock);
    assert!(rt; is_so);
}
