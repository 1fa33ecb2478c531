//! The staged events of a target.
ghost use Rattle.std.specs.Prelude.{◌≡◌, ◌<◌, ◌≤◌, ◌+◌, ◌∷◌, ◌++◌, [], ℤ, IsTrue, OnErr, OnOk, insert, int_lt, length, reverse};
ghost use Rattle.std.specs.FinMap.{get};
ghost use Rattle.std.specs.Vec.{vec_len, vec_capacity};
ghost use Rattle.fs_path.specs.declared.name.DocName.{DocName};
ghost use Rattle.fs_write.specs.Batch.{with_document};
ghost use Rattle.fs_target.specs.Places.{HasPlace, HavePlaces, docs_in, is_until};
ghost use Rattle.fs_target.specs.Room.{AreInOrder, coming_in, is_before_first};
ghost use Rattle.fs_target.specs.Staged.{behind, event_cmp, gone_over, left_by, put_event, put_events, up_to};

use crate::event::TimedEvent;
use crate::places::Places;
use fs_time::Micros;
use std::alloc::{AllocError, Global};
use std::cmp::Ordering;
use std::marker::Model;

/// Events by time and then by name, and those that come next, for which there is room. They are put in by one walk: what the first of them comes
/// before is set aside, and is put back, the last first, as it is their turn.
///
///     staged                   5 c/a, 7 c/a                   coming 6 c/b, 8 c/a
///     set aside by 6 c/b       5 c/a                          aside 7 c/a
///     6 c/b is put             5 c/a, 6 c/b                   aside 7 c/a
///     8 c/a is put             5 c/a, 6 c/b, 7 c/a, 8 c/a
#[derive(Drop)]
pub(crate) struct Staged {
    items: Vec<TimedEvent>,
    // in the order in which they are put in
    coming: Option<Vec<TimedEvent>>,
    // none between two calls, but room for those that one of the coming is before
    aside: Vec<TimedEvent>,
}

impl Model for Staged {
    ghost use Rattle.fs_target.specs.Room.{Coming, coming_code};

    ghost Value = { Coming };

    ghost coded = { coming_code };

    ghost use Rattle.std.specs.Prelude.{◌≡◌, ◌≤◌, ◌+◌, [], length};
    ghost use Rattle.std.specs.Vec.{vec_len, vec_capacity};
    ghost use Rattle.fs_target.specs.Room.{AreInOrder, coming_in};

    ghost view = { λ s. record { staged = s.items.items; coming = coming_in s.coming } };

    ghost invariant = { λ s. (vec_len s.items + length (coming_in s.coming) ≤ vec_capacity s.items) × (AreInOrder s.items.items × (s.aside.items ≡ [])) };
}

// Whether an event comes before another.
fn event_cmp(a: &TimedEvent, b: &TimedEvent) -> Ordering
    ensures { result ≡ event_cmp a.now b.now }
{
    match a.time.cmp(&b.time) {
        Ordering::Equal => a.name.cmp(&b.name),
        other => other,
    }
}

// How many of staged events an event comes behind: all but those that it is before.
fn place_of(staged: &[TimedEvent], event: &TimedEvent) -> usize
    requires { AreInOrder staged.now }
    ensures within { result ≤ length staged.now }
    ensures place { insert staged.now result event.now ≡ put_event event.now staged.now }
{
    staged.partition_point(|other| !event_cmp(event, other).is_lt())
}

fn insert_at(staged: &mut Vec<TimedEvent>, place: usize, event: TimedEvent)
    requires within { place ≤ length staged.old.items }
    requires room { vec_len staged.old < vec_capacity staged.old }
    ensures items { staged.new.items ≡ insert staged.old.items place event }
    ensures len { vec_len staged.new ≡ vec_len staged.old + 1 }
    ensures capacity { vec_capacity staged.old ≤ vec_capacity staged.new }
{
    let _ = staged.insert(place, event);
}

// Puts an event at its place, where there is room for it.
fn put(staged: &mut Vec<TimedEvent>, event: TimedEvent)
    requires room { vec_len staged.old < vec_capacity staged.old }
    requires order { AreInOrder staged.old.items }
    ensures items { staged.new.items ≡ put_event event staged.old.items }
    ensures len { vec_len staged.new ≡ vec_len staged.old + 1 }
    ensures capacity { vec_capacity staged.old ≤ vec_capacity staged.new }
    ensures order { AreInOrder staged.new.items }
{
    let place = place_of(staged.as_slice(), &event);
    insert_at(staged, place, event);
}

// ---- events that are put among others in one walk

// Whether an event comes before the last of others, if there are any.
fn is_before(event: &TimedEvent, others: &[TimedEvent]) -> bool
    ensures { result ≡ is_before_first event.now (reverse others.now) }
{
    match others.last() {
        Some(last) => event_cmp(event, last).is_lt(),
        None => true,
    }
}

// Moves the last of some events behind others, if there is one and room for it.
fn move_last(from: &mut Vec<TimedEvent>, to: &mut Vec<TimedEvent>)
    requires { vec_len to.old < vec_capacity to.old }
    ensures there { from.new.items ++ reverse to.new.items ≡ from.old.items ++ reverse to.old.items }
    ensures back { to.new.items ++ reverse from.new.items ≡ to.old.items ++ reverse from.old.items }
    ensures len { vec_len from.new + vec_len to.new ≡ vec_len from.old + vec_len to.old }
    ensures fewer { 0 < vec_len from.old → vec_len from.new < vec_len from.old }
    ensures from_capacity { vec_capacity from.old ≤ vec_capacity from.new }
    ensures to_capacity { vec_capacity to.old ≤ vec_capacity to.new }
{
    if let Some(event) = from.pop() {
        to.push_reserved(event);
    }
}

// Sets those aside that an event comes before, as far as there is room for them.
fn set_aside(staged: &mut Vec<TimedEvent>, aside: &mut Vec<TimedEvent>, event: &TimedEvent)
    ensures whole { staged.new.items ++ reverse aside.new.items ≡ staged.old.items ++ reverse aside.old.items }
    ensures len { vec_len staged.new + vec_len aside.new ≡ vec_len staged.old + vec_len aside.old }
    ensures capacity { vec_capacity staged.old ≤ vec_capacity staged.new }
{
    while aside.len() < aside.capacity()
        && !staged.is_empty()
        && is_before(event, staged.as_slice())
    {
        move_last(staged, aside);
    }
}

// Sets those aside that the first of the coming comes before.
fn make_way(staged: &mut Vec<TimedEvent>, aside: &mut Vec<TimedEvent>, coming: &[TimedEvent])
    ensures whole { staged.new.items ++ reverse aside.new.items ≡ staged.old.items ++ reverse aside.old.items }
    ensures len { vec_len staged.new + vec_len aside.new ≡ vec_len staged.old + vec_len aside.old }
    ensures capacity { vec_capacity staged.old ≤ vec_capacity staged.new }
{
    match coming.first() {
        Some(first) => set_aside(staged, aside, first),
        None => {}
    }
}

// Puts those back that an event doesn't come before.
fn put_back(staged: &mut Vec<TimedEvent>, aside: &mut Vec<TimedEvent>, event: &TimedEvent)
    requires { vec_len staged.old + vec_len aside.old ≤ vec_capacity staged.old }
    ensures whole { staged.new.items ++ reverse aside.new.items ≡ staged.old.items ++ reverse aside.old.items }
    ensures before { IsTrue (is_before_first event.now (reverse aside.new.items)) }
    ensures len { vec_len staged.new + vec_len aside.new ≡ vec_len staged.old + vec_len aside.old }
    ensures capacity { vec_capacity staged.old ≤ vec_capacity staged.new }
{
    while !is_before(event, aside.as_slice()) {
        move_last(aside, staged);
    }
}

fn put_all_back(staged: &mut Vec<TimedEvent>, aside: &mut Vec<TimedEvent>)
    requires { vec_len staged.old + vec_len aside.old ≤ vec_capacity staged.old }
    ensures staged { staged.new.items ≡ staged.old.items ++ reverse aside.old.items }
    ensures aside { aside.new.items ≡ [] }
    ensures room { vec_len staged.new ≤ vec_capacity staged.new }
{
    while !aside.is_empty() {
        move_last(aside, staged);
    }
}

// Puts an event at its place, among those that are set aside and those that aren't.
fn put_among(staged: &mut Vec<TimedEvent>, aside: &mut Vec<TimedEvent>, event: TimedEvent)
    requires room { vec_len staged.old + vec_len aside.old < vec_capacity staged.old }
    requires order { AreInOrder (staged.old.items ++ reverse aside.old.items) }
    ensures items { staged.new.items ++ reverse aside.new.items ≡ put_event event (staged.old.items ++ reverse aside.old.items) }
    ensures order { AreInOrder (staged.new.items ++ reverse aside.new.items) }
    ensures len { vec_len staged.new + vec_len aside.new ≡ vec_len staged.old + vec_len aside.old + 1 }
    ensures capacity { vec_capacity staged.old ≤ vec_capacity staged.new }
{
    put_back(staged, aside, &event);
    put(staged, event);
}

// Puts events at their places, one after another. Where each comes behind the one before it, that is one walk.
fn put_each(staged: &mut Vec<TimedEvent>, aside: &mut Vec<TimedEvent>, coming: Vec<TimedEvent>)
    requires room { vec_len staged.old + vec_len aside.old + vec_len coming ≤ vec_capacity staged.old }
    requires order { AreInOrder (staged.old.items ++ reverse aside.old.items) }
    ensures items { staged.new.items ++ reverse aside.new.items ≡ put_events coming.items (staged.old.items ++ reverse aside.old.items) }
    ensures order { AreInOrder (staged.new.items ++ reverse aside.new.items) }
    ensures room { vec_len staged.new + vec_len aside.new ≤ vec_capacity staged.new }
{
    for event in coming {
        put_among(staged, aside, event);
    }
}

// Puts events at their places, where there is room for them.
fn put_all(staged: &mut Vec<TimedEvent>, aside: &mut Vec<TimedEvent>, coming: Vec<TimedEvent>)
    requires room { vec_len staged.old + vec_len coming ≤ vec_capacity staged.old }
    requires order { AreInOrder staged.old.items }
    requires none { aside.old.items ≡ [] }
    ensures items { staged.new.items ≡ put_events coming.items staged.old.items }
    ensures aside { aside.new.items ≡ [] }
    ensures room { vec_len staged.new ≤ vec_capacity staged.new }
    ensures order { AreInOrder staged.new.items }
{
    make_way(staged, aside, coming.as_slice());
    put_each(staged, aside, coming);
    put_all_back(staged, aside);
}

// ---- going to a time

// Puts what an event leaves at its place, with its document.
fn leave(event: &mut TimedEvent, places: &mut Places)
    requires { HasPlace places.old event.old }
    ensures docs { docs_in places.new ≡ with_document (docs_in places.old) event.old.name (left_by event.old) }
    ensures kept { (name : DocName) (t : ℤ) → IsTrue (is_until t (get places.old name)) → IsTrue (is_until t (get places.new name)) }
    ensures time { event.new.time ≡ event.old.time }
    ensures name { event.new.name ≡ event.old.name }
{
    let after = event.after.take();
    places.put(&event.name, if event.inside { after } else { None });
}

// The same, if it isn't behind a time.
fn leave_by(event: &mut TimedEvent, places: &mut Places, time: Micros)
    requires { HavePlaces places.old (up_to time (event.old ∷ [])) }
    ensures docs { docs_in places.new ≡ gone_over (up_to time (event.old ∷ [])) (docs_in places.old) }
    ensures kept { (name : DocName) (t : ℤ) → IsTrue (is_until t (get places.old name)) → IsTrue (is_until t (get places.new name)) }
    ensures behind { behind time (event.new ∷ []) ≡ behind time (event.old ∷ []) }
    ensures time { event.new.time ≡ event.old.time }
    ensures name { event.new.name ≡ event.old.name }
{
    if time < event.time {
        return;
    }
    leave(event, places);
}

// The same of each of them, one after another.
fn leave_all(staged: &mut [TimedEvent], places: &mut Places, time: Micros)
    requires { HavePlaces places.old (up_to time staged.old) }
    ensures docs { docs_in places.new ≡ gone_over (up_to time staged.old) (docs_in places.old) }
    ensures kept { (name : DocName) (t : ℤ) → IsTrue (is_until t (get places.old name)) → IsTrue (is_until t (get places.new name)) }
    ensures behind { behind time staged.new ≡ behind time staged.old }
    ensures order { AreInOrder staged.old → AreInOrder staged.new }
{
    for i in 0..staged.len() {
        leave_by(&mut staged[i], places, time);
    }
}

// How many come next.
fn count(coming: &Option<Vec<TimedEvent>>) -> usize
    ensures { result ≡ length (coming_in coming.now) }
{
    match coming {
        Some(coming) => coming.len(),
        None => 0,
    }
}

// Lets an event come next, behind those that do. Where memory runs out, those stay.
fn push(
    alloc: Global,
    coming: &mut Option<Vec<TimedEvent>>,
    event: TimedEvent,
) -> Result<(), AllocError>
    ensures ok { OnOk result (coming_in coming.new ≡ coming_in coming.old ++ event ∷ []) }
    ensures err { OnErr result (coming_in coming.new ≡ coming_in coming.old) }
{
    match coming {
        Some(coming) => Ok(coming.push(event)?),
        None => {
            *coming = Some(vec![in alloc; event]?);
            Ok(())
        }
    }
}

// Gives the place of an event back where nothing stands, nor is to be put there behind a time, if the event isn't behind that.
fn give_back(event: &TimedEvent, places: &mut Places, time: Micros)
    ensures docs { docs_in places.new ≡ docs_in places.old }
    ensures kept { (name : DocName) (t : ℤ) → IsTrue (int_lt time t) → IsTrue (is_until t (get places.old name)) → IsTrue (is_until t (get places.new name)) }
{
    if event.time <= time {
        places.give_back(&event.name, time);
    }
}

// The same of each of them.
fn give_back_all(staged: &[TimedEvent], places: &mut Places, time: Micros)
    ensures docs { docs_in places.new ≡ docs_in places.old }
    ensures kept { (name : DocName) (t : ℤ) → IsTrue (int_lt time t) → IsTrue (is_until t (get places.old name)) → IsTrue (is_until t (get places.new name)) }
{
    for event in staged {
        give_back(event, places, time);
    }
}

// Drops what is up to a time.
fn drop_up_to(staged: &mut Vec<TimedEvent>, time: Micros)
    ensures items { staged.new.items ≡ behind time staged.old.items }
    ensures len { vec_len staged.new ≤ vec_len staged.old }
    ensures capacity { vec_capacity staged.new ≡ vec_capacity staged.old }
{
    staged.retain(|event| time < event.time);
}

impl Staged {
    ghost use Rattle.std.specs.Prelude.{◌≡◌, ◌∷◌, ◌++◌, [], IsFalse, OnOk, OnErr};
    ghost use Rattle.fs_target.specs.Places.{HavePlaces, docs_in};
    ghost use Rattle.fs_target.specs.Staged.{behind, gone_over, put_events, up_to};

    pub(crate) fn new(alloc: Global) -> Staged
        ensures staged { result.staged ≡ [] }
        ensures coming { result.coming ≡ [] }
    {
        Staged {
            items: Vec::new(alloc),
            coming: None,
            aside: Vec::new(alloc),
        }
    }

    pub(crate) fn as_slice(&self) -> &[TimedEvent]
        ensures { result.now ≡ self.now.staged }
    {
        self.items.as_slice()
    }

    /// Whether one is behind a time.
    pub(crate) fn are_behind(&self, time: Micros) -> bool
        ensures { IsFalse result → behind time self.now.staged ≡ [] }
    {
        match self.items.last() {
            Some(last) => time < last.time,
            None => false,
        }
    }

    /// Lets an event come next, behind those that do, with room for it. Where memory runs out, those stay.
    pub(crate) fn prepare(&mut self, alloc: Global, event: &TimedEvent) -> Result<(), AllocError>
        ensures staged { self.new.staged ≡ self.old.staged }
        ensures ok { OnOk result (self.new.coming ≡ self.old.coming ++ event.now ∷ []) }
        ensures err { OnErr result (self.new.coming ≡ self.old.coming) }
    {
        self.items.reserve(count(&self.coming) + 1)?;
        if is_before(event, self.items.as_slice()) {
            self.aside.reserve(self.items.len())?;
        }
        push(alloc, &mut self.coming, event.copy(alloc)?)
    }

    /// Forgets those that come next.
    pub(crate) fn forget(&mut self)
        ensures staged { self.new.staged ≡ self.old.staged }
        ensures coming { self.new.coming ≡ [] }
    {
        self.coming = None;
    }

    /// Takes in those that come next, each at its place.
    pub(crate) fn take_in(&mut self)
        ensures staged { self.new.staged ≡ put_events self.old.coming self.old.staged }
        ensures coming { self.new.coming ≡ [] }
    {
        if let Some(coming) = self.coming.take() {
            put_all(&mut self.items, &mut self.aside, coming);
        }
    }

    /// Goes to a time: puts what those up to it leave at their places, one after another, and drops them. Places that nothing stands at any more and
    /// that no other waits for are given back. Those that come next are forgotten.
    pub(crate) fn go_to(&mut self, places: &mut Places, time: Micros)
        requires { HavePlaces places.old self.old.staged }
        ensures staged { self.new.staged ≡ behind time self.old.staged }
        ensures coming { self.new.coming ≡ [] }
        ensures docs { docs_in places.new ≡ gone_over (up_to time self.old.staged) (docs_in places.old) }
        ensures places { HavePlaces places.new (behind time self.old.staged) }
    {
        self.coming = None;
        leave_all(self.items.as_mut_slice(), places, time);
        give_back_all(self.items.as_slice(), places, time);
        drop_up_to(&mut self.items, time);
    }
}
