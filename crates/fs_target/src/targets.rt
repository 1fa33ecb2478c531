//! The targets of a session.
ghost use Rattle.std.specs.Prelude.{◌≡◌, None, IfOk, IfSome};
ghost use Rattle.fs_target.specs.Prepared.{AreReady, held_in};
ghost use Rattle.fs_target.specs.Still.{IsNextStill, as_awake};

use crate::awake::Awake;
use crate::error::TargetError;
use crate::event::{TimedEvent, TimedEvents};
use crate::positions::{move_position, position_in};
use crate::raise::no_change;
use crate::still::{Next, Still, still_at};
use fs_listen::Cut;
use fs_path::DocName;
use fs_query::{ListenMessage, Target};
use fs_time::Micros;
use fs_value::Documents;
use std::alloc::{AllocError, Global};
use std::marker::Model;

/// The targets of a session, by rising ids: how far each was told each shard, what it shows, and the events that are staged.
///
///     two shards, c in shard 1 and d in shard 0; commits: c/a {n: 1} at 1, c/a {n: 2} at 2, d/a {n: 3} at 3
///     1 is the documents c/a and d/a, loaded at 1    positions 1, 1    documents c/a {n: 1}
///     shard 1 fed up to 3                            positions 1, 3    staged 2 c/a {n: 2}     cut 1
///     raised at 1                                    c/a {n: 1} for 1, CURRENT, NO_CHANGE at 1
///     shard 0 fed up to 3                            positions 3, 3    staged 2 c/a {n: 2}, 3 d/a {n: 3}     cut 3
///     raised at 3                                    c/a {n: 2} and d/a {n: 3} for 1, NO_CHANGE at 3
///
/// While each target is loaded and current, nothing is staged and those that have a shard are at one position there, the session stands still: a
/// commit that concerns none of its targets costs it a look at the shards, and none at the targets.
#[derive(Drop)]
pub struct Targets {
    awake: Awake,
    // what stands for the positions of the targets while they stand still
    still: Option<Still>,
    // what they are to stand still with once they go to the time that their views were made ready for
    next: Option<Next>,
}

impl Model for Targets {
    ghost use Rattle.fs_target.specs.Prepared.{Prepared, prepared_code};

    ghost Value = { Prepared };

    ghost coded = { prepared_code };

    ghost use Rattle.std.specs.Prelude.{IfSome};
    ghost use Rattle.fs_target.specs.Still.{AreStill, IsNextStill, as_awake};

    ghost view = { λ t. as_awake t.still t.awake };

    ghost invariant = { λ t. IfSome t.still (λ s. AreStill s t.awake) × IfSome t.next (λ n. IsNextStill n t.awake) };
}

// Writes the positions of targets that stand still into each, so that they are still no longer, and forgets what was ready. It takes no memory.
fn wake(still: &mut Option<Still>, next: &mut Option<Next>, awake: &mut Awake)
    ensures still { still.new ≡ None }
    ensures next { next.new ≡ None }
    ensures same { held_in awake.new ≡ held_in (as_awake still.old awake.old) }
{
    *next = None;
    if let Some(still) = still.take() {
        awake.write_positions(still.positions.as_slice());
    }
}

// What targets are to stand still with once they go to a time that they are ready for, if they will.
fn next_at(alloc: Global, awake: &Awake, time: Micros) -> Result<Option<Next>, AllocError>
    requires { AreReady time awake.now }
    ensures { IfOk result (λ o. IfSome o (λ n. IsNextStill n awake.now)) }
{
    Ok(match awake.next_still(alloc, time)? {
        Some(still) => Some(Next { time, still }),
        None => None,
    })
}

impl Targets {
    ghost use Rattle.std.specs.Prelude.{◌≡◌, ◌<◌, Err, IfErr, IfOk, IfSome, IsFalse, IsTrue, List, None, OnErr, OnOk, alloc_error, is_some, option_copied, option_map};
    ghost use Rattle.std.specs.Option.{option_and_then};
    ghost use Rattle.std.specs.FinMap.{entries, get, is_sorted, keys, len};
    ghost use Rattle.std.specs.List.{AllByRecursion};
    ghost use Rattle.fs_path.specs.NameOrder.{name_cmp};
    ghost use Rattle.fs_path.specs.Scope.{AreShards};
    ghost use Rattle.fs_value.specs.Named.{by_name};
    ghost use Rattle.fs_listen.specs.Cuts.{base, cut, first_loading, is_loaded, is_ready, least, least_position};
    ghost use Rattle.fs_listen.specs.Listening.{Listened};
    ghost use Rattle.fs_listen.specs.declared.cut.Cut.TheVariants.{At};
    ghost use Rattle.fs_target.specs.Held.{IsListenedByNone, IsUnloaded, fed, id_after, none_held, position_in, positions_in, raised_at, refusal, staged_of, with_loaded, with_target, without_target};
    ghost use Rattle.fs_target.specs.Prepared.{ArePrepared, AreReady, held_in};
    ghost use Rattle.fs_target.specs.Raise.{kept_told};
    ghost use Rattle.fs_target.specs.Seen.{seen};
    ghost use Rattle.fs_target.specs.Staged.{IsNamed};
    ghost use Rattle.fs_target.specs.declared.event.TimedEvent.{TimedEvent};

    /// No targets, of a session of a server with so many shards, 1 to 16, and of which there may be as many as the limit.
    pub fn new(alloc: Global, shards: u32, limit: u64) -> Targets
        requires { AreShards shards }
        ensures { held_in result ≡ none_held shards limit }
    {
        Targets {
            awake: Awake::new(alloc, shards, limit),
            still: None,
            next: None,
        }
    }

    /// Adds a target, with the time that its resume token shows. It isn't loaded. Of two refusals the limit comes first.
    pub fn add(&mut self, id: u32, target: Target, token: Option<Micros>) -> Result<(), TargetError>
        ensures ok { OnOk result (held_in self.new ≡ with_target id target token (held_in self.old)) }
        ensures err { OnErr result (held_in self.new ≡ held_in self.old) }

        // `InUse` and `TooMany` just where they hold.
        ensures refused { IfSome (refusal id (held_in self.old)) (λ e. result ≡ Err e) }
        ensures taken { refusal id (held_in self.old) ≡ None → IfErr result (λ e. e ≡ TargetError.Memory alloc_error) }
    {
        wake(&mut self.still, &mut self.next, &mut self.awake);
        self.awake.add(id, target, token)
    }

    /// Removes a target, and what is kept of it.
    pub fn remove(&mut self, id: u32) -> Result<(), TargetError>
        ensures ok { OnOk result ((held_in self.new ≡ without_target id (held_in self.old)) × IsTrue (is_some (get (held_in self.old).listening.targets id))) }
        ensures err { OnErr result (held_in self.new ≡ held_in self.old) }
        ensures unknown { IfErr result (λ e. (e ≡ TargetError.Unknown id) × (get (held_in self.old).listening.targets id ≡ None)) }
    {
        if self.target(id).is_none() {
            return Err(TargetError::Unknown(id));
        }
        wake(&mut self.still, &mut self.next, &mut self.awake);
        self.awake.remove(id)
    }

    /// Loads a target that isn't loaded, with the view that was sent of it and all documents that it listens to at a time, each by rising names.
    pub fn load(
        &mut self,
        alloc: Global,
        id: u32,
        sent: Documents,
        reset: bool,
        docs: Documents,
        time: Micros,
    ) -> Result<(), AllocError>
        requires there { IsUnloaded (get (held_in self.old).listening.targets id) }
        requires sent { IsTrue (is_sorted name_cmp (by_name sent)) }
        requires docs { IsTrue (is_sorted name_cmp (by_name docs)) }
        ensures ok { OnOk result (held_in self.new ≡ with_loaded id sent reset docs time (held_in self.old)) }
        ensures err { OnErr result (held_in self.new ≡ held_in self.old) }
    {
        wake(&mut self.still, &mut self.next, &mut self.awake);
        self.awake.load(alloc, id, sent, reset, docs, time)
    }

    /// Takes the events of a shard up to a time: of each target those behind its position there, which becomes that time where it was below it.
    /// A target without documents in that shard takes none. This is `prepare`, and then `take_in`.
    pub fn feed(
        &mut self,
        alloc: Global,
        shard: u32,
        events: &TimedEvents,
        to: Micros,
    ) -> Result<(), AllocError>
        requires named { AllByRecursion IsNamed events.now }
        ensures ok { OnOk result (held_in self.new ≡ fed shard events.now to (held_in self.old)) }
        ensures err { OnErr result (held_in self.new ≡ held_in self.old) }
    {
        self.prepare(alloc, shard, events.as_slice())?;
        self.take_in(shard, to);
        Ok(())
    }

    /// Makes the events of a shard ready to be taken in: of each target those behind its position there. What is asked of the targets stays the
    /// same until `take_in`, so where none follows nothing has to be undone: the next `prepare` forgets what was made ready.
    pub fn prepare(
        &mut self,
        alloc: Global,
        shard: u32,
        events: &[TimedEvent],
    ) -> Result<(), AllocError>
        requires named { AllByRecursion IsNamed events.now }
        ensures same { held_in self.new ≡ held_in self.old }
        ensures ok { OnOk result (ArePrepared shard events.now self.new) }
    {
        if self.still.is_some() && events.is_empty() {
            return Ok(());
        }
        wake(&mut self.still, &mut self.next, &mut self.awake);
        self.awake.prepare(alloc, shard, events)
    }

    /// Takes in the events of a shard up to a time, without memory. `prepare` has made them ready before, with no other change in between:
    /// else nothing is promised of what is kept.
    pub fn take_in(&mut self, shard: u32, to: Micros)
        ensures { (es : List TimedEvent) → ArePrepared shard es self.old → held_in self.new ≡ fed shard es to (held_in self.old) }
    {
        match &mut self.still {
            Some(still) => move_position(still.positions.as_mut_slice(), shard, to),
            None => {
                self.next = None;
                self.awake.take_in(shard, to);
            }
        }
    }

    /// The time up to which each of the targets has been told each of its shards, or why there is none.
    pub fn cut(&self) -> Cut
        ensures { result ≡ cut (held_in self.now).listening }
    {
        match &self.still {
            Some(still) => still.cut(),
            None => self.awake.cut(),
        }
    }

    /// How many there are.
    pub fn len(&self) -> usize
        ensures { result ≡ len (held_in self.now).listening.targets }
    {
        self.awake.len()
    }

    /// The least position of those that are loaded.
    pub fn least_position(&self) -> Option<Micros>
        ensures { result ≡ least_position (held_in self.now).listening }
    {
        match &self.still {
            Some(still) => still.least(),
            None => self.awake.least_position(),
        }
    }

    /// The time below which the session isn't raised: the greatest of the last raise, of what tokens show, and of what targets were loaded at.
    pub fn base(&self) -> Option<Micros>
        ensures { result ≡ base (held_in self.now).listening }
    {
        match &self.still {
            Some(still) => still.base(self.awake.raised()),
            None => self.awake.base(),
        }
    }

    /// The least position in a shard of those that are loaded.
    pub fn least_in(&self, shard: u32) -> Option<Micros>
        ensures { result ≡ least (positions_in shard (held_in self.now)) }
    {
        match &self.still {
            Some(still) => position_in(still.positions.as_slice(), shard),
            None => self.awake.least_in(shard),
        }
    }

    /// Whether the session can be raised at its cut.
    pub fn ready(&self) -> bool
        ensures { result ≡ is_ready (held_in self.now).listening }
    {
        match &self.still {
            Some(still) => still.ready(self.awake.raised()),
            None => self.awake.ready(),
        }
    }

    /// The least id of a target that isn't loaded.
    pub fn unloaded(&self) -> Option<u32>
        ensures { result ≡ first_loading (entries (held_in self.now).listening.targets) }
    {
        match &self.still {
            Some(_) => None,
            None => self.awake.unloaded(),
        }
    }

    /// The least id of a target, or the least above one.
    pub fn after(&self, id: Option<u32>) -> Option<u32>
        ensures { result ≡ id_after id (keys (held_in self.now).listening.targets) }
    {
        self.awake.after(id)
    }

    /// Whether a document of this name may be one that a target listens to: `false` where none of them has its collection. It costs a search among
    /// the collections that they listen to, and no look at the targets.
    pub fn may_listen(&self, name: &DocName) -> bool
        ensures { IsFalse result → IsListenedByNone name.now (held_in self.now) }
    {
        self.awake.may_listen(name)
    }

    /// What a target listens to.
    pub fn target(&self, id: u32) -> Option<&Target>
        ensures { option_copied result ≡ option_map (λ (l : Listened). l.target) (get (held_in self.now).listening.targets id) }
    {
        self.awake.target(id)
    }

    /// The time that the resume token of a target shows.
    pub fn token(&self, id: u32) -> Option<Micros>
        ensures { result ≡ option_and_then (λ (l : Listened). l.token) (get (held_in self.now).listening.targets id) }
    {
        self.awake.token(id)
    }

    /// The time up to which a target that is loaded was told a shard that it has.
    pub fn position(&self, id: u32, shard: u32) -> Option<Micros>
        ensures { result ≡ position_in shard (get (held_in self.now).listening.targets id) }
    {
        let own = self.awake.position(id, shard)?;
        match &self.still {
            Some(still) => position_in(still.positions.as_slice(), shard),
            None => Some(own),
        }
    }

    /// Whether a target is loaded.
    pub fn loaded(&self, id: u32) -> Option<bool>
        ensures { result ≡ option_map (λ (l : Listened). is_loaded l.loaded) (get (held_in self.now).listening.targets id) }
    {
        self.awake.loaded(id)
    }

    /// The events that are staged of a target that is loaded, by time and then by name: those behind its base.
    pub fn staged(&self, id: u32) -> Option<&[TimedEvent]>
        ensures { option_copied result ≡ staged_of (get (held_in self.now).kept id) }
    {
        self.awake.staged(id)
    }

    /// Raises the session at its cut. This is `messages`, and then `go_to`.
    pub fn raise(&mut self, alloc: Global, time: Micros) -> Result<Vec<ListenMessage>, AllocError>
        requires cut { cut (held_in self.old).listening ≡ At time }
        requires ready { IsTrue (is_ready (held_in self.old).listening) }
        ensures ok { OnOk result (held_in self.new ≡ raised_at time (held_in self.old)) }
        ensures told { IfOk result (λ v. v.items ≡ kept_told time (held_in self.old)) }
        ensures err { OnErr result (held_in self.new ≡ held_in self.old) }
    {
        let messages = self.messages(alloc, time)?;
        self.go_to(time);
        Ok(messages)
    }

    /// What a raise at a time says. It makes the views ready that the targets are to go to. What is asked of these stays the same until
    /// `go_to`, so where none follows nothing has to be undone: the next `messages` forgets what was made ready.
    pub fn messages(
        &mut self,
        alloc: Global,
        time: Micros,
    ) -> Result<Vec<ListenMessage>, AllocError>
        ensures same { held_in self.new ≡ held_in self.old }
        ensures told { IfOk result (λ v. v.items ≡ kept_told time (held_in self.old)) }
        ensures ok { OnOk result (AreReady time self.new) }
    {
        if self.still.is_some() {
            return no_change(alloc, time);
        }
        self.next = None;
        self.awake.make_ready(alloc, time)?;
        self.next = next_at(alloc, &self.awake, time)?;
        self.awake.messages(alloc, time)
    }

    /// Goes to a time, without memory, and is raised there. `messages` has made the views ready before, with no other change in between: else
    /// nothing is promised of what is kept.
    pub fn go_to(&mut self, time: Micros)
        ensures { AreReady time self.old → held_in self.new ≡ raised_at time (held_in self.old) }
    {
        if self.still.is_some() {
            self.awake.raise_to(time);
            return;
        }
        self.awake.go_to(time);
        self.still = still_at(self.next.take(), time);
    }
}
