//! What sessions listen to.
ghost use Rattle.std.specs.Prelude.{◌≡◌, ◌≢◌, ◌<◌, ℕ, IfSome, None, OnErr, OnOk, Some, length, map};
ghost use Rattle.std.specs.FinMap.{get};
ghost use Rattle.fs_target.specs.Held.{refusal, without_target};
ghost use Rattle.fs_target.specs.Prepared.{held_in};
ghost use Rattle.fs_sessions.specs.Heard.{heard_adding, heard_of, heard_removing};
ghost use Rattle.fs_sessions.specs.Place.{ear_in};

use crate::matched::lesser;
use fs_pairs::Pairs;
use fs_query::Target;
use fs_target::{Cut, Targets, TimedEvent};
use fs_time::Micros;
use fs_value::Documents;
use std::alloc::{AllocError, Global};
use std::marker::Model;

/// What a session listens to, and the numbers of its targets.
#[derive(Drop)]
pub(crate) struct Ear {
    pub(crate) session: u32,
    pub(crate) targets: Targets,
    pub(crate) numbers: Pairs,
}

/// What the sessions that are open listen to, in the order of opening.
///
///     0 adds target 1, which is number 4      0 listens to 1, which is 4
///     2 adds target 1, which is number 5      and 2 to 1, which is 5
///     0 leaves                                2 listens to 1
#[derive(Drop)]
pub struct Listeners {
    pub(crate) list: Vec<Ear>,
}

impl Model for Listeners {
    ghost use Rattle.std.specs.Prelude.{List, map};
    ghost use Rattle.std.specs.Coded.{coded_list};
    ghost use Rattle.fs_sessions.specs.Heard.{Heard, heard_code, heard_of};

    ghost Value = { List Heard };

    ghost coded = { coded_list heard_code };

    ghost view = { λ l. map heard_of l.list.items };
}

impl Listeners {
    ghost use Rattle.std.specs.Prelude.{◌≡◌, ◌≢◌, ◌-◌, ◌∷◌, ◌++◌, [], ℕ, IfSome, IsTrue, None, OnOk, OnErr, Some, length, map, option_copied, option_map, take};
    ghost use Rattle.std.specs.FinMap.{entries, get, is_sorted, len};
    ghost use Rattle.std.specs.Option.{option_and_then};
    ghost use Rattle.fs_path.specs.NameOrder.{name_cmp};
    ghost use Rattle.fs_path.specs.Scope.{AreShards};
    ghost use Rattle.fs_value.specs.Named.{by_name};
    ghost use Rattle.fs_listen.specs.Cuts.{cut, first_loading, is_loaded, is_ready, least, least_position};
    ghost use Rattle.fs_listen.specs.Listening.{Listened};
    ghost use Rattle.fs_target.specs.Held.{IsUnloaded, refusal, staged_of};
    ghost use Rattle.fs_machine.specs.Listeners.{Listener, listening_in};
    ghost use Rattle.fs_sessions.specs.Heard.{Heard, heard_adding, heard_in, heard_loading, heard_of, heard_removing, listeners_of, opened_ear, with_heard, without_heard};

    /// No session is open. The allocator serves those that open.
    pub fn new(alloc: Global) -> Listeners
        ensures { result ≡ [] }
    {
        Listeners {
            list: Vec::new(alloc),
        }
    }

    /// A session more, which listens to nothing, of a server with so many shards, and of which there may be so many targets.
    pub fn add(
        &mut self,
        alloc: Global,
        session: u32,
        shards: u32,
        limit: u64,
    ) -> Result<(), AllocError>
        requires { AreShards shards }
        ensures ok { OnOk result (self.new ≡ self.old ++ opened_ear session shards limit ∷ []) }
        ensures err { OnErr result (self.new ≡ self.old) }
    {
        Ok(
            self.list.push(Ear {
                session,
                targets: Targets::new(alloc, shards, limit),
                numbers: Pairs::new(alloc),
            })?,
        )
    }

    /// A session less, if it is open. It takes no memory.
    pub fn remove(&mut self, session: u32)
        ensures { self.new ≡ without_heard session self.old }
    {
        match place_in(&self.list, session) {
            Some(place) => {
                let _ = self.list.remove(place);
            }
            None => {}
        }
    }

    /// Takes the last session back, so that it is as if it hadn't opened. It takes no memory.
    pub fn take_back(&mut self)
        ensures { self.new ≡ take (length self.old - 1) self.old }
    {
        let _ = self.list.pop();
    }

    // What a session listens to, if it is open.
    fn ear(&self, session: u32) -> Option<&Ear>
        ensures { option_map (λ e. heard_of e.now) result ≡ heard_in session self.now }
    {
        match place_in(&self.list, session) {
            Some(place) => Some(&self.list[place]),
            None => None,
        }
    }

    /// How many targets a session has.
    pub fn target_count(&self, session: u32) -> usize
        ensures { result ≡ len (listening_in session (listeners_of self.now)).targets }
    {
        match self.ear(session) {
            Some(ear) => ear.targets.len(),
            None => 0,
        }
    }

    /// Whether a target of a session is loaded, if there is one.
    pub fn loaded(&self, session: u32, id: u32) -> Option<bool>
        ensures { result ≡ option_map (λ (l : Listened). is_loaded l.loaded) (get (listening_in session (listeners_of self.now)).targets id) }
    {
        self.ear(session)?.targets.loaded(id)
    }

    /// The time that the resume token of a target shows.
    pub fn token(&self, session: u32, id: u32) -> Option<Micros>
        ensures { result ≡ option_and_then (λ (l : Listened). l.token) (get (listening_in session (listeners_of self.now)).targets id) }
    {
        self.ear(session)?.targets.token(id)
    }

    /// What a target listens to.
    pub fn target(&self, session: u32, id: u32) -> Option<&Target>
        ensures { option_copied result ≡ option_map (λ (l : Listened). l.target) (get (listening_in session (listeners_of self.now)).targets id) }
    {
        self.ear(session)?.targets.target(id)
    }

    /// The least target of a session that isn't loaded.
    pub fn unloaded(&self, session: u32) -> Option<u32>
        ensures { result ≡ first_loading (entries (listening_in session (listeners_of self.now)).targets) }
    {
        self.ear(session)?.targets.unloaded()
    }

    /// How far the targets of a session are together.
    pub fn cut(&self, session: u32) -> Cut
        ensures { result ≡ cut (listening_in session (listeners_of self.now)) }
    {
        match self.ear(session) {
            Some(ear) => ear.targets.cut(),
            None => Cut::NoTarget,
        }
    }

    /// The least position of all targets that are loaded.
    pub fn least_position(&self) -> Option<Micros>
        ensures { result ≡ least (map (λ (l : Listener). least_position l.listening) (listeners_of self.now)) }
    {
        let mut least = None;
        for ear in self.list.as_slice() {
            least = lesser(least, ear.targets.least_position());
        }
        least
    }

    /// Whether a session can be raised at its cut.
    pub fn ready(&self, session: u32) -> bool
        ensures { result ≡ is_ready (listening_in session (listeners_of self.now)) }
    {
        match self.ear(session) {
            Some(ear) => ear.targets.ready(),
            None => false,
        }
    }

    /// The events that are staged of a target of a session, if it is loaded.
    pub fn staged(&self, session: u32, id: u32) -> Option<&[TimedEvent]>
        ensures { option_copied result ≡ option_and_then (λ (h : Heard). staged_of (get h.held.kept id)) (heard_in session self.now) }
    {
        self.ear(session)?.targets.staged(id)
    }

    // ---- targets

    /// A target more of a session, of a number. There is none of its id, and as many may be.
    pub fn add_target(
        &mut self,
        session: u32,
        id: u32,
        number: u64,
        target: Target,
        token: Option<Micros>,
    ) -> Result<(), AllocError>
        requires free { IfSome (heard_in session self.old) (λ h. refusal id h.held ≡ None) }
        requires unnumbered { IfSome (heard_in session self.old) (λ h. get h.numbers id ≡ None) }
        requires unused { IfSome (heard_in session self.old) (λ h. (other : ℕ) → get h.numbers other ≢ Some number) }
        ensures ok { OnOk result (self.new ≡ with_heard session (heard_adding id number target token) self.old) }
        ensures err { OnErr result (self.new ≡ self.old) }
    {
        match place_in(&self.list, session) {
            Some(place) => add_to(&mut self.list[place], id, number, target, token),
            None => Ok(()),
        }
    }

    /// A target less of a session. It takes no memory.
    pub fn remove_target(&mut self, session: u32, id: u32)
        ensures { self.new ≡ with_heard session (heard_removing id) self.old }
    {
        match place_in(&self.list, session) {
            Some(place) => remove_from(&mut self.list[place], id),
            None => {}
        }
    }

    /// Loads a target of a session that isn't loaded.
    pub fn load(
        &mut self,
        alloc: Global,
        session: u32,
        id: u32,
        sent: Documents,
        reset: bool,
        docs: Documents,
        time: Micros,
    ) -> Result<(), AllocError>
        requires there { IsUnloaded (get (listening_in session (listeners_of self.old)).targets id) }
        requires sent { IsTrue (is_sorted name_cmp (by_name sent)) }
        requires docs { IsTrue (is_sorted name_cmp (by_name docs)) }
        ensures ok { OnOk result (self.new ≡ with_heard session (heard_loading id sent reset docs time) self.old) }
        ensures err { OnErr result (self.new ≡ self.old) }
    {
        match place_in(&self.list, session) {
            Some(place) => self.list[place]
                .targets
                .load(alloc, id, sent, reset, docs, time),
            None => Ok(()),
        }
    }
}

// A target more, of a number.
fn add_to(
    ear: &mut Ear,
    id: u32,
    number: u64,
    target: Target,
    token: Option<Micros>,
) -> Result<(), AllocError>
    requires free { refusal id (heard_of ear.old).held ≡ None }
    requires unnumbered { get (heard_of ear.old).numbers id ≡ None }
    requires unused { (other : ℕ) → get (heard_of ear.old).numbers other ≢ Some number }
    ensures ok { OnOk result (heard_of ear.new ≡ heard_adding id number target token (heard_of ear.old)) }
    ensures err { OnErr result (heard_of ear.new ≡ heard_of ear.old) }
{
    ear.numbers.insert(id, number)?;
    match ear.targets.add(id, target, token) {
        Ok(()) => Ok(()),
        Err(_) => {
            ear.numbers.remove(id);
            Err(AllocError)
        }
    }
}

// A target less.
fn remove_from(ear: &mut Ear, id: u32)
    ensures { heard_of ear.new ≡ heard_removing id (heard_of ear.old) }
{
    forget(&mut ear.targets, id);
    ear.numbers.remove(id);
}

fn forget(targets: &mut Targets, id: u32)
    ensures { held_in targets.new ≡ without_target id (held_in targets.old) }
{
    let _ = targets.remove(id);
}

// Where the session of a number stands.
pub(crate) fn place_in(list: &[Ear], session: u32) -> Option<usize>
    ensures place { result ≡ ear_in session (map heard_of list.now) }
    ensures within { IfSome result (λ place. place < length list.now) }
{
    match list {
        [] => None,
        [ear, rest @ ..] => {
            if ear.session == session {
                return Some(0);
            }
            let place = place_in(rest, session)?;
            Some(place + 1)
        }
    }
}
