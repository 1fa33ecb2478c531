//! Targets are loaded.
ghost use Rattle.std.specs.Prelude.{◌≡◌, ◌∷◌, [], IfOk, None, OnErr, OnOk, unwrap_or, if◌then◌else◌};
ghost use Rattle.fs_query.specs.declared.listen.ListenMessage.TheVariants as listen;
ghost use Rattle.fs_request.specs.declared.message.Message.TheVariants as message;
ghost use Rattle.fs_listen.specs.Runs.{is_lost as is_lost_before};
ghost use Rattle.fs_machine.specs.Load.{load_floor, with_reset};
ghost use Rattle.fs_sessions.specs.Place.{taken_back};

use crate::listen::one;
use crate::read::refusal_from;
use crate::server::Server;
use fs_query::ListenMessage;
use fs_request::Message;
use fs_sessions::Sessions;
use fs_status::{Reason, Refusal};
use fs_target::targets_are_lawful;
use fs_time::Micros;
use fs_value::Documents;
use std::alloc::{AllocError, Global};

// Whether what a token shows can't be read any more.
fn is_lost(floor: Micros, token: &Option<Micros>) -> bool
    ensures { result ≡ is_lost_before floor token.now }
{
    match token {
        Some(token) => *token < floor,
        None => false,
    }
}

// The earliest time at which a target can be loaded.
fn load_floor(floor: Micros, token: Option<Micros>) -> Micros
    ensures { result ≡ load_floor floor token }
{
    match token {
        Some(token) if floor < token => token,
        _ => floor,
    }
}

// The time that is asked for, or what is released.
fn time_or(at: &Option<Micros>, released: Micros) -> Micros
    ensures { result ≡ unwrap_or at.now released }
{
    match at {
        Some(time) => *time,
        None => released,
    }
}

// The time that a target goes on from.
fn resumed(reset: bool, token: Option<Micros>) -> Option<Micros>
    ensures { result ≡ (if reset then None else token) }
{
    if reset { None } else { token }
}

fn reset_of(alloc: Global, target: u32) -> Result<Message, AllocError>
    ensures { IfOk result (λ m. m ≡ message.Listen (listen.Reset (target ∷ []))) }
{
    Ok(Message::Listen(ListenMessage::Reset {
        targets: one(alloc, target)?,
    }))
}

// A session is told that a target is reset, if it is.
fn tell_reset(
    alloc: Global,
    sessions: &mut Sessions,
    session: u32,
    target: u32,
    reset: bool,
) -> Result<(), AllocError>
    ensures ok { OnOk result (sessions.new ≡ with_reset session target reset sessions.old) }
    ensures err { OnErr result (sessions.new ≡ sessions.old) }
{
    if !reset {
        return Ok(());
    }
    let message = reset_of(alloc, target)?;
    sessions.deliver(session, message)
}

// It is as if it hadn't been told.
fn take_reset_back(sessions: &mut Sessions, session: u32, reset: bool)
    ensures { sessions.new ≡ (if reset then taken_back session sessions.old else sessions.old) }
{
    if reset {
        sessions.take_back(session);
    }
}

impl Server {
    ghost use Rattle.std.specs.Prelude.{◌≡◌, ◌≢◌, ◌≤ℤ◌, Err, IfErr, IfOk, IfSome, IsTrue, None, OnErr, OnOk, Ok, Some};
    ghost use Rattle.std.specs.FinMap.{entries, get, is_sorted};
    ghost use Rattle.std.specs.Option.{option_map};
    ghost use Rattle.fs_path.specs.NameOrder.{name_cmp};
    ghost use Rattle.fs_value.specs.Named.{by_name};
    ghost use Rattle.fs_write.specs.Batch.{docs_of};
    ghost use Rattle.fs_history.specs.History.{at};
    ghost use Rattle.fs_match.specs.Followed.{docs_fitting};
    ghost use Rattle.fs_listen.specs.View.{is_listened, view_at};
    ghost use Rattle.fs_status.specs.Refusal.{refusal_of};
    ghost use Rattle.fs_status.specs.declared.reason.Reason.TheVariants.{Memory};
    ghost use Rattle.fs_listen.specs.Cuts.{first_loading, is_loaded};
    ghost use Rattle.fs_listen.specs.Listening.{Listened};
    ghost use Rattle.fs_machine.specs.Grows.{Grows};
    ghost use Rattle.fs_machine.specs.Listen.{listening_of};
    ghost use Rattle.fs_machine.specs.Load.{load_refusal, loaded, loaded_with};
    ghost use Rattle.fs_server.specs.Loading.{IsFree, answer_of};

    /// Whether a target of a session is loaded, if the session has one of this id.
    pub fn is_loaded(&self, session: u32, target: u32) -> Option<bool>
        ensures { result ≡ option_map (λ (l : Listened). is_loaded l.loaded) (get (listening_of self.now session).targets target) }
    {
        self.listeners.loaded(session, target)
    }

    /// The least target of a session that isn't loaded.
    pub fn unloaded(&self, session: u32) -> Option<u32>
        ensures { result ≡ first_loading (entries (listening_of self.now session).targets) }
    {
        self.listeners.unloaded(session)
    }

    /// Loads a target of a session at a time, or at what is released. What its token shows is told as it was then; where that can't be read
    /// any more, the session is told that the target is reset, and it is told from nothing on. A target that is loaded stays as it is.
    ///
    /// It is refused where there is no such target, and where the time is before what can be read and what the token shows, or isn't
    /// released yet. Where memory runs out, all is as before. (v1 reference, `TargetChange`: RESET.)
    pub fn load(
        &mut self,
        alloc: Global,
        session: u32,
        target: u32,
        at: Option<Micros>,
    ) -> Result<(), Refusal>
        ensures told { result ≢ Err (refusal_of Memory) → result ≡ answer_of (load_refusal self.old session target at) }
        ensures state { result ≢ Err (refusal_of Memory) → self.new ≡ loaded self.old session target at }
        ensures memory { result ≡ Err (refusal_of Memory) → self.new ≡ self.old }
        ensures grows { Grows self.old.past self.new.past }
    {
        self.stand();
        match self.loaded(alloc, session, target, at) {
            Ok(answer) => answer,
            Err(_) => Err(Refusal::of(Reason::Memory)),
        }
    }

    fn loaded(
        &mut self,
        alloc: Global,
        session: u32,
        target: u32,
        at: Option<Micros>,
    ) -> Result<Result<(), Refusal>, AllocError>
        ensures told { IfOk result (λ r. r ≡ answer_of (load_refusal self.old session target at)) }
        ensures state { OnOk result (self.new ≡ loaded self.old session target at) }
        ensures err { OnErr result (self.new ≡ self.old) }
    {
        if let Some(refusal) = self.load_refusal(session, target, &at) {
            return Ok(Err(refusal));
        }
        match self.is_loaded(session, target) {
            None => Ok(Ok(())),
            Some(true) => Ok(Ok(())),
            Some(false) => {
                self.stand();
                let time = time_or(&at, self.past.released());
                self.load_free(alloc, session, target, time)?;
                Ok(Ok(()))
            }
        }
    }

    // Why a target isn't loaded.
    fn load_refusal(&self, session: u32, target: u32, at: &Option<Micros>) -> Option<Refusal>
        ensures { result ≡ load_refusal self.now session target at.now }
    {
        match self.listeners.loaded(session, target) {
            None => Some(Refusal::of(Reason::TargetUnknown(i64::from(target)))),
            Some(true) => None,
            Some(false) => {
                let token = self.listeners.token(session, target);
                let floor = load_floor(self.past.floor(), token);
                match at {
                    Some(time) => refusal_from(&self.past, floor, *time),
                    None => None,
                }
            }
        }
    }

    // One that isn't loaded is, at a time that may be.
    fn load_free(
        &mut self,
        alloc: Global,
        session: u32,
        target: u32,
        time: Micros,
    ) -> Result<(), AllocError>
        requires { IsFree self.old session target time }
        ensures ok { OnOk result ((l : Listened) → get (listening_of self.old session).targets target ≡ Some l
            → self.new ≡ loaded_with self.old session target time (is_lost_before self.old.past.floor l.token)) }
        ensures err { OnErr result (self.new ≡ self.old) }
    {
        self.stand();
        targets_are_lawful();
        let token = self.listeners.token(session, target);
        let reset = is_lost(self.past.floor(), &token);
        let from = resumed(reset, token);
        let sent = self.sent(alloc, session, target, from)?;
        let docs = self.listened(alloc, session, target, time)?;
        tell_reset(alloc, &mut self.sessions, session, target, reset)?;
        match self
            .listeners
            .load(alloc, session, target, sent, reset, docs, time)
        {
            Ok(()) => Ok(()),
            Err(error) => {
                take_reset_back(&mut self.sessions, session, reset);
                Err(error)
            }
        }
    }

    // The view that a target's reader has, which it was sent at a time, or nothing.
    fn sent(
        &self,
        alloc: Global,
        session: u32,
        target: u32,
        time: Option<Micros>,
    ) -> Result<Documents, AllocError>
        requires { IfSome time (λ t. (self.now.past.floor ≤ℤ t) × (t ≤ℤ self.now.past.released)) }
        ensures sorted { IfOk result (λ ds. IsTrue (is_sorted name_cmp (by_name ds))) }
        ensures value { IfOk result (λ ds. (l : Listened) → get (listening_of self.now session).targets target ≡ Some l
            → docs_of ds ≡ view_at l.target self.now.past.history time) }
    {
        match time {
            None => Ok(Documents::new(alloc)),
            Some(time) => match self.listeners.target(session, target) {
                Some(target) => self.past.view(alloc, target, time),
                None => Ok(Documents::new(alloc)),
            },
        }
    }

    // All documents that a target listens to at a time.
    fn listened(
        &self,
        alloc: Global,
        session: u32,
        target: u32,
        time: Micros,
    ) -> Result<Documents, AllocError>
        requires from { self.now.past.floor ≤ℤ time }
        requires to { time ≤ℤ self.now.past.released }
        ensures sorted { IfOk result (λ ds. IsTrue (is_sorted name_cmp (by_name ds))) }
        ensures value { IfOk result (λ ds. (l : Listened) → get (listening_of self.now session).targets target ≡ Some l
            → docs_of ds ≡ docs_fitting (is_listened l.target) (at self.now.past.history time)) }
    {
        match self.listeners.target(session, target) {
            Some(target) => self.past.listened(alloc, target, time),
            None => Ok(Documents::new(alloc)),
        }
    }
}
