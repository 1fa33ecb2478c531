//! Targets are added and removed.
ghost use Rattle.std.specs.Prelude.{◌≡◌, ◌∷◌, [], ℕ, ℤ, pos, Option, Some, IfOk};
ghost use Rattle.fs_path.specs.declared.place.Rule.TheVariants.{Q};
ghost use Rattle.fs_status.specs.Refusal.{refusal_of};
ghost use Rattle.fs_status.specs.declared.reason.Reason.TheVariants as reasons;
ghost use Rattle.fs_machine.specs.Listen.{cause_of as cause_by, is_plain, rule_refusal, shown_refusal, target_query_place, target_refusal, token_reason, token_time};
ghost use Rattle.fs_query.specs.declared.listen.ListenMessage.TheVariants as listen;
ghost use Rattle.fs_query.specs.declared.target.Target.TheVariants as target;
ghost use Rattle.fs_request.specs.declared.message.Message.TheVariants as message;
ghost use Rattle.fs_machine.specs.declared.answer.Answer.TheVariants.{Reply};

use crate::limits::at_limit;
use crate::server::Server;
use fs_machine::Answer;
use fs_path::{Bytes, Rule, Text, Way};
use fs_query::{Cause, ListenMessage, Numbers, Query, QueryRule, Target, check_with};
use fs_request::Message;
use fs_status::{Reason, Refusal, message};
use fs_target::targets_are_lawful;
use fs_time::Micros;
use fs_token::TokenError;
use std::alloc::{AllocError, Global};

// ---- resume tokens

fn token_reason(error: TokenError) -> Reason
    ensures { result ≡ token_reason error }
{
    match error {
        TokenError::BadLength(bytes) => Reason::TokenLength(bytes),
        TokenError::BadMark => Reason::TokenMark,
        TokenError::BadTime => Reason::TokenTime,
    }
}

// Why a session isn't resumed from where a token shows.
fn shown_refusal(released: Micros, shown: Result<Micros, TokenError>) -> Option<Refusal>
    ensures { result ≡ shown_refusal released shown }
{
    match shown {
        Ok(time) => {
            if released < time {
                Some(Refusal::of(Reason::TokenAhead(time, released)))
            } else {
                None
            }
        }
        Err(error) => Some(Refusal::of(token_reason(error))),
    }
}

// The time that a token shows.
fn token_time(token: &Option<Bytes>) -> Option<Micros>
    ensures { result ≡ token_time token.now }
{
    match token {
        Some(bytes) => fs_token::read(bytes.as_slice()).ok(),
        None => None,
    }
}

// ---- messages

/// One id alone.
pub(crate) fn one(alloc: Global, id: u32) -> Result<Numbers, AllocError>
    ensures { IfOk result (λ ids. ids ≡ id ∷ []) }
{
    let mut ids = Numbers::new(alloc);
    ids.push(id)?;
    Ok(ids)
}

fn cause_of(alloc: Global, refusal: &Refusal) -> Result<Cause, AllocError>
    ensures { IfOk result (λ c. c ≡ cause_by refusal.now) }
{
    Ok(Cause {
        code: refusal.code.rpc(),
        message: message(alloc, refusal)?,
    })
}

// Whether a reason is of the request as a whole, and not told as a target's.
fn is_plain(reason: &Reason) -> bool
    ensures { result ≡ is_plain reason.now }
{
    matches!(reason, Reason::Rule(_, _) | Reason::Method(_))
}

fn added_answer(alloc: Global, id: u32) -> Result<Answer, AllocError>
    ensures { IfOk result (λ a. a ≡ Reply (message.Listen (listen.Add (id ∷ [])))) }
{
    let targets = one(alloc, id)?;
    Ok(Answer::Reply(Message::Listen(ListenMessage::Add { targets })))
}

fn removed_answer(alloc: Global, id: u32, cause: Option<Cause>) -> Result<Answer, AllocError>
    ensures { IfOk result (λ a. a ≡ Reply (message.Listen (listen.Remove (id ∷ []) cause))) }
{
    match one(alloc, id) {
        Ok(targets) => Ok(Answer::Reply(Message::Listen(ListenMessage::Remove { targets, cause }))),
        Err(error) => {
            drop(cause);
            Err(error)
        }
    }
}

// What is told of a target that is added, and the target.
fn to_add(alloc: Global, id: u32, target: &Target) -> Result<(Answer, Target), AllocError>
    ensures told { IfOk result (λ a. a.0 ≡ Reply (message.Listen (listen.Add (id ∷ [])))) }
    ensures copied { IfOk result (λ a. a.1 ≡ target.now) }
{
    let answer = added_answer(alloc, id)?;
    match target.copy(alloc) {
        Ok(target) => Ok((answer, target)),
        Err(error) => {
            drop(answer);
            Err(error)
        }
    }
}

// A rule that the query of a target breaks is told at its place.
fn broken(alloc: Global, rule: QueryRule) -> Result<Refusal, AllocError>
    ensures { IfOk result (λ r. r ≡ refusal_of (reasons.Rule (Q rule.number rule.count) target_query_place)) }
{
    let listen = Way::method("listen");
    let target = listen.member("addTarget");
    let query = target.member("query");
    let place = query.member("structuredQuery").place(alloc)?;
    Ok(Refusal::of(Reason::Rule(Rule::Q(rule.number, rule.count), place)))
}

fn rule_refusal(alloc: Global, query: &Query) -> Result<Option<Refusal>, AllocError>
    ensures { IfOk result (λ r. r ≡ rule_refusal query.now) }
{
    match check_with(alloc, query)? {
        Some(rule) => Ok(Some(broken(alloc, rule)?)),
        None => Ok(None),
    }
}

fn unbuilt(alloc: Global, name: &str) -> Result<Refusal, AllocError>
    ensures { IfOk result (λ r. r ≡ refusal_of (reasons.Method name.now)) }
{
    Ok(Refusal::of(Reason::Method(Text::from_str(alloc, name)?)))
}

// The query of a target that asks for what isn't built, or breaks a rule, is refused.
fn query_refusal(alloc: Global, query: &Query) -> Result<Option<Refusal>, AllocError>
    ensures { IfOk result (λ r. r ≡ target_refusal (target.Query query.now)) }
{
    if query.select.is_some() {
        return Ok(Some(unbuilt(alloc, "select")?));
    }
    if 0 < query.offset {
        return Ok(Some(unbuilt(alloc, "offset")?));
    }
    rule_refusal(alloc, query)
}

fn target_refusal(alloc: Global, target: &Target) -> Result<Option<Refusal>, AllocError>
    ensures { IfOk result (λ r. r ≡ target_refusal target.now) }
{
    match target {
        Target::Query(query) => query_refusal(alloc, query),
        Target::Documents(_) => Ok(None),
    }
}

impl Server {
    ghost use Rattle.std.specs.Prelude.{◌≡◌, ℕ, None, Some, IfOk, OnErr, OnOk, is_some};
    ghost use Rattle.std.specs.FinMap.{get};
    ghost use Rattle.fs_machine.specs.Listen.{added_answer, adding_refusal, has_target, removed_answer, removing_refusal, token_refusal, token_time, unadded_answer, with_target, without_target};
    ghost use Rattle.fs_server.specs.Listening.{adding_answer, after_adding, after_removing, removing_answer};

    // Whether a session has a target of an id.
    fn has_target(&self, session: u32, id: u32) -> bool
        ensures { result ≡ has_target self.now session id }
    {
        self.listeners.loaded(session, id).is_some()
    }

    fn token_refusal(&self, token: &Option<Bytes>) -> Option<Refusal>
        ensures { result ≡ token_refusal self.now token.now }
    {
        match token {
            Some(bytes) => shown_refusal(self.past.released(), fs_token::read(bytes.as_slice())),
            None => None,
        }
    }

    // ---- adding

    // Why a target isn't added.
    fn adding_refusal(
        &self,
        alloc: Global,
        session: u32,
        id: u32,
        target: &Target,
        token: &Option<Bytes>,
    ) -> Result<Option<Refusal>, AllocError>
        ensures { IfOk result (λ r. r ≡ adding_refusal self.now session id target.now token.now) }
    {
        if let Some(refusal) = target_refusal(alloc, target)? {
            return Ok(Some(refusal));
        }
        if self.outbox_is_full(session) {
            return at_limit(alloc, "outbox", self.limits.outbox);
        }
        if self.limits.targets <= self.listeners.target_count(session) as u64 {
            return at_limit(alloc, "targets", self.limits.targets);
        }
        if self.limits.ids <= self.numbers.targets {
            return at_limit(alloc, "ids", self.limits.ids);
        }
        if self.has_target(session, id) {
            return Ok(Some(Refusal::of(Reason::TargetInUse(id))));
        }
        Ok(self.token_refusal(token))
    }

    // What is told of a target that isn't added.
    fn unadded_answer(
        &self,
        alloc: Global,
        session: u32,
        id: u32,
        refusal: Refusal,
    ) -> Result<Answer, AllocError>
        ensures { IfOk result (λ a. a ≡ unadded_answer self.now session id refusal) }
    {
        if is_plain(&refusal.reason) || self.has_target(session, id) {
            return Ok(Answer::Refused(refusal));
        }
        let cause = cause_of(alloc, &refusal);
        drop(refusal);
        removed_answer(alloc, id, Some(cause?))
    }

    /// A session is to listen to a target.
    pub(crate) fn add_target(
        &mut self,
        alloc: Global,
        session: u32,
        id: u32,
        target: &Target,
        token: &Option<Bytes>,
    ) -> Result<Answer, AllocError>
        ensures told { IfOk result (λ a. a ≡ adding_answer self.old session id target.now token.now) }
        ensures state { OnOk result (self.new ≡ after_adding self.old session id target.now token.now) }
        ensures err { OnErr result (self.new ≡ self.old) }
    {
        match self.adding_refusal(alloc, session, id, target, token)? {
            Some(refusal) => self.unadded_answer(alloc, session, id, refusal),
            None => self.add_free(alloc, session, id, target, token),
        }
    }

    // Nothing stands in its way.
    fn add_free(
        &mut self,
        alloc: Global,
        session: u32,
        id: u32,
        target: &Target,
        token: &Option<Bytes>,
    ) -> Result<Answer, AllocError>
        requires { adding_refusal self.old session id target.now token.now ≡ None }
        ensures told { IfOk result (λ a. a ≡ added_answer id) }
        ensures state { OnOk result (self.new ≡ with_target self.old session id target.now (token_time token.now)) }
        ensures err { OnErr result (self.new ≡ self.old) }
    {
        self.stand();
        targets_are_lawful();
        let (answer, target) = to_add(alloc, id, target)?;
        let number = self.numbers.targets + 1;
        let time = token_time(token);
        if let Err(error) = self.listeners.add_target(session, id, number, target, time) {
            drop(answer);
            return Err(error);
        }
        self.numbers.targets = number;
        Ok(answer)
    }

    // ---- removing

    /// A session is to listen to a target no longer.
    pub(crate) fn remove_target(
        &mut self,
        alloc: Global,
        session: u32,
        id: i32,
    ) -> Result<Answer, AllocError>
        ensures told { IfOk result (λ a. a ≡ removing_answer self.old session id) }
        ensures state { OnOk result (self.new ≡ after_removing self.old session id) }
        ensures err { OnErr result (self.new ≡ self.old) }
    {
        if self.outbox_is_full(session) {
            return Ok(Answer::Refused(Refusal::at_limit(alloc, "outbox", self.limits.outbox)?));
        }
        match u32::try_from(id) {
            Ok(target) if self.has_target(session, target) => {
                self.remove_known(alloc, session, target)
            }
            _ => Ok(Answer::Refused(Refusal::of(Reason::TargetUnknown(i64::from(id))))),
        }
    }

    fn remove_known(&mut self, alloc: Global, session: u32, id: u32) -> Result<Answer, AllocError>
        ensures told { IfOk result (λ a. a ≡ removed_answer (pos id)) }
        ensures state { OnOk result (self.new ≡ without_target self.old session (pos id)) }
        ensures err { OnErr result (self.new ≡ self.old) }
    {
        self.stand();
        targets_are_lawful();
        let answer = removed_answer(alloc, id, None)?;
        self.listeners.remove_target(session, id);
        Ok(answer)
    }
}
