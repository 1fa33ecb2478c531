//! The targets that a client listens to.
ghost use Rattle.std.specs.Prelude.{◌≡◌, true, IfOk};
ghost use Rattle.std.specs.Option.{option_copied};
ghost use Rattle.fs_local.specs.Ask.{add_request};
ghost use Rattle.fs_local.specs.Connect.{token_for};
ghost use Rattle.fs_local.specs.Listen.{rule_of_target};

use fs_local::{ClientError, Listened};
use fs_path::{Bytes, Root};
use fs_query::{Cause, Numbers, QueryRule, Target, check_with};
use fs_request::{Envelope, Request};
use std::alloc::{AllocError, Global};
use std::collections::BTreeMap;
use std::marker::Model;

/// The targets that a client listens to, by their ids.
///
///     listens to 1 and 2                     1, 2
///     both told whole, NO_CHANGE, token T    1 and 2 shown, with T
///     listens to 3                           3 isn't shown yet
///     the link is lost                       1 and 2 go on from T on the next one, and 3 from nothing
#[derive(Drop)]
pub(crate) struct Targets {
    listened: BTreeMap<u32, Listened>,
    // the resume token of the last snapshot, which is that of each target that is shown
    token: Option<Bytes>,
    causes: BTreeMap<u32, Cause>,
    last: u32,
    limit: u64,
}

impl Model for Targets {
    ghost use Rattle.fs_local.specs.Codes.{targets_code};
    ghost use Rattle.fs_local.specs.State.{Targets};

    ghost Value = { Targets };

    ghost coded = { targets_code };

    ghost use Rattle.std.specs.FinMap.{from_entries};
    ghost use Rattle.fs_client.specs.Listed.{AreSmall};

    ghost view = { λ t. record { listened = from_entries t.listened.entries; token = t.token; causes = from_entries t.causes.entries; last = t.last; limit = t.limit } };

    ghost invariant = { λ t. AreSmall (from_entries t.listened.entries) };
}

// The rule that a target's query breaks.
fn rule_of(alloc: Global, target: &Target) -> Result<Option<QueryRule>, AllocError>
    ensures { IfOk result (λ r. r ≡ rule_of_target target.now) }
{
    match target {
        Target::Query(q) => check_with(alloc, q),
        Target::Documents(_) => Ok(None),
    }
}

/// The request that listens to a target.
pub(crate) fn add_request(
    alloc: Global,
    root: &Root,
    id: u32,
    target: &Target,
    token: Option<&Bytes>,
) -> Result<Envelope, AllocError>
    ensures { IfOk result (λ e. e ≡ add_request root.now id target.now (option_copied token.entry)) }
{
    Ok(Envelope {
        id: None,
        request: Request::AddTarget {
            database: root.copy(alloc)?,
            token: copy_token(alloc, token)?,
            target: target.copy(alloc)?,
            id,
        },
    })
}

fn copy_token(alloc: Global, token: Option<&Bytes>) -> Result<Option<Bytes>, AllocError>
    ensures { IfOk result (λ t. t ≡ option_copied token.entry) }
{
    match token {
        Some(token) => Ok(Some(token.copy(alloc)?)),
        None => Ok(None),
    }
}

// The token with which a target goes on.
fn token_for<'a>(token: &'a Option<Bytes>, listened: &Listened) -> Option<&'a Bytes>
    ensures { option_copied result ≡ token_for token.now listened.now }
{
    if listened.shown { token.as_ref() } else { None }
}

fn mark(current: &mut bool)
    ensures { current.new ≡ true }
{
    *current = true;
}

fn copy_causes(
    alloc: Global,
    causes: &BTreeMap<u32, Cause>,
) -> Result<BTreeMap<u32, Cause>, AllocError>
    ensures { IfOk result (λ copy. copy.entries ≡ causes.now.entries) }
{
    let mut copy = BTreeMap::new(alloc);
    for (id, cause) in causes {
        drop(copy.insert(*id, cause.copy(alloc)?)?);
    }
    Ok(copy)
}

impl Targets {
    ghost use Rattle.std.specs.Prelude.{◌≡◌, ◌==◌, ◌++◌, ◌⊎◌, ◌<◌, ◌^◌, ℕ, Err, IfErr, IfOk, IfSome, None, OnErr, OnOk, Some, alloc_error, is_some, map, true};
    ghost use Rattle.std.specs.FinMap.{entries, from_entries, get, len};
    ghost use Rattle.std.specs.Option.{option_copied};
    ghost use Rattle.std.specs.Ordering.{nat_cmp};
    ghost use Rattle.fs_local.specs.Connect.{add_entry, each, not_current};
    ghost use Rattle.fs_local.specs.Listen.{or_rule, place_refusal, with_target};
    ghost use Rattle.fs_local.specs.Raise.{all_current, with_snapshot};
    ghost use Rattle.fs_local.specs.State.{none_listened};
    ghost use Rattle.fs_local.specs.Told.{current_at, own, refused_targets, with_current};
    ghost use Rattle.fs_local.specs.Unlisten.{without_target};
    ghost use Rattle.fs_local.specs.declared.error.ClientError.TheVariants.{Memory};
    ghost use Rattle.fs_client.specs.Listed.{caused, without_all};

    /// No targets, of which there may be as many as the limit.
    pub(crate) fn new(alloc: Global, limit: u64) -> Targets
        ensures { result ≡ none_listened limit }
    {
        Targets {
            listened: BTreeMap::new(alloc),
            token: None,
            causes: BTreeMap::new(alloc),
            last: 0,
            limit,
        }
    }

    /// Whether a target of an id is listened to.
    pub(crate) fn has(&self, id: u32) -> bool
        ensures value { result ≡ is_some (get self.now.listened id) }
        ensures small { result ≡ true → id < 2 ^ 31 }
    {
        self.listened.contains_key(&id)
    }

    /// What is listened to by an id.
    pub(crate) fn get(&self, id: u32) -> Option<&Listened>
        ensures { option_copied result ≡ get self.now.listened id }
    {
        self.listened.get(&id)
    }

    fn len(&self) -> usize
        ensures { result ≡ len self.now.listened }
    {
        self.listened.len()
    }

    /// Whether nothing is listened to.
    pub(crate) fn is_empty(&self) -> bool
        ensures { result ≡ (len self.now.listened == 0) }
    {
        self.len() == 0
    }

    /// Why the server refused the target of an id.
    pub(crate) fn cause(&self, id: u32) -> Option<&Cause>
        ensures { option_copied result ≡ get self.now.causes id }
    {
        self.causes.get(&id)
    }

    // Why no target may have this id, or none more be listened to.
    fn place_refusal(&self, id: u32) -> Option<ClientError>
        ensures { result ≡ place_refusal id self.now }
    {
        if id <= self.last {
            return Some(ClientError::NotRising(id, self.last));
        }
        if self.limit <= self.len() as u64 {
            return Some(ClientError::TooMany(self.limit));
        }
        None
    }

    /// Whether the client may listen to a target; else why it doesn't.
    pub(crate) fn check(&self, alloc: Global, id: u32, target: &Target) -> Result<(), ClientError>
        ensures ok { IfOk result (λ _. or_rule target.now (place_refusal id self.now) ≡ None) }
        ensures place { IfSome (place_refusal id self.now) (λ e. result ≡ Err e) }
        ensures refused { IfSome (or_rule target.now (place_refusal id self.now)) (λ e. (result ≡ Err e) ⊎ (result ≡ Err (Memory alloc_error))) }
        ensures memory { or_rule target.now (place_refusal id self.now) ≡ None → IfErr result (λ e. e ≡ Memory alloc_error) }
    {
        if let Some(e) = self.place_refusal(id) {
            return Err(e);
        }
        match rule_of(alloc, target)? {
            Some(rule) => Err(ClientError::Rule(rule)),
            None => Ok(()),
        }
    }

    /// One target more.
    pub(crate) fn listen(&mut self, id: u32, target: Target) -> Result<(), AllocError>
        requires { id < 2 ^ 31 }
        ensures ok { OnOk result (self.new ≡ with_target id target self.old) }
        ensures err { OnErr result (self.new ≡ self.old) }
    {
        let listened = Listened {
            target,
            shown: false,
            current: false,
        };
        drop(self.listened.insert(id, listened)?);
        self.last = id;
        Ok(())
    }

    /// A target less. It takes no memory.
    pub(crate) fn unlisten(&mut self, id: u32)
        ensures { self.new ≡ without_target id self.old }
    {
        drop(self.listened.remove(&id));
    }

    /// Of some ids those that are listened to.
    pub(crate) fn own(&self, alloc: Global, ids: &Numbers) -> Result<Numbers, AllocError>
        ensures { IfOk result (λ own_ids. own_ids ≡ own self.now ids.now) }
    {
        let mut own = Numbers::new(alloc);
        for id in ids.as_slice() {
            if self.has(*id) {
                own.push(*id)?;
            }
        }
        Ok(own)
    }

    // One was told whole, if it is listened to.
    fn make_current(&mut self, id: u32)
        ensures { self.new ≡ current_at (get self.old.listened id) id self.old }
    {
        let Some(listened) = self.listened.get_mut(&id) else {
            return;
        };
        mark(&mut listened.current);
    }

    /// These were told whole. It takes no memory.
    pub(crate) fn set_current(&mut self, ids: &[u32])
        ensures { self.new ≡ with_current ids.now self.old }
    {
        for id in ids {
            self.make_current(*id);
        }
    }

    /// Whether all were told whole on the present link.
    pub(crate) fn all_current(&self) -> bool
        ensures { result ≡ all_current self.now }
    {
        for (_, listened) in &self.listened {
            if !listened.current {
                return false;
            }
        }
        true
    }

    /// There is no link any longer on which any was told whole. It takes no memory.
    pub(crate) fn cut(&mut self)
        ensures { self.new ≡ each not_current self.old }
    {
        self.listened.retain(|_, listened| {
            listened.current = false;
            true
        });
    }

    /// A snapshot has all of them, by this token. It takes no memory.
    pub(crate) fn show(&mut self, token: Bytes)
        ensures { self.new ≡ with_snapshot token self.old }
    {
        self.listened.retain(|_, listened| {
            listened.shown = true;
            true
        });
        self.token = Some(token);
    }

    // Adds a cause at each of some ids that is listened to.
    fn add_causes(
        &self,
        alloc: Global,
        ids: &[u32],
        cause: &Cause,
        causes: &mut BTreeMap<u32, Cause>,
    ) -> Result<(), AllocError>
        ensures { OnOk result ((q : ℕ) → get (from_entries {R = nat_cmp} causes.new.entries) q ≡ caused self.now.listened ids.now cause.now causes.old.entries q) }
    {
        for id in ids {
            if self.has(*id) {
                drop(causes.insert(*id, cause.copy(alloc)?)?);
            }
        }
        Ok(())
    }

    // None of these is listened to any longer. It takes no memory.
    fn drop_all(&mut self, ids: &[u32])
        ensures { self.new ≡ record self.old { listened = without_all ids.now self.old.listened } }
    {
        for id in ids {
            self.unlisten(*id);
        }
    }

    /// The server refused these.
    pub(crate) fn refuse(
        &mut self,
        alloc: Global,
        ids: &[u32],
        cause: &Cause,
    ) -> Result<(), AllocError>
        ensures ok { OnOk result (self.new ≡ refused_targets ids.now cause.now self.old) }
        ensures err { OnErr result (self.new ≡ self.old) }
    {
        let mut causes = copy_causes(alloc, &self.causes)?;
        self.add_causes(alloc, ids, cause, &mut causes)?;
        self.drop_all(ids);
        self.causes = causes;
        Ok(())
    }

    /// The requests that listen to all of them, in the order of their ids, behind others.
    pub(crate) fn push_requests(
        &self,
        alloc: Global,
        root: &Root,
        out: &mut Vec<Envelope>,
    ) -> Result<(), AllocError>
        ensures { OnOk result (out.new.items ≡ out.old.items ++ map (add_entry root.now self.now.token) (entries self.now.listened)) }
    {
        for (id, listened) in &self.listened {
            let token = token_for(&self.token, listened);
            out.push(add_request(alloc, root, *id, &listened.target, token)?)?;
        }
        Ok(())
    }
}
