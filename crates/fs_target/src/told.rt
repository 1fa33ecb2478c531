//! What a raise tells of the names.
ghost use Rattle.std.specs.Prelude.{◌≡◌, ◌++◌, ℤ, true, false, IfOk, OnOk, Some, option_copied};
ghost use Rattle.std.specs.BTreeSet.{contains};
ghost use Rattle.std.specs.Option.{option_to_list};
ghost use Rattle.fs_path.specs.NameOrder.{name_cmp};
ghost use Rattle.fs_path.specs.declared.name.DocName.{DocName};
ghost use Rattle.fs_listen.specs.Told.{gone_from, having, is_differing, leaving, same_there, shown_in, told, told_of};
ghost use Rattle.fs_target.specs.Looks.{AreAlike, AreAt, all_views, told_at};

use crate::kept::Kept;
use crate::latest::Latest;
use fs_path::DocName;
use fs_query::{ListenMessage, Numbers};
use fs_time::Micros;
use fs_value::{Document, document_same};
use std::alloc::{AllocError, Global};
use std::collections::BTreeSet;

/// A target as a raise looks at it: what is kept of it, and what its staged events come to at the time of the raise.
#[derive(Drop)]
pub(crate) struct Look<'a> {
    pub(crate) id: u32,
    pub(crate) kept: &'a Kept,
    pub(crate) latest: Latest<'a>,
}

impl<'a> Look<'a> {
    ghost use Rattle.std.specs.Prelude.{◌≡◌, ◌&&◌, ℤ, is_some, not, option_copied};
    ghost use Rattle.std.specs.FinMap.{get};
    ghost use Rattle.fs_listen.specs.Told.{same_there};
    ghost use Rattle.fs_target.specs.Looks.{IsAt, views_of};

    // The document of a name in the view that was sent.
    fn sent_at(&self, name: &DocName) -> Option<&'a Document>
        ensures { option_copied result ≡ get self.now.kept.now.kept.sent name.now }
    {
        self.kept.sent_at(name)
    }

    // Its document in the view that was made ready.
    fn new_at(&self, name: &DocName) -> Option<&'a Document>
        ensures { (time : ℤ) → IsAt time self.now → option_copied result ≡ get (views_of time self.now).new name.now }
    {
        self.kept.new_at(&self.latest, name)
    }

    // Whether the new view has it.
    fn has(&self, name: &DocName) -> bool
        ensures { (time : ℤ) → IsAt time self.now → result ≡ is_some (get (views_of time self.now).new name.now) }
    {
        self.new_at(name).is_some()
    }

    // Whether the sent view has it, and the new one lacks it.
    fn lost(&self, name: &DocName) -> bool
        ensures { (time : ℤ) → IsAt time self.now
            → result ≡ (is_some (get self.now.kept.now.kept.sent name.now) && not (is_some (get (views_of time self.now).new name.now))) }
    {
        self.sent_at(name).is_some() && !self.has(name)
    }

    // Whether the two views differ in it.
    fn differs(&self, name: &DocName) -> bool
        ensures { (time : ℤ) → IsAt time self.now
            → result ≡ not (same_there (get self.now.kept.now.kept.sent name.now) (get (views_of time self.now).new name.now)) }
    {
        !is_same(self.sent_at(name), self.new_at(name))
    }
}

// Whether what is there is the same.
fn is_same(a: Option<&Document>, b: Option<&Document>) -> bool
    ensures { result ≡ same_there (option_copied a.entry) (option_copied b.entry) }
{
    match (a, b) {
        (None, None) => true,
        (Some(a), Some(b)) => document_same(a, b),
        _ => false,
    }
}

// The targets whose new view has a name.
fn having(alloc: Global, looks: &[Look<'_>], name: &DocName) -> Result<Numbers, AllocError>
    ensures { (time : ℤ) → AreAt time looks.now → IfOk result (λ ids. ids ≡ having name.now (all_views time looks.now)) }
{
    let mut ids = Vec::new(alloc);
    for look in looks {
        if look.has(name) {
            ids.push(look.id)?;
        }
    }
    Ok(Numbers::of(ids))
}

// Those whose sent view has it, and whose new view lacks it.
fn leaving(alloc: Global, looks: &[Look<'_>], name: &DocName) -> Result<Numbers, AllocError>
    ensures { (time : ℤ) → AreAt time looks.now → IfOk result (λ ids. ids ≡ leaving name.now (all_views time looks.now)) }
{
    let mut ids = Vec::new(alloc);
    for look in looks {
        if look.lost(name) {
            ids.push(look.id)?;
        }
    }
    Ok(Numbers::of(ids))
}

// Whether the two views of one of them differ in it.
fn is_differing(looks: &[Look<'_>], name: &DocName) -> bool
    ensures { (time : ℤ) → AreAt time looks.now → result ≡ is_differing name.now (all_views time looks.now) }
{
    for look in looks {
        if look.differs(name) {
            return true;
        }
    }
    false
}

// Its document in the new views, where one has it.
fn shown_in<'a>(looks: &[Look<'a>], name: &DocName) -> Option<&'a Document>
    ensures { (time : ℤ) → AreAt time looks.now → option_copied result ≡ shown_in name.now (all_views time looks.now) }
{
    for look in looks {
        if let Some(document) = look.new_at(name) {
            return Some(document);
        }
    }
    None
}

// The message that tells of a document that is shown.
fn changed(
    alloc: Global,
    looks: &[Look<'_>],
    name: &DocName,
    document: &Document,
) -> Result<Option<ListenMessage>, AllocError>
    ensures { (time : ℤ) → AreAt time looks.now
        → IfOk result (λ m. option_to_list m ≡ told_of true time name.now (Some document.now) (all_views time looks.now)) }
{
    if !is_differing(looks, name) {
        return Ok(None);
    }
    Ok(Some(ListenMessage::Changed {
        document: document.copy(alloc)?,
        targets: having(alloc, looks, name)?,
        left: leaving(alloc, looks, name)?,
    }))
}

// The message that tells that views have a name no longer.
fn removed(
    alloc: Global,
    name: &DocName,
    time: Micros,
    left: Numbers,
) -> Result<Option<ListenMessage>, AllocError>
    ensures { IfOk result (λ m. option_to_list m ≡ gone_from true time name.now left) }
{
    if left.is_empty() {
        return Ok(None);
    }
    Ok(Some(ListenMessage::Removed {
        name: name.copy(alloc)?,
        time,
        left,
    }))
}

// What is told of a name, if there is something.
fn told_of(
    alloc: Global,
    looks: &[Look<'_>],
    name: &DocName,
    time: Micros,
) -> Result<Option<ListenMessage>, AllocError>
    requires { AreAt time looks.now }
    ensures { IfOk result (λ m. option_to_list m ≡ told_at time (all_views time looks.now) name.now) }
{
    match shown_in(looks, name) {
        Some(document) => changed(alloc, looks, name, document),
        None => removed(alloc, name, time, leaving(alloc, looks, name)?),
    }
}

// The names at which the two views of a target may differ.
fn names_of(alloc: Global, looks: &[Look<'_>]) -> Result<BTreeSet<DocName>, AllocError>
    ensures { (time : ℤ) → AreAt time looks.now → IfOk result (λ names. (name : DocName) → contains name_cmp names name ≡ false → AreAlike name (all_views time looks.now)) }
{
    let mut names = BTreeSet::new(alloc);
    for look in looks {
        look.kept.add_names(alloc, &look.latest, &mut names)?;
    }
    Ok(names)
}

// Adds a message, if there is one.
fn push(messages: &mut Vec<ListenMessage>, message: Option<ListenMessage>) -> Result<(), AllocError>
    ensures { OnOk result (messages.new.items ≡ messages.old.items ++ option_to_list message) }
{
    if let Some(message) = message {
        messages.push(message)?;
    }
    Ok(())
}

/// What is told of the names at a time, by what was made ready for it.
pub(crate) fn told(
    alloc: Global,
    looks: &[Look<'_>],
    time: Micros,
) -> Result<Vec<ListenMessage>, AllocError>
    requires latest { AreAt time looks.now }
    ensures { IfOk result (λ v. v.items ≡ told (λ _. true) time (all_views time looks.now)) }
{
    let names = names_of(alloc, looks)?;
    let mut messages = Vec::new(alloc);
    for name in &names {
        push(&mut messages, told_of(alloc, looks, name, time)?)?;
    }
    Ok(messages)
}
