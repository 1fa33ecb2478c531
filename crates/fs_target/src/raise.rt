//! What a raise says, and how the targets go on: first the views are made ready and what is told of them, and then they take the place of those
//! that were sent without memory.
ghost use Rattle.std.specs.Prelude.{◌≡◌, ◌++◌, ◌∷◌, [], IfOk, OnOk, map};
ghost use Rattle.std.specs.List.{AllByRecursion, cons_option, filter_map};
ghost use Rattle.fs_listen.specs.Cuts.{is_current};
ghost use Rattle.fs_listen.specs.Listening.{made_current};
ghost use Rattle.fs_listen.specs.Sent.{current_from, new_targets};
ghost use Rattle.fs_listen.specs.Told.{told};
ghost use Rattle.fs_token.specs.Token.{token_of};
ghost use Rattle.fs_query.specs.declared.listen.ListenMessage.TheVariants as message;
ghost use Rattle.fs_target.specs.Entries.{gone_to, kept_gone, messages_in, new_ids, views_in};
ghost use Rattle.fs_target.specs.Looks.{AreAt, all_views};
ghost use Rattle.fs_target.specs.Prepared.{IsNext};
ghost use Rattle.fs_target.specs.Seen.{listed_in, loaded_in, seen};

use crate::cuts::is_current;
use crate::entry::{Entry, Loaded};
use crate::told::{Look, told};
use fs_path::Bytes;
use fs_query::{ListenMessage, Numbers};
use fs_time::Micros;
use std::alloc::{AllocError, Global};

// ---- first

// Makes the view of a target at a time ready.
fn make_next(alloc: Global, entry: &mut Entry, time: Micros) -> Result<(), AllocError>
    ensures same { seen entry.new ≡ seen entry.old }
    ensures ok { OnOk result (IsNext time entry.new) }
{
    match &mut entry.loaded {
        Some(loaded) => loaded.kept.make_next(alloc, &entry.target, time),
        None => Ok(()),
    }
}

/// Makes the view of each target at a time ready.
pub(crate) fn make_all_next(
    alloc: Global,
    entries: &mut [Entry],
    time: Micros,
) -> Result<(), AllocError>
    ensures same { map seen entries.new ≡ map seen entries.old }
    ensures ok { OnOk result (AllByRecursion (IsNext time) entries.new) }
{
    for i in 0..entries.len() {
        make_next(alloc, &mut entries[i], time)?;
    }
    Ok(())
}

// ---- what is told

// Adds how a raise at a time looks at a target, if that is loaded.
fn push_look<'a>(
    alloc: Global,
    looks: &mut Vec<Look<'a>>,
    entry: &'a Entry,
    time: Micros,
) -> Result<(), AllocError>
    ensures views { OnOk result (all_views time looks.new.items ≡ all_views time looks.old.items ++ cons_option (views_in time entry.now) []) }
    ensures latest { OnOk result (AreAt time looks.old.items → AreAt time looks.new.items) }
{
    if let Some(loaded) = &entry.loaded {
        looks.push(Look {
            id: entry.id,
            kept: &loaded.kept,
            latest: loaded.kept.latest(alloc, time)?,
        })?;
    }
    Ok(())
}

// The targets that are loaded, as a raise at a time looks at them.
fn looks_of<'a>(
    alloc: Global,
    entries: &'a [Entry],
    time: Micros,
) -> Result<Vec<Look<'a>>, AllocError>
    ensures views { IfOk result (λ v. all_views time v.items ≡ filter_map (views_in time) entries.now) }
    ensures latest { IfOk result (λ v. AreAt time v.items) }
{
    let mut looks = Vec::new(alloc);
    for entry in entries {
        push_look(alloc, &mut looks, entry, time)?;
    }
    Ok(looks)
}

// The targets that a raise makes current.
fn new_targets(alloc: Global, entries: &[Entry]) -> Result<Numbers, AllocError>
    ensures { IfOk result (λ ids. ids ≡ new_ids (map listed_in (map seen entries.now))) }
{
    let mut ids = Numbers::new(alloc);
    for entry in entries {
        if !is_current(&entry.loaded) {
            ids.push(entry.id)?;
        }
    }
    Ok(ids)
}

// The token that resumes from a time.
fn token_of(alloc: Global, time: Micros) -> Result<Bytes, AllocError>
    ensures { IfOk result (λ b. b ≡ token_of time) }
{
    Bytes::from_slice(alloc, &fs_token::write(time))
}

// Says that targets are current, where there are any.
fn push_current(
    alloc: Global,
    messages: &mut Vec<ListenMessage>,
    targets: Numbers,
    time: Micros,
) -> Result<(), AllocError>
    ensures { OnOk result (messages.new.items ≡ messages.old.items ++ current_from time targets) }
{
    if targets.is_empty() {
        return Ok(());
    }
    let token = token_of(alloc, time)?;
    Ok(messages.push(ListenMessage::Current {
        targets,
        time,
        token,
    })?)
}

/// What a raise at a time says, for which the views were made ready.
pub(crate) fn messages_at(
    alloc: Global,
    entries: &[Entry],
    time: Micros,
) -> Result<Vec<ListenMessage>, AllocError>
    ensures { IfOk result (λ v. v.items ≡ messages_in time entries.now) }
{
    let looks = looks_of(alloc, entries, time)?;
    let mut messages = told(alloc, looks.as_slice(), time)?;
    push_current(alloc, &mut messages, new_targets(alloc, entries)?, time)?;
    let token = token_of(alloc, time)?;
    messages.push(ListenMessage::NoChange { time, token })?;
    Ok(messages)
}

/// What a raise at a time says that changes nothing.
pub(crate) fn no_change(alloc: Global, time: Micros) -> Result<Vec<ListenMessage>, AllocError>
    ensures { IfOk result (λ v. v.items ≡ message.NoChange time (token_of time) ∷ []) }
{
    let token = token_of(alloc, time)?;
    Ok(vec![in alloc; ListenMessage::NoChange { time, token }]?)
}

// ---- then

fn go_loaded(loaded: &mut Loaded, time: Micros)
    ensures loaded { loaded_in loaded.new ≡ made_current (loaded_in loaded.old) }
    ensures kept { loaded.new.kept.kept ≡ kept_gone time loaded.old.kept }
{
    loaded.kept.go_to(time);
    loaded.current = true;
}

// Goes to a time with the view that was made ready for it.
fn go(entry: &mut Entry, time: Micros)
    ensures { seen entry.new ≡ gone_to time entry.old }
{
    if let Some(loaded) = &mut entry.loaded {
        go_loaded(loaded, time);
    }
}

/// Each target goes to a time with the view that was made ready for it.
pub(crate) fn go_all(entries: &mut [Entry], time: Micros)
    ensures { map seen entries.new ≡ map (gone_to time) entries.old }
{
    for i in 0..entries.len() {
        go(&mut entries[i], time);
    }
}
