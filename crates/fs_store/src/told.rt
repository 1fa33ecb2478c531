//! The commits that are told of what was noted.
ghost use Rattle.std.specs.Prelude.{◌≡◌, ◌-ℤ◌, ◌<ℤ◌, ◌≤ℤ◌, ◌∷◌, ◌++◌, [], IfOk, OnOk, List, pos};
ghost use Rattle.std.specs.List.{All};
ghost use Rattle.std.specs.Option.{option_copied};
ghost use Rattle.fs_write.specs.declared.change.Change.{Change};
ghost use Rattle.fs_store.specs.Told.{change_told, told, with_change};

use crate::noted::Noted;
use fs_time::Micros;
use fs_value::Document;
use fs_versions::Versions;
use fs_write::{Change, Changes, TimedChange, TimedChanges};
use std::alloc::{AllocError, Global};

// The moment just before one that is behind another.
fn just_before(floor: Micros, time: Micros) -> Micros
    requires { floor <ℤ time }
    ensures value { result ≡ time -ℤ pos 1 }
    ensures from { floor ≤ℤ result }
{
    let _ = floor.get();
    Micros::new(time.get() - 1).unwrap()
}

fn copied(alloc: Global, document: Option<&Document>) -> Result<Option<Document>, AllocError>
    ensures { IfOk result (λ d. d ≡ option_copied document.entry) }
{
    match document {
        Some(there) => Ok(Some(there.copy(alloc)?)),
        None => Ok(None),
    }
}

// What a commit made of a document: what shows just before its time, and what shows then.
fn change_of(alloc: Global, versions: &Versions, noted: &Noted) -> Result<Change, AllocError>
    requires { versions.now.chains.floor <ℤ noted.now.time }
    ensures { IfOk result (λ c. c ≡ change_told versions.now.chains noted.now) }
{
    let earlier = just_before(versions.floor(), noted.time);
    Ok(Change {
        name: noted.name.copy(alloc)?,
        before: copied(alloc, versions.at(&noted.name, earlier))?,
        after: copied(alloc, versions.at(&noted.name, noted.time))?,
    })
}

// The commit that a change belongs to: the last one, which is taken out, or a new one.
fn opened(
    alloc: Global,
    commits: &mut Vec<TimedChange>,
    noted: &Noted,
) -> Result<TimedChange, AllocError>
    ensures { IfOk result (λ c. (change : Change) → commits.new.items ++ record c { changes = c.changes ++ change ∷ [] } ∷ []
        ≡ with_change commits.old.items noted.now change) }
{
    if let Some(last) = commits.pop() {
        if last.time == noted.time {
            return Ok(last);
        }
        commits.push(last)?;
    }
    Ok(TimedChange {
        time: noted.time,
        id: noted.id,
        changes: Changes::new(alloc),
    })
}

// Puts a change behind those of its commit.
fn put(
    alloc: Global,
    commits: &mut Vec<TimedChange>,
    noted: &Noted,
    change: Change,
) -> Result<(), AllocError>
    ensures { OnOk result (commits.new.items ≡ with_change commits.old.items noted.now change) }
{
    let mut commit = opened(alloc, commits, noted)?;
    commit.changes.push(change)?;
    Ok(commits.push(commit)?)
}

/// The commits that were noted, each with its changes. Their documents share their fields with those of the versions.
pub(crate) fn commits_told(
    alloc: Global,
    versions: &Versions,
    noted: &[Noted],
) -> Result<TimedChanges, AllocError>
    requires { All (λ n. versions.now.chains.floor <ℤ n.time) noted.now }
    ensures { IfOk result (λ cs. cs ≡ told versions.now.chains noted.now) }
{
    let mut commits = Vec::new(alloc);
    for entry in noted {
        let change = change_of(alloc, versions, entry)?;
        put(alloc, &mut commits, entry, change)?;
    }
    Ok(TimedChanges::of(commits))
}
