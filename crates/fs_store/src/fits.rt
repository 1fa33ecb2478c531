//! Whether a release fits a store.
ghost use Rattle.std.specs.Prelude.{◌≡◌, ◌↔◌, IsTrue};
ghost use Rattle.std.specs.FinMap.{find, is_sorted};
ghost use Rattle.std.specs.List.{All};
ghost use Rattle.std.specs.Option.{option_copied};
ghost use Rattle.fs_path.specs.NameOrder.{name_cmp};
ghost use Rattle.fs_write.specs.Batch.{changes_by_name};
ghost use Rattle.fs_versions.specs.Chain.{last_document};
ghost use Rattle.fs_versions.specs.Chains.{chain_of};
ghost use Rattle.fs_store.specs.Stored.{all_installed};
ghost use Rattle.fs_store.specs.Fits.{IsNext, AreAllNext, AreNext, TimesRise};
ghost use Rattle.fs_store.specs.Held.{NamesRise};

use crate::same::{bears, is_same};
use fs_path::DocName;
use fs_time::Micros;
use fs_value::Document;
use fs_versions::Versions;
use fs_write::{Change, TimedChange};

/// Whether the times of commits rise, all above a time, and the last is at most another.
pub(crate) fn times_rise(from: Micros, to: Micros, commits: &[TimedChange]) -> bool
    ensures { IsTrue result ↔ TimesRise from to commits.now }
{
    let mut last = from;
    for commit in commits {
        if commit.time <= last {
            return false;
        }
        last = commit.time;
    }
    last <= to
}

// The change of a name, sought among those whose names rise.
fn change_of<'a>(changes: &'a [Change], name: &DocName) -> Option<&'a Change>
    requires { IsTrue (is_sorted name_cmp (changes_by_name changes.now)) }
    ensures { option_copied result ≡ find name_cmp name.now (changes_by_name changes.now) }
{
    match changes.binary_search_by(|change| change.name.cmp(name)) {
        Ok(i) => Some(&changes[i]),
        Err(_) => None,
    }
}

// The newest document of a name after these commits, which are not in the versions.
fn newest<'a>(
    versions: &'a Versions,
    commits: &'a [TimedChange],
    name: &DocName,
) -> Option<&'a Document>
    requires { NamesRise commits.now }
    ensures { option_copied result ≡ last_document (chain_of (all_installed versions.now.chains commits.now) name.now) }
{
    let count = commits.len();
    for i in 0..count {
        let commit = &commits[count - 1 - i];
        if let Some(change) = change_of(commit.changes.as_slice(), name) {
            return change.after.as_ref();
        }
    }
    versions.latest(name)
}

// Whether a change is the next of its name after these commits.
fn is_next(versions: &Versions, commits: &[TimedChange], change: &Change) -> bool
    requires { NamesRise commits.now }
    ensures { IsTrue result ↔ IsNext (all_installed versions.now.chains commits.now) change.now }
{
    bears(&change.before, &change.name)
        && bears(&change.after, &change.name)
        && is_same(newest(versions, commits, &change.name), &change.before)
}

// Whether all of these changes are.
fn all_are_next(versions: &Versions, commits: &[TimedChange], changes: &[Change]) -> bool
    requires { NamesRise commits.now }
    ensures { IsTrue result ↔ All (IsNext (all_installed versions.now.chains commits.now)) changes.now }
{
    for change in changes {
        if !is_next(versions, commits, change) {
            return false;
        }
    }
    true
}

// Whether the names of changes rise.
fn names_rise(changes: &[Change]) -> bool
    ensures { IsTrue result ↔ IsTrue (is_sorted name_cmp (changes_by_name changes.now)) }
{
    for i in 1..changes.len() {
        let rises = changes[i - 1].name.cmp(&changes[i].name).is_lt();
        if !rises {
            return false;
        }
    }
    true
}

// Whether a commit's changes are the next after these commits.
fn is_next_commit(versions: &Versions, commits: &[TimedChange], commit: &TimedChange) -> bool
    requires { NamesRise commits.now }
    ensures { IsTrue result ↔ AreAllNext (all_installed versions.now.chains commits.now) commit.now.changes }
{
    let changes = commit.changes.as_slice();
    names_rise(changes) && all_are_next(versions, commits, changes)
}

/// Whether the changes of commits are the next of the versions, each on what those before it leave.
pub(crate) fn are_next(versions: &Versions, commits: &[TimedChange]) -> bool
    ensures { IsTrue result ↔ AreNext versions.now.chains commits.now }
{
    for (i, commit) in commits.iter().enumerate() {
        if !is_next_commit(versions, &commits[..i], commit) {
            return false;
        }
    }
    true
}
