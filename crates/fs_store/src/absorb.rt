//! How room is made for the commits of a release, and how they come into the versions.
ghost use Rattle.std.specs.Prelude.{◌≡◌, List, OnOk, IfSome};
ghost use Rattle.fs_history.specs.declared.batch.Batch.{Batch};
ghost use Rattle.fs_versions.specs.Shows.{Shows};
ghost use Rattle.fs_history.specs.Brings.{Brings};
ghost use Rattle.fs_store.specs.Held.{CanInstall};
ghost use Rattle.fs_store.specs.Logs.{AllBy, HavePlaces, with_all_noted};
ghost use Rattle.fs_store.specs.Noted.{all_noted};
ghost use Rattle.fs_store.specs.Room.{HasRoomFor, change_count};
ghost use Rattle.fs_store.specs.Stored.{all_installed};

use crate::logs::Logs;
use fs_versions::Versions;
use fs_write::{TimedChange, TimedChanges};
use std::alloc::{AllocError, Global};

/// Makes room at each name that commits change, for as many versions as there are commits.
pub(crate) fn make_room(
    alloc: Global,
    versions: &mut Versions,
    commits: &[TimedChange],
) -> Result<(), AllocError>
    ensures same { versions.new.chains ≡ versions.old.chains }
    ensures ok { OnOk result (HasRoomFor versions.new.room commits.now) }
{
    for commit in commits {
        versions.make_room(alloc, &commit.changes, commits.len())?;
    }
    Ok(())
}

/// Installs commits one after another and notes their changes, where there is room for both.
pub(crate) fn install_all(versions: &mut Versions, logs: &mut Logs, commits: TimedChanges)
    requires can { CanInstall versions.old.chains commits }
    requires room { HasRoomFor versions.old.room commits }
    requires ends { AllBy logs.old.logs versions.old.chains.last }
    requires places { HavePlaces logs.old.shards logs.old.rooms (change_count commits) }
    ensures value { versions.new.chains ≡ all_installed versions.old.chains commits }
    ensures shards { logs.new.shards ≡ logs.old.shards }
    ensures noted { logs.new.logs ≡ with_all_noted logs.old.shards logs.old.logs (all_noted commits) }
    ensures ends { AllBy logs.new.logs versions.new.chains.last }
    ensures shows { (h : List Batch) (k : List Batch) → Shows h versions.old.chains → Brings h commits k
        → Shows k versions.new.chains }
{
    for commit in commits.into_vec() {
        let spent = versions.install(commit.changes, commit.time);
        logs.note_all(commit.time, commit.id, spent);
    }
}

/// How many changes commits have, or `None` where it is more than a number.
pub(crate) fn count_changes(commits: &[TimedChange]) -> Option<usize>
    ensures { IfSome result (λ n. n ≡ change_count commits.now) }
{
    let mut count = 0_usize;
    for commit in commits {
        count = count.checked_add(commit.changes.len())?;
    }
    Some(count)
}
