//! When documents are read.
ghost use Rattle.std.specs.Prelude.{◌≡◌, OnOk, codes};
ghost use Rattle.fs_path.specs.Way.{place_of};
ghost use Rattle.serde_json.specs.Data.{put};
ghost use Rattle.serde_json.specs.View.{members_view, view as json};
ghost use Rattle.fs_json.specs.Answer.{Gives};
ghost use Rattle.fs_json.specs.Time.{IsTimeHeld, time_json};
ghost use Rattle.fs_rpc.specs.RequestSteps.{IsWhenHeld, with_when_put};
ghost use Rattle.fs_rpc.specs.When.{when_at, when_by};

use crate::names::{READ_TIME, TRANSACTION, WHEN_MEMBERS};
use crate::transaction::{put_transaction, read_transaction};
use fs_json::{Bad, at_most_one_of, read_time, write_time};
use fs_path::Way;
use fs_request::When;
use fs_time::Micros;
use serde_json::{Map, Value};
use std::alloc::{AllocError, Global};

#[tactic(auto, unfolding(crate::specs::When::when_at))]
pub(crate) fn read_when(alloc: Global, v: &Value, way: &Way<'_>) -> Result<When, Bad>
    ensures { Gives (λ w. w) result (when_at (json v.now) (place_of way.now)) }
{
    match at_most_one_of(alloc, v, &WHEN_MEMBERS, way)? {
        Some((name, content)) => read_by(alloc, name, content, way),
        None => Ok(When::Released),
    }
}

// What a member tells by its name.
fn read_by(alloc: Global, name: &str, v: &Value, way: &Way<'_>) -> Result<When, Bad>
    ensures { Gives (λ w. w) result (when_by name.now (json v.now) (place_of way.now)) }
{
    match name {
        TRANSACTION => Ok(When::In(read_transaction(alloc, v, &way.member(TRANSACTION))?)),
        _ => Ok(When::At(read_time(alloc, v, &way.member(READ_TIME))?)),
    }
}

/// Puts in when documents are read, unless it is as they are now.
pub(crate) fn put_when(
    alloc: Global,
    members: &mut Map<String, Value>,
    when: When,
) -> Result<(), AllocError>
    ensures value { OnOk result (members_view members.new.entries
        ≡ with_when_put when (members_view members.old.entries)) }
    ensures held { OnOk result (IsWhenHeld when) }
{
    match when {
        When::Released => Ok(()),
        When::At(time) => put_read_time(alloc, members, time),
        When::In(id) => put_transaction(alloc, members, Some(id)),
    }
}

pub(crate) fn put_read_time(
    alloc: Global,
    members: &mut Map<String, Value>,
    time: Micros,
) -> Result<(), AllocError>
    ensures value { OnOk result (members_view members.new.entries
        ≡ put (codes "readTime") (time_json time) (members_view members.old.entries)) }
    ensures held { OnOk result (IsTimeHeld time) }
{
    serde_json::put(members, alloc, READ_TIME, write_time(alloc, time)?)
}
