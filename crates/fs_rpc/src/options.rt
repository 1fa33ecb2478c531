//! The options of transactions.
ghost use Rattle.std.specs.Prelude.{◌≡◌, IfOk, IfSome, OnOk};
ghost use Rattle.fs_path.specs.Way.{place_of};
ghost use Rattle.serde_json.specs.Data.{no_members, object};
ghost use Rattle.serde_json.specs.View.{view as json};
ghost use Rattle.fs_json.specs.Answer.{Gives};
ghost use Rattle.fs_json.specs.Time.{IsTimeHeld};
ghost use Rattle.fs_rpc.specs.Options.{mode_at, options_at, options_in, options_json, read_only_at, read_write_at};
ghost use Rattle.fs_rpc.specs.RequestSteps.{AreOptionsHeld};
ghost use Rattle.fs_rpc.specs.When.{with_read_time};

use crate::names::{
    OPTIONS, OPTIONS_MEMBERS, READ_ONLY, READ_ONLY_MEMBERS, READ_TIME, READ_WRITE,
    READ_WRITE_MEMBERS, RETRY_TRANSACTION,
};
use crate::transaction::read_optional_transaction;
use crate::when::put_read_time;
use fs_json::{Bad, at_most_one_of, member, only, read_optional_time, with_one};
use fs_path::Way;
use fs_request::TransactionOptions;
use fs_time::Micros;
use serde_json::{Map, Value};
use std::alloc::{AllocError, Global};

/// The options of a begin, which may be absent.
pub(crate) fn read_options_of(
    alloc: Global,
    v: &Value,
    way: &Way<'_>,
) -> Result<TransactionOptions, Bad>
    ensures { Gives (λ o. o) result (options_in (json v.now) (place_of way.now)) }
{
    match member(alloc, v, OPTIONS, way)? {
        Some(options) => read_options(alloc, options, &way.member(OPTIONS)),
        None => Ok(TransactionOptions::ReadWrite),
    }
}

// Where nothing tells otherwise, the transaction reads and writes.
#[tactic(auto, unfolding(crate::specs::Options::options_at))]
fn read_options(alloc: Global, v: &Value, way: &Way<'_>) -> Result<TransactionOptions, Bad>
    ensures { Gives (λ o. o) result (options_at (json v.now) (place_of way.now)) }
{
    only(alloc, v, &OPTIONS_MEMBERS, way)?;
    match at_most_one_of(alloc, v, &OPTIONS_MEMBERS, way)? {
        Some((name, content)) => read_mode(alloc, name, content, way),
        None => Ok(TransactionOptions::ReadWrite),
    }
}

fn read_mode(alloc: Global, name: &str, v: &Value, way: &Way<'_>) -> Result<TransactionOptions, Bad>
    ensures { Gives (λ o. o) result (mode_at name.now (json v.now) (place_of way.now)) }
{
    match name {
        READ_ONLY => read_read_only(alloc, v, &way.member(READ_ONLY)),
        _ => read_read_write(alloc, v, &way.member(READ_WRITE)),
    }
}

#[tactic(auto, unfolding(crate::specs::Options::read_only_at))]
fn read_read_only(alloc: Global, v: &Value, way: &Way<'_>) -> Result<TransactionOptions, Bad>
    ensures { Gives (λ o. o) result (read_only_at (json v.now) (place_of way.now)) }
{
    only(alloc, v, &READ_ONLY_MEMBERS, way)?;
    let read_time = read_optional_time(alloc, v, READ_TIME, way)?;
    Ok(TransactionOptions::ReadOnly { read_time })
}

#[tactic(auto, unfolding(crate::specs::Options::read_write_at))]
fn read_read_write(alloc: Global, v: &Value, way: &Way<'_>) -> Result<TransactionOptions, Bad>
    ensures { Gives (λ o. o) result (read_write_at (json v.now) (place_of way.now)) }
{
    only(alloc, v, &READ_WRITE_MEMBERS, way)?;
    read_optional_transaction(alloc, v, RETRY_TRANSACTION, way)?;
    Ok(TransactionOptions::ReadWrite)
}

/// Writes options: `{"readOnly":{}}`, say.
pub(crate) fn write_options(alloc: Global, options: TransactionOptions) -> Result<Value, AllocError>
    ensures value { IfOk result (λ v. json v ≡ options_json options) }
    ensures held { OnOk result (AreOptionsHeld options) }
{
    match options {
        TransactionOptions::ReadWrite => {
            with_one(alloc, READ_WRITE, Value::Object(Map::new(alloc)))
        }
        TransactionOptions::ReadOnly { read_time } => {
            with_one(alloc, READ_ONLY, write_read_only(alloc, read_time)?)
        }
    }
}

fn write_read_only(alloc: Global, read_time: Option<Micros>) -> Result<Value, AllocError>
    ensures value { IfOk result (λ v. json v ≡ object (with_read_time read_time no_members)) }
    ensures held { OnOk result (IfSome read_time IsTimeHeld) }
{
    let mut members = Map::new(alloc);
    if let Some(time) = read_time {
        put_read_time(alloc, &mut members, time)?;
    }
    Ok(Value::Object(members))
}
