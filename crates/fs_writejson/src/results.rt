//! The results of writes, read and written.
ghost use Rattle.std.specs.Prelude.{◌≡◌, ◌++◌, IfOk, IfSome, OnOk};
ghost use Rattle.fs_path.specs.Way.{place_of};
ghost use Rattle.fs_time.specs.Rfc3339.{time_text};
ghost use Rattle.serde_json.specs.Data.{no_members};
ghost use Rattle.serde_json.specs.View.{view as json};
ghost use Rattle.fs_json.specs.Answer.{Gives};
ghost use Rattle.fs_json.specs.Time.{IsTimeHeld};
ghost use Rattle.fs_valjson.specs.Tokens.{member_tokens, tokens_of};
ghost use Rattle.fs_valjson.specs.Valid.{IsListHeld};
ghost use Rattle.fs_writejson.specs.Results.{result_json, transform_results_in, updated_member, with_results, write_result_at, IsResultHeld};
ghost use Rattle.fs_writejson.specs.Valid.{ResultHasNames};

use crate::names::{RESULT_MEMBERS, TRANSFORM_RESULTS, UPDATE_TIME};
use fs_json::{Bad, member, only, read_optional_time};
use fs_path::Way;
use fs_time::Micros;
use fs_valjson::{push_list, push_time, read_list};
use fs_value::Values;
use fs_write::WriteResult;
use json::Writer;
use serde_json::Value;
use std::alloc::{AllocError, Global};

/// Reads the result of a write. It may have neither a time, as a delete's hasn't, nor results of transforms. (v1 reference,
/// "WriteResult".)
pub fn read_result(alloc: Global, v: &Value, way: &Way<'_>) -> Result<WriteResult, Bad>
    ensures gives { Gives (λ r. r) result (write_result_at (json v.now) (place_of way.now)) }

    // Its references are names of documents.
    ensures valid { IfOk result (λ r. ResultHasNames r) }
{
    read_members(alloc, v, way)
}

#[tactic(auto, unfolding(crate::specs::Results::write_result_at))]
fn read_members(alloc: Global, v: &Value, way: &Way<'_>) -> Result<WriteResult, Bad>
    ensures { Gives (λ r. r) result (write_result_at (json v.now) (place_of way.now)) }
{
    only(alloc, v, &RESULT_MEMBERS, way)?;
    let updated = read_optional_time(alloc, v, UPDATE_TIME, way)?;
    let transforms = read_transform_results(alloc, v, way)?;
    Ok(WriteResult {
        updated,
        transforms,
    })
}

fn read_transform_results(alloc: Global, v: &Value, way: &Way<'_>) -> Result<Values, Bad>
    ensures { Gives (λ vs. vs) result (transform_results_in (json v.now) (place_of way.now)) }
{
    match member(alloc, v, TRANSFORM_RESULTS, way)? {
        Some(values) => read_list(alloc, values, &way.member(TRANSFORM_RESULTS)),
        None => Ok(Values::new(alloc)),
    }
}

/// Writes the result of a write. What it hasn't is left out: the time of a delete, and transforms where there were none. Its time
/// is most often one whose text is known. (v1 reference, "WriteResult".)
pub fn push_result(
    alloc: Global,
    line: &mut Writer,
    answer: &WriteResult,
    known: Micros,
    text: &str,
) -> Result<(), AllocError>
    requires { text.now ≡ time_text known }
    ensures tokens { OnOk result (line.new.tokens ≡ line.old.tokens ++ tokens_of (result_json answer.now)) }
    ensures before { line.new.before ≡ line.old.before }

    // What is written is read back as the same result.
    ensures held { OnOk result (IsResultHeld answer.now) }
{
    line.begin_object()?;
    push_transforms(alloc, line, &answer.transforms)?;
    push_updated(alloc, line, answer.updated, known, text)?;
    line.end_object()
}

// The results of transforms, where there were any.
fn push_transforms(alloc: Global, line: &mut Writer, values: &Values) -> Result<(), AllocError>
    ensures tokens { OnOk result (line.new.tokens ≡ line.old.tokens ++ member_tokens (with_results values.now no_members)) }
    ensures before { line.new.before ≡ line.old.before }
    ensures held { OnOk result (IsListHeld values.now) }
{
    if values.is_empty() {
        return Ok(());
    }
    line.key(TRANSFORM_RESULTS)?;
    push_list(alloc, line, values)
}

fn push_updated(
    alloc: Global,
    line: &mut Writer,
    updated: Option<Micros>,
    known: Micros,
    text: &str,
) -> Result<(), AllocError>
    requires { text.now ≡ time_text known }
    ensures tokens { OnOk result (line.new.tokens ≡ line.old.tokens ++ member_tokens (updated_member updated)) }
    ensures before { line.new.before ≡ line.old.before }
    ensures held { OnOk result (IfSome updated IsTimeHeld) }
{
    match updated {
        Some(at) => push_time(alloc, line, UPDATE_TIME, at, known, text),
        None => Ok(()),
    }
}
