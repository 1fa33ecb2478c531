//! Writes what a commit is answered.
ghost use Rattle.std.specs.Prelude.{◌≡◌, ◌++◌, map, OnOk};
ghost use Rattle.std.specs.List.{AllByRecursion};
ghost use Rattle.serde_json.specs.Data.{array};
ghost use Rattle.serde_json.specs.View.{items_of};
ghost use Rattle.fs_json.specs.Time.{IsTimeHeld};
ghost use Rattle.fs_time.specs.Rfc3339.{time_text};
ghost use Rattle.fs_writejson.specs.Results.{result_json, IsResultHeld};
ghost use Rattle.fs_valjson.specs.Tokens.{member_tokens, tokens_of};
ghost use Rattle.fs_rpc.specs.MessageJson.{commit_json, with_results};

use crate::names::{COMMIT_TIME, WRITE_RESULTS};
use fs_time::{Micros, print};
use fs_valjson::push_text;
use fs_write::WriteResult;
use fs_writejson::push_result;
use json::Writer;
use std::alloc::{AllocError, Global};

/// Writes what a commit is answered. Results that are none are left out. (v1 reference, `CommitResponse`.)
///
/// `{"commitTime":"2024-01-01T00:00:00Z","writeResults":[{"transformResults":[{"integerValue":"3"}],
/// "updateTime":"2024-01-01T00:00:00Z"}]}`
pub(crate) fn push_commit(
    alloc: Global,
    line: &mut Writer,
    time: Micros,
    results: &[WriteResult],
) -> Result<(), AllocError>
    ensures tokens { OnOk result (line.new.tokens ≡ line.old.tokens ++ tokens_of (commit_json time results.now)) }
    ensures before { line.new.before ≡ line.old.before }
    ensures dated { OnOk result (IsTimeHeld time) }
    ensures held { OnOk result (AllByRecursion IsResultHeld results.now) }
{
    let text = print(alloc, time)?;
    push_timed(alloc, line, time, &text, results)
}

// The same, with the text of the time.
fn push_timed(
    alloc: Global,
    line: &mut Writer,
    time: Micros,
    text: &str,
    results: &[WriteResult],
) -> Result<(), AllocError>
    requires { text.now ≡ time_text time }
    ensures tokens { OnOk result (line.new.tokens ≡ line.old.tokens ++ tokens_of (commit_json time results.now)) }
    ensures before { line.new.before ≡ line.old.before }
    ensures held { OnOk result (AllByRecursion IsResultHeld results.now) }
{
    line.begin_object()?;
    push_text(line, COMMIT_TIME, text)?;
    push_results(alloc, line, time, text, results)?;
    line.end_object()
}

/// Writes the results, which are left out where there are none, with the text of the time.
pub(crate) fn push_results(
    alloc: Global,
    line: &mut Writer,
    time: Micros,
    text: &str,
    results: &[WriteResult],
) -> Result<(), AllocError>
    requires { text.now ≡ time_text time }
    ensures tokens { OnOk result (line.new.tokens
        ≡ line.old.tokens ++ member_tokens (with_results (items_of (map result_json results.now)))) }
    ensures before { line.new.before ≡ line.old.before }
    ensures held { OnOk result (AllByRecursion IsResultHeld results.now) }
{
    if results.is_empty() {
        return Ok(());
    }
    line.key(WRITE_RESULTS)?;
    push_each(alloc, line, time, text, results)
}

fn push_each(
    alloc: Global,
    line: &mut Writer,
    time: Micros,
    text: &str,
    results: &[WriteResult],
) -> Result<(), AllocError>
    requires { text.now ≡ time_text time }
    ensures tokens { OnOk result (line.new.tokens
        ≡ line.old.tokens ++ tokens_of (array (items_of (map result_json results.now)))) }
    ensures before { line.new.before ≡ line.old.before }
    ensures held { OnOk result (AllByRecursion IsResultHeld results.now) }
{
    line.begin_array()?;
    for answer in results {
        push_result(alloc, line, answer, time, text)?;
    }
    line.end_array()
}
