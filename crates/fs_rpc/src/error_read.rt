//! Reads the error of a refusal.
ghost use Rattle.std.specs.Prelude.{◌≡◌, ◌↔◌, ℕ, List, Some};
ghost use Rattle.fs_path.specs.Way.{place_of};
ghost use Rattle.serde_json.specs.View.{view as json};
ghost use Rattle.fs_json.specs.Answer.{Gives};
ghost use Rattle.fs_status.specs.Status.{status_text};
ghost use Rattle.fs_status.specs.declared.code.Code.{Code};
ghost use Rattle.fs_rpc.specs.ReadError.{code_named, if_numbered, refusal_at, required_integer_at};

use crate::names::{CODE, ERROR_MEMBERS, MESSAGE, STATUS};
use fs_json::{Bad, only, read_required_text, required};
use fs_path::{Rule, Text, Way};
use fs_status::Code;
use serde_json::Value;
use std::alloc::Global;

/// Reads an error, whose code has to be the number of its status in HTTP.
/// (docs/DECISIONS.md, "An error's code in JSON has to be that of its status".)
#[tactic(auto, unfolding(crate::specs::ReadError::refusal_at))]
pub(crate) fn read_refusal(alloc: Global, v: &Value, way: &Way<'_>) -> Result<(Code, Text), Bad>
    ensures { Gives {Y = Code × List ℕ} (λ told. told) result (refusal_at (json v.now) (place_of way.now)) }
{
    only(alloc, v, &ERROR_MEMBERS, way)?;
    let number = read_required_integer(alloc, v, CODE, way)?;
    let message = read_required_text(alloc, v, MESSAGE, way)?;
    let status = read_required_text(alloc, v, STATUS, way)?;
    let Some(named) = code_named(status.as_str()) else {
        return Err(Bad::at(alloc, Rule::G, &way.member(STATUS)));
    };
    let Some(code) = if_numbered(number, named) else {
        return Err(Bad::at(alloc, Rule::G, &way.member(CODE)));
    };
    Ok((code, message))
}

fn read_required_integer(alloc: Global, v: &Value, name: &str, way: &Way<'_>) -> Result<i64, Bad>
    ensures { Gives (λ n. n) result (required_integer_at name.now (json v.now) (place_of way.now)) }
{
    match required(alloc, v, name, way)?.as_i64() {
        Some(number) => Ok(number),
        None => Err(Bad::at(alloc, Rule::G, &way.member(name))),
    }
}

/// The codes that refusals have.
const CODES: [Code; 8] = [
    Code::InvalidArgument,
    Code::FailedPrecondition,
    Code::NotFound,
    Code::AlreadyExists,
    Code::Aborted,
    Code::ResourceExhausted,
    Code::Unimplemented,
    Code::OutOfMemory,
];

/// The code whose status this text is.
fn code_named(status: &str) -> Option<Code>
    ensures value { result ≡ code_named status.now }
    ensures both_ways { (code : Code) → (result ≡ Some code) ↔ (status_text code ≡ status.now) }
{
    find_code(status)
}

fn find_code(status: &str) -> Option<Code>
    ensures { result ≡ code_named status.now }
{
    CODES.iter().copied().find(|code| code.status() == status)
}

/// The code, if this is its number in HTTP.
fn if_numbered(number: i64, code: Code) -> Option<Code>
    ensures { result ≡ if_numbered number code }
{
    if number == i64::from(code.http()) {
        Some(code)
    } else {
        None
    }
}
