//! Numbers of 64 bits, as texts of decimal digits.
ghost use Rattle.std.specs.Prelude.{◌≡◌, IfOk, OnOk};
ghost use Rattle.fs_path.specs.Way.{place_of};
ghost use Rattle.serde_json.specs.View.{view as json};
ghost use Rattle.fs_json.specs.Answer.{Gives};
ghost use Rattle.fs_rpc.specs.Decimal.{IsDecimalHeld, decimal_at, decimal_json, number_in_text};

use fs_json::Bad;
use fs_path::{Rule, Way};
use serde_json::Value;
use std::alloc::{AllocError, Global};

/// A number of 64 bits, in a text of 1 to 20 decimal digits: 12 in `"12"` and in `"0012"`. (v1 reference, `stream_id`.)
pub fn read_decimal(alloc: Global, v: &Value, way: &Way<'_>) -> Result<u64, Bad>
    ensures { Gives (λ n. n) result (decimal_at (json v.now) (place_of way.now)) }
{
    match v.as_str().and_then(number_in_text) {
        Some(n) => Ok(n),
        None => Err(Bad::at(alloc, Rule::G, way)),
    }
}

// The most digits that a number may have: those of the largest one.
const MAX_DIGITS: usize = 20;

// Only digits: `parse` would take a `+` too.
fn number_in_text(text: &str) -> Option<u64>
    ensures { result ≡ number_in_text text.now }
{
    if text.len() > MAX_DIGITS || text.starts_with('+') {
        return None;
    }
    text.parse::<u64>().ok()
}

pub(crate) fn write_decimal(alloc: Global, n: u64) -> Result<Value, AllocError>
    ensures value { IfOk result (λ v. json v ≡ decimal_json n) }
    ensures held { OnOk result (IsDecimalHeld n) }
{
    Ok(Value::String(n.to_string(alloc)?))
}
