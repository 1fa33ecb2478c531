//! Numbers of 64 bits, as 8 bytes.
ghost use Rattle.std.specs.Prelude.{◌≡◌, ◌↔◌, ◌<◌, ◌^◌, ℕ, Option, Some, IfOk, OnOk};
ghost use Rattle.std.specs.Int.{w64, to_be_bytes};
ghost use Rattle.fs_path.specs.Way.{place_of};
ghost use Rattle.serde_json.specs.Data.{put};
ghost use Rattle.serde_json.specs.View.{members_view, view as json};
ghost use Rattle.fs_json.specs.Answer.{Gives};
ghost use Rattle.fs_rpc.specs.Eight.{IsEightHeld, eight_at, eight_json, eight_text, number_of, optional_eight_at};

use base64::engine::general_purpose::STANDARD;
use fs_json::{Bad, member, read_bytes};
use fs_path::{Rule, Text, Way};
use serde_json::{Map, Value};
use std::alloc::{AllocError, Global};

/// A number of 64 bits. Bytes that aren't 8 are at fault, also none. (v1 reference, `transaction`, `streamToken`.)
pub(crate) fn read_eight(alloc: Global, v: &Value, way: &Way<'_>) -> Result<u64, Bad>
    ensures { Gives (λ n. n) result (eight_at (json v.now) (place_of way.now)) }
{
    let bytes = read_bytes(alloc, v, way)?;
    match number_of(bytes.as_slice()) {
        Some(n) => Ok(n),
        None => Err(Bad::at(alloc, Rule::G, way)),
    }
}

/// One that may be absent.
pub(crate) fn read_optional_eight(
    alloc: Global,
    v: &Value,
    name: &str,
    way: &Way<'_>,
) -> Result<Option<u64>, Bad>
    ensures { Gives {Y = Option ℕ} (λ n. n) result
        (optional_eight_at name.now (json v.now) (place_of way.now)) }
{
    match member(alloc, v, name, way)? {
        Some(n) => Ok(Some(read_eight(alloc, n, &way.member(name))?)),
        None => Ok(None),
    }
}

/// The number that bytes are, the highest first.
#[tactic(auto, unfolding(crate::specs::Eight::number_of))]
fn number_of(bytes: &[u8]) -> Option<u64>
    ensures value { result ≡ number_of bytes.now }
    ensures both_ways { (n : ℕ) → n < 2 ^ 64 → (result ≡ Some n) ↔ (bytes.now ≡ to_be_bytes w64 n) }
{
    match <[u8; 8]>::try_from(bytes) {
        Ok(eight) => Some(u64::from_be_bytes(eight)),
        Err(_) => None,
    }
}

/// The base64 of a number: `AAAAAAAAAAI=` of 2.
pub(crate) fn print_eight(alloc: Global, n: u64) -> Result<Text, AllocError>
    ensures text { IfOk result (λ t. t ≡ eight_text n) }

    // It is read back.
    ensures held { OnOk result (IsEightHeld n) }
{
    Ok(Text::of(STANDARD.encode(alloc, &n.to_be_bytes())?))
}

pub(crate) fn write_eight(alloc: Global, n: u64) -> Result<Value, AllocError>
    ensures value { IfOk result (λ v. json v ≡ eight_json n) }
    ensures held { OnOk result (IsEightHeld n) }
{
    Ok(Value::String(print_eight(alloc, n)?.into_string()))
}

/// Puts in a number under this name.
pub(crate) fn put_eight(
    alloc: Global,
    members: &mut Map<String, Value>,
    name: &str,
    n: u64,
) -> Result<(), AllocError>
    ensures value { OnOk result (members_view members.new.entries
        ≡ put name.now (eight_json n) (members_view members.old.entries)) }
    ensures held { OnOk result (IsEightHeld n) }
{
    serde_json::put(members, alloc, name, write_eight(alloc, n)?)
}
