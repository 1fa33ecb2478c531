//! Strings, integers, bytes and objects of one member, as answers have them.
ghost use Rattle.std.specs.Prelude.{◌≡◌, Some, IfOk};
ghost use Rattle.serde_json.specs.Data.{string};
ghost use Rattle.serde_json.specs.Find.{as_str};
ghost use Rattle.serde_json.specs.View.{view as json};
ghost use Rattle.fs_json.specs.Base64.{bytes_json, bytes_of};
ghost use Rattle.fs_json.specs.Integer.{integer_json, integer_of, small_json, small_of};
ghost use Rattle.fs_json.specs.Members.{with_one};

use base64::engine::general_purpose::STANDARD;
use fs_path::{Bytes, Text};
use serde_json::{Map, Value};
use std::alloc::{AllocError, Global};

/// A text as a string.
pub fn write_text(alloc: Global, t: &Text) -> Result<Value, AllocError>
    ensures value { IfOk result (λ v. json v ≡ string t.now) }
    ensures reads_back { IfOk result (λ v. as_str (json v) ≡ Some t.now) }
{
    Value::try_from_str(alloc, t.as_str())
}

/// A 64-bit integer as a string of its digits.
pub fn write_integer(alloc: Global, n: i64) -> Result<Value, AllocError>
    ensures value { IfOk result (λ v. json v ≡ integer_json n) }
    ensures reads_back { IfOk result (λ v. integer_of (json v) ≡ Some n) }
{
    Ok(Value::String(n.to_string(alloc)?))
}

/// A 32-bit integer as a number.
pub fn write_small(n: i32) -> Value
    ensures value { json result ≡ small_json n }
    ensures reads_back { small_of (json result) ≡ Some n }
{
    Value::from(n)
}

/// Bytes as base64 in the standard alphabet, with padding.
pub fn write_bytes(alloc: Global, b: &Bytes) -> Result<Value, AllocError>
    ensures value { IfOk result (λ v. json v ≡ bytes_json b.now) }
    ensures reads_back { IfOk result (λ v. bytes_of (json v) ≡ Some b.now) }
{
    Ok(Value::String(STANDARD.encode(alloc, b.as_slice())?))
}

/// An object of one member.
pub fn with_one(alloc: Global, name: &str, content: Value) -> Result<Value, AllocError>
    ensures { IfOk result (λ j. json j ≡ with_one name.now (json content)) }
{
    let mut members = Map::new(alloc);
    serde_json::put(&mut members, alloc, name, content)?;
    Ok(Value::Object(members))
}
