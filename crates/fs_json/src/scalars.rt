//! Strings, truth values, lists and integers.
ghost use Rattle.std.specs.Prelude.{◌≡◌};
ghost use Rattle.fs_path.specs.declared.place.Rule.TheVariants.{G};
ghost use Rattle.fs_path.specs.Way.{place_of};
ghost use Rattle.serde_json.specs.Find.{as_array};
ghost use Rattle.serde_json.specs.View.{items_view, view as json};
ghost use Rattle.fs_json.specs.Answer.{Gives, or_fault};
ghost use Rattle.std.specs.Str.{all_ascii_digits};
ghost use Rattle.fs_json.specs.Integer.{integer_in_text, integer_of, is_numeral};
ghost use Rattle.fs_json.specs.Members.{required_as};
ghost use Rattle.fs_json.specs.Scalars.{integer_at, small_at, text_at, truth_at};

use crate::bad::Bad;
use crate::members::required;
use fs_path::{Rule, Text, Way};
use serde_json::Value;
use std::alloc::Global;

/// A string.
pub fn read_text(alloc: Global, v: &Value, way: &Way<'_>) -> Result<Text, Bad>
    ensures { Gives (λ t. t) result (text_at (json v.now) (place_of way.now)) }
{
    match v.as_str() {
        Some(text) => Ok(Text::from_str(alloc, text)?),
        None => Err(Bad::at(alloc, Rule::G, way)),
    }
}

/// A string that has to be a member. Where it is absent, its own place is at fault.
pub fn read_required_text(alloc: Global, v: &Value, name: &str, way: &Way<'_>) -> Result<Text, Bad>
    ensures { Gives (λ t. t) result (required_as text_at name.now (json v.now) (place_of way.now)) }
{
    let found = required(alloc, v, name, way)?;
    read_text(alloc, found, &way.member(name))
}

/// A truth value.
pub fn read_truth(alloc: Global, v: &Value, way: &Way<'_>) -> Result<bool, Bad>
    ensures { Gives (λ b. b) result (truth_at (json v.now) (place_of way.now)) }
{
    match v.as_bool() {
        Some(b) => Ok(b),
        None => Err(Bad::at(alloc, Rule::G, way)),
    }
}

/// A list.
pub fn read_json_list<'a>(alloc: Global, v: &'a Value, way: &Way<'_>) -> Result<&'a Vec<Value>, Bad>
    ensures { Gives (λ l. items_view l.now.items) result
        (or_fault G (place_of way.now) (as_array (json v.now))) }
{
    match v.as_array() {
        Some(items) => Ok(items),
        None => Err(Bad::at(alloc, Rule::G, way)),
    }
}

/// A 64-bit integer: a string of an optional `-` and 1 to 19 digits, or a JSON number.
/// (docs/DECISIONS.md, "`-0` as a JSON number is a float and so no integer".)
pub fn read_integer(alloc: Global, v: &Value, way: &Way<'_>) -> Result<i64, Bad>
    ensures { Gives (λ n. n) result (integer_at (json v.now) (place_of way.now)) }
{
    match integer_in(v) {
        Some(n) => Ok(n),
        None => Err(Bad::at(alloc, Rule::G, way)),
    }
}

/// A 32-bit integer, which is read as a 64-bit one is.
pub fn read_small(alloc: Global, v: &Value, way: &Way<'_>) -> Result<i32, Bad>
    ensures { Gives (λ n. n) result (small_at (json v.now) (place_of way.now)) }
{
    match integer_in(v).and_then(|n| i32::try_from(n).ok()) {
        Some(n) => Ok(n),
        None => Err(Bad::at(alloc, Rule::G, way)),
    }
}

fn integer_in(v: &Value) -> Option<i64>
    ensures { result ≡ integer_of (json v.now) }
{
    match v {
        Value::Number(n) => n.as_i64(),
        Value::String(text) => integer_text(text.as_str()),
        _ => None,
    }
}

fn integer_text(text: &str) -> Option<i64>
    ensures { result ≡ integer_in_text text.now }
{
    if !is_numeral(text.as_bytes()) {
        return None;
    }
    text.parse::<i64>().ok()
}

/// The most digits that an integer in a string may have: those of the largest one.
const MAX_DIGITS: usize = 19;

/// Whether a text is an optional `-` and 1 to `MAX_DIGITS` digits.
fn is_numeral(text: &[u8]) -> bool
    ensures { result ≡ is_numeral text.now }
{
    let digits = match text {
        [b'-', digits @ ..] => digits,
        _ => text,
    };
    1 <= digits.len() && digits.len() <= MAX_DIGITS && all_digits(digits)
}

fn all_digits(text: &[u8]) -> bool
    ensures { result ≡ all_ascii_digits text.now }
{
    match text {
        [] => true,
        [c, rest @ ..] => c.is_ascii_digit() && all_digits(rest),
    }
}
