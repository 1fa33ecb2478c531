//! A text of RFC 3339 read as a moment: what it shows piece by piece, then the calendar, then the range.

ghost use Rattle.std.specs.Prelude.{◌≡◌, ◌+◌, ◌-◌, ◌*◌, ◌≤◌, ◌<◌, ◌^◌, [], ◌∷◌, if◌then◌else◌, ◌&&◌, ◌↔◌, nat_lt, pos, ℕ, ℤ, Some, None, IsErrOf, IfOk, IfErr, IfSome, option_map, option_copied};
ghost use Rattle.std.specs.Char.{is_ascii_digit};
ghost use Rattle.std.specs.List.{prefix_len};
ghost use Rattle.jiff_core.specs.Calendar.{IsWithin};
ghost use Rattle.jiff_core.specs.DateTime.{IsCivilNanos};
ghost use Rattle.fs_time.specs.Moment.{IsMoment};
ghost use Rattle.fs_time.specs.Pieces as Pieces;
ghost use Rattle.fs_time.specs.Stamp as Stamp;
ghost use Rattle.fs_time.specs.Stamp.{IsTimeText, IsRoundedDown, clock_nanos, is_on_calendar, is_offset, minutes_ahead, most_decimals};
ghost use Rattle.fs_time.specs.Rfc3339.{time_of, time_text, stamp_in, micros_in, nanos_if_time, IsMemory, IsTextOfMoment};
ghost use Rattle.fs_time.specs.Inner as Inner;

use crate::error::TimeError;
use crate::micros::Micros;
use crate::parts::{Offset, Parts};
use jiff::civil::DateTime;
use std::alloc::Global;

// The most decimals that a second has.
const MOST_DECIMALS: usize = 9;

/// The moment that a text of RFC 3339 shows, rounded down to microseconds, as Firestore reads a
/// `google.protobuf.Timestamp` in JSON. `T` and `Z` are upper case, and a second has at most 9 decimals.
///
/// `2024-01-01T01:00:00.1234567+01:00` reads as 1,704,067,200,123,456. `BadText` is for what isn't such a text, and for a
/// day or a time of day that doesn't exist; `OutOfRange` is for a time before the first moment or after the last.
/// (docs/DECISIONS.md, "The grammar of times is ours, and the calendar is `jiff`'s".)
pub fn read_rfc3339(_alloc: Global, text: &str) -> Result<Micros, TimeError>
    ensures ok { IfOk result (λ t. time_of text.now ≡ Ok t) }
    ensures err { IfErr result (λ e. ¬ IsMemory e → time_of text.now ≡ Err e) }
    ensures memory { IfErr result (λ e. ¬ IsMemory e) }

    // The text shows that time, rounded down.
    ensures found { IfOk result (λ t. (p : Stamp.Stamp) × IsTimeText text.now p × IsRoundedDown p t) }
    ensures bad_text { IsErrOf result TimeError.BadText ↔ ((p : Stamp.Stamp) → ¬ (IsTimeText text.now p)) }
    ensures out_of_range { IsErrOf result TimeError.OutOfRange
        ↔ ((p : Stamp.Stamp) × (z : ℤ) × IsTimeText text.now p × IsRoundedDown p z × ¬ (IsMoment z)) }

    // What was printed is read again, and no other text of its form shows that time.
    ensures again { (z : ℤ) → IsMoment z → time_of (time_text z) ≡ Ok z }
    ensures one_text { IfOk result (λ t. IsTextOfMoment t text.now → text.now ≡ time_text t) }
{
    moment_in(text.as_bytes())
}

#[tactic(auto, unfolding(crate::specs::Rfc3339::time_of))]
fn moment_in(text: &[u8]) -> Result<Micros, TimeError>
    ensures { result ≡ time_of text.now }
{
    let Some(micros) = micros_in(text) else {
        return Err(TimeError::BadText);
    };
    match Micros::new(micros) {
        Some(t) => Ok(t),
        None => Err(TimeError::OutOfRange),
    }
}

// The microseconds since 1970-01-01T00:00:00Z, rounded down.
// (docs/DECISIONS.md, "Times are rounded down before their range is tested".)
#[tactic(auto, unfolding(crate::specs::Rfc3339::micros_in))]
fn micros_in(text: &[u8]) -> Option<i64>
    ensures { result ≡ micros_in text.now }
{
    let nanos = nanos_of(parts_in(text)?)?;
    Some(nanos.div_euclid(1000) as i64)
}

// The nanoseconds since 1970-01-01T00:00:00Z, if there is such a day and such a time of day.
fn nanos_of(parts: Parts) -> Option<i128>
    requires { Inner.AreRead parts }
    ensures value { result ≡ nanos_if_time (Inner.stamp_by parts) }
    ensures range { IfSome result (IsWithin (10 ^ 21)) }
{
    let clock = clock_nanos(parts)?;
    let minutes = minutes_ahead(parts.offset)?;
    Some(clock - minutes as i128 * 60_000_000_000)
}

// The same on the clock of the stamp.
fn clock_nanos(parts: Parts) -> Option<i128>
    requires { Inner.AreRead parts }
    ensures value { result ≡ (if is_on_calendar (Inner.stamp_by parts) then Some (clock_nanos (Inner.stamp_by parts)) else None) }
    ensures range { IfSome result IsCivilNanos }
{
    let subsec = subsec_of(parts) as i32;
    match DateTime::new(
        parts.year as i16,
        parts.month as i8,
        parts.day as i8,
        parts.hour as i8,
        parts.minute as i8,
        parts.second as i8,
        subsec,
    ) {
        Ok(clock) => Some(clock.to_plain().to_nanosecond()),
        Err(_) => None,
    }
}

// The nanoseconds of the decimals.
fn subsec_of(parts: Parts) -> u32
    requires { Inner.AreRead parts }
    ensures value { result ≡ parts.fraction * 10 ^ (most_decimals - parts.places) }
    ensures bound { result < 10 ^ 9 }
{
    parts.fraction * 10_u32.pow(MOST_DECIMALS as u32 - parts.places as u32)
}

// How many minutes the clock is ahead of UTC, if it is less than a day.
fn minutes_ahead(offset: Offset) -> Option<i32>
    ensures { result ≡ (if is_offset (Inner.offset_by offset) then Some (minutes_ahead (Inner.offset_by offset)) else None) }
{
    match offset {
        Offset::Utc => Some(0),
        Offset::Ahead(hours, minutes) => minutes_of(hours, minutes),
        Offset::Behind(hours, minutes) => {
            let ahead = minutes_of(hours, minutes)?;
            Some(-ahead)
        }
    }
}

fn minutes_of(hours: u8, minutes: u8) -> Option<i32>
    ensures { result ≡ (if nat_lt hours 24 && nat_lt minutes 60 then Some (pos (hours * 60 + minutes)) else None) }
{
    if hours < 24 && minutes < 60 {
        Some(hours as i32 * 60 + minutes as i32)
    } else {
        None
    }
}

// What all of a text shows, as `2024-01-01T00:00:00.000001Z`.
#[tactic(auto, unfolding(crate::specs::Rfc3339::stamp_in))]
fn parts_in(text: &[u8]) -> Option<Parts>
    ensures value { option_map Inner.stamp_by result ≡ stamp_in text.now }
{
    let (whole, rest) = date_time_at(text)?;
    let ((places, fraction), rest) = decimals_at(rest)?;
    let (offset, rest) = offset_at(rest)?;
    if !rest.is_empty() {
        return None;
    }
    Some(Parts {
        places,
        fraction,
        offset,
        ..whole
    })
}

// `2024-01-01T00:00:00`, as it is without decimals and in UTC.
fn date_time_at(text: &[u8]) -> Option<(Parts, &[u8])>
    ensures { Inner.read_by Inner.date_time result ≡ Pieces.read Stamp.date_time text.now }
{
    let (year, rest) = number_at(text, 4)?;
    let (month, rest) = number_after(b'-', rest)?;
    let (day, rest) = number_after(b'-', rest)?;
    let (hour, rest) = number_after(b'T', rest)?;
    let (minute, rest) = number_after(b':', rest)?;
    let (second, rest) = number_after(b':', rest)?;
    let parts = Parts {
        year: year as u16,
        month,
        day,
        hour,
        minute,
        second,
        places: 0,
        fraction: 0,
        offset: Offset::Utc,
    };
    Some((parts, rest))
}

// `.000001`, or nothing: how many decimals, and those as one number.
#[tactic(auto, unfolding(crate::specs::Pieces::number_at))]
fn decimals_at(text: &[u8]) -> Option<((u8, u32), &[u8])>
    ensures { Inner.read_by (λ read. read) result ≡ Inner.decimals_at text.now }
{
    match after(b'.', text) {
        Some(rest) => {
            let places = digits_at(rest).clamp(1, MOST_DECIMALS);
            let (fraction, rest) = number_at(rest, places)?;
            Some(((places as u8, fraction), rest))
        }
        None => Some(((0, 0), text)),
    }
}

fn digits_at(text: &[u8]) -> usize
    ensures { result ≡ prefix_len is_ascii_digit text.now }
{
    text.iter().take_while(|b| b.is_ascii_digit()).count()
}

// `Z`, `+01:00` or `-01:00`
#[tactic(auto, unfolding(crate::specs::Pieces::number_at))]
fn offset_at(text: &[u8]) -> Option<(Offset, &[u8])>
    ensures { Inner.read_by Inner.offset_by result ≡ Inner.offset_at text.now }
{
    let (sign, rest) = text.split_first()?;
    if *sign == b'Z' {
        return Some((Offset::Utc, rest));
    }
    let ((hours, minutes), rest) = hours_and_minutes_at(rest)?;
    match sign {
        b'+' => Some((Offset::Ahead(hours, minutes), rest)),
        b'-' => Some((Offset::Behind(hours, minutes), rest)),
        _ => None,
    }
}

// `01:00`
fn hours_and_minutes_at(text: &[u8]) -> Option<((u8, u8), &[u8])>
    ensures { Inner.read_by (λ read. (read.0, (read.1, tt))) result ≡ Pieces.read (Stamp.piece [] 2 ∷ Stamp.piece (58 ∷ []) 2 ∷ []) text.now }
{
    let (hours, rest) = number_at(text, 2)?;
    let (minutes, rest) = number_after(b':', rest)?;
    Some(((hours as u8, minutes), rest))
}

// This byte, and then a number of two digits.
fn number_after(byte: u8, text: &[u8]) -> Option<(u8, &[u8])>
    ensures { Inner.read_by (λ n. n) result ≡ Pieces.piece_at (Stamp.piece (byte ∷ []) 2) text.now }
{
    let (number, rest) = number_at(after(byte, text)?, 2)?;
    Some((number as u8, rest))
}

// A number of so many digits.
fn number_at(text: &[u8], count: usize) -> Option<(u32, &[u8])>
    requires { count ≤ most_decimals }
    ensures value { Inner.read_by (λ n. n) result ≡ Pieces.number_at count text.now }
    ensures bound { IfSome result (λ read. read.0 < 10 ^ count) }
{
    if count == 0 {
        return Some((0, text));
    }
    let (number, rest) = number_at(text, count - 1)?;
    digit_more(number, rest)
}

// A number that goes on with one digit more.
fn digit_more(number: u32, text: &[u8]) -> Option<(u32, &[u8])>
    requires { number < 10 ^ 8 }
    ensures value { Inner.read_by (λ n. n) result ≡ Pieces.digit_more number text.now }
    ensures bound { IfSome result (λ read. read.0 < (number + 1) * 10) }
{
    let (digit, rest) = text.split_first()?;
    if !digit.is_ascii_digit() {
        return None;
    }
    Some((number * 10 + (*digit - b'0') as u32, rest))
}

// What follows this byte.
fn after(byte: u8, text: &[u8]) -> Option<&[u8]>
    ensures { option_copied result ≡ Pieces.after (byte ∷ []) text.now }
{
    match text {
        [first, rest @ ..] if *first == byte => Some(rest),
        _ => None,
    }
}
