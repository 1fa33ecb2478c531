//! The text that is printed of a moment.

ghost use Rattle.std.specs.Prelude.{◌≡◌, ◌-◌, ◌/◌, ◌^◌, ◌++◌, ◌<◌, ◌≤◌, All, length, IfOk, OnOk, Ok, string_bytes};
ghost use Rattle.fs_time.specs.Moment.{IsMoment};
ghost use Rattle.fs_time.specs.Pieces.{digits};
ghost use Rattle.fs_time.specs.Stamp.{text_of};
ghost use Rattle.fs_time.specs.Rfc3339.{time_of, time_text, stamp_at, decimals, longest_text, IsTextOfMoment};
ghost use Rattle.fs_time.specs.Inner as Inner;

use crate::micros::Micros;
use crate::parts::{Offset, Parts};
use jiff_core::civil::DateTime;
use std::alloc::{AllocError, Global};

/// How many bytes the longest printed text has, as `2024-01-01T00:00:00.000001Z`.
pub const LONGEST_TEXT: usize = 27;

/// The text of a moment in RFC 3339, as Firestore prints a `google.protobuf.Timestamp` in JSON: in UTC, with 0, 3 or 6
/// decimals, the least that are exact. The moment 1,704,067,200,120,000 prints as `2024-01-01T00:00:00.120Z`.
pub fn print(alloc: Global, t: Micros) -> Result<String, AllocError>
    ensures text { IfOk result (λ s. string_bytes s ≡ time_text t) }
    ensures shows { IfOk result (λ s. IsTextOfMoment t (string_bytes s)) }
    ensures again { IfOk result (λ s. time_of (string_bytes s) ≡ Ok t) }
    ensures ascii { IfOk result (λ s. All (λ b. b < 128) (string_bytes s)) }
    ensures longest { IfOk result (λ s. length (string_bytes s) ≤ longest_text) }
    ensures limit { LONGEST_TEXT ≡ longest_text }
{
    utc_text(alloc, parts_at(t))
}

fn utc_text(alloc: Global, parts: Parts) -> Result<String, AllocError>
    requires { parts.offset ≡ Offset.Utc }
    ensures { IfOk result (λ s. string_bytes s ≡ text_of (Inner.stamp_by parts)) }
{
    let mut text = String::with_capacity(alloc, LONGEST_TEXT)?;
    push_date_time(&mut text, parts)?;
    push_decimals(&mut text, parts)?;
    text.push('Z')?;
    Ok(text)
}

// What a moment shows in UTC.
fn parts_at(t: Micros) -> Parts
    ensures value { Inner.stamp_by result ≡ stamp_at t }
    ensures shows { IsTextOfMoment t (text_of (Inner.stamp_by result)) }
    ensures utc { result.offset ≡ Offset.Utc }
    ensures range { IsMoment t }
{
    let DateTime { date, time } = DateTime::from_nanosecond_in_range(t.get() as i128 * 1000);
    let micros = time.subsec_nanosecond / 1000;
    let (places, fraction) = shortened(micros);
    Parts {
        year: date.year.unsigned_abs(),
        month: date.month,
        day: date.day,
        hour: time.hour,
        minute: time.minute,
        second: time.second,
        places,
        fraction,
        offset: Offset::Utc,
    }
}

// How many decimals a count of microseconds needs, and those decimals as one number.
fn shortened(micros: u32) -> (u8, u32)
    ensures places { result.0 ≡ decimals micros }
    ensures fraction { result.1 ≡ micros / 10 ^ (6 - decimals micros) }
{
    if micros == 0 {
        (0, 0)
    } else if micros % 1000 == 0 {
        (3, micros / 1000)
    } else {
        (6, micros)
    }
}

// `2024-01-01T00:00:00`
fn push_date_time(text: &mut String, parts: Parts) -> Result<(), AllocError>
    ensures { OnOk result (string_bytes text.new ≡ string_bytes text.old ++ Inner.date_time_text parts) }
{
    push_digits(text, parts.year as u32, 4)?;
    push_after(text, "-", parts.month)?;
    push_after(text, "-", parts.day)?;
    push_after(text, "T", parts.hour)?;
    push_after(text, ":", parts.minute)?;
    push_after(text, ":", parts.second)?;
    Ok(())
}

// A mark, and then a number of two digits.
fn push_after(text: &mut String, mark: &str, number: u8) -> Result<(), AllocError>
    ensures { OnOk result (string_bytes text.new ≡ string_bytes text.old ++ mark.now ++ digits 2 number) }
{
    text.push_str(mark)?;
    push_digits(text, number as u32, 2)
}

// `.000001`, or nothing.
fn push_decimals(text: &mut String, parts: Parts) -> Result<(), AllocError>
    ensures { OnOk result (string_bytes text.new ≡ string_bytes text.old ++ Inner.decimals_text parts) }
{
    if parts.places == 0 {
        return Ok(());
    }
    text.push('.')?;
    push_digits(text, parts.fraction, parts.places)
}

// The last decimal digits of a number, zeros in front included.
fn push_digits(text: &mut String, number: u32, places: u8) -> Result<(), AllocError>
    ensures { OnOk result (string_bytes text.new ≡ string_bytes text.old ++ digits places number) }
{
    if places == 0 {
        return Ok(());
    }
    push_digits(text, number / 10, places - 1)?;
    let digit = b'0' + (number % 10) as u8;
    text.push(digit as char)
}
