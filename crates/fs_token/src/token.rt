//! Resume tokens, written and read.

ghost use Rattle.std.specs.Prelude.{◌≡◌, ◌≤◌, ◌↔◌, ℕ, ℤ, Ok, Err, length, take};
ghost use Rattle.fs_time.specs.Moment.{IsMoment};
ghost use Rattle.fs_token.specs.Token.{token_of, time_in, number_in, time_of_number, token_length, mark};

use crate::error::TokenError;
use fs_time::Micros;

/// How many bytes a resume token has.
pub const LENGTH: usize = 12;

// What a token begins with, which names its form.
const MARK: [u8; 4] = *b"FSR1";

/// The resume token of a moment: `FSR1`, and then its microseconds since 1970 as a signed 64-bit number, the most significant
/// byte first. A listener that hands it in goes on from that moment (v1 reference, `Target.resumeToken`).
///
///     2024-01-01T00:00:00.000001Z   46 53 52 31 00 06 0d d7 10 21 20 01
///     1969-12-31T23:59:59.999999Z   46 53 52 31 ff ff ff ff ff ff ff ff
pub fn write(t: Micros) -> [u8; 12]
    ensures value { result ≡ token_of t }
    ensures twelve { length result ≡ token_length }
    ensures read_again { time_in result ≡ Ok t }
{
    let [a, b, c, d] = MARK;
    let [e, f, g, h, i, j, k, l] = t.get().to_be_bytes();
    [a, b, c, d, e, f, g, h, i, j, k, l]
}

/// The moment of a resume token. It takes no memory.
pub fn read(bytes: &[u8]) -> Result<Micros, TokenError>
    ensures value { result ≡ time_in bytes.now }

    // Just the tokens of moments are read.
    ensures exact { (t : ℤ) → (result ≡ Ok t) ↔ (IsMoment t × (bytes.now ≡ token_of t)) }

    // Each refusal where it holds and none before it does.
    ensures length { (n : ℕ) → (result ≡ Err (TokenError.BadLength n)) ↔ ((n ≡ length bytes.now) × ¬ (n ≡ token_length)) }
    ensures mark { (result ≡ Err TokenError.BadMark) ↔ ((length bytes.now ≡ token_length) × ¬ (take 4 bytes.now ≡ mark)) }
    ensures time { (result ≡ Err TokenError.BadTime)
        ↔ ((length bytes.now ≡ token_length) × (take 4 bytes.now ≡ mark) × ¬ (IsMoment (number_in bytes.now))) }
{
    if bytes.len() != LENGTH {
        return Err(TokenError::BadLength(bytes.len() as u64));
    }
    if !bytes.starts_with(&MARK) {
        return Err(TokenError::BadMark);
    }
    moment_of(number_behind(bytes))
}

// The number behind the mark.
fn number_behind(bytes: &[u8]) -> i64
    requires { token_length ≤ length bytes.now }
    ensures { result ≡ number_in bytes.now }
{
    i64::from_be_bytes([
        bytes[4], bytes[5], bytes[6], bytes[7], bytes[8], bytes[9], bytes[10], bytes[11],
    ])
}

// The moment of a number of microseconds.
fn moment_of(number: i64) -> Result<Micros, TokenError>
    ensures { result ≡ time_of_number number }
{
    match Micros::new(number) {
        Some(t) => Ok(t),
        None => Err(TokenError::BadTime),
    }
}
