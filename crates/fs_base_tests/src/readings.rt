//! Texts and the moments that they are, and bytes and the resume tokens that they are: both counted from outside.
use fs_time::{Micros, TimeError, print, read_rfc3339};
use fs_token::{TokenError, read, write};
use std::alloc::{AllocError, Global};
use std::fmt::Write as _;
use std::process::Abort;

// A text, the microseconds that it reads as, and how those are printed.
const READINGS: &str = r#"2024-01-01T00:00:00Z => 1704067200000000 2024-01-01T00:00:00Z
2024-01-01T00:00:00.000001Z => 1704067200000001 2024-01-01T00:00:00.000001Z
2024-01-01T01:00:00.1234567+01:00 => 1704067200123456 2024-01-01T00:00:00.123456Z
0001-01-01T00:00:00Z => -62135596800000000 0001-01-01T00:00:00Z
9999-12-31T23:59:59.999999Z => 253402300799999999 9999-12-31T23:59:59.999999Z
1970-01-01T00:00:00Z => 0 1970-01-01T00:00:00Z
1969-12-31T23:59:59.999999Z => -1 1969-12-31T23:59:59.999999Z
1969-12-31T23:59:59.9999991Z => -1 1969-12-31T23:59:59.999999Z
1969-12-31T23:59:59.9999999Z => -1 1969-12-31T23:59:59.999999Z
1960-06-15T12:30:45.000000001Z => -301231755000000 1960-06-15T12:30:45Z
2024-02-29T12:00:00Z => 1709208000000000 2024-02-29T12:00:00Z
2000-02-29T00:00:00Z => 951782400000000 2000-02-29T00:00:00Z
2023-02-28T23:59:59Z => 1677628799000000 2023-02-28T23:59:59Z
2024-12-31T23:30:00-01:00 => 1735691400000000 2025-01-01T00:30:00Z
2024-01-01T00:30:00+01:00 => 1704065400000000 2023-12-31T23:30:00Z
2024-03-01T00:00:00+23:59 => 1709164860000000 2024-02-29T00:01:00Z
2024-02-28T23:59:59-00:01 => 1709164859000000 2024-02-29T00:00:59Z
2024-02-29T00:00:00-23:59 => 1709251140000000 2024-02-29T23:59:00Z
2024-01-01T00:00:00+00:00 => 1704067200000000 2024-01-01T00:00:00Z
2024-01-01T00:00:00-00:00 => 1704067200000000 2024-01-01T00:00:00Z
2024-01-01T05:30:00+05:30 => 1704067200000000 2024-01-01T00:00:00Z
2024-01-01T00:00:00.1Z => 1704067200100000 2024-01-01T00:00:00.100Z
2024-01-01T00:00:00.12Z => 1704067200120000 2024-01-01T00:00:00.120Z
2024-01-01T00:00:00.120Z => 1704067200120000 2024-01-01T00:00:00.120Z
2024-01-01T00:00:00.1200Z => 1704067200120000 2024-01-01T00:00:00.120Z
2024-01-01T00:00:00.12345Z => 1704067200123450 2024-01-01T00:00:00.123450Z
2024-01-01T00:00:00.12345678Z => 1704067200123456 2024-01-01T00:00:00.123456Z
2024-01-01T00:00:00.123456789Z => 1704067200123456 2024-01-01T00:00:00.123456Z
2024-01-01T00:00:00.000000000Z => 1704067200000000 2024-01-01T00:00:00Z
2024-01-01T00:00:00.999999999Z => 1704067200999999 2024-01-01T00:00:00.999999Z
9999-12-31T23:59:59.9999999Z => 253402300799999999 9999-12-31T23:59:59.999999Z
0000-12-31T23:59:00-00:01 => -62135596800000000 0001-01-01T00:00:00Z
0000-12-31T00:01:00-23:59 => -62135596800000000 0001-01-01T00:00:00Z
2024-01-01T23:59:59Z => 1704153599000000 2024-01-01T23:59:59Z
2024-01-31T00:00:00Z => 1706659200000000 2024-01-31T00:00:00Z
2024-04-30T00:00:00Z => 1714435200000000 2024-04-30T00:00:00Z
1900-02-28T00:00:00Z => -2203977600000000 1900-02-28T00:00:00Z
0000-01-01T00:00:00Z => out of range
0000-02-29T00:00:00Z => out of range
0000-12-31T23:59:59.999999999Z => out of range
0001-01-01T00:00:00+00:01 => out of range
0001-01-01T00:59:59.999999999+01:00 => out of range
9999-12-31T23:59:59-00:01 => out of range
9999-12-31T23:59:59.999999999-00:01 => out of range
10000-01-01T00:00:00Z => bad text
2023-02-29T00:00:00Z => bad text
1900-02-29T00:00:00Z => bad text
2024-02-30T00:00:00Z => bad text
0000-02-30T00:00:00Z => bad text
2024-04-31T00:00:00Z => bad text
2024-06-31T00:00:00Z => bad text
2024-09-31T00:00:00Z => bad text
2024-11-31T00:00:00Z => bad text
2024-01-32T00:00:00Z => bad text
2024-00-01T00:00:00Z => bad text
2024-13-01T00:00:00Z => bad text
2024-01-00T00:00:00Z => bad text
2024-01-01T24:00:00Z => bad text
0000-01-01T24:00:00Z => bad text
2024-01-01T00:60:00Z => bad text
2016-12-31T23:59:60Z => bad text
2024-01-01T00:00:00+24:00 => bad text
2024-01-01T00:00:00+00:60 => bad text
2024-01-01T00:00:00-24:00 => bad text
2024-01-01t00:00:00Z => bad text
2024-01-01T00:00:00z => bad text
2024-01-01 00:00:00Z => bad text
2024-01-01T00:00:00.Z => bad text
2024-01-01T00:00:00.1234567890Z => bad text
2024-01-01T00:00:00,1Z => bad text
2024-01-01T00:00:00 => bad text
2024-01-01T00:00Z => bad text
2024-01-01 => bad text
2024-01-01T00:00:00+01 => bad text
2024-01-01T00:00:00+0100 => bad text
2024-01-01T00:00:00+1:00 => bad text
2024-1-01T00:00:00Z => bad text
2024-01-1T00:00:00Z => bad text
24-01-01T00:00:00Z => bad text
+2024-01-01T00:00:00Z => bad text
-001-01-01T00:00:00Z => bad text
2024-01-01T0:00:00Z => bad text
2024-01-01T00:00:00ZZ => bad text
2024-01-01T00:00:00Z  => bad text
 2024-01-01T00:00:00Z => bad text
2024/01/01T00:00:00Z => bad text
20240101T000000Z => bad text
2024-01-01T00.00.00Z => bad text
2024-01-01T00:00:00-01:00Z => bad text
 => bad text
T => bad text
Z => bad text"#;

// The bytes of a token, in base 16, and the microseconds that it is read as, or why it isn't. What is read is written again as
// the same bytes.
const TOKENS: &str = "46 53 52 31 00 06 0d d7 10 21 20 01 => 1704067200000001
46 53 52 31 00 06 0d d7 10 21 20 00 => 1704067200000000
46 53 52 31 00 00 00 00 00 00 00 00 => 0
46 53 52 31 ff ff ff ff ff ff ff ff => -1
46 53 52 31 ff 23 40 01 00 d4 40 00 => -62135596800000000
46 53 52 31 03 84 44 0c cc 73 5f ff => 253402300799999999
46 53 52 31 ff 23 40 01 00 d4 3f ff => bad time
46 53 52 31 03 84 44 0c cc 73 60 00 => bad time
46 53 52 31 80 00 00 00 00 00 00 00 => bad time
46 53 52 31 7f ff ff ff ff ff ff ff => bad time
47 53 52 31 00 06 0d d7 10 21 20 01 => bad mark
46 73 52 31 00 06 0d d7 10 21 20 01 => bad mark
46 53 00 31 00 06 0d d7 10 21 20 01 => bad mark
46 53 52 32 00 06 0d d7 10 21 20 01 => bad mark
46 53 52 32 7f ff ff ff ff ff ff ff => bad mark
00 06 0d d7 10 21 20 01 46 53 52 31 => bad mark
 => 0 bytes
46 53 52 31 => 4 bytes
46 53 52 31 00 06 0d d7 10 21 20 => 11 bytes
46 53 52 31 00 06 0d d7 10 21 20 01 00 => 13 bytes
47 53 52 31 00 06 0d d7 10 21 20 01 00 => 13 bytes
46 53 52 31 00 06 0d d7 10 21 20 01 46 53 52 31 00 06 0d d7 10 21 20 01 => 24 bytes";

/// What a table is of.
#[derive(Clone, Copy)]
enum Reading {
    Time,
    Token,
}

// Adds what a text reads as.
fn push_time(alloc: Global, told: &mut String, text: &str) -> Result<(), AllocError> {
    match read_rfc3339(alloc, text) {
        Ok(t) => {
            let printed = print(alloc, t)?;
            write!(told, "{} {}", t.get(), printed.as_str())
        }
        Err(TimeError::OutOfRange) => told.push_str("out of range"),
        Err(TimeError::BadText) => told.push_str("bad text"),
        Err(TimeError::Memory(e)) => Err(e),
    }
}

// The bytes that stand in a text in base 16.
fn bytes(rt: &impl Abort, alloc: Global, text: &str) -> Vec<u8> {
    let mut bytes = Vec::new(alloc);
    for byte in text.split_whitespace() {
        let byte = u8::from_str_radix(byte, 16).expect(rt, "a byte");
        bytes.push(byte).expect(rt, "memory");
    }
    bytes
}

// Adds what bytes are read as.
fn push_token(told: &mut String, bytes: &[u8]) -> Result<(), AllocError> {
    match read(bytes) {
        Ok(t) if write(t).as_slice() == bytes => write!(told, "{}", t.get()),
        Ok(_) => told.push_str("written otherwise"),
        Err(TokenError::BadLength(n)) => write!(told, "{n} bytes"),
        Err(TokenError::BadMark) => told.push_str("bad mark"),
        Err(TokenError::BadTime) => told.push_str("bad time"),
    }
}

fn told(rt: &impl Abort, alloc: Global, reading: Reading, text: &str) -> String {
    let mut told = String::new(alloc);
    let pushed = match reading {
        Reading::Time => push_time(alloc, &mut told, text),
        Reading::Token => push_token(&mut told, bytes(rt, alloc, text).as_slice()),
    };
    pushed.expect(rt, "memory");
    told
}

fn is_so(rt: &impl Abort, alloc: Global, reading: Reading, line: &str) -> bool {
    match line.split_once(" => ") {
        Some((text, wanted)) => told(rt, alloc, reading, text).as_str() == wanted,
        None => false,
    }
}

// Asserts that each line of a table is so.
fn all_are_so(rt: &impl Abort, alloc: Global, reading: Reading, table: &str) {
    for line in table.lines() {
        assert!(rt; is_so(rt, alloc, reading, line), "{line}");
    }
}

#[test]
fn texts_and_tokens_are_read_and_written(rt: HostRuntime) {
    let alloc = rt.alloc();
    all_are_so(&rt, alloc, Reading::Time, READINGS);
    all_are_so(&rt, alloc, Reading::Token, TOKENS);
}

#[test]
fn the_ends_are_moments_and_no_more(rt: HostRuntime) {
    assert!(rt; Micros::new(-62_135_596_800_000_000).is_some());
    assert!(rt; Micros::new(-62_135_596_800_000_001).is_none());
    assert!(rt; Micros::new(253_402_300_799_999_999).is_some());
    assert!(rt; Micros::new(253_402_300_800_000_000).is_none());
}
