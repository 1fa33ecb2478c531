//! Why bytes are no resume token.

use thiserror::Error;

/// Why bytes aren't read as a resume token. Of several reasons the first of these is told.
#[derive(Debug, Drop, Error)]
pub enum TokenError {
    /// They aren't 12 bytes; how many there are.
    #[error("{0} bytes in place of 12")]
    BadLength(u64),
    /// They don't begin with `FSR1`.
    #[error("not the mark of a resume token")]
    BadMark,
    /// Their number is no moment that Firestore has, before 0001-01-01T00:00:00Z or after 9999-12-31T23:59:59.999999Z.
    #[error("a time out of range")]
    BadTime,
}
