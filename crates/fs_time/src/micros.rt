//! Moments, as Firestore keeps them: whole microseconds.

ghost use Rattle.std.specs.Prelude.{◌≡◌, ◌↔◌, IsSome, IfSome};
ghost use Rattle.fs_time.specs.Moment.{IsMoment};

use std::marker::Model;

/// A moment, in microseconds since 1970-01-01T00:00:00Z. Firestore has the moments from
/// 0001-01-01T00:00:00Z to 9999-12-31T23:59:59.999999Z (`google.protobuf.Timestamp`), and keeps no more than microseconds
/// of them (Cloud Firestore documentation, "Supported data types").
///
/// 1,704,067,200,123,456 is 2024-01-01T00:00:00.123456Z, and -1 is 1969-12-31T23:59:59.999999Z.
#[derive(Clone, Copy, PartialEq, Eq, PartialOrd, Ord, Hash)]
pub struct Micros {
    n: i64,
}

impl Model for Micros {
    ghost use Rattle.std.specs.Prelude.{ℤ};
    ghost use Rattle.fs_time.specs.Moment.{IsMoment};

    ghost Value = { ℤ };

    ghost view = { λ m. m.n };

    ghost invariant = { λ m. IsMoment m.n };

    ghost inverse = { λ z. record { n = z } };
}

impl Micros {
    /// The first moment, 0001-01-01T00:00:00Z, in microseconds.
    pub const FIRST: i64 = -62_135_596_800_000_000;

    /// The last moment, 9999-12-31T23:59:59.999999Z, in microseconds.
    pub const LAST: i64 = 253_402_300_799_999_999;

    /// The moment of a number of microseconds, or `None` where there is no such moment.
    pub fn new(n: i64) -> Option<Micros>
        ensures range { IsSome result ↔ IsMoment n }
        ensures value { IfSome result (λ m. m ≡ n) }
    {
        if Micros::FIRST <= n && n <= Micros::LAST {
            Some(Micros { n })
        } else {
            None
        }
    }

    /// The number of microseconds since 1970-01-01T00:00:00Z, which is negative before.
    pub fn get(self) -> i64
        ensures value { result ≡ self }
        ensures range { IsMoment self }
    {
        self.n
    }
}
