//! The numbers of commits and transactions.
ghost use Rattle.std.specs.Prelude.{◌≡◌, ◌<◌, ◌^◌};

use std::marker::Model;

/// The number of a commit or of a transaction. They are drawn in order from 1, so a lower one is older.
#[derive(Clone, Copy, PartialEq, Eq, PartialOrd, Ord, Hash)]
pub struct Id {
    n: u64,
}

impl Model for Id {
    ghost use Rattle.std.specs.Prelude.{ℕ};

    ghost Value = { ℕ };

    ghost view = { λ i. i.n };

    ghost inverse = { λ n. record { n = n } };
}

impl Id {
    pub fn new(n: u64) -> Id
        ensures { result ≡ n }
    {
        Id { n }
    }

    pub fn get(self) -> u64
        ensures value { result ≡ self }
        ensures range { self < 2 ^ 64 }
    {
        self.n
    }
}
