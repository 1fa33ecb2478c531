//! A clock in memory, which tells a list of moments.
ghost use Rattle.std.specs.Prelude.{◌≡◌, ◌<◌, length, Some};

use crate::clock::Clock;
use fs_path::List;
use fs_time::Micros;
use std::marker::Model;

/// Moments in order.
pub type Moments = List<Micros>;

/// A clock in memory. It tells its moments in order, and the last of them again and again.
#[derive(Drop)]
pub struct MemoryClock {
    moments: Moments,
    at: usize,
}

impl Model for MemoryClock {
    ghost use Rattle.std.specs.Prelude.{List, ℤ, drop, length, ◌<◌};

    ghost Value = { List ℤ };

    ghost view = { λ c. drop c.at c.moments };

    ghost invariant = { λ c. c.at < length c.moments };
}

impl MemoryClock {
    /// A clock of these moments, of which there is at least one.
    pub fn new(moments: Moments) -> MemoryClock
        requires { 0 < length moments }
        ensures { result ≡ moments }
    {
        MemoryClock { moments, at: 0 }
    }
}

impl Clock for MemoryClock {
    ghost to_tell = { λ c. Some c };

    fn now(&mut self) -> Micros {
        let moments = self.moments.as_slice();
        let now = moments[self.at];
        if self.at + 1 < moments.len() {
            self.at += 1;
        }
        now
    }
}
