//! The time of day: a clock that may go back, and never fails.
ghost use Rattle.std.specs.Prelude.{ℤ, List, Option};
ghost use Rattle.fs_edge.specs.Clock.{Tells};

use fs_time::Micros;

/// The time of day. A clock never fails.
pub trait Clock {
    /// The moments that it will tell, where the clock tells them.
    ghost to_tell: { Self → Option (List ℤ) };

    /// The moment now. It may be before one that was told earlier.
    fn now(&mut self) -> Micros
        ensures { Tells result (to_tell self.old) (to_tell self.new) };
}
