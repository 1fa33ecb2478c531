//! How the calls on an object in memory go: freely, a few bytes at a time, or not at all.
ghost use Rattle.std.specs.Prelude.{◌≡◌, [], drop};
ghost use Rattle.fs_edge.specs.Paces.{next_pace};

use std::alloc::Global;
use std::marker::Model;

/// How one call on an object in memory goes.
#[derive(Clone, Copy, PartialEq, Eq)]
pub enum Pace {
    /// It gives or takes all that it can.
    Free,
    /// It gives or takes at most so many bytes. A link or doors are free then.
    AtMost(u64),
    /// It fails.
    Fail,
}

/// The paces of the calls on an object, in their order. Calls after the last are free.
///
/// Each call uses up one pace. Three reads of `abcde` into a buffer of four bytes, by the paces `[AtMost(2), Fail]`:
///
/// | read | goes by | gives | paces left | bytes left |
/// |---|---|---|---|---|
/// | first | `AtMost(2)` | `ab` | `[Fail]` | `cde` |
/// | second | `Fail` | a failure | `[]` | `cde` |
/// | third | `Free` | `cde` | `[]` | none |
///
/// A fourth read tells the end.
#[derive(Drop)]
pub struct Paces {
    items: Vec<Pace>,
}

impl Model for Paces {
    ghost use Rattle.std.specs.Prelude.{List};
    ghost use Rattle.fs_edge.specs.declared.memory.pace.Pace.{Pace};

    ghost Value = { List Pace };

    ghost view = { λ p. p.items.items };
}

impl Paces {
    /// All calls are free.
    pub fn free(alloc: Global) -> Paces
        ensures { result ≡ [] }
    {
        Paces {
            items: Vec::new(alloc),
        }
    }

    /// These paces, the first for the first call.
    pub fn of(items: Vec<Pace>) -> Paces
        ensures { result ≡ items.items }
    {
        Paces { items }
    }

    /// The pace of the next call, where so many calls were made. It counts the call.
    pub(crate) fn next(&self, calls: &mut usize) -> Pace
        ensures pace { result ≡ next_pace (drop calls.old self.now) }
        ensures calls { drop calls.new self.now ≡ drop 1 (drop calls.old self.now) }
    {
        if *calls < self.items.len() {
            *calls += 1;
            self.items[*calls - 1]
        } else {
            Pace::Free
        }
    }
}
