//! What one id has read.
ghost use Rattle.std.specs.Prelude.{◌≡◌};

use crate::share::Share;
use std::alloc::Global;
use std::marker::Model;

/// What was read, and whether the id had read the same before.
#[derive(Drop)]
pub(crate) struct Noted {
    pub(crate) share: Share,
    pub(crate) again: bool,
}

/// What one id has read, in the order in which it read it. Contracts see a list.
///
///     c/a, the collection x below c/a, c/a again: the last one, taken back, leaves c/a held
#[derive(Drop)]
pub(crate) struct Reads {
    notes: Vec<Noted>,
}

impl Model for Reads {
    ghost use Rattle.std.specs.Prelude.{List, []};
    ghost use Rattle.std.specs.Coded.{coded_list};
    ghost use Rattle.fs_locks.specs.contracts.held.Held as row;
    ghost use Rattle.fs_locks.specs.declared.held.Held.{Held};
    ghost use Rattle.fs_locks.specs.Marks.{AreMarked, helds};

    ghost Value = { List Held };

    ghost coded = { coded_list row.the_row.coded };

    ghost view = { λ r. helds r.notes.items };

    ghost invariant = { λ r. AreMarked [] r.notes.items };
}

impl Reads {
    ghost use Rattle.std.specs.Prelude.{◌≡◌, ◌↔◌, ◌∷◌, ◌++◌, ◌-◌, [], IfErr, IsTrue, OnOk, OnErr, length, take};
    ghost use Rattle.std.specs.Option.{IfSome, option_map, option_to_list};
    ghost use Rattle.fs_locks.specs.Marks.{IsMarked, helds};

    pub(crate) fn new(alloc: Global) -> Reads
        ensures { result ≡ [] }
    {
        Reads {
            notes: Vec::new(alloc),
        }
    }

    pub(crate) fn as_slice(&self) -> &[Noted]
        ensures { helds result.now ≡ self.now }
    {
        self.notes.as_slice()
    }

    pub(crate) fn is_empty(&self) -> bool
        ensures { IsTrue result ↔ (self.now ≡ []) }
    {
        self.notes.is_empty()
    }

    // Takes one more. Where memory runs out, it is given back.
    pub(crate) fn push(&mut self, noted: Noted) -> Result<(), Noted>
        requires { IsMarked self.old noted.share noted.again }
        ensures ok { OnOk result (self.new ≡ self.old ++ noted.share ∷ []) }
        ensures err { OnErr result (self.new ≡ self.old) }
        ensures back { IfErr result (λ n. n ≡ noted) }
    {
        match self.notes.push(noted) {
            Ok(()) => Ok(()),
            Err(failed) => Err(failed.value),
        }
    }

    // Takes out the last.
    pub(crate) fn pop(&mut self) -> Option<Noted>
        ensures rest { self.new ≡ take (length self.old - 1) self.old }
        ensures last { self.old ≡ self.new ++ option_to_list (option_map (λ n. n.share) result) }
        ensures marked { IfSome result (λ n. IsMarked self.new n.share n.again) }
    {
        self.notes.pop()
    }
}
