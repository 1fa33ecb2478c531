//! Why a request isn't read, and where in it.
ghost use Rattle.fs_path.specs.Way.{place_of};
ghost use Rattle.fs_json.specs.Answer.{IsBadAt};

use fs_path::{Place, Rule, Text, Way};
use std::alloc::{AllocError, AllocFailed, Global};

/// Why a request isn't read.
#[derive(Drop, Debug)]
pub enum Bad {
    /// It breaks a rule at this place.
    At(Rule, Place),
    /// It asks for this method or member of one, which isn't built.
    Method(Text),
    Memory(AllocError),
}

impl Bad {
    /// The refusal that tells that this rule is broken where the way leads to. Only here a place is made of a way, out of
    /// line, since most of what is read is refused nowhere.
    #[cold]
    #[inline(never)]
    pub fn at(alloc: Global, rule: Rule, way: &Way<'_>) -> Bad
        ensures { IsBadAt rule (place_of way.now) result }
    {
        match way.place(alloc) {
            Ok(way) => Bad::At(rule, way),
            Err(e) => Bad::Memory(e),
        }
    }
}

impl From<AllocError> for Bad {
    ghost use Rattle.std.specs.Prelude.{◌≡◌};
    ghost use Rattle.fs_json.specs.declared.bad.Bad.TheVariants.{Memory};

    ghost from_gives = { λ e bad. bad ≡ Memory e };

    fn from(e: AllocError) -> Bad {
        Bad::Memory(e)
    }
}

impl<T: Drop> From<AllocFailed<T>> for Bad {
    ghost use Rattle.std.specs.Prelude.{◌≡◌, alloc_error};
    ghost use Rattle.fs_json.specs.declared.bad.Bad.TheVariants.{Memory};

    ghost from_gives = { λ _ bad. bad ≡ Memory alloc_error };

    fn from(_e: AllocFailed<T>) -> Bad {
        Bad::Memory(AllocError)
    }
}
