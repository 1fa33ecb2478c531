//! The lesser of two ids.
ghost use Rattle.std.specs.Prelude.{◌≡◌};
ghost use Rattle.fs_locks.specs.Holds.{lesser_of};

use fs_status::Id;

/// The lesser of two ids, or the one that is there.
pub fn lesser(a: Option<Id>, b: Option<Id>) -> Option<Id>
    ensures { result ≡ lesser_of a b }
{
    match (a, b) {
        (Some(x), Some(y)) => Some(if x <= y { x } else { y }),
        (Some(x), None) => Some(x),
        (None, y) => y,
    }
}
