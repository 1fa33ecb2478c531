//! Why a text is no name or path.
ghost use Rattle.std.specs.Prelude.{◌≡◌};
ghost use Rattle.fs_path.specs.declared.error.PathError.TheVariants.{Memory};
ghost use Rattle.fs_path.specs.Refusal.{rule_of};

use crate::place::Rule;
use std::alloc::{AllocError, AllocFailed};

/// Why a text is no name or path. Of several reasons the first in this order is told. What a person is told of it is the rule
/// and the place, in the message of a refusal.
/// (docs/DECISIONS.md, "What refuses a name has no text".)
#[derive(Clone, Copy, Debug, PartialEq, Eq)]
pub enum PathError {
    /// It doesn't begin as `projects/{project}/databases/{database}/documents`.
    BadPrefix,
    /// It names another project or database than the server's.
    WrongDatabase,
    /// Its path hasn't the number of segments that is wanted here.
    Parity,
    /// A segment is empty.
    Empty,
    /// A segment matches `__.*__`.
    Reserved,
    /// A segment is `.` or `..`.
    Dots,
    /// The length in bytes of the first segment above 1,500, else that of the text above 6,144.
    TooLong(u64),
    /// The number of segments, above 200.
    TooDeep(u64),
    /// A text is no field path: the length in bytes of its longest beginning that a field path may begin with.
    BadQuote(u64),
    /// There was no memory left.
    Memory(AllocError),
}

impl PathError {
    /// The rule that was broken, numbered from 1 in the order above, or `None` for want of memory.
    pub fn rule(&self) -> Option<Rule>
        ensures { result ≡ rule_of self.now }
    {
        match self {
            PathError::BadPrefix => Some(Rule::P(1, None)),
            PathError::WrongDatabase => Some(Rule::P(2, None)),
            PathError::Parity => Some(Rule::P(3, None)),
            PathError::Empty => Some(Rule::P(4, None)),
            PathError::Reserved => Some(Rule::P(5, None)),
            PathError::Dots => Some(Rule::P(6, None)),
            PathError::TooLong(n) => Some(Rule::P(7, Some(*n))),
            PathError::TooDeep(n) => Some(Rule::P(8, Some(*n))),
            PathError::BadQuote(n) => Some(Rule::P(9, Some(*n))),
            PathError::Memory(_) => None,
        }
    }
}

impl From<AllocError> for PathError {
    ghost from_gives = { λ e r. r ≡ Memory e };

    fn from(e: AllocError) -> PathError {
        PathError::Memory(e)
    }
}

impl<T: Drop> From<AllocFailed<T>> for PathError {
    ghost use Rattle.std.specs.Prelude.{alloc_error};

    ghost from_gives = { λ _ r. r ≡ Memory alloc_error };

    fn from(_: AllocFailed<T>) -> PathError {
        PathError::Memory(AllocError)
    }
}
