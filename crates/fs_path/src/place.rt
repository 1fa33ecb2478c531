//! Rules that a request may break, and places in it.
ghost use Rattle.std.specs.Prelude.{◌≡◌, IfOk, string_bytes};
ghost use Rattle.std.specs.Str.{IsUtf8};
ghost use Rattle.fs_path.specs.Place.{member_place, item_place};

use std::alloc::{AllocError, Global};
use std::marker::Model;

/// A rule that a request may break, with the number that the rule carries.
#[derive(Clone, Copy, Debug, PartialEq, Eq)]
pub enum Rule {
    /// It isn't in the grammar of requests.
    G,
    /// A time: 1 where the text is none, 2 where the moment is out of range.
    T(u8),
    /// A name or a path: 1 to 9, as `PathError` lists them. 7, 8 and 9 carry a number.
    P(u8, Option<u64>),
    /// A write.
    E(u8),
    /// A query. 4 and 5 carry a number.
    Q(u8, Option<u64>),
}

/// Where in a request something stands, as `commit.writes[0].update.name`. It is seen as that text.
#[derive(Drop, Debug)]
pub struct Place {
    text: String,
}

impl Model for Place {
    ghost use Rattle.std.specs.Prelude.{List, ℕ, string_bytes};

    ghost Value = { List ℕ };

    ghost view = { λ p. string_bytes p.text };
}

impl Place {
    pub(crate) fn of(text: String) -> Place
        ensures { result ≡ string_bytes text }
    {
        Place { text }
    }

    /// The place of a method, where every other place begins.
    pub fn method(alloc: Global, name: &str) -> Result<Place, AllocError>
        ensures { IfOk result (λ p. p ≡ name.now) }
    {
        Ok(Place {
            text: String::from_str(alloc, name)?,
        })
    }

    /// The place of a member of the object here, as `commit.writes`. A member of the request itself, whose place is
    /// empty, stands at its name.
    pub fn member(&self, alloc: Global, name: &str) -> Result<Place, AllocError>
        ensures { IfOk result (λ p. p ≡ member_place self.now name.now) }
    {
        let here = self.text.as_str();
        if here.is_empty() {
            return Place::method(alloc, name);
        }
        Ok(Place {
            text: format!(in alloc; "{here}.{name}")?,
        })
    }

    /// The place of an item of the list here, counted from 0, as `commit.writes[0]`.
    pub fn item(&self, alloc: Global, i: u64) -> Result<Place, AllocError>
        ensures { IfOk result (λ p. p ≡ item_place self.now i) }
    {
        let here = self.text.as_str();
        Ok(Place {
            text: format!(in alloc; "{here}[{i}]")?,
        })
    }

    pub fn as_str(&self) -> &str
        ensures value { result.now ≡ self.now }
        ensures utf8 { IsUtf8 self.now }
    {
        self.text.as_str()
    }

    pub fn copy(&self, alloc: Global) -> Result<Place, AllocError>
        ensures { IfOk result (λ p. p ≡ self.now) }
    {
        Place::method(alloc, self.text.as_str())
    }
}
