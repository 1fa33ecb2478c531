//! Where in a request a reader stands.
ghost use Rattle.std.specs.Prelude.{◌≡◌, IfOk, OnOk, string_bytes, []};
ghost use Rattle.fs_path.specs.Place.{member_place, item_place};
ghost use Rattle.fs_path.specs.Way.{place_of};

use crate::place::Place;
use std::alloc::{AllocError, Global};
use std::fmt::Write;

/// The way from a request to one of its parts, step by step. A reader takes a step for each part that it goes into,
/// which costs nothing, and makes a `Place` only where it refuses something.
///
/// The way to the name of a commit's first write is
/// `Way::method("commit").member("writes").item(0).member("update").member("name")`, and its place
/// `commit.writes[0].update.name`.
/// (docs/DECISIONS.md, "A reader of JSON goes along a way, and a place is made only where something is refused".)
#[derive(Clone, Copy)]
pub enum Way<'a> {
    Method(&'a str),
    Member(&'a Way<'a>, &'a str),
    Item(&'a Way<'a>, u64),
}

impl<'a> Way<'a> {
    /// To a method, where every other way begins. The way to a request itself has an empty name.
    pub fn method(name: &'a str) -> Way<'a>
        ensures { place_of result ≡ name.now }
    {
        Way::Method(name)
    }

    /// One step on, to a member of the object here.
    pub fn member<'b>(&'b self, name: &'b str) -> Way<'b>
        ensures { place_of result ≡ member_place (place_of self.now) name.now }
    {
        Way::Member(&*self, name)
    }

    /// One step on, to an item of the list here, counted from 0.
    pub fn item<'b>(&'b self, i: u64) -> Way<'b>
        ensures { place_of result ≡ item_place (place_of self.now) i }
    {
        Way::Item(&*self, i)
    }

    /// The place that the way leads to.
    pub fn place(&self, alloc: Global) -> Result<Place, AllocError>
        ensures { IfOk result (λ p. p ≡ place_of self.now) }
    {
        let mut text = String::new(alloc);
        push_place(&mut text, self)?;
        Ok(Place::of(text))
    }
}

// Writes the place into a text that is empty.
fn push_place(text: &mut String, way: &Way<'_>) -> Result<(), AllocError>
    requires { string_bytes text.old ≡ [] }
    ensures { OnOk result (string_bytes text.new ≡ place_of way.now) }
{
    match way {
        Way::Method(name) => text.push_str(name),
        Way::Member(before, name) => {
            push_place(text, before)?;
            if !text.is_empty() {
                text.push_str(".")?;
            }
            text.push_str(name)
        }
        Way::Item(before, i) => {
            push_place(text, before)?;
            write!(text, "[{i}]")
        }
    }
}
