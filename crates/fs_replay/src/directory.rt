//! The sessions of a script.
ghost use Rattle.std.specs.Prelude.{◌≡◌, ◌<◌, IfSome, length, option_map};
ghost use Rattle.fs_replay.specs.Directory.{name_of, number_of, place_in};

use fs_path::Text;
use std::alloc::{AllocError, Global};
use std::marker::Model;

/// A session by the name that the script gives it, and its number at the server.
#[derive(Drop)]
pub struct Named {
    pub name: Text,
    pub number: u32,
}

/// The sessions that are open, in the order of opening. There are few: a name is looked for from the first on. Contracts see
/// them as a list.
///
///     a line of s, one of t      s is 0, t is 1
///     s leaves, a line of s      t is 1, s is 2
#[derive(Drop)]
pub struct Directory {
    items: Vec<Named>,
}

impl Model for Directory {
    ghost use Rattle.std.specs.Prelude.{List};
    ghost use Rattle.std.specs.Coded.{coded_list};
    ghost use Rattle.fs_replay.specs.contracts.directory.Named as named;
    ghost use Rattle.fs_replay.specs.declared.directory.Named.{Named};

    ghost Value = { List Named };

    ghost coded = { coded_list named.the_row.coded };

    ghost view = { λ d. d.items.items };
}

impl Directory {
    ghost use Rattle.std.specs.Prelude.{◌≡◌, ◌∷◌, ◌++◌, OnOk, [], length, option_map};
    ghost use Rattle.fs_replay.specs.Directory.{name_of, number_of, without};

    /// No sessions. The allocator serves those that come.
    pub fn new(alloc: Global) -> Directory
        ensures { result ≡ [] }
    {
        Directory {
            items: Vec::new(alloc),
        }
    }

    pub fn as_slice(&self) -> &[Named]
        ensures { result.now ≡ self.now }
    {
        self.items.as_slice()
    }

    /// How many are open.
    pub fn len(&self) -> usize
        ensures { result ≡ length self.now }
    {
        self.items.len()
    }

    /// The number of the session of a name, if it is open.
    pub fn number_of(&self, name: &str) -> Option<u32>
        ensures { result ≡ number_of name.now self.now }
    {
        number_in(&self.items, name)
    }

    /// The name of the session of a number, if it is open.
    pub fn name_of(&self, number: u32) -> Option<&str>
        ensures { option_map (λ name. name.now) result ≡ name_of number self.now }
    {
        name_in(&self.items, number)
    }

    /// A session more.
    pub fn add(&mut self, name: Text, number: u32) -> Result<(), AllocError>
        ensures { OnOk result (self.new ≡ self.old ++ record { name = name; number = number } ∷ []) }
    {
        Ok(self.items.push(Named { name, number })?)
    }

    /// The session of a name is no more.
    pub fn remove(&mut self, name: &str)
        ensures { self.new ≡ without name.now self.old }
    {
        match place_in(&self.items, name) {
            Some(place) => {
                let _ = self.items.remove(place);
            }
            None => {}
        }
    }
}

fn number_in(named: &[Named], name: &str) -> Option<u32>
    ensures { result ≡ number_of name.now named.now }
{
    match named {
        [] => None,
        [first, rest @ ..] => {
            if first.name.as_str() == name {
                Some(first.number)
            } else {
                number_in(rest, name)
            }
        }
    }
}

fn name_in(named: &[Named], number: u32) -> Option<&str>
    ensures { option_map (λ name. name.now) result ≡ name_of number named.now }
{
    match named {
        [] => None,
        [first, rest @ ..] => {
            if first.number == number {
                Some(first.name.as_str())
            } else {
                name_in(rest, number)
            }
        }
    }
}

// Where a name stands.
fn place_in(named: &[Named], name: &str) -> Option<usize>
    ensures place { result ≡ place_in name.now named.now }
    ensures within { IfSome result (λ place. place < length named.now) }
{
    match named {
        [] => None,
        [first, rest @ ..] => {
            if first.name.as_str() == name {
                return Some(0);
            }
            let place = place_in(rest, name)?;
            Some(place + 1)
        }
    }
}
