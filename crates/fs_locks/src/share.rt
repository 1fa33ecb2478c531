//! One shared hold.
ghost use Rattle.std.specs.Prelude.{◌≡◌, IfOk};
ghost use Rattle.std.specs.Option.{option_copied, option_map};
ghost use Rattle.std.specs.Prelude.{string_bytes};
ghost use Rattle.fs_path.specs.Segment.{has_slash};
ghost use Rattle.fs_locks.specs.Paths.{path_text, is_plain, stand_id};

use crate::held::Held;
use fs_path::{Ids, Scope};
use std::alloc::{AllocError, Global};
use std::marker::Model;

/// What was read, with the text of the path below which a scope's collections lie: so that it is found again, for its release,
/// without memory. Contracts see what was read.
#[derive(Drop)]
pub(crate) struct Share {
    held: Held,
    path: Option<String>,
}

impl Model for Share {
    ghost use Rattle.std.specs.Prelude.{◌≡◌, string_bytes};
    ghost use Rattle.std.specs.Option.{option_map};
    ghost use Rattle.fs_locks.specs.contracts.held.Held as row;
    ghost use Rattle.fs_locks.specs.declared.held.Held.{Held};
    ghost use Rattle.fs_locks.specs.Paths.{held_path};

    ghost Value = { Held };

    ghost coded = { row.the_row.coded };

    ghost view = { λ s. s.held };

    ghost invariant = { λ s. option_map string_bytes s.path ≡ held_path s.held };
}

impl Share {
    ghost use Rattle.std.specs.Prelude.{◌≡◌, IfOk};
    ghost use Rattle.std.specs.Option.{option_copied};
    ghost use Rattle.fs_locks.specs.Paths.{held_path};

    pub(crate) fn new(alloc: Global, held: Held) -> Result<Share, AllocError>
        ensures { IfOk result (λ s. s ≡ held) }
    {
        let path = match &held {
            Held::Name(_) => None,
            Held::Scope(scope) => text_of(alloc, scope.parent())?,
        };
        Ok(Share { held, path })
    }

    pub(crate) fn held(&self) -> &Held
        ensures { result.now ≡ self.now }
    {
        &self.held
    }

    // The path below which the collections of a scope lie.
    pub(crate) fn path(&self) -> Option<&str>
        ensures { option_copied result ≡ held_path self.now }
    {
        match &self.path {
            Some(text) => Some(text.as_str()),
            None => None,
        }
    }
}

// The ids of a path with a slash between each two; the root has no text.
fn text_of(alloc: Global, path: &Ids) -> Result<Option<String>, AllocError>
    ensures { IfOk result (λ t. option_map string_bytes t ≡ path_text path.now) }
{
    let Some((first, rest)) = path.as_slice().split_first() else {
        return Ok(None);
    };
    let mut text = String::from_str(alloc, first.as_str())?;
    for id in rest {
        text.push_str("/")?;
        text.push_str(id.as_str())?;
    }
    Ok(Some(text))
}

fn has_slash(text: &str) -> bool
    ensures { result ≡ has_slash text.now }
{
    text.as_bytes().iter().any(|b| *b == b'/')
}

// Whether no id of a path has a slash.
fn is_plain(path: &Ids) -> bool
    ensures { result ≡ is_plain path.now }
{
    path.as_slice().iter().all(|id| !has_slash(id.as_str()))
}

// The id under which a scope stands. Where its path has an id with a slash, it covers no name, and stands where none is looked up.
pub(crate) fn stand_id(scope: &Scope) -> &str
    ensures { result.now ≡ stand_id scope.now }
{
    if is_plain(scope.parent()) {
        scope.id().as_str()
    } else {
        "/"
    }
}
