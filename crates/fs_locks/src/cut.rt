//! Paths that are cut from their ends.
ghost use Rattle.std.specs.Prelude.{◌≡◌, ◌<◌, ◌∷◌, ◌++◌, [], false, length, MatchOption};
ghost use Rattle.std.specs.Option.{option_copied};
ghost use Rattle.fs_path.specs.Cursor.{rest_segments};
ghost use Rattle.fs_path.specs.Segment.{segments, has_slash};
ghost use Rattle.fs_locks.specs.Paths.{IsCollectionOf};

use fs_path::DocName;

/// The text before the last slash where there is one, and the text after it: of `c/a/x` it gives `c/a` and `x`.
pub(crate) fn parent_of(text: &str) -> (Option<&str>, &str)
    ensures parts { segments text.now ≡ rest_segments (option_copied result.0) ++ result.1.now ∷ [] }
    ensures whole { has_slash result.1.now ≡ false }
{
    match text.rsplit_once('/') {
        Some((front, last)) => (Some(front), last),
        None => (None, text),
    }
}

/// A document's collection: the path below which it lies, and its id. Of c/a/x/b it gives `c/a` and `x`.
pub(crate) fn collection_of(name: &DocName) -> Option<(Option<&str>, &str)>
    ensures { MatchOption result (length name.now.ids < 2) (λ p. IsCollectionOf name.now.ids (option_copied p.0) p.1.now) }
{
    let (collection, _) = parent_of(name.ids()?);
    Some(parent_of(collection?))
}
