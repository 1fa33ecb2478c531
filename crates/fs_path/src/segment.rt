//! The segments of a path.
ghost use Rattle.std.specs.Prelude.{◌≡◌, ◌↔◌, ◌∷◌, IsTrue, ◌<◌, false, length, slice_get, IfSome, Some};
ghost use Rattle.std.specs.Option.{option_copied};
ghost use Rattle.fs_path.specs.Segment.{segments, has_slash, is_reserved, is_dots, is_bad_id, IsReserved};
ghost use Rattle.fs_path.specs.Cursor.{rest_segments};

use crate::limits::MAX_ID;

/// The text before the first slash, and the text after it where there is one: of `c/a/x/b` it gives `c` and `a/x/b`.
pub fn first_segment(text: &str) -> (&str, Option<&str>)
    ensures parts { segments text.now ≡ result.0.now ∷ rest_segments (option_copied result.1) }
    ensures whole { has_slash result.0.now ≡ false }
    ensures shorter { IfSome result.1 (λ rest. length rest.now < length text.now) }
{
    match text.split_once('/') {
        Some((first, rest)) => (first, Some(rest)),
        None => (text, None),
    }
}

/// The number of segments of a path, which has none where there is no text.
pub(crate) fn count_of(path: Option<&str>) -> usize
    ensures { result ≡ length (rest_segments (option_copied path.entry)) }
{
    let mut count = 0;
    let mut rest = path;
    while let Some(text) = rest {
        count += 1;
        rest = first_segment(text).1;
    }
    count
}

/// The segment of a path at a place, counted from 0.
pub(crate) fn segment_at(path: Option<&str>, i: usize) -> &str
    requires { i < length (rest_segments (option_copied path)) }
    ensures { slice_get (rest_segments (option_copied path.entry)) i ≡ Some result.now }
{
    let mut passed = 0;
    let mut rest = path;
    while let Some(text) = rest {
        let (first, more) = first_segment(text);
        if passed == i {
            return first;
        }
        passed += 1;
        rest = more;
    }
    ""
}

/// Whether a text matches `__.*__`: Firestore keeps such names for itself.
pub fn is_reserved(text: &str) -> bool
    ensures value { result ≡ is_reserved text.now }
    ensures meaning { IsTrue result ↔ IsReserved text.now }
{
    matches_reserved(text)
}

fn matches_reserved(text: &str) -> bool
    ensures { result ≡ is_reserved text.now }
{
    text.len() >= 4 && text.starts_with("__") && text.ends_with("__")
}

/// Whether a text is `.` or `..`.
pub(crate) fn is_dots(text: &str) -> bool
    ensures { result ≡ is_dots text.now }
{
    text == "." || text == ".."
}

/// Whether no collection and no document may have this id: it is empty, has a slash, matches `__.*__`, is `.` or `..`, or is
/// longer than 1,500 bytes. (Cloud Firestore documentation, "Usage and limits": collections, documents, and fields.)
pub fn is_bad_id(id: &str) -> bool
    ensures { result ≡ is_bad_id id.now }
{
    id.is_empty() || has_slash(id) || is_reserved(id) || is_dots(id) || id.len() > MAX_ID
}

fn has_slash(text: &str) -> bool
    ensures { result ≡ has_slash text.now }
{
    text.as_bytes().iter().any(|b| *b == b'/')
}
