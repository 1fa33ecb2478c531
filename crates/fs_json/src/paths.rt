//! Names of documents and field paths, as strings.
ghost use Rattle.std.specs.Prelude.{◌≡◌, ℕ, List, Ok, Err, IfOk, IfErr, OnOk};
ghost use Rattle.fs_path.specs.Refusal.{IsMemory};
ghost use Rattle.fs_path.specs.Way.{place_of};
ghost use Rattle.serde_json.specs.View.{view as json};
ghost use Rattle.fs_json.specs.Answer.{Gives};
ghost use Rattle.fs_json.specs.Paths.{document_name_at, field_path_at, field_path_of, path_at, path_json, reference_at, IsPathHeld};

use crate::bad::Bad;
use fs_path::{
    DocName, FieldPath, PathError, Root, Rule, Way, parse_document, parse_field, parse_reference,
    print_field,
};
use serde_json::Value;
use std::alloc::{AllocError, Global};

/// The name of a document of any project and database. A string that is none breaks a rule of names.
pub fn read_reference(alloc: Global, v: &Value, way: &Way<'_>) -> Result<DocName, Bad>
    ensures { Gives (λ n. n) result (reference_at (json v.now) (place_of way.now)) }
{
    match v.as_str() {
        Some(text) => unless_refused(alloc, parse_reference(alloc, text), way),
        None => Err(Bad::at(alloc, Rule::G, way)),
    }
}

/// The name of a document of this root.
pub fn read_document_name(
    alloc: Global,
    root: &Root,
    v: &Value,
    way: &Way<'_>,
) -> Result<DocName, Bad>
    ensures { Gives (λ n. n) result (document_name_at root.now (json v.now) (place_of way.now)) }
{
    match v.as_str() {
        Some(text) => unless_refused(alloc, parse_document(alloc, root, text), way),
        None => Err(Bad::at(alloc, Rule::G, way)),
    }
}

/// A field path. A string that is none breaks rule 9 of paths, with the length in bytes of its longest beginning that a
/// field path may begin with. (v1 reference, "DocumentMask", `fieldPaths`.)
///
/// `"a.b"` is the path of `a` and `b`, and `"a..b"` is refused with 2.
pub fn read_field_path(alloc: Global, v: &Value, way: &Way<'_>) -> Result<FieldPath, Bad>
    ensures { Gives (λ p. p) result (field_path_at (json v.now) (place_of way.now)) }
{
    match v.as_str() {
        Some(text) => unless_refused(alloc, field_path_in(alloc, text), way),
        None => Err(Bad::at(alloc, Rule::G, way)),
    }
}

/// A field path: each name as it is where it is simple, else in backquotes.
pub fn write_field_path(alloc: Global, path: &FieldPath) -> Result<Value, AllocError>
    ensures value { IfOk result (λ v. json v ≡ path_json path.now) }
    ensures reads_back { IfOk result (λ v. (place : List ℕ) → field_path_at (json v) place ≡ Ok path.now) }
    ensures held { OnOk result (IsPathHeld path.now) }
{
    Ok(Value::String(print_field(alloc, path)?.into_string()))
}

fn field_path_in(alloc: Global, text: &str) -> Result<FieldPath, PathError>
    ensures ok { IfOk result (λ p. field_path_of text.now ≡ Ok p) }
    ensures err { IfErr result (λ e. ¬ IsMemory e → field_path_of text.now ≡ Err e) }
{
    parse_field(alloc, text)
}

/// What was read of a path's text, or the rule of paths that it breaks, at its place in the request.
pub fn unless_refused<T: Drop>(
    alloc: Global,
    read: Result<T, PathError>,
    way: &Way<'_>,
) -> Result<T, Bad>
    ensures { Gives (λ x. x) result (path_at (place_of way.now) read) }
{
    match read {
        Ok(x) => Ok(x),
        Err(e) => match e.rule() {
            Some(rule) => Err(Bad::at(alloc, rule, way)),
            None => Err(Bad::Memory(AllocError)),
        },
    }
}
