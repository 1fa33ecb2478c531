//! Field paths, and how they are read.
ghost use Rattle.std.specs.Prelude.{◌≡◌, ◌<◌, ◌++◌, List, ℕ, IfOk, IfErr, OnOk, Ok, Err, length, string_bytes};
ghost use Rattle.fs_path.specs.Refusal.{IsMemory};
ghost use Rattle.fs_path.specs.declared.error.PathError.TheVariants.{BadQuote};
ghost use Rattle.fs_path.specs.Field.{field_of, IsFieldText, IsLongestFront};
ghost use Rattle.fs_path.specs.FieldReader.{read_of, gathered};

use crate::error::PathError;
use crate::ids::Ids;
use crate::stage::{Stage, is_opening, takes};
use crate::text::Text;
use std::alloc::{AllocError, Global};
use std::mem::replace;

/// The names from a document's fields down to a field of a map inside: `address`, `city`. There is at least one.
#[derive(PartialEq, Eq, PartialOrd, Ord, Drop)]
pub struct FieldPath {
    pub parts: Ids,
    ghost some: { 0 < length parts },
}

impl FieldPath {
    pub fn copy(&self, alloc: Global) -> Result<FieldPath, AllocError>
        ensures { IfOk result (λ p. p ≡ self.now) }
    {
        Ok(FieldPath {
            parts: self.parts.copy(alloc)?,
        })
    }
}

/// Reads a field path: simple names, or any names in backquotes, with a dot between each two. A refusal is
/// `BadQuote(at)`, where `at` is the length in bytes of the longest beginning of the text that some field path begins
/// with. (v1 reference, "StructuredQuery.FieldReference", `fieldPath`.)
/// (docs/DECISIONS.md, "A field path has no limit of length".)
pub fn parse_field(alloc: Global, text: &str) -> Result<FieldPath, PathError>
    ensures ok { IfOk result (λ p. field_of text.now ≡ Ok p.parts) }
    ensures err { IfErr result (λ e. ¬ IsMemory e → field_of text.now ≡ Err e) }

    // What is read is a field path with these names.
    ensures found { IfOk result (λ p. IsFieldText p.parts text.now) }

    // A field path is refused only for want of memory.
    ensures only { (names : List (List ℕ)) → IsFieldText names text.now → field_of text.now ≡ Ok names }

    // What is refused goes on to a field path as far as that place, and no further.
    ensures front { IfErr result (λ e. ¬ IsMemory e → (at : ℕ) × (e ≡ BadQuote at) × IsLongestFront text.now at) }
{
    match read_names(alloc, text) {
        Ok(parts) => Ok(FieldPath { parts }),
        Err(e) => Err(e),
    }
}

/// The names that a field path has.
fn read_names(alloc: Global, text: &str) -> Result<Ids, PathError>
    ensures ok { IfOk result (λ names. read_of text.now ≡ Ok names) }
    ensures err { IfErr result (λ e. ¬ IsMemory e → read_of text.now ≡ Err e) }
{
    let bytes = text.as_bytes();
    let mut names = Ids::new(alloc);
    let mut name = String::new(alloc);
    let mut stage = Stage::Opening;
    // The name that is read is `name` and the text from here on, so a name without escapes is copied once.
    let mut from = 0;
    for at in 0..bytes.len() {
        let Some(next) = stage.after(bytes[at]) else {
            return Err(PathError::BadQuote(at as u64));
        };
        if !takes(stage, next) {
            gather(alloc, &mut names, &mut name, &text[from..at], next)?;
            from = at + 1;
        }
        stage = next;
    }
    if stage != Stage::Simple && stage != Stage::Closed {
        return Err(PathError::BadQuote(bytes.len() as u64));
    }
    // The end of the text makes a name whole, as a dot does.
    gather(alloc, &mut names, &mut name, &text[from..], Stage::Opening)?;
    Ok(names)
}

/// Adds a part to the name that is read, and that name to those before it where a dot makes it whole.
fn gather(
    alloc: Global,
    names: &mut Ids,
    name: &mut String,
    part: &str,
    next: Stage,
) -> Result<(), AllocError>
    ensures { OnOk result (gathered next names.old (string_bytes name.old ++ part.now)
        ≡ record { stage = next; names = names.new; name = string_bytes name.new }) }
{
    name.push_str(part)?;
    if is_opening(next) {
        names.push(Text::of(replace(name, String::new(alloc))))?;
    }
    Ok(())
}
