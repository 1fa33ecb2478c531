//! Selections: the fields that a query keeps of each document.
ghost use Rattle.std.specs.Prelude.{◌≡◌, List, Option};
ghost use Rattle.fs_path.specs.Way.{place_of};
ghost use Rattle.fs_path.specs.declared.field.FieldPath.{FieldPath as Path};
ghost use Rattle.serde_json.specs.View.{view as json};
ghost use Rattle.fs_json.specs.Answer.{Gives};
ghost use Rattle.fs_queryjson.specs.Field.{field_at};
ghost use Rattle.fs_queryjson.specs.Select.{fields_in, select_at, select_in, selection_of};

use crate::field::read_field;
use crate::names::{FIELDS, SELECT, SELECT_MEMBERS};
use fs_json::{Bad, ReadsItem, member, only, read_each};
use fs_path::{FieldPath, Paths, Way};
use serde_json::Value;
use std::alloc::Global;

/// The paths that a query keeps of each document, or none where it keeps whole documents. (v1 reference,
/// "StructuredQuery.Projection".)
pub(crate) fn read_select_of(
    alloc: Global,
    query: &Value,
    way: &Way<'_>,
) -> Result<Option<Paths>, Bad>
    ensures { Gives {Y = Option (List Path)} (λ ps. ps) result (select_in (json query.now) (place_of way.now)) }
{
    match member(alloc, query, SELECT, way)? {
        Some(selection) => read_select(alloc, selection, &way.member(SELECT)),
        None => Ok(None),
    }
}

fn read_select(alloc: Global, v: &Value, way: &Way<'_>) -> Result<Option<Paths>, Bad>
    ensures { Gives {Y = Option (List Path)} (λ ps. ps) result (select_at (json v.now) (place_of way.now)) }
{
    only(alloc, v, &SELECT_MEMBERS, way)?;
    let paths = read_fields_of(alloc, v, way)?;
    Ok(selection_of(paths))
}

/// An empty list selects all.
fn selection_of(paths: Paths) -> Option<Paths>
    ensures { result ≡ selection_of paths }
{
    if paths.is_empty() { None } else { Some(paths) }
}

fn read_fields_of(alloc: Global, selection: &Value, way: &Way<'_>) -> Result<Paths, Bad>
    ensures { Gives (λ ps. ps) result (fields_in (json selection.now) (place_of way.now)) }
{
    match member(alloc, selection, FIELDS, way)? {
        Some(fields) => read_each(alloc, &FieldReader, fields, &way.member(FIELDS)),
        None => Ok(Paths::new(alloc)),
    }
}

/// Reads a field of a list.
struct FieldReader;

impl ReadsItem for FieldReader {
    type Item = FieldPath;

    ghost reading = { λ _. field_at };

    fn read(&self, alloc: Global, item: &Value, way: &Way<'_>) -> Result<FieldPath, Bad> {
        read_field(alloc, item, way)
    }
}
