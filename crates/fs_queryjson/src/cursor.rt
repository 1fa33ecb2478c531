//! Cursors.
ghost use Rattle.std.specs.Prelude.{◌≡◌, [], Option, codes};
ghost use Rattle.fs_path.specs.Way.{place_of};
ghost use Rattle.serde_json.specs.View.{view as json};
ghost use Rattle.fs_json.specs.Answer.{Gives};
ghost use Rattle.fs_query.specs.declared.cursor.Cursor.{Cursor as Edge};
ghost use Rattle.fs_valjson.specs.Reading.{list_at};
ghost use Rattle.fs_queryjson.specs.Cursor.{cursor_at, cursor_in};
ghost use Rattle.fs_json.specs.Members.{member_or};

use crate::member::read_truth_of;
use crate::names::{BEFORE, CURSOR_MEMBERS, VALUES};
use fs_json::{Bad, member, only};
use fs_path::Way;
use fs_query::Cursor;
use fs_valjson::read_list;
use fs_value::Values;
use serde_json::Value;
use std::alloc::Global;

/// The cursor of this name, if it is there.
pub(crate) fn read_cursor_of(
    alloc: Global,
    query: &Value,
    name: &str,
    way: &Way<'_>,
) -> Result<Option<Cursor>, Bad>
    ensures { Gives {Y = Option Edge} (λ c. c) result (cursor_in name.now (json query.now) (place_of way.now)) }
{
    match member(alloc, query, name, way)? {
        Some(cursor) => Ok(Some(read_cursor(alloc, cursor, &(*way).member(name))?)),
        None => Ok(None),
    }
}

/// Reads a cursor: a list of values, and whether the place is before them. (v1 reference, "Cursor".)
fn read_cursor(alloc: Global, v: &Value, way: &Way<'_>) -> Result<Cursor, Bad>
    ensures { Gives (λ c. c) result (cursor_at (json v.now) (place_of way.now)) }
{
    only(alloc, v, &CURSOR_MEMBERS, way)?;
    let values = read_values_of(alloc, v, way)?;
    let before = read_truth_of(alloc, v, BEFORE, way)?;
    Ok(Cursor { values, before })
}

fn read_values_of(alloc: Global, v: &Value, way: &Way<'_>) -> Result<Values, Bad>
    ensures { Gives (λ ds. ds) result (member_or [] list_at (codes "values") (json v.now) (place_of way.now)) }
{
    match member(alloc, v, VALUES, way)? {
        Some(values) => read_list(alloc, values, &way.member(VALUES)),
        None => Ok(Values::new(alloc)),
    }
}
