//! Fields that a query names.
ghost use Rattle.fs_path.specs.Way.{place_of};
ghost use Rattle.serde_json.specs.View.{view as json};
ghost use Rattle.fs_json.specs.Answer.{Gives};
ghost use Rattle.fs_queryjson.specs.Field.{field_at, field_in};

use crate::names::{FIELD, FIELD_MEMBERS, FIELD_PATH};
use fs_json::{Bad, only, read_field_path, required};
use fs_path::{FieldPath, Way};
use serde_json::Value;
use std::alloc::Global;

/// Reads a field: an object of its path. (v1 reference, "StructuredQuery.FieldReference".)
pub(crate) fn read_field(alloc: Global, v: &Value, way: &Way<'_>) -> Result<FieldPath, Bad>
    ensures { Gives (λ p. p) result (field_at (json v.now) (place_of way.now)) }
{
    only(alloc, v, &FIELD_MEMBERS, way)?;
    let path = required(alloc, v, FIELD_PATH, way)?;
    read_field_path(alloc, path, &way.member(FIELD_PATH))
}

/// The field of an order or a filter, which has to be there.
pub(crate) fn read_field_of(alloc: Global, v: &Value, way: &Way<'_>) -> Result<FieldPath, Bad>
    ensures { Gives (λ p. p) result (field_in (json v.now) (place_of way.now)) }
{
    let field = required(alloc, v, FIELD, way)?;
    read_field(alloc, field, &way.member(FIELD))
}
