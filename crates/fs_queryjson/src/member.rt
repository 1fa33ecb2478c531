//! Members of an object inside a query that are truth values or 32-bit integers, and may be absent.
ghost use Rattle.std.specs.Prelude.{false, None, ℤ, Option, Some};
ghost use Rattle.fs_path.specs.Way.{place_of};
ghost use Rattle.serde_json.specs.View.{view as json};
ghost use Rattle.fs_json.specs.Answer.{Gives, made};
ghost use Rattle.fs_json.specs.Members.{member_or};
ghost use Rattle.fs_json.specs.Scalars.{small_at, truth_at};

use fs_json::{Bad, member, read_small, read_truth};
use fs_path::Way;
use serde_json::Value;
use std::alloc::Global;

/// A truth value, which is false where it is absent.
pub(crate) fn read_truth_of(
    alloc: Global,
    v: &Value,
    name: &str,
    way: &Way<'_>,
) -> Result<bool, Bad>
    ensures { Gives (λ b. b) result (member_or false truth_at name.now (json v.now) (place_of way.now)) }
{
    match member(alloc, v, name, way)? {
        Some(b) => read_truth(alloc, b, &(*way).member(name)),
        None => Ok(false),
    }
}

/// A 32-bit integer, if it is there.
pub(crate) fn read_small_of(
    alloc: Global,
    v: &Value,
    name: &str,
    way: &Way<'_>,
) -> Result<Option<i32>, Bad>
    ensures { Gives {Y = Option ℤ} (λ n. n) result
        (member_or None (λ x inside. made Some (small_at x inside)) name.now (json v.now) (place_of way.now)) }
{
    match member(alloc, v, name, way)? {
        Some(n) => Ok(Some(read_small(alloc, n, &(*way).member(name))?)),
        None => Ok(None),
    }
}
