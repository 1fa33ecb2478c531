//! The names of operators, as filters have them.
ghost use Rattle.std.specs.Prelude.{◌≡◌, codes};
ghost use Rattle.fs_path.specs.Way.{place_of};
ghost use Rattle.fs_path.specs.declared.place.Rule.TheVariants.{G};
ghost use Rattle.serde_json.specs.View.{view as json};
ghost use Rattle.fs_json.specs.Answer.{Gives, or_fault};
ghost use Rattle.fs_json.specs.Members.{required_as};
ghost use Rattle.fs_queryjson.specs.Op.{is_and_at, is_and_of, is_null_at, is_null_of, op_at, op_of};

use crate::names::{
    AND, ARRAY_CONTAINS, ARRAY_CONTAINS_ANY, EQUAL, GREATER_THAN, GREATER_THAN_OR_EQUAL, IN,
    IS_NOT_NULL, IS_NULL, LESS_THAN, LESS_THAN_OR_EQUAL, NOT_EQUAL, NOT_IN, OP, OR,
};
use fs_json::{Bad, required};
use fs_path::{Rule, Way};
use fs_query::Op;
use serde_json::Value;
use std::alloc::Global;

/// The operator of a field filter, which has to be there. (v1 reference, "StructuredQuery.FieldFilter", `op`.)
pub(crate) fn read_op_of(alloc: Global, v: &Value, way: &Way<'_>) -> Result<Op, Bad>
    ensures { Gives (λ op. op) result (required_as op_at (codes "op") (json v.now) (place_of way.now)) }
{
    let op = required(alloc, v, OP, way)?;
    or_fault(
        alloc,
        op.as_str().and_then(|name| op_of(name)),
        &way.member(OP),
    )
}

/// Whether a unary filter asks for null, and not for any other value. (v1 reference, "StructuredQuery.UnaryFilter", `op`.)
pub(crate) fn read_null_of(alloc: Global, v: &Value, way: &Way<'_>) -> Result<bool, Bad>
    ensures { Gives (λ b. b) result (required_as is_null_at (codes "op") (json v.now) (place_of way.now)) }
{
    let op = required(alloc, v, OP, way)?;
    or_fault(
        alloc,
        op.as_str().and_then(|name| is_null_of(name)),
        &way.member(OP),
    )
}

/// Whether all that a composite filter joins have to hold. (v1 reference, "StructuredQuery.CompositeFilter", `op`.)
pub(crate) fn read_and_of(alloc: Global, v: &Value, way: &Way<'_>) -> Result<bool, Bad>
    ensures { Gives (λ b. b) result (required_as is_and_at (codes "op") (json v.now) (place_of way.now)) }
{
    let op = required(alloc, v, OP, way)?;
    or_fault(
        alloc,
        op.as_str().and_then(|name| is_and_of(name)),
        &way.member(OP),
    )
}

fn op_of(name: &str) -> Option<Op>
    ensures { result ≡ op_of name.now }
{
    match name {
        LESS_THAN => Some(Op::Less),
        LESS_THAN_OR_EQUAL => Some(Op::LessEqual),
        GREATER_THAN => Some(Op::Greater),
        GREATER_THAN_OR_EQUAL => Some(Op::GreaterEqual),
        EQUAL => Some(Op::Equal),
        NOT_EQUAL => Some(Op::NotEqual),
        ARRAY_CONTAINS => Some(Op::ArrayContains),
        IN => Some(Op::In),
        ARRAY_CONTAINS_ANY => Some(Op::ArrayContainsAny),
        NOT_IN => Some(Op::NotIn),
        _ => None,
    }
}

fn is_null_of(name: &str) -> Option<bool>
    ensures { result ≡ is_null_of name.now }
{
    match name {
        IS_NULL => Some(true),
        IS_NOT_NULL => Some(false),
        _ => None,
    }
}

fn is_and_of(name: &str) -> Option<bool>
    ensures { result ≡ is_and_of name.now }
{
    match name {
        AND => Some(true),
        OR => Some(false),
        _ => None,
    }
}

/// What a name means, or that it means nothing.
pub(crate) fn or_fault<T: Drop>(alloc: Global, meaning: Option<T>, way: &Way<'_>) -> Result<T, Bad>
    ensures { Gives (λ x. x) result (or_fault G (place_of way.now) meaning) }
{
    match meaning {
        Some(x) => Ok(x),
        None => Err(Bad::at(alloc, Rule::G, way)),
    }
}
