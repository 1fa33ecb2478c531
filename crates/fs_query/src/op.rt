//! The operators of field filters.
ghost use Rattle.std.specs.Prelude.{◌≡◌};
ghost use Rattle.fs_query.specs.Normal.{is_inequality};

/// How a field filter compares a field with its operand. (v1 reference, "StructuredQuery.FieldFilter", `op`.)
#[derive(Clone, Copy, PartialEq, Eq)]
pub enum Op {
    Less,
    LessEqual,
    Greater,
    GreaterEqual,
    Equal,
    NotEqual,
    /// The field is an array with an element equal to the operand.
    ArrayContains,
    /// The field equals an element of the operand.
    In,
    /// The field is an array with an element equal to one of the operand's.
    ArrayContainsAny,
    /// The field is there, isn't null, and equals no element of the operand.
    NotIn,
}

/// Whether the field of such a filter joins the order.
pub(crate) fn is_inequality(op: Op) -> bool
    ensures { result ≡ is_inequality op }
{
    match op {
        Op::Less | Op::LessEqual | Op::Greater | Op::GreaterEqual => true,
        Op::NotEqual | Op::NotIn => true,
        _ => false,
    }
}
