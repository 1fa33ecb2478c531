//! The rule that a query breaks.

/// A rule of queries, by its number, with the count that the rule tells: the values of NOT_IN at rule 4, and the disjuncts
/// at rule 5.
/// (docs/DECISIONS.md, "A broken rule has a number only where its text tells one".)
#[derive(Clone, Copy, PartialEq, Eq, Debug)]
pub struct QueryRule {
    pub number: u8,
    pub count: Option<u64>,
}
