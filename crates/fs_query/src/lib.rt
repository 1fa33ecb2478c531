//! Structured queries: whether one is valid, which documents fit it, their order, and the answer.
#![tactic(auto)]

mod answers;
mod census;
mod compare;
mod count;
mod cursor;
mod cursor_rule;
mod disjuncts;
mod field;
mod filter;
mod fits;
mod found;
mod joining;
mod laws;
mod limits;
mod listen;
mod normal;
mod numbers;
mod op;
mod order;
mod peaks;
mod projection;
mod query;
mod rule;
mod rules;
mod target;
mod whole_order;

pub use answers::{answer, answer_among};
pub use compare::compare_docs;
pub use cursor::Cursor;
pub use filter::{Filter, Filters};
pub use fits::matches;
pub use laws::{answers_are_lawful, filters_are_lawful, projections_are_lawful};
pub use listen::{Cause, ListenMessage};
pub use normal::{Normal, normal_form};
pub use numbers::Numbers;
pub use op::Op;
pub use order::{Order, Orders};
pub use projection::project;
pub use query::Query;
pub use rule::QueryRule;
pub use rules::{check, check_with};
pub use target::Target;
