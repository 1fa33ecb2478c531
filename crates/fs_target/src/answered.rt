//! The view of a query.
ghost use Rattle.std.specs.Prelude.{◌≡◌, IfOk, IsTrue, map};
ghost use Rattle.std.specs.FinMap.{is_sorted, values};
ghost use Rattle.fs_path.specs.NameOrder.{name_cmp};
ghost use Rattle.fs_value.specs.Named.{by_name};
ghost use Rattle.fs_write.specs.Batch.{AreNamed, Docs};
ghost use Rattle.fs_listen.specs.View.{view};
ghost use Rattle.fs_query.specs.declared.target.Target.{Target};
ghost use Rattle.fs_target.specs.Places.{docs_in};

use crate::places::Places;
use fs_query::{Query, answer_among, answers_are_lawful};
use fs_value::Document;
use std::alloc::{AllocError, Global};

/// The view of a query over all documents, which are lent in the order of names: its answer, by names.
pub(crate) fn answered(
    alloc: Global,
    query: &Query,
    docs: &[&Document],
) -> Result<Places, AllocError>
    requires { IsTrue (is_sorted name_cmp (by_name (map (λ d. d.now) docs.now))) }
    ensures { IfOk result (λ p. (all : Docs) → map (λ d. d.now) docs.now ≡ values all → AreNamed all → docs_in p ≡ view (Target.Query query.now) all) }
{
    answers_are_lawful();
    Places::of(alloc, answer_among(alloc, query, docs)?)
}
