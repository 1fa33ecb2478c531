//! Answers to queries.
ghost use Rattle.std.specs.Prelude.{◌≡◌, ◌<◌, ◌≤ℤ◌, IfOk, List};
ghost use Rattle.std.specs.FinMap.{values};
ghost use Rattle.fs_history.specs.History.{at};
ghost use Rattle.fs_history.specs.declared.batch.Batch.{Batch};
ghost use Rattle.fs_query.specs.AnswerTo.{answer_to};
ghost use Rattle.fs_store.specs.Shows.{Shows};

use fs_edge::Steps;
use fs_history::histories_are_lawful;
use fs_query::{Query, answers_are_lawful};
use fs_store::Store;
use fs_time::Micros;
use fs_value::Documents;
use std::alloc::{AllocError, Global};
use std::marker::Brand;
use std::sync::ledger::{Blank, Ledger};

// Nobody counts its steps.
fn answer_uncounted<L: Ledger>(
    alloc: Global,
    store: &Store,
    query: &Query,
    time: Micros,
    blank: Blank,
) -> Result<Documents, AllocError>
    requires name { blank.name ≡ L.name }
    requires parts { blank.parts ≡ L.parts }
    requires some { 0 < blank.parts }
    requires from { store.now.stored.chains.floor ≤ℤ time }
    requires to { time ≤ℤ store.now.stored.absorbed }
    ensures { IfOk result (λ ds. (h : List Batch) → Shows h store.now.stored → ds ≡ answer_to query.now (values (at h time))) }
{
    histories_are_lawful();
    answers_are_lawful();
    let mut steps: Steps<L> = Steps::new(blank);
    store.run(alloc, query, time, &mut steps)
}

/// The answer to a query at a time that a store can be read at.
pub(crate) fn answer_at(
    alloc: Global,
    store: &Store,
    query: &Query,
    time: Micros,
) -> Result<Documents, AllocError>
    requires from { store.now.stored.chains.floor ≤ℤ time }
    requires to { time ≤ℤ store.now.stored.absorbed }
    ensures { IfOk result (λ ds. (h : List Batch) → Shows h store.now.stored → ds ≡ answer_to query.now (values (at h time))) }
{
    answer_uncounted::<Brand>(alloc, store, query, time, Blank::new(1))
}
