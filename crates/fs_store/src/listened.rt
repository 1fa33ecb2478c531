//! What a target listens to, and what it shows.
ghost use Rattle.std.specs.Prelude.{◌≡◌, ◌≤ℤ◌, List, IfOk, IsTrue, map};
ghost use Rattle.std.specs.FinMap.{is_sorted};
ghost use Rattle.std.specs.List.{filter};
ghost use Rattle.std.specs.List.Sorted.{IsPermutation, IsSortedByKey};
ghost use Rattle.fs_path.specs.NameOrder.{name_cmp};
ghost use Rattle.fs_value.specs.Named.{by_name};
ghost use Rattle.fs_write.specs.Batch.{docs_of};
ghost use Rattle.fs_query.specs.Fits.{fits};
ghost use Rattle.fs_query.specs.declared.target.Target.{Target};
ghost use Rattle.fs_history.specs.History.{at};
ghost use Rattle.fs_history.specs.declared.batch.Batch.{Batch};
ghost use Rattle.fs_match.specs.Event.{is_among};
ghost use Rattle.fs_match.specs.Followed.{docs_fitting};
ghost use Rattle.fs_listen.specs.View.{is_listened, view};
ghost use Rattle.fs_versions.specs.Chains.{chain_of};
ghost use Rattle.fs_versions.specs.Listed.{all_shown};
ghost use Rattle.fs_versions.specs.Shows.{Shows};
ghost use Rattle.fs_store.specs.Held.{AreNamed};

use fs_history::histories_are_lawful;
use fs_listen::is_whole;
use fs_path::{DocName, Names, sorted_names};
use fs_query::{Query, Target, answer_among, answers_are_lawful, matches};
use fs_time::Micros;
use fs_value::{Document, Documents};
use fs_versions::Versions;
use std::alloc::{AllocError, Global};
use std::collections::BTreeSet;

// Of documents those that fit a query.
fn fitting(alloc: Global, query: &Query, documents: &[&Document]) -> Result<Documents, AllocError>
    ensures { IfOk result (λ ds. ds ≡ filter (fits query.now) (map (λ d. d.now) documents.now)) }
{
    let mut fitting = Documents::new(alloc);
    for document in documents {
        if matches(query, *document) {
            fitting.push(document.copy(alloc)?)?;
        }
    }
    Ok(fitting)
}

// All documents that fit a query, by rising names.
fn all_fitting(
    alloc: Global,
    versions: &Versions,
    query: &Query,
    time: Micros,
) -> Result<Documents, AllocError>
    requires from { versions.now.chains.floor ≤ℤ time }
    requires named { AreNamed versions.now.chains }
    ensures sorted { IfOk result (λ ds. IsTrue (is_sorted name_cmp (by_name ds))) }
    ensures shows { IfOk result (λ ds. (h : List Batch) → Shows h versions.now.chains → docs_of ds ≡ docs_fitting (fits query.now) (at h time)) }
{
    histories_are_lawful();
    let documents = versions.documents_in(alloc, &query.scope, time)?;
    fitting(alloc, query, documents.as_slice())
}

// Puts documents into the order of names.
fn in_order(documents: Documents) -> Result<Documents, AllocError>
    ensures moved { IfOk result (λ ds. IsPermutation documents ds) }
    ensures rise { IfOk result (λ ds. IsSortedByKey (λ d. d.name) name_cmp ds) }
{
    let mut items = documents.into_vec();
    items.sort_by(|a, b| a.name.cmp(&b.name))?;
    Ok(Documents::of(items))
}

// The answer to a query, by rising names.
fn answered(
    alloc: Global,
    versions: &Versions,
    query: &Query,
    time: Micros,
) -> Result<Documents, AllocError>
    requires from { versions.now.chains.floor ≤ℤ time }
    requires named { AreNamed versions.now.chains }
    ensures sorted { IfOk result (λ ds. IsTrue (is_sorted name_cmp (by_name ds))) }
    ensures shows { IfOk result (λ ds. (h : List Batch) → Shows h versions.now.chains → docs_of ds ≡ view (Target.Query query.now) (at h time)) }
{
    histories_are_lawful();
    answers_are_lawful();
    let documents = versions.documents_in(alloc, &query.scope, time)?;
    in_order(answer_among(alloc, query, documents.as_slice())?)
}

// The documents that stand at names.
fn standing(
    alloc: Global,
    versions: &Versions,
    names: &BTreeSet<&DocName>,
    time: Micros,
) -> Result<Documents, AllocError>
    requires { versions.now.chains.floor ≤ℤ time }
    ensures { IfOk result (λ ds. ds ≡ all_shown time (map (λ name. (name, chain_of versions.now.chains name)) (map (λ n. n.now) names.now.keys))) }
{
    let mut documents = Documents::new(alloc);
    for name in names {
        if let Some(document) = versions.at(*name, time) {
            documents.push(document.copy(alloc)?)?;
        }
    }
    Ok(documents)
}

// The documents that there are of names, by rising names.
fn all_named(
    alloc: Global,
    versions: &Versions,
    names: &Names,
    time: Micros,
) -> Result<Documents, AllocError>
    requires from { versions.now.chains.floor ≤ℤ time }
    requires named { AreNamed versions.now.chains }
    ensures sorted { IfOk result (λ ds. IsTrue (is_sorted name_cmp (by_name ds))) }
    ensures shows { IfOk result (λ ds. (h : List Batch) → Shows h versions.now.chains → docs_of ds ≡ docs_fitting (is_among names.now) (at h time)) }
{
    histories_are_lawful();
    let sorted = sorted_names(alloc, names)?;
    standing(alloc, versions, &sorted, time)
}

/// All documents that a target listens to at a time, by rising names.
pub(crate) fn listened(
    alloc: Global,
    versions: &Versions,
    target: &Target,
    time: Micros,
) -> Result<Documents, AllocError>
    requires from { versions.now.chains.floor ≤ℤ time }
    requires named { AreNamed versions.now.chains }
    ensures sorted { IfOk result (λ ds. IsTrue (is_sorted name_cmp (by_name ds))) }
    ensures shows { IfOk result (λ ds. (h : List Batch) → Shows h versions.now.chains → docs_of ds ≡ docs_fitting (is_listened target.now) (at h time)) }
{
    match target {
        Target::Query(query) => all_fitting(alloc, versions, query, time),
        Target::Documents(names) => all_named(alloc, versions, names, time),
    }
}

/// The view of a target at a time, by rising names.
pub(crate) fn view(
    alloc: Global,
    versions: &Versions,
    target: &Target,
    time: Micros,
) -> Result<Documents, AllocError>
    requires from { versions.now.chains.floor ≤ℤ time }
    requires named { AreNamed versions.now.chains }
    ensures sorted { IfOk result (λ ds. IsTrue (is_sorted name_cmp (by_name ds))) }
    ensures shows { IfOk result (λ ds. (h : List Batch) → Shows h versions.now.chains → docs_of ds ≡ view target.now (at h time)) }
{
    histories_are_lawful();
    answers_are_lawful();
    if is_whole(target) {
        return listened(alloc, versions, target, time);
    }
    match target {
        Target::Query(query) => answered(alloc, versions, query, time),
        Target::Documents(names) => all_named(alloc, versions, names, time),
    }
}
