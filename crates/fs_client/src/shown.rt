//! What a client shows.
ghost use Rattle.std.specs.Prelude.{◌≡◌, IfOk, List, map};
ghost use Rattle.std.specs.FinMap.{get};
ghost use Rattle.std.specs.List.{list_any};
ghost use Rattle.std.specs.List.Sorted.{IsStrictlySortedBy};
ghost use Rattle.std.specs.Option.{option_copied};
ghost use Rattle.fs_path.specs.NameOrder.{name_cmp, name_eq};
ghost use Rattle.fs_path.specs.declared.name.DocName.{DocName};
ghost use Rattle.fs_write.specs.Batch.{Docs};
ghost use Rattle.fs_cache.specs.Cached.{documents};
ghost use Rattle.fs_local.specs.Shown.{pending_of, shown};
ghost use Rattle.fs_queue.specs.Overlay.{IsOverlay, laid, overlay};
ghost use Rattle.fs_queue.specs.declared.batch.LocalBatch.{LocalBatch};

use fs_cache::Cache;
use fs_path::{DocName, Names, sorted_names};
use fs_query::{Query, Target, answer_among, answers_are_lawful};
use fs_queue::{Overlay, Shelf};
use fs_value::{Document, Documents};
use std::alloc::{AllocError, Global};

/// The documents of a client's last snapshot.
#[derive(Drop)]
pub(crate) struct Taken<'a> {
    pub cache: &'a Cache,
}

impl<'a> Shelf for Taken<'a> {
    ghost docs = { λ t. documents t.cache.now };

    fn find(&self, name: &DocName) -> Option<&Document> {
        self.cache.get(name)
    }
}

// The answer to a query over the documents of the cache with the overlay.
fn answered(
    alloc: Global,
    cache: &Cache,
    left: &Overlay,
    query: &Query,
) -> Result<Documents, AllocError>
    ensures { IfOk result (λ ds. (bs : List LocalBatch) → IsOverlay (documents cache.now) bs left.now
        → ds ≡ shown (Target.Query query.now) (overlay (documents cache.now) bs)) }
{
    answers_are_lawful();
    cache.documents_are_named();
    let docs = cache.lent(alloc)?;
    let shown = left.over(alloc, docs.as_slice())?;
    answer_among(alloc, query, shown.as_slice())
}

// What stands at a name: what the overlay leaves there, else the document of the cache.
fn standing<'a>(cache: &'a Cache, left: &'a Overlay, name: &DocName) -> Option<&'a Document>
    ensures { option_copied result ≡ laid (get left.now name.now) (get (documents cache.now) name.now) }
{
    match left.get(name) {
        Some(there) => there.as_ref(),
        None => cache.get(name),
    }
}

// The documents that there are of some names.
fn named(
    alloc: Global,
    cache: &Cache,
    left: &Overlay,
    names: &Names,
) -> Result<Documents, AllocError>
    ensures { IfOk result (λ ds. (bs : List LocalBatch) → IsOverlay (documents cache.now) bs left.now
        → ds ≡ shown (Target.Documents names.now) (overlay (documents cache.now) bs)) }
{
    cache.documents_are_named();
    let sorted = sorted_names(alloc, names)?;
    let mut docs = Documents::new(alloc);
    for name in &sorted {
        if let Some(document) = standing(cache, left, *name) {
            docs.push(document.copy(alloc)?)?;
        }
    }
    Ok(docs)
}

/// The documents that a target shows over those of the cache with the overlay.
pub(crate) fn shown(
    alloc: Global,
    cache: &Cache,
    left: &Overlay,
    target: &Target,
) -> Result<Documents, AllocError>
    ensures { IfOk result (λ ds. (bs : List LocalBatch) → IsOverlay (documents cache.now) bs left.now
        → ds ≡ shown target.now (overlay (documents cache.now) bs)) }
{
    match target {
        Target::Query(query) => answered(alloc, cache, left, query),
        Target::Documents(names) => named(alloc, cache, left, names),
    }
}

/// The names of documents that the overlay has.
pub(crate) fn pending(alloc: Global, left: &Overlay, docs: &Documents) -> Result<Names, AllocError>
    ensures { IfOk result (λ names. (shelf : Docs) (bs : List LocalBatch) → IsOverlay shelf bs left.now → names ≡ pending_of bs docs.now) }
{
    let mut names = Names::new(alloc);
    for document in docs.as_slice() {
        if left.get(&document.name).is_some() {
            names.push(document.name.copy(alloc)?)?;
        }
    }
    Ok(names)
}
