//! What the batches of a client make of its documents.
ghost use Rattle.std.specs.Prelude.{◌≡◌, ◌≤◌, IfOk, IsTrue, None, length, map};
ghost use Rattle.std.specs.FinMap.{get, is_sorted};
ghost use Rattle.std.specs.Option.{option_copied};
ghost use Rattle.fs_path.specs.NameOrder.{name_cmp};
ghost use Rattle.fs_value.specs.Named.{by_name};
ghost use Rattle.fs_write.specs.Batch.{Bears};
ghost use Rattle.fs_queue.specs.Overlay.{laid};
ghost use Rattle.fs_queue.specs.Parted.{IsParted};

use crate::batch::LocalBatch;
use crate::shelf::Shelf;
use fs_path::DocName;
use fs_time::Micros;
use fs_value::{Document, Documents};
use fs_write::{Write, copy_document, write_locally};
use std::alloc::{AllocError, Global};
use std::collections::BTreeMap;
use std::marker::Model;

/// What the batches of a client leave at the names that they write, each a document or none. It costs what the batches write, whatever the
/// number of documents is over which it stands.
///
///     over c/a {n: 1}, c/b {n: 1}      a batch increments n of c/a and deletes c/b, another sets c/d {}
///     the overlay                      c/a {n: 2}, c/b: none, c/d {}
#[derive(Drop)]
pub struct Overlay {
    left: BTreeMap<DocName, Option<Document>>,
}

impl Model for Overlay {
    ghost use Rattle.std.specs.FinMap.{from_entries};
    ghost use Rattle.fs_queue.specs.Overlay.{AreBorne, Left, left_code};

    ghost Value = { Left };

    ghost coded = { left_code };

    ghost view = { λ o. from_entries o.left.entries };

    ghost invariant = { λ o. AreBorne (from_entries o.left.entries) };
}

// What stands at a name: what is left there, else what stands on the shelf.
fn standing<S: Shelf>(
    alloc: Global,
    shelf: &S,
    left: Option<&Option<Document>>,
    name: &DocName,
) -> Result<Option<Document>, AllocError>
    ensures value { IfOk result (λ d. d ≡ laid (option_copied left.entry) (get (S.docs shelf.now) name.now)) }
    ensures named { Bears (laid (option_copied left.entry) None) name.now → IfOk result (λ d. Bears d name.now) }
{
    match left {
        Some(left) => copy_document(alloc, left),
        None => match shelf.find(name) {
            Some(there) => Ok(Some(there.copy(alloc)?)),
            None => Ok(None),
        },
    }
}

// How many of some documents whose names rise are below a name, and how many aren't above it.
fn places(docs: &[&Document], name: &DocName) -> (usize, usize)
    requires { IsTrue (is_sorted name_cmp (by_name (map (λ d. d.now) docs.now))) }
    ensures ordered { result.0 ≤ result.1 }
    ensures within { result.1 ≤ length docs.now }
    ensures parted { IsParted name.now (map (λ d. d.now) docs.now) result.0 result.1 }
{
    match docs.binary_search_by(|document| document.name.cmp(name)) {
        Ok(i) => (i, i + 1),
        Err(i) => (i, i),
    }
}

impl Overlay {
    ghost use Rattle.std.specs.Prelude.{◌≡◌, ◌∷◌, ◌++◌, [], IfOk, IfSome, IsTrue, List, OnOk, map};
    ghost use Rattle.std.specs.FinMap.{FinMap, empty, get, insert, is_sorted, values};
    ghost use Rattle.std.specs.Option.{option_copied};
    ghost use Rattle.fs_path.specs.NameOrder.{name_cmp};
    ghost use Rattle.fs_path.specs.declared.name.DocName.{DocName};
    ghost use Rattle.fs_value.specs.Named.{by_name};
    ghost use Rattle.fs_write.specs.Batch.{Docs, docs_of};
    ghost use Rattle.fs_write.specs.Local.{written_locally};
    ghost use Rattle.fs_write.specs.WrittenName.{written_name};
    ghost use Rattle.fs_queue.specs.Overlay.{IsOverlay, laid};
    ghost use Rattle.fs_queue.specs.declared.batch.LocalBatch.{LocalBatch};

    /// What no batches leave. The allocator serves what comes.
    pub(crate) fn new(alloc: Global) -> Overlay
        ensures { result ≡ empty }
    {
        Overlay {
            left: BTreeMap::new(alloc),
        }
    }

    /// One write more, at a moment.
    pub(crate) fn write<S: Shelf>(
        &mut self,
        alloc: Global,
        shelf: &S,
        write: &Write,
        moment: Micros,
    ) -> Result<(), AllocError>
        ensures { OnOk result (self.new ≡ insert self.old (written_name write.now)
            (written_locally (laid (get self.old (written_name write.now)) (get (S.docs shelf.now) (written_name write.now))) write.now moment)) }
    {
        let name = write.name();
        let there = standing(alloc, shelf, self.left.get(name), name)?;
        let left = write_locally(alloc, &there, write, moment)?;
        self.left.insert(name.copy(alloc)?, left)?;
        Ok(())
    }

    // The writes of one batch more.
    pub(crate) fn add<S: Shelf>(
        &mut self,
        alloc: Global,
        shelf: &S,
        batch: &LocalBatch,
    ) -> Result<(), AllocError>
        ensures { OnOk result ((bs : List LocalBatch) → IsOverlay (S.docs shelf.now) bs self.old → IsOverlay (S.docs shelf.now) (bs ++ batch.now ∷ []) self.new) }
    {
        for write in batch.writes.as_slice() {
            self.write(alloc, shelf, write, batch.moment)?;
        }
        Ok(())
    }

    /// What is left at a name that is written.
    pub fn get(&self, name: &DocName) -> Option<&Option<Document>>
        ensures { option_copied result ≡ get self.now name.now }
    {
        self.left.get(name)
    }

    /// Documents whose names rise, with what is left in place of those that are written, by rising names. None is copied.
    pub fn over<'a>(
        &'a self,
        alloc: Global,
        docs: &[&'a Document],
    ) -> Result<Vec<&'a Document>, AllocError>
        requires { IsTrue (is_sorted name_cmp (by_name (map (λ d. d.now) docs.now))) }
        ensures value { IfOk result (λ v. (after : Docs) → ((q : DocName) → laid (get self.now q) (get (docs_of (map (λ d. d.now) docs.now)) q) ≡ get after q)
            → map (λ d. d.now) v.items ≡ values after) }
        ensures rise { IfOk result (λ v. IsTrue (is_sorted name_cmp (by_name (map (λ d. d.now) v.items)))) }
    {
        let mut shown = Vec::with_capacity(alloc, docs.len())?;
        // the names that are left rise too, so each has its place behind that of the one before it
        let mut from = 0;
        for (name, left) in &self.left {
            let rest = &docs[from..];
            let (below, passed) = places(rest, name);
            shown.extend_from_slice(&rest[..below])?;
            if let Some(document) = left {
                shown.push(document)?;
            }
            from += passed;
        }
        shown.extend_from_slice(&docs[from..])?;
        Ok(shown)
    }

    /// The same of documents in a list, copied. (They share their fields with those here.)
    pub fn documents(&self, alloc: Global, docs: &Documents) -> Result<Documents, AllocError>
        requires { IsTrue (is_sorted name_cmp (by_name docs.now)) }
        ensures { IfOk result (λ ds. (after : Docs) → ((q : DocName) → laid (get self.now q) (get (docs_of docs.now) q) ≡ get after q) → ds ≡ values after) }
    {
        let lent = docs.lent(alloc)?;
        Documents::copied(alloc, self.over(alloc, lent.as_slice())?.as_slice())
    }
}
