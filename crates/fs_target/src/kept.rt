//! What is kept of a target that is loaded.
ghost use Rattle.std.specs.Prelude.{◌≡◌, IfSome, IsTrue, OnOk, is_some};
ghost use Rattle.std.specs.BTreeSet.{contains};
ghost use Rattle.std.specs.FinMap.{get};
ghost use Rattle.std.specs.Option.{option_copied, option_map};
ghost use Rattle.fs_path.specs.NameOrder.{name_cmp};
ghost use Rattle.fs_path.specs.declared.name.DocName.{DocName};
ghost use Rattle.fs_target.specs.Places.{docs_in};
ghost use Rattle.fs_target.specs.Ready.{sent_of};

use crate::answered::answered;
use crate::event::TimedEvent;
use crate::latest::Latest;
use crate::places::Places;
use crate::staged::Staged;
use fs_listen::is_whole;
use fs_path::DocName;
use fs_query::Target;
use fs_time::Micros;
use fs_value::{Document, Documents};
use std::alloc::{AllocError, Global};
use std::collections::BTreeSet;
use std::marker::Model;

/// What is kept of a target that is loaded: the view that its reader was sent, all documents that it listens to at its base, and the events
/// staged behind that. What a feed or a raise changes is made ready first, and then takes no memory:
///
///     the query of c, at 4           documents c/a {n: 1}
///     prepare 5 c/b {n: 2} inside    the same, with a place for c/b
///     take_in                        staged 5 c/b {n: 2}
///     go_to 5                        documents c/a {n: 1}, c/b {n: 2}
#[derive(Drop)]
pub(crate) struct Kept {
    // none where it is that of all documents
    sent: Option<Places>,
    // each event that is staged inside has a place
    places: Places,
    staged: Staged,
    // the view that the next raise sends, where it isn't that of all documents
    next: Option<Places>,
}

impl Model for Kept {
    ghost use Rattle.fs_target.specs.Ready.{Ready, ready_code};

    ghost Value = { Ready };

    ghost coded = { ready_code };

    ghost use Rattle.std.specs.Prelude.{◌≡◌};
    ghost use Rattle.std.specs.Option.{option_map};
    ghost use Rattle.fs_target.specs.Places.{HavePlaces, docs_in};
    ghost use Rattle.fs_target.specs.Ready.{sent_of};

    ghost view = { λ k. record {
      kept = record { sent = sent_of (option_map docs_in k.sent) (docs_in k.places); docs = docs_in k.places; staged = k.staged.staged };
      coming = k.staged.coming;
      next = option_map docs_in k.next;
    } };

    ghost invariant = { λ k. HavePlaces k.places k.staged.staged × HavePlaces k.places k.staged.coming };
}

// The document of a name in a view of its own, or among all documents.
fn document_in<'a>(
    view: &'a Option<Places>,
    places: &'a Places,
    name: &DocName,
) -> Option<&'a Document>
    ensures { option_copied result ≡ get (sent_of (option_map docs_in view.now) (docs_in places.now)) name.now }
{
    match view {
        Some(view) => view.get(name),
        None => places.get(name),
    }
}

// Adds the names of a view of its own, if there is one.
fn add_view(
    alloc: Global,
    view: &Option<Places>,
    names: &mut BTreeSet<DocName>,
) -> Result<(), AllocError>
    ensures kept { (name : DocName) → IsTrue (contains name_cmp names.old name) → IsTrue (contains name_cmp names.new name) }
    ensures added { OnOk result (IfSome view.now (λ v. (name : DocName) → IsTrue (is_some (get (docs_in v) name)) → IsTrue (contains name_cmp names.new name))) }
{
    match view {
        Some(view) => view.add_names(alloc, names),
        None => Ok(()),
    }
}

// Adds the names of the last events, if that is wanted.
fn add_latest(
    alloc: Global,
    wanted: bool,
    latest: &Latest<'_>,
    names: &mut BTreeSet<DocName>,
) -> Result<(), AllocError>
    ensures kept { (name : DocName) → IsTrue (contains name_cmp names.old name) → IsTrue (contains name_cmp names.new name) }
    ensures added { OnOk result (IsTrue wanted → (name : DocName) → IsTrue (is_some (get latest.now name)) → IsTrue (contains name_cmp names.new name)) }
{
    if wanted {
        latest.add_names(alloc, names)
    } else {
        Ok(())
    }
}

// Adds the names of all documents, if that is wanted.
fn add_all(
    alloc: Global,
    wanted: bool,
    places: &Places,
    names: &mut BTreeSet<DocName>,
) -> Result<(), AllocError>
    ensures kept { (name : DocName) → IsTrue (contains name_cmp names.old name) → IsTrue (contains name_cmp names.new name) }
    ensures added { OnOk result (IsTrue wanted → (name : DocName) → IsTrue (is_some (get (docs_in places.now) name)) → IsTrue (contains name_cmp names.new name)) }
{
    if wanted {
        places.add_names(alloc, names)
    } else {
        Ok(())
    }
}

impl Kept {
    ghost use Rattle.std.specs.Prelude.{◌≡◌, ℤ, [], ◌∷◌, ◌++◌, false, None, IfOk, IfSome, IsFalse, IsTrue, OnOk, OnErr};
    ghost use Rattle.std.specs.BTreeSet.{contains};
    ghost use Rattle.std.specs.FinMap.{get, is_sorted};
    ghost use Rattle.std.specs.Option.{option_copied, option_map};
    ghost use Rattle.fs_path.specs.NameOrder.{name_cmp};
    ghost use Rattle.fs_path.specs.declared.name.DocName.{DocName};
    ghost use Rattle.fs_value.specs.Named.{by_name};
    ghost use Rattle.fs_write.specs.Batch.{docs_of};
    ghost use Rattle.fs_target.specs.Kept.{docs_at, kept_at};
    ghost use Rattle.fs_target.specs.Latest.{latest_of};
    ghost use Rattle.fs_target.specs.Places.{docs_in};
    ghost use Rattle.fs_target.specs.Ready.{next_at, sent_of};
    ghost use Rattle.fs_target.specs.Staged.{IsNamed, behind, put_events, up_to};

    /// The view that was sent and all documents that the target listens to, each by rising names.
    pub(crate) fn new(alloc: Global, sent: Documents, docs: Documents) -> Result<Kept, AllocError>
        requires sent { IsTrue (is_sorted name_cmp (by_name sent)) }
        requires docs { IsTrue (is_sorted name_cmp (by_name docs)) }
        ensures kept { IfOk result (λ k. k.kept ≡ record { sent = docs_of sent; docs = docs_of docs; staged = [] }) }
    {
        Ok(Kept {
            sent: Some(Places::of(alloc, sent)?),
            places: Places::of(alloc, docs)?,
            staged: Staged::new(alloc),
            next: None,
        })
    }

    /// The events that are staged.
    pub(crate) fn staged(&self) -> &[TimedEvent]
        ensures { result.now ≡ self.now.kept.staged }
    {
        self.staged.as_slice()
    }

    /// Whether an event is staged behind a time.
    pub(crate) fn are_behind(&self, time: Micros) -> bool
        ensures { IsFalse result → behind time self.now.kept.staged ≡ [] }
    {
        self.staged.are_behind(time)
    }

    /// Makes an event ready to be taken in, behind those that are.
    pub(crate) fn prepare(&mut self, alloc: Global, event: &TimedEvent) -> Result<(), AllocError>
        requires named { IsNamed event.now }
        ensures kept { self.new.kept ≡ self.old.kept }
        ensures ok { OnOk result (self.new.coming ≡ self.old.coming ++ event.now ∷ []) }
    {
        self.places.make_for(alloc, event)?;
        self.staged.prepare(alloc, event)
    }

    /// Forgets the events that were made ready.
    pub(crate) fn forget(&mut self)
        ensures kept { self.new.kept ≡ self.old.kept }
        ensures coming { self.new.coming ≡ [] }
    {
        self.staged.forget();
    }

    /// Takes in the events that were made ready.
    pub(crate) fn take_in(&mut self)
        ensures kept { self.new.kept ≡ record self.old.kept { staged = put_events self.old.coming self.old.kept.staged } }
    {
        self.staged.take_in();
    }

    // The view at a time, where it isn't that of all documents.
    fn next_at(
        &self,
        alloc: Global,
        target: &Target,
        time: Micros,
    ) -> Result<Option<Places>, AllocError>
        ensures { IfOk result (λ v. option_map docs_in v ≡ next_at time target.now self.now.kept) }
    {
        let Target::Query(query) = target else {
            return Ok(None);
        };
        if is_whole(target) {
            return Ok(None);
        }
        let latest = self.latest(alloc, time)?;
        let docs = self.places.documents(alloc, &latest)?;
        Ok(Some(answered(alloc, query, docs.as_slice())?))
    }

    /// Makes the view ready that a raise at a time sends of this target, where it isn't that of all documents.
    pub(crate) fn make_next(
        &mut self,
        alloc: Global,
        target: &Target,
        time: Micros,
    ) -> Result<(), AllocError>
        ensures kept { self.new.kept ≡ self.old.kept }
        ensures ok { OnOk result (self.new.next ≡ next_at time target.now self.old.kept) }
    {
        self.next = self.next_at(alloc, target, time)?;
        Ok(())
    }

    /// Goes to a time, with the view that was made ready for it.
    pub(crate) fn go_to(&mut self, time: Micros)
        ensures kept { self.new.kept ≡ record {
          sent = sent_of self.old.next (docs_at time self.old.kept);
          docs = docs_at time self.old.kept;
          staged = behind time self.old.kept.staged;
        } }
    {
        self.staged.go_to(&mut self.places, time);
        self.sent = self.next.take();
    }

    /// The document of a name in the view that was sent.
    pub(crate) fn sent_at(&self, name: &DocName) -> Option<&Document>
        ensures { option_copied result ≡ get self.now.kept.sent name.now }
    {
        document_in(&self.sent, &self.places, name)
    }

    /// What the staged events come to at a time.
    pub(crate) fn latest(&self, alloc: Global, time: Micros) -> Result<Latest<'_>, AllocError>
        ensures { IfOk result (λ l. l ≡ latest_of (up_to time self.now.kept.staged)) }
    {
        Latest::of(alloc, self.staged.as_slice(), time)
    }

    /// The document of a name in the view that was made ready, by what the staged events come to at its time.
    pub(crate) fn new_at<'a>(&'a self, latest: &Latest<'a>, name: &DocName) -> Option<&'a Document>
        ensures { (time : ℤ) → latest.now ≡ latest_of (up_to time self.now.kept.staged)
            → option_copied result ≡ get (sent_of self.now.next (docs_at time self.now.kept)) name.now }
    {
        match &self.next {
            Some(next) => next.get(name),
            None => match latest.get(name) {
                Some(event) => event.left(),
                None => self.places.get(name),
            },
        }
    }

    /// Adds all names at which the view that was sent and the one that was made ready may differ.
    pub(crate) fn add_names(
        &self,
        alloc: Global,
        latest: &Latest<'_>,
        names: &mut BTreeSet<DocName>,
    ) -> Result<(), AllocError>
        ensures kept { (name : DocName) → IsTrue (contains name_cmp names.old name) → IsTrue (contains name_cmp names.new name) }
        ensures all { OnOk result ((time : ℤ) (name : DocName) → latest.now ≡ latest_of (up_to time self.now.kept.staged) → contains name_cmp names.new name ≡ false
            → get self.now.kept.sent name ≡ get (sent_of self.now.next (docs_at time self.now.kept)) name) }
    {
        add_view(alloc, &self.sent, names)?;
        add_view(alloc, &self.next, names)?;
        add_latest(alloc, self.next.is_none(), latest, names)?;
        let wanted = self.sent.is_some() != self.next.is_some();
        add_all(alloc, wanted, &self.places, names)?;
        Ok(())
    }
}
