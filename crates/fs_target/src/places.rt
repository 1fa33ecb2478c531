//! Documents by their names, with places for those to come.
ghost use Rattle.std.specs.Prelude.{◌≡◌, ◌++◌, [], OnOk, map};
ghost use Rattle.std.specs.List.{cons_option};
ghost use Rattle.std.specs.Option.{option_copied};
ghost use Rattle.fs_target.specs.Latest.{left_behind};

use crate::event::TimedEvent;
use crate::keys::add_keys;
use crate::latest::Latest;
use crate::place::Place;
use fs_path::DocName;
use fs_time::Micros;
use fs_value::{Document, Documents};
use std::alloc::{AllocError, Global};
use std::collections::{BTreeMap, BTreeSet};
use std::marker::Model;

/// Documents by their names, and places for others, so that these are put in without memory. A place knows up to when it is wanted, so that whether it
/// is given back costs no look at the events. Contracts see a finite map of places, and the documents are those that stand there.
///
///     c/a: {n: 1}, c/b: none until 5     the documents c/a {n: 1}, and room for a c/b
///     put c/a none                       no documents, and room for both
///     give_back c/a and c/b at 4         no documents, and room for a c/b
#[derive(Drop)]
pub(crate) struct Places {
    places: BTreeMap<DocName, Place>,
}

impl Model for Places {
    ghost use Rattle.std.specs.FinMap as map;
    ghost use Rattle.fs_path.specs.NameOrder.{name_cmp};
    ghost use Rattle.fs_target.specs.Places.{places_code};
    ghost use Rattle.fs_target.specs.declared.place.Place.{Place};

    ghost Value = { map.FinMap name_cmp Place };

    ghost coded = { places_code };

    ghost use Rattle.fs_target.specs.Places.{StandNamed};

    ghost view = { λ p. map.from_entries p.places.entries };

    ghost invariant = { λ p. StandNamed p.places.entries };
}

// What stands at a name behind its last event, if there is one.
fn left_behind<'a>(event: Option<&'a TimedEvent>, place: &'a Place) -> Option<&'a Document>
    ensures { option_copied result ≡ left_behind (option_copied event.entry) place.now.document }
{
    match event {
        Some(event) => event.left(),
        None => place.document.as_ref(),
    }
}

fn push_some<'a>(
    lent: &mut Vec<&'a Document>,
    document: Option<&'a Document>,
) -> Result<(), AllocError>
    ensures { OnOk result (map (λ d. d.now) lent.new.items ≡ map (λ d. d.now) lent.old.items ++ cons_option (option_copied document.entry) []) }
{
    if let Some(document) = document {
        lent.push(document)?;
    }
    Ok(())
}

fn set(place: &mut Place, document: Option<Document>)
    ensures { place.new ≡ record place.old { document = document } }
{
    place.document = document;
}

impl Places {
    ghost use Rattle.std.specs.Prelude.{◌≡◌, ℤ, false, int_lt, List, map, IfOk, IfSome, IsTrue, None, OnOk, is_some};
    ghost use Rattle.std.specs.BTreeSet.{contains};
    ghost use Rattle.std.specs.FinMap as finite;
    ghost use Rattle.std.specs.Option.{option_copied};
    ghost use Rattle.fs_path.specs.NameOrder.{name_cmp};
    ghost use Rattle.fs_path.specs.declared.name.DocName.{DocName};
    ghost use Rattle.fs_write.specs.Batch.{AreNamed, Bears, with_document};
    ghost use Rattle.fs_target.specs.Latest.{latest_of};
    ghost use Rattle.fs_target.specs.Places.{HavePlaces, IsPlaced, all_put, docs_in, is_until, stood};
    ghost use Rattle.fs_target.specs.Staged.{gone_over};
    ghost use Rattle.fs_target.specs.declared.event.TimedEvent.{TimedEvent};

    pub(crate) fn new(alloc: Global) -> Places
        ensures { docs_in result ≡ finite.empty }
    {
        Places {
            places: BTreeMap::new(alloc),
        }
    }

    // Puts a document at its name.
    fn insert(&mut self, alloc: Global, document: Document) -> Result<(), AllocError>
        ensures { OnOk result (docs_in self.new ≡ finite.insert (docs_in self.old) document.name document) }
    {
        let name = document.name.copy(alloc)?;
        let place = Place {
            document: Some(document),
            until: None,
        };
        self.places.insert(name, place)?;
        Ok(())
    }

    /// Documents, put one after another.
    pub(crate) fn of(alloc: Global, docs: Documents) -> Result<Places, AllocError>
        ensures { IfOk result (λ p. docs_in p ≡ all_put docs finite.empty) }
    {
        let mut places = Places::new(alloc);
        for document in docs.into_vec() {
            places.insert(alloc, document)?;
        }
        Ok(places)
    }

    pub(crate) fn get(&self, name: &DocName) -> Option<&Document>
        ensures { option_copied result ≡ finite.get (docs_in self.now) name.now }
    {
        match self.places.get(name) {
            Some(place) => place.document.as_ref(),
            None => None,
        }
    }

    // The place of a name stays until a time, where there is one.
    fn stay(&mut self, name: &DocName, time: Micros)
        requires { IsTrue (is_some (finite.get self.old name.now)) }
        ensures same { docs_in self.new ≡ docs_in self.old }
        ensures stays { IsTrue (is_until time (finite.get self.new name.now)) }
        ensures kept { (other : DocName) (t : ℤ) → IsTrue (is_until t (finite.get self.old other)) → IsTrue (is_until t (finite.get self.new other)) }
    {
        let Some(place) = self.places.get_mut(name) else {
            return;
        };
        place.stay(time);
    }

    // Makes a place for a name, until a time.
    fn make(&mut self, alloc: Global, name: &DocName, time: Micros) -> Result<(), AllocError>
        ensures same { docs_in self.new ≡ docs_in self.old }
        ensures ok { OnOk result (IsTrue (is_until time (finite.get self.new name.now))) }
        ensures kept { (other : DocName) (t : ℤ) → IsTrue (is_until t (finite.get self.old other)) → IsTrue (is_until t (finite.get self.new other)) }
    {
        if self.places.contains_key(name) {
            self.stay(name, time);
            return Ok(());
        }
        let place = Place {
            document: None,
            until: Some(time),
        };
        self.places.insert(name.copy(alloc)?, place)?;
        Ok(())
    }

    /// Makes a place for an event that is inside.
    pub(crate) fn make_for(&mut self, alloc: Global, event: &TimedEvent) -> Result<(), AllocError>
        ensures same { docs_in self.new ≡ docs_in self.old }
        ensures ok { OnOk result (IsPlaced self.new event.now) }
        ensures kept { (other : DocName) (t : ℤ) → IsTrue (is_until t (finite.get self.old other)) → IsTrue (is_until t (finite.get self.new other)) }
    {
        if event.inside {
            self.make(alloc, &event.name, event.time)
        } else {
            Ok(())
        }
    }

    /// Puts what stands at a name, where there is a place or nothing is to stand.
    pub(crate) fn put(&mut self, name: &DocName, document: Option<Document>)
        requires place { IsTrue (is_some document) → IsTrue (is_some (finite.get self.old name.now)) }
        requires named { Bears document name.now }
        ensures docs { docs_in self.new ≡ with_document (docs_in self.old) name.now document }
        ensures kept { (other : DocName) (t : ℤ) → IsTrue (is_until t (finite.get self.old other)) → IsTrue (is_until t (finite.get self.new other)) }
    {
        let Some(place) = self.places.get_mut(name) else {
            return;
        };
        set(place, document);
    }

    // Whether nothing stands at the place of a name, nor is to be put there behind a time.
    fn is_free(&self, name: &DocName, time: Micros) -> bool
        ensures empty { IsTrue result → stood (finite.get self.now name.now) ≡ None }
        ensures over { IsTrue result → (t : ℤ) → IsTrue (int_lt time t) → is_until t (finite.get self.now name.now) ≡ false }
    {
        match self.places.get(name) {
            Some(place) => place.is_free(time),
            None => false,
        }
    }

    /// Gives the place of a name back, if nothing stands there, nor is to be put there behind a time. It takes no memory.
    pub(crate) fn give_back(&mut self, name: &DocName, time: Micros)
        ensures docs { docs_in self.new ≡ docs_in self.old }
        ensures kept { (other : DocName) (t : ℤ) → IsTrue (int_lt time t) → IsTrue (is_until t (finite.get self.old other)) → IsTrue (is_until t (finite.get self.new other)) }
    {
        if self.is_free(name, time) {
            drop(self.places.remove(name));
        }
    }

    /// The documents behind events, in the order of names.
    pub(crate) fn documents<'a>(
        &'a self,
        alloc: Global,
        latest: &Latest<'a>,
    ) -> Result<Vec<&'a Document>, AllocError>
        ensures values { IfOk result (λ v. (es : List TimedEvent) → latest.now ≡ latest_of es → HavePlaces self.now es
            → map (λ d. d.now) v.items ≡ finite.values (gone_over es (docs_in self.now))) }
        ensures named { AreNamed (docs_in self.now) }
    {
        let mut lent = Vec::new(alloc);
        for (name, place) in &self.places {
            push_some(&mut lent, left_behind(latest.get(name), place))?;
        }
        Ok(lent)
    }

    /// Adds the names of the documents.
    pub(crate) fn add_names(
        &self,
        alloc: Global,
        names: &mut BTreeSet<DocName>,
    ) -> Result<(), AllocError>
        ensures kept { (name : DocName) → IsTrue (contains name_cmp names.old name) → IsTrue (contains name_cmp names.new name) }
        ensures added { OnOk result ((name : DocName) → IsTrue (is_some (finite.get (docs_in self.now) name)) → IsTrue (contains name_cmp names.new name)) }
    {
        add_keys(alloc, &self.places, names)
    }
}
