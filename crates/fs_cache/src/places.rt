//! Places by names, some of them empty.
ghost use Rattle.std.specs.Prelude.{◌≡◌, ◌++◌, [], false, IsTrue, OnErr, OnOk, Some, is_some, map, option_map};
ghost use Rattle.std.specs.FinMap.{get};
ghost use Rattle.std.specs.List.{cons_option};
ghost use Rattle.std.specs.Option.{option_copied};
ghost use Rattle.fs_path.specs.NameOrder.{name_eq};
ghost use Rattle.fs_path.specs.declared.name.DocName.{DocName};
ghost use Rattle.fs_cache.specs.Cached.{with_cached};
ghost use Rattle.fs_cache.specs.Places.{IsPut, place_at, standing_in};

use crate::cached::CachedDocument;
use fs_path::DocName;
use fs_value::Document;
use std::alloc::{AllocError, Global};
use std::collections::BTreeMap;

pub(crate) type Places = BTreeMap<DocName, Option<CachedDocument>>;

/// What stands at the place of a name.
#[tactic(auto, using(crate::proofs::Laid::look_ups))]
pub(crate) fn standing<'a>(places: &'a Places, name: &DocName) -> Option<&'a CachedDocument>
    ensures { option_copied result ≡ get (standing_in places.now.entries) name.now }
{
    match places.get(name) {
        Some(place) => place.as_ref(),
        None => None,
    }
}

/// Adds the document that stands at a place, if one does.
pub(crate) fn lend<'a>(
    lent: &mut Vec<&'a Document>,
    place: &'a Option<CachedDocument>,
) -> Result<(), AllocError>
    ensures { OnOk result (map (λ d. d.now) lent.new.items ≡ map (λ d. d.now) lent.old.items ++ cons_option (option_map (λ c. c.document) place.now) []) }
{
    if let Some(cached) = place {
        lent.push(&cached.document)?;
    }
    Ok(())
}

/// Puts a place at a name, or another in place of it.
pub(crate) fn insert(
    alloc: Global,
    places: &mut Places,
    name: &DocName,
    place: Option<CachedDocument>,
) -> Result<(), AllocError>
    ensures ok { OnOk result (IsPut places.old.entries places.new.entries name.now (Some place)) }
    ensures err { OnErr result (places.new.entries ≡ places.old.entries) }
{
    places.insert(name.copy(alloc)?, place)?;
    Ok(())
}

/// Makes a place for a name.
pub(crate) fn make_place(
    alloc: Global,
    places: &mut Places,
    name: &DocName,
) -> Result<(), AllocError>
    ensures same { standing_in places.new.entries ≡ standing_in places.old.entries }
    ensures ok { OnOk result (IsTrue (is_some (place_at places.new.entries name.now))) }
    ensures kept { (other : DocName) → IsTrue (is_some (place_at places.old.entries other)) → IsTrue (is_some (place_at places.new.entries other)) }
{
    if places.contains_key(name) {
        return Ok(());
    }
    insert(alloc, places, name, None)?;
    Ok(())
}

/// Puts what is to stand at a name, at which there is a place. It takes no memory.
pub(crate) fn put(places: &mut Places, name: &DocName, next: Option<CachedDocument>)
    requires { IsTrue (is_some (place_at places.old.entries name.now)) }
    ensures value { standing_in places.new.entries ≡ with_cached (standing_in places.old.entries) name.now next }
    ensures others { (other : DocName) → name_eq other name.now ≡ false → place_at places.new.entries other ≡ place_at places.old.entries other }
{
    if next.is_none() {
        drop(places.remove(name));
        return;
    }
    if let Some(place) = places.get_mut(name) {
        *place = next;
    }
}

/// Gives the place of a name back, if nothing stands there. It takes no memory.
pub(crate) fn give_back(places: &mut Places, name: &DocName)
    ensures { standing_in places.new.entries ≡ standing_in places.old.entries }
{
    if standing(places, name).is_none() {
        drop(places.remove(name));
    }
}
