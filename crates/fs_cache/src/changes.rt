//! What is to stand at places, beside what does.
ghost use Rattle.std.specs.Prelude.{◌≡◌, ◌∷◌, [], IfOk};
ghost use Rattle.std.specs.FinMap.{get};
ghost use Rattle.std.specs.Option.{option_copied};
ghost use Rattle.fs_cache.specs.Cached.{Had, all_left_by};
ghost use Rattle.fs_cache.specs.Places.{HavePlaces, Places, laid_on, staged_in, standing_in};

use crate::cached::{CachedDocument, forget, is_left, left_by};
use crate::places::{Places, give_back, insert, put, standing};
use fs_path::DocName;
use std::alloc::{AllocError, Global};
use std::collections::BTreeMap;

/// What is staged at a name: what is to stand there, or else what does.
#[tactic(auto, using(crate::proofs::Laid::look_ups))]
pub(crate) fn staged<'a>(
    places: &'a Places,
    changes: &'a Places,
    name: &DocName,
) -> Option<&'a CachedDocument>
    ensures { option_copied result ≡ get (staged_in places.now.entries changes.now.entries) name.now }
{
    match changes.get(name) {
        Some(next) => next.as_ref(),
        None => standing(places, name),
    }
}

/// What is to stand at places once some targets have no document any longer. It is said of those places alone at which it is another then, or
/// at which something was to stand.
pub(crate) fn all_left_by(
    alloc: Global,
    gone: &[u32],
    places: &Places,
    changes: &Places,
) -> Result<Places, AllocError>
    requires { HavePlaces places.now.entries changes.now.entries }
    ensures staged { IfOk result (λ next. staged_in places.now.entries next.entries ≡ all_left_by gone.now (staged_in places.now.entries changes.now.entries)) }
    ensures placed { IfOk result (λ next. HavePlaces places.now.entries next.entries) }
{
    let mut all = BTreeMap::new(alloc);
    for name in places.keys() {
        let had = staged(places, changes, name);
        if changes.contains_key(name) || is_left(gone, had) {
            let next = left_by(alloc, gone, had)?;
            insert(alloc, &mut all, name, next)?;
        }
    }
    Ok(all)
}

/// Puts what is to stand at places. It takes no memory.
pub(crate) fn put_all(places: &mut Places, changes: Places)
    requires { HavePlaces places.old.entries changes.entries }
    ensures { standing_in places.new.entries ≡ staged_in places.old.entries changes.entries }
{
    for (name, next) in changes {
        put(places, &name, next);
    }
}

/// Gives those places back at which something was to stand and nothing does. It takes no memory.
pub(crate) fn give_back_all(places: &mut Places, changes: Places)
    ensures { standing_in places.new.entries ≡ standing_in places.old.entries }
{
    for name in changes.into_keys() {
        give_back(places, &name);
    }
}

/// A target has none of what stands at places any longer. The places stay at which something does, or is to. It takes no memory.
pub(crate) fn forget_standing(places: &mut Places, changes: &Places, target: u32)
    ensures standing { standing_in places.new.entries ≡ all_left_by (target ∷ []) (standing_in places.old.entries) }
    ensures placed { HavePlaces places.old.entries changes.now.entries → HavePlaces places.new.entries changes.now.entries }
{
    places.retain(|name, place| {
        forget(place, target);
        place.is_some() || changes.contains_key(name)
    });
}

/// A target has none of what is to stand at places any longer. It takes no memory.
pub(crate) fn forget_changes(changes: &mut Places, target: u32)
    ensures staged { (docs : Had) → laid_on (all_left_by (target ∷ []) docs) changes.new.entries ≡ all_left_by (target ∷ []) (laid_on docs changes.old.entries) }
    ensures placed { (places : Places) → HavePlaces places changes.old.entries → HavePlaces places changes.new.entries }
{
    changes.retain(|_, next| {
        forget(next, target);
        true
    });
}
