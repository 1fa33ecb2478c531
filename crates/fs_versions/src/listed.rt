//! The documents of a scope, in the order of their names.
ghost use Rattle.std.specs.Prelude.{◌≡◌, ◌++◌, ◌∷◌, [], IsTrue, IfOk, IfSome, false, map};
ghost use Rattle.std.specs.BTreeMap.{keys};
ghost use Rattle.std.specs.FinMap.{entries};
ghost use Rattle.std.specs.List.{All, AllByRecursion, filter};
ghost use Rattle.fs_path.specs.Scope.{covers};
ghost use Rattle.fs_path.specs.Segment.{has_slash};
ghost use Rattle.fs_versions.specs.Between.{beside, IsBeside, AreBounds, LieBetween};
ghost use Rattle.fs_versions.specs.Listed.{all_shown};
ghost use Rattle.fs_versions.specs.Sound.{chains_of, lists_of};

use crate::chain::Chain;
use fs_path::{DocName, Ids, Root, Scope, Text, covers};
use fs_time::Micros;
use fs_value::Document;
use std::alloc::{AllocError, Global};
use std::collections::{BTreeMap, btree_map};
use std::ops::Range;

// Those that are shown at a time, of the names that a walk goes over.
fn shown_in<'a>(
    alloc: Global,
    walk: btree_map::Range<'a, DocName, Chain>,
    scope: &Scope,
    time: Micros,
) -> Result<Vec<&'a Document>, AllocError>
    ensures { IfOk result (λ v. map (λ d. d.now) v.items ≡ all_shown time (lists_of (filter (λ e. covers scope.now e.0) walk.entry))) }
{
    let mut documents = Vec::new(alloc);
    for (name, chain) in walk {
        if covers(scope, name)
            && let Some(document) = chain.shown(time)
        {
            documents.push(document)?;
        }
    }
    Ok(documents)
}

// Whether no id has a slash.
fn are_whole(ids: &[Text]) -> bool
    ensures { IsTrue result → AllByRecursion (λ id. has_slash id ≡ false) ids.now }
{
    ids.iter().all(|id| !id.as_str().as_bytes().contains(&b'/'))
}

// The root of a name.
fn root_of(alloc: Global, name: &DocName) -> Result<Root, AllocError>
    ensures project { IfOk result (λ r. r.project ≡ name.now.project) }
    ensures database { IfOk result (λ r. r.database ≡ name.now.database) }
    ensures whole { IfOk result (λ r. (has_slash r.project ≡ false) × (has_slash r.database ≡ false)) }
{
    Ok(Root {
        project: Text::from_str(alloc, name.project())?,
        database: Text::from_str(alloc, name.database())?,
    })
}

// The name of these ids in the database of another name, if no id has a slash.
fn name_beside(alloc: Global, name: &DocName, ids: &Ids) -> Result<Option<DocName>, AllocError>
    ensures { IfOk result (λ r. IfSome r (λ n. n ≡ beside name.now ids.now)) }
{
    if !are_whole(ids.as_slice()) {
        return Ok(None);
    }
    let root = root_of(alloc, name)?;
    Ok(Some(DocName::new(alloc, &root, ids)?))
}

// The name of a parent's document or collection in the database of another name, if no id has a slash.
fn name_below(
    alloc: Global,
    name: &DocName,
    parent: &Ids,
    id: Text,
) -> Result<Option<DocName>, AllocError>
    ensures { IfOk result (λ r. IfSome r (λ n. n ≡ beside name.now (parent.now ++ id ∷ []))) }
{
    let mut ids = parent.copy(alloc)?;
    ids.push(id)?;
    name_beside(alloc, name, &ids)
}

// The id behind another and all that lies below it: it has a zero byte more.
fn id_behind(alloc: Global, id: &Text) -> Result<Text, AllocError>
    ensures { IfOk result (λ t. t ≡ id.now ++ 0 ∷ []) }
{
    let mut longer = String::from_str(alloc, id.as_str())?;
    longer.push_str("\0")?;
    Ok(Text::of(longer))
}

// The range of a collection's names in the database of a name.
//
//     c        from c up to c\0:      c/a   c/a/d/x   c/b      but not c\0/a, c-/a or c2/a
fn range_of(
    alloc: Global,
    scope: &Scope,
    name: &DocName,
) -> Result<Option<Range<DocName>>, AllocError>
    ensures { IfOk result (λ r. IfSome r (λ b. AreBounds scope.now name.now b.start b.end)) }
{
    let Scope::Collection { parent, id } = scope else {
        return Ok(None);
    };
    let start = name_below(alloc, name, parent, id.copy(alloc)?)?;
    let end = name_below(alloc, name, parent, id_behind(alloc, id)?)?;
    match (start, end) {
        (Some(start), Some(end)) => Ok(Some(start..end)),
        _ => Ok(None),
    }
}

// The first name, if all are of its database.
fn first_of_one(chains: &BTreeMap<DocName, Chain>) -> Option<&DocName>
    ensures { IfSome result (λ n. All (IsBeside n.now) (keys chains.now)) }
{
    let (Some((first, _)), Some((last, _))) = (chains.first_key_value(), chains.last_key_value())
    else {
        return None;
    };
    if last.project() == first.project() && last.database() == first.database() {
        Some(first)
    } else {
        None
    }
}

// A range in which all names of a scope lie, if it isn't to be sought among all.
fn range_in(
    alloc: Global,
    chains: &BTreeMap<DocName, Chain>,
    scope: &Scope,
) -> Result<Option<Range<DocName>>, AllocError>
    ensures { IfOk result (λ r. IfSome r (λ b. LieBetween scope.now chains.now.entries b.start b.end)) }
{
    match first_of_one(chains) {
        Some(name) => range_of(alloc, scope, name),
        None => Ok(None),
    }
}

// The documents in a scope that chains show at a time. A collection is one range of their names, if all are of one database.
pub(crate) fn documents_in<'a>(
    alloc: Global,
    chains: &'a BTreeMap<DocName, Chain>,
    scope: &Scope,
    time: Micros,
) -> Result<Vec<&'a Document>, AllocError>
    ensures { IfOk result (λ v. map (λ d. d.now) v.items ≡ all_shown time (filter (λ e. covers scope.now e.0) (entries (chains_of chains.now.entries)))) }
{
    match range_in(alloc, chains, scope)? {
        Some(range) => shown_in(alloc, chains.range(range), scope, time),
        None => shown_in(alloc, chains.range(..), scope, time),
    }
}
