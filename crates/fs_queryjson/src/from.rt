//! The collections that a query goes over.
ghost use Rattle.std.specs.Prelude.{◌≡◌, List, [], IfOk, codes};
ghost use Rattle.fs_path.specs.Way.{place_of};
ghost use Rattle.fs_path.specs.declared.scope.Scope.{Scope as Covered};
ghost use Rattle.fs_path.specs.declared.scope.Scope.TheVariants.{Collection};
ghost use Rattle.serde_json.specs.View.{view as json};
ghost use Rattle.fs_json.specs.Answer.{Gives};
ghost use Rattle.fs_queryjson.specs.From.{scope_at, scope_of, scopes_in, the_scope};
ghost use Rattle.fs_json.specs.Scalars.{text_at};
ghost use Rattle.fs_json.specs.Members.{member_or};

use crate::member::read_truth_of;
use crate::names::{ALL_DESCENDANTS, COLLECTION_ID, FROM, FROM_MEMBERS};
use fs_json::{Bad, ReadsItem, member, only, read_each, read_text};
use fs_path::{Ids, Scope, Text, Way};
use serde_json::Value;
use std::alloc::{AllocError, Global};

/// The scopes that `from` gives, each below the parent. There are none where it is absent.
/// (docs/DECISIONS.md, "What `from` gives, where it hasn't just one entry, is the collection of the empty id".)
pub(crate) fn read_scopes_of(
    alloc: Global,
    parent: &Ids,
    query: &Value,
    way: &Way<'_>,
) -> Result<Vec<Scope>, Bad>
    ensures { Gives {Y = List Covered} (λ l. l.items) result
        (scopes_in parent.now (json query.now) (place_of way.now)) }
{
    match member(alloc, query, FROM, way)? {
        Some(from) => {
            let scopes = read_each(alloc, &ScopeReader { parent }, from, &way.member(FROM))?;
            Ok(scopes.into_vec())
        }
        None => Ok(Vec::new(alloc)),
    }
}

/// The collection of the empty id, which is no id.
pub(crate) fn no_scope(alloc: Global, parent: Ids) -> Scope
    ensures { result ≡ Collection parent [] }
{
    Scope::Collection {
        parent,
        id: Text::of(String::new(alloc)),
    }
}

/// The one scope of a query. Where there is none or more than one, it is the collection of the empty id, so rule 1 of
/// queries is broken.
pub(crate) fn the_scope(
    alloc: Global,
    parent: &Ids,
    mut scopes: Vec<Scope>,
) -> Result<Scope, AllocError>
    ensures { IfOk result (λ s. s ≡ the_scope parent.now scopes.items) }
{
    match scopes.pop() {
        Some(scope) if scopes.is_empty() => Ok(scope),
        _ => Ok(no_scope(alloc, parent.copy(alloc)?)),
    }
}

/// Reads a scope of a list, below the parent.
#[derive(Drop)]
struct ScopeReader<'a> {
    parent: &'a Ids,
}

impl ReadsItem for ScopeReader<'_> {
    type Item = Scope;

    ghost reading = { λ reader. scope_at reader.parent.now };

    fn read(&self, alloc: Global, item: &Value, way: &Way<'_>) -> Result<Scope, Bad> {
        read_scope(alloc, self.parent, item, way)
    }
}

/// Reads a scope: one collection, or all of an id below the parent. (v1 reference, "StructuredQuery.CollectionSelector".)
fn read_scope(alloc: Global, parent: &Ids, v: &Value, way: &Way<'_>) -> Result<Scope, Bad>
    ensures { Gives (λ s. s) result (scope_at parent.now (json v.now) (place_of way.now)) }
{
    only(alloc, v, &FROM_MEMBERS, way)?;
    let id = read_id_of(alloc, v, way)?;
    let all = read_truth_of(alloc, v, ALL_DESCENDANTS, way)?;
    Ok(scope_of(alloc, parent, id, all)?)
}

fn scope_of(alloc: Global, parent: &Ids, id: Text, all: bool) -> Result<Scope, AllocError>
    ensures { IfOk result (λ s. s ≡ scope_of parent.now id all) }
{
    let parent = parent.copy(alloc)?;
    Ok(if all {
        Scope::Group { parent, id }
    } else {
        Scope::Collection { parent, id }
    })
}

/// An id that is absent is empty.
fn read_id_of(alloc: Global, v: &Value, way: &Way<'_>) -> Result<Text, Bad>
    ensures { Gives (λ id. id) result (member_or [] text_at (codes "collectionId") (json v.now) (place_of way.now)) }
{
    match member(alloc, v, COLLECTION_ID, way)? {
        Some(id) => read_text(alloc, id, &way.member(COLLECTION_ID)),
        None => Ok(Text::of(String::new(alloc))),
    }
}
