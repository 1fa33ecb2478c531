//! The documents that a query goes over, and the shards of collections.
ghost use Rattle.std.specs.Prelude.{◌≡◌, ◌↔◌, ◌<◌, ◌≤◌, ◌%◌, IfOk, IsTrue, sum};
ghost use Rattle.std.specs.List.{starts_with};
ghost use Rattle.std.specs.Option.{option_copied};
ghost use Rattle.fs_path.specs.Cursor.{rest_segments};
ghost use Rattle.fs_path.specs.Scope.{collection_id, covers, lies_in, scope_id, scope_parent, shard_of, AreShards, Covers};
ghost use Rattle.fs_path.specs.TextOrder.{text_eq};

use crate::ids::Ids;
use crate::name::DocName;
use crate::segment::first_segment;
use crate::text::Text;
use std::alloc::{AllocError, Global};

/// The documents that a query goes over: those of one collection, or those of every collection with one id below a
/// parent, however deep. The parent's ids are a document's, or none for the root.
/// (v1 reference, "StructuredQuery.CollectionSelector".)
#[derive(PartialEq, Eq, Drop)]
pub enum Scope {
    Collection { parent: Ids, id: Text },
    Group { parent: Ids, id: Text },
}

impl Scope {
    /// The ids of the document below which the collections lie, or none for the root.
    pub fn parent(&self) -> &Ids
        ensures { result.now ≡ scope_parent self.now }
    {
        match self {
            Scope::Collection { parent, .. } => parent,
            Scope::Group { parent, .. } => parent,
        }
    }

    /// The id of the collections.
    pub fn id(&self) -> &Text
        ensures { result.now ≡ scope_id self.now }
    {
        match self {
            Scope::Collection { id, .. } => id,
            Scope::Group { id, .. } => id,
        }
    }

    pub fn copy(&self, alloc: Global) -> Result<Scope, AllocError>
        ensures { IfOk result (λ s. s ≡ self.now) }
    {
        match self {
            Scope::Collection { parent, id } => Ok(Scope::Collection {
                parent: parent.copy(alloc)?,
                id: id.copy(alloc)?,
            }),
            Scope::Group { parent, id } => Ok(Scope::Group {
                parent: parent.copy(alloc)?,
                id: id.copy(alloc)?,
            }),
        }
    }
}

/// Whether a document is in a scope.
pub fn covers(scope: &Scope, name: &DocName) -> bool
    ensures value { result ≡ covers scope.now name.now }
    ensures meaning { IsTrue result ↔ Covers scope.now name.now }
{
    is_in(scope, name)
}

fn is_in(scope: &Scope, name: &DocName) -> bool
    ensures { result ≡ covers scope.now name.now }
{
    match scope {
        Scope::Collection { parent, id } => {
            lies_in(parent, id, name) && name.len() - parent.len() == 2
        }
        Scope::Group { parent, id } => lies_in(parent, id, name),
    }
}

/// Whether ids begin with a parent's, and the last two are of a document in a collection with this id.
fn lies_in(parent: &Ids, id: &Text, name: &DocName) -> bool
    ensures { result ≡ lies_in parent.now id.now name.now.ids }
{
    let count = name.len();
    count >= 2
        && count - 2 >= parent.len()
        && begins_with(name.ids(), parent.as_slice())
        && name.id(count - 2) == id.as_str()
}

/// Whether the ids of a path begin with these.
fn begins_with(path: Option<&str>, parent: &[Text]) -> bool
    ensures { result ≡ starts_with text_eq (rest_segments (option_copied path.entry)) parent.now }
{
    let mut rest = path;
    for id in parent {
        let Some(text) = rest else {
            return false;
        };
        let (first, more) = first_segment(text);
        if id.as_str() != first {
            return false;
        }
        rest = more;
    }
    true
}

/// The most shards that a server has. (This project's own.)
pub const MOST_SHARDS: u32 = 16;

/// The shard that a collection belongs to, of a number of shards from 1 to 16: the sum of its id's bytes modulo their
/// number. (This project's own.)
pub fn shard_of(id: &Text, shards: u32) -> u32
    requires { AreShards shards }
    ensures value { result ≡ sum id.now % shards }
    ensures within { result < shards }
{
    shard_of_bytes(id.as_str().as_bytes(), shards)
}

/// The shard that a document belongs to: that of its collection, whose id is the last but one of the name's.
pub fn shard_of_document(name: &DocName, shards: u32) -> u32
    requires { AreShards shards }
    ensures value { result ≡ shard_of shards name.now }
    ensures within { result < shards }
{
    let count = name.len();
    if count == 0 {
        return 0;
    }
    shard_of_bytes(name.id(count.saturating_sub(2)).as_bytes(), shards)
}

fn shard_of_bytes(id: &[u8], shards: u32) -> u32
    requires { AreShards shards }
    ensures value { result ≡ sum id.now % shards }
    ensures within { result < shards }
{
    let mut shard = 0;
    for b in id {
        shard = (shard + u32::from(*b)) % shards;
    }
    shard
}
