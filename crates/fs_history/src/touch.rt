//! Which writes a read depends on.
ghost use Rattle.std.specs.Prelude.{◌≡◌, ◌↔◌, IsTrue};
ghost use Rattle.fs_history.specs.Touches.{touches, TouchesName};

use crate::read::Read;
use fs_path::{DocName, covers};

/// Whether a write of this name touches a read: it is the name that was read, or lies in the scope of the query that was
/// read. (Cloud Firestore documentation, "Transaction serializability and isolation".)
pub fn touches(name: &DocName, r: &Read) -> bool
    ensures value { result ≡ touches name.now r.now }
    ensures meaning { IsTrue result ↔ TouchesName name.now r.now }
{
    match r {
        Read::Name {
            name: read_name,
            ..
        } => name == read_name,
        Read::Query { query, .. } => covers(&query.scope, name),
    }
}
