//! One target of a session.
ghost use Rattle.std.specs.Prelude.{◌≡◌, ◌<◌, MatchResult, Some, length, map, option_map, slice_get, slice_index_or, slice_set};
ghost use Rattle.fs_target.specs.Entries.{IsAbsentAt, IsThereAt, Rises, found, ids_of};
ghost use Rattle.fs_target.specs.Held.{id_after};
ghost use Rattle.fs_target.specs.Seen.{seen};
ghost use Rattle.fs_target.specs.declared.entry.Entry.{Entry};

use crate::kept::Kept;
use fs_query::Target;
use fs_time::Micros;

/// One target of a session.
#[derive(Drop)]
pub(crate) struct Entry {
    pub(crate) id: u32,
    pub(crate) target: Target,
    /// The time that its resume token shows.
    pub(crate) token: Option<Micros>,
    pub(crate) loaded: Option<Loaded>,
}

/// What a target that is loaded is at.
#[derive(Drop)]
pub(crate) struct Loaded {
    pub(crate) time: Micros,
    /// Whether its reader was told then that what it resumes is gone.
    pub(crate) reset: bool,
    /// By shard, the time up to which the target was told it, and none in a shard that it has nothing in.
    pub(crate) positions: Vec<Option<Micros>>,
    /// Whether the session was raised since.
    pub(crate) current: bool,
    pub(crate) kept: Kept,
}

/// The place of the entry of an id among entries by rising ids, or that where it is to be inserted.
pub(crate) fn place_of(entries: &[Entry], id: u64) -> Result<usize, usize>
    requires { Rises (map seen entries.now) }
    ensures { MatchResult result (IsThereAt id (map seen entries.now)) (IsAbsentAt id (map seen entries.now)) }
{
    entries.binary_search_by(|entry| u64::from(entry.id).cmp(&id))
}

/// The entry of an id among entries by rising ids.
pub(crate) fn find(entries: &[Entry], id: u32) -> Option<&Entry>
    requires { Rises (map seen entries.now) }
    ensures { option_map (λ e. seen e.now) result ≡ found id (map seen entries.now) }
{
    match place_of(entries, u64::from(id)) {
        Ok(i) => Some(&entries[i]),
        Err(_) => None,
    }
}

// The place behind the entries of ids up to one.
fn place_behind(entries: &[Entry], id: u32) -> usize
    requires { Rises (map seen entries.now) }
    ensures { slice_get (ids_of (map seen entries.now)) result ≡ id_after (Some id) (ids_of (map seen entries.now)) }
{
    match place_of(entries, u64::from(id)) {
        Ok(i) => i + 1,
        Err(i) => i,
    }
}

// The place of the first entry, or of the first behind those of ids up to one.
fn place_after(entries: &[Entry], id: Option<u32>) -> usize
    requires { Rises (map seen entries.now) }
    ensures { slice_get (ids_of (map seen entries.now)) result ≡ id_after id (ids_of (map seen entries.now)) }
{
    match id {
        Some(id) => place_behind(entries, id),
        None => 0,
    }
}

/// The least id of an entry, or the least above one.
pub(crate) fn id_after(entries: &[Entry], id: Option<u32>) -> Option<u32>
    requires { Rises (map seen entries.now) }
    ensures { result ≡ id_after id (ids_of (map seen entries.now)) }
{
    match entries.get(place_after(entries, id)) {
        Some(entry) => Some(entry.id),
        None => None,
    }
}

/// Puts what a target is at that is loaded.
pub(crate) fn put_loaded(entries: &mut [Entry], i: usize, loaded: Loaded)
    requires { i < length entries.old }
    ensures { (e : Entry) → entries.new ≡ slice_set entries.old i (record (slice_index_or entries.old i e) { loaded = Some loaded }) }
{
    let entry = &mut entries[i];
    entry.loaded = Some(loaded);
}
