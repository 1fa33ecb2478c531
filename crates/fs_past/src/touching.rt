//! Commits that write what was read.
ghost use Rattle.std.specs.Prelude.{◌≡◌, ◌<◌, Some, length, slice_get};
ghost use Rattle.fs_history.specs.Touches.{some_touched as some_touched_by, touched as touched_by};
ghost use Rattle.fs_locks.specs.Holds.{lesser_of};
ghost use Rattle.fs_machine.specs.Behind.{least};
ghost use Rattle.fs_machine.specs.Past.{batches};
ghost use Rattle.fs_past.specs.Kept.{all_unreleased};
ghost use Rattle.fs_past.specs.Touching.{number_since, numbers_since};

use crate::accepted::Accepted;
use fs_board::Board;
use fs_history::{Batch, Journal, Read, Reads, touches};
use fs_locks::lesser;
use fs_machine::Unreleased;
use fs_status::Id;
use fs_time::Micros;
use fs_write::Writes;

// Whether one of these writes touches a read.
fn touched(writes: &Writes, read: &Read) -> bool
    ensures { result ≡ touched_by writes.now read.now }
{
    writes
        .as_slice()
        .iter()
        .any(|write| touches(write.name(), read))
}

// Whether one of them touches one of these reads.
fn some_touched(writes: &Writes, reads: &Reads) -> bool
    ensures { result ≡ some_touched_by writes.now reads.now }
{
    reads.as_slice().iter().any(|read| touched(writes, read))
}

// The number of a batch, if it is later than a time and touches one of these reads.
fn number_since(batch: &Batch, time: Micros, reads: &Reads) -> Option<Id>
    ensures { result ≡ number_since time reads.now batch.now }
{
    if time < batch.time && some_touched(&batch.writes, reads) {
        Some(batch.id)
    } else {
        None
    }
}

/// The least number of a commit on a board that is later than a time and touches one of these reads.
pub(crate) fn first_on_board(
    board: &Board<Unreleased, Accepted>,
    time: Micros,
    reads: &Reads,
) -> Option<Id>
    ensures { result ≡ least (numbers_since time reads.now (batches (all_unreleased board.now.commits))) }
{
    let mut first = None;
    for (_, entry) in board.commits() {
        first = lesser(first, number_since(&entry.asked().batch, time, reads));
    }
    first
}

// The batch that has so many later ones.
fn batch_before(journal: &Journal, later: u64) -> &Batch
    requires { later < length journal.now.history }
    ensures { slice_get journal.now.history later ≡ Some result.now }
{
    journal.batch(journal.count() - 1 - later)
}

/// The least number of a batch of a journal that is later than a time and touches one of these reads.
pub(crate) fn first_in_journal(journal: &Journal, time: Micros, reads: &Reads) -> Option<Id>
    ensures { result ≡ least (numbers_since time reads.now journal.now.history) }
{
    let mut first = None;
    for later in 0..journal.count() {
        let batch = batch_before(journal, later);
        if batch.time <= time {
            return first;
        }
        first = lesser(first, number_since(batch, time, reads));
    }
    first
}
