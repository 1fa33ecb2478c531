//! Commits that are on the board, or were until now.
ghost use Rattle.std.specs.Prelude.{◌≡◌, ◌+◌, ◌-◌, ◌^◌, min};
ghost use Rattle.fs_history.specs.Bytes.{batch_size as bytes_of_batch};
ghost use Rattle.fs_past.specs.Kept.{bytes_of};

use crate::accepted::Accepted;
use fs_board::Board;
use fs_history::{Batch, batch_size};
use fs_machine::Unreleased;
use fs_status::Id;
use fs_write::TimedChange;

/// Its number.
pub(crate) fn id_of(commit: &Unreleased) -> Id
    ensures { result ≡ commit.now.batch.id }
{
    commit.batch.id
}

/// What it counts in the limit of the journal, in bytes. A number that no `u128` holds is told as the greatest.
pub(crate) fn bytes_in(commit: &Unreleased) -> u128
    ensures { result ≡ min (bytes_of_batch commit.now.batch) (2 ^ 128 - 1) }
{
    batch_size(&commit.batch)
}

/// What those on the board count together, after one has left it. Where it was the last, it isn't reckoned again.
pub(crate) fn bytes_left(
    board: &Board<Unreleased, Accepted>,
    bytes: u128,
    gone: &Unreleased,
) -> u128
    requires { bytes ≡ bytes_of_batch gone.now.batch + bytes_of board.now.commits }
    ensures { result ≡ bytes_of board.now.commits }
{
    if board.is_empty() {
        0
    } else {
        bytes - bytes_in(gone)
    }
}

/// What comes into the journal of it.
pub(crate) fn batch_of(commit: Unreleased) -> Batch
    ensures { result ≡ commit.batch }
{
    commit.batch
}

/// What it changes.
pub(crate) fn change_of(accepted: Accepted) -> TimedChange
    ensures { result ≡ accepted.change }
{
    accepted.change
}
