//! Which commits the next release lets into the history.
ghost use Rattle.std.specs.Prelude.{◌≡◌, IfOk, Some, map};
ghost use Rattle.fs_machine.specs.Release.{as_committed};
ghost use Rattle.fs_past.specs.Kept.{let_out_of};

use crate::accepted::Accepted;
use fs_board::Board;
use fs_machine::{Committed, Unreleased};
use fs_write::WriteResults;
use std::alloc::{AllocError, Global};

// With these results.
fn committed(
    alloc: Global,
    commit: &Unreleased,
    results: &WriteResults,
) -> Result<Committed, AllocError>
    ensures { IfOk result (λ c. c ≡ as_committed (record commit.now { results = Some results.now })) }
{
    Ok(Committed {
        asker: commit.asker.copy(alloc)?,
        time: commit.time(),
        results: results.copy(alloc)?,
    })
}

/// The accepted commits before which none is pending, by what they are answered, the first of them first.
pub(crate) fn all_committed(
    alloc: Global,
    board: &Board<Unreleased, Accepted>,
) -> Result<Vec<Committed>, AllocError>
    ensures { IfOk result (λ cs. cs.items ≡ map as_committed (let_out_of board.now.commits)) }
{
    let ready = board.all_ready(alloc)?;
    let mut all = Vec::with_capacity(alloc, ready.len())?;
    for commit in ready.as_slice() {
        all.push(committed(alloc, commit.0, &commit.1.results)?)?;
    }
    Ok(all)
}
