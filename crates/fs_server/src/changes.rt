//! What a request changes that is carried out.
ghost use Rattle.std.specs.Prelude.{◌≡◌, OnOk, OnErr};
ghost use Rattle.fs_txn.specs.Transactions.{ended};
ghost use Rattle.fs_machine.specs.Commit.{past_prepared};
ghost use Rattle.fs_server.specs.Changes.{MayChange, MayPrepare, past_changed, txns_changed};

use fs_history::Reads;
use fs_machine::Unreleased;
use fs_past::Past;
use fs_status::Id;
use fs_time::Micros;
use fs_txn::{Kind, Txns};
use std::alloc::{AllocError, Global};

/// What a request changes that is carried out. It is known before it is made, so that all is as before where memory runs out.
/// (docs/DECISIONS.md, "What a request changes is known before it is made".)
#[derive(Drop)]
pub(crate) enum Change {
    /// Nothing.
    Nothing,
    /// A plain commit is pending.
    Prepares(Unreleased),
    /// A transaction's commit is pending, and the transaction isn't open any more.
    Commits(Unreleased),
    /// A transaction isn't open any more.
    Ends(Id),
    /// A transaction is open, which reads at a time.
    Begins(Id, Kind, Micros),
    /// A transaction made these reads.
    Notes(Id, Reads),
}

// Its number.
fn id_of(commit: &Unreleased) -> Id
    ensures { result ≡ commit.now.batch.id }
{
    commit.batch.id
}

// A transaction's commit is pending, and the transaction isn't open any more.
fn commit(
    alloc: Global,
    past: &mut Past,
    txns: &mut Txns,
    commit: Unreleased,
) -> Result<(), AllocError>
    requires { MayPrepare past.old commit }
    ensures past { OnOk result (past.new ≡ past_prepared past.old commit) }
    ensures txns { OnOk result (txns.new ≡ ended txns.old commit.batch.id) }
    ensures err { OnErr result (past.new ≡ past.old) }
    ensures err_txns { OnErr result (txns.new ≡ txns.old) }
{
    let id = id_of(&commit);
    past.prepare(alloc, commit)?;
    drop(txns.end(id));
    Ok(())
}

/// Makes a change. Where memory runs out, nothing is changed.
pub(crate) fn make(
    alloc: Global,
    past: &mut Past,
    txns: &mut Txns,
    change: Change,
) -> Result<(), AllocError>
    requires { MayChange past.old txns.old change }
    ensures past { OnOk result (past.new ≡ past_changed past.old change) }
    ensures txns { OnOk result (txns.new ≡ txns_changed txns.old past.old.moment change) }
    ensures err { OnErr result (past.new ≡ past.old) }
    ensures err_txns { OnErr result (txns.new ≡ txns.old) }
{
    let now = past.moment();
    match change {
        Change::Nothing => Ok(()),
        Change::Prepares(prepared) => past.prepare(alloc, prepared),
        Change::Commits(committed) => commit(alloc, past, txns, committed),
        Change::Ends(id) => {
            drop(txns.end(id));
            Ok(())
        }
        Change::Begins(id, kind, time) => txns.begin(alloc, id, kind, time, now),
        Change::Notes(id, reads) => txns.note_reads(alloc, id, reads, now),
    }
}
