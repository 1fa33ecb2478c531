//! The numbers of transactions, as bytes.
ghost use Rattle.std.specs.Prelude.{◌≡◌, ℕ, Option, IfOk, IfSome, OnOk, codes};
ghost use Rattle.fs_path.specs.Way.{place_of};
ghost use Rattle.serde_json.specs.View.{members_view, view as json};
ghost use Rattle.fs_json.specs.Answer.{Gives};
ghost use Rattle.fs_rpc.specs.Eight.{IsEightHeld, eight_at, eight_text, optional_eight_at};
ghost use Rattle.fs_rpc.specs.RequestSteps.{with_eight_put};

use crate::eight::{print_eight, put_eight, read_eight, read_optional_eight};
use crate::names::TRANSACTION;
use fs_json::Bad;
use fs_path::{Text, Way};
use fs_status::Id;
use serde_json::{Map, Value};
use std::alloc::{AllocError, Global};

/// The number of a transaction. (v1 reference, `transaction`.)
pub(crate) fn read_transaction(alloc: Global, v: &Value, way: &Way<'_>) -> Result<Id, Bad>
    ensures { Gives (λ n. n) result (eight_at (json v.now) (place_of way.now)) }
{
    Ok(Id::new(read_eight(alloc, v, way)?))
}

/// One that may be absent.
pub(crate) fn read_optional_transaction(
    alloc: Global,
    v: &Value,
    name: &str,
    way: &Way<'_>,
) -> Result<Option<Id>, Bad>
    ensures { Gives {Y = Option ℕ} (λ t. t) result
        (optional_eight_at name.now (json v.now) (place_of way.now)) }
{
    match read_optional_eight(alloc, v, name, way)? {
        Some(n) => Ok(Some(Id::new(n))),
        None => Ok(None),
    }
}

/// The number of a transaction as JSON has it: `AAAAAAAAAAI=` of transaction 2.
pub fn print_transaction(alloc: Global, id: Id) -> Result<Text, AllocError>
    ensures text { IfOk result (λ t. t ≡ eight_text id) }

    // It is read back.
    ensures held { OnOk result (IsEightHeld id) }
{
    print_eight(alloc, id.get())
}

/// Puts in a transaction, where there is one.
pub(crate) fn put_transaction(
    alloc: Global,
    members: &mut Map<String, Value>,
    transaction: Option<Id>,
) -> Result<(), AllocError>
    ensures value { OnOk result (members_view members.new.entries
        ≡ with_eight_put (codes "transaction") transaction (members_view members.old.entries)) }
    ensures held { OnOk result (IfSome transaction IsEightHeld) }
{
    match transaction {
        Some(id) => put_eight(alloc, members, TRANSACTION, id.get()),
        None => Ok(()),
    }
}
