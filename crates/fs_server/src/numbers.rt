//! The numbers of requests.
ghost use Rattle.std.specs.Prelude.{◌≡◌, ◌<◌, ◌-◌, ◌^◌, true};
ghost use Rattle.fs_request.specs.When.{transaction_of as transaction_when};
ghost use Rattle.fs_machine.specs.Numbered.{draws as draws_one, transaction_in as transaction_of};
ghost use Rattle.fs_server.specs.Noted.{ids_after as ids_then, own_number};

use fs_request::{Request, StreamRequest, When};
use fs_status::Id;

// Whether a request draws a number.
fn draws(request: &Request) -> bool
    ensures { result ≡ draws_one request.now }
{
    match request {
        Request::Commit { transaction, .. } => transaction.is_none(),
        Request::BeginTransaction { .. } => true,
        Request::Write { asked, .. } => matches!(asked, StreamRequest::Batch { .. }),
        _ => false,
    }
}

// The transaction in which documents are read, if they are read in one.
fn transaction_at(when: When) -> Option<Id>
    ensures { result ≡ transaction_when when }
{
    match when {
        When::In(id) => Some(id),
        _ => None,
    }
}

// The transaction that a request names.
fn transaction_in(request: &Request) -> Option<Id>
    ensures { result ≡ transaction_of request.now }
{
    match request {
        Request::Commit { transaction, .. } => *transaction,
        Request::GetDocument { when, .. } => transaction_at(*when),
        Request::BatchGetDocuments { when, .. } => transaction_at(*when),
        Request::RunQuery { when, .. } => transaction_at(*when),
        Request::BeginTransaction { .. } => None,
        Request::Rollback { transaction, .. } => Some(*transaction),
        Request::AddTarget { .. } => None,
        Request::RemoveTarget { .. } => None,
        Request::Write { .. } => None,
    }
}

/// The number of a request that comes, where so many were drawn: the one that it draws, or that of its transaction. One that has
/// neither has 0, which nothing has.
pub(crate) fn number_of(ids: u64, request: &Request) -> Id
    requires { draws_one request.now ≡ true → ids < 2 ^ 64 - 1 }
    ensures { result ≡ own_number ids request.now }
{
    if draws(request) {
        return Id::new(ids + 1);
    }
    transaction_in(request).unwrap_or(Id::new(0))
}

/// How many were drawn then.
pub(crate) fn ids_after(ids: u64, request: &Request) -> u64
    requires { draws_one request.now ≡ true → ids < 2 ^ 64 - 1 }
    ensures { result ≡ ids_then ids request.now }
{
    if draws(request) { ids + 1 } else { ids }
}
