//! What reads show.
ghost use Rattle.std.specs.Prelude.{◌≡◌, ◌≤ℤ◌, IfOk, Some, [], ◌∷◌, map};
ghost use Rattle.std.specs.FinMap.{get, values};
ghost use Rattle.fs_history.specs.History.{at};
ghost use Rattle.fs_history.specs.declared.read.Read.TheVariants as read;
ghost use Rattle.fs_query.specs.AnswerTo.{answer_to};
ghost use Rattle.fs_machine.specs.Read.{shown_of as shown_by};
ghost use Rattle.fs_machine.specs.Transact.{time_of_kind as time_by_kind};
ghost use Rattle.fs_server.specs.Noted.{when_of as when_in};

use crate::server::Server;
use fs_history::{Read, Reads};
use fs_machine::Mode;
use fs_past::Past;
use fs_path::{DocName, Names};
use fs_query::Query;
use fs_request::{Request, When};
use fs_time::Micros;
use fs_txn::Kind;
use std::alloc::{AllocError, Global};

/// When a request reads. One that reads nothing may do so at any time.
pub(crate) fn when_of(request: &Request) -> When
    ensures { result ≡ when_in request.now }
{
    match request {
        Request::GetDocument { when, .. } => *when,
        Request::BatchGetDocuments { when, .. } => *when,
        Request::RunQuery { when, .. } => *when,
        _ => When::Released,
    }
}

// A read of a document.
fn read_name(alloc: Global, past: &Past, name: &DocName, time: Micros) -> Result<Read, AllocError>
    requires from { past.now.floor ≤ℤ time }
    requires to { time ≤ℤ past.now.released }
    ensures { IfOk result (λ r. r ≡ read.Name name.now (get (at past.now.history time) name.now)) }
{
    let shown = match past.get(name, time) {
        Some(document) => Some(document.copy(alloc)?),
        None => None,
    };
    Ok(Read::Name {
        name: name.copy(alloc)?,
        shown,
    })
}

fn read_names(alloc: Global, past: &Past, names: &Names, time: Micros) -> Result<Reads, AllocError>
    requires from { past.now.floor ≤ℤ time }
    requires to { time ≤ℤ past.now.released }
    ensures { IfOk result (λ rs. rs ≡ map (λ n. read.Name n (get (at past.now.history time) n)) names.now) }
{
    let mut reads = Reads::new(alloc);
    for name in names.as_slice() {
        reads.push(read_name(alloc, past, name, time)?)?;
    }
    Ok(reads)
}

fn read_query(alloc: Global, past: &Past, query: &Query, time: Micros) -> Result<Read, AllocError>
    requires from { past.now.floor ≤ℤ time }
    requires to { time ≤ℤ past.now.released }
    ensures { IfOk result (λ r. r ≡ read.Query query.now (answer_to query.now (values (at past.now.history time)))) }
{
    Ok(Read::Query {
        shown: past.run(alloc, query, time)?,
        query: query.copy(alloc)?,
    })
}

// One read alone.
fn alone(alloc: Global, read: Read) -> Result<Reads, AllocError>
    ensures { IfOk result (λ rs. rs ≡ read ∷ []) }
{
    let mut reads = Reads::new(alloc);
    reads.push(read)?;
    Ok(reads)
}

// What the documents at a time show of what a request asks for.
fn shown_of(
    alloc: Global,
    past: &Past,
    request: &Request,
    time: Micros,
) -> Result<Reads, AllocError>
    requires from { past.now.floor ≤ℤ time }
    requires to { time ≤ℤ past.now.released }
    ensures { IfOk result (λ rs. rs ≡ shown_by (at past.now.history time) request.now) }
{
    match request {
        Request::GetDocument { name, .. } => alone(alloc, read_name(alloc, past, name, time)?),
        Request::BatchGetDocuments { documents, .. } => read_names(alloc, past, documents, time),
        Request::RunQuery { query, .. } => alone(alloc, read_query(alloc, past, query, time)?),
        _ => Ok(Reads::new(alloc)),
    }
}

// At which time a transaction of a kind reads, whose own time this is.
fn time_of_kind(mode: Mode, past: &Past, kind: Kind, own: Micros) -> Micros
    ensures { result ≡ time_by_kind mode past.now kind own }
{
    match (mode, kind) {
        (Mode::Pessimistic, Kind::ReadWrite) => past.released(),
        _ => own,
    }
}

impl Server {
    ghost use Rattle.std.specs.Prelude.{◌≡◌, ◌≤ℤ◌, IfOk, None};
    ghost use Rattle.fs_machine.specs.Facts.{Facts};
    ghost use Rattle.fs_machine.specs.Read.{read_time, when_refusal};
    ghost use Rattle.fs_server.specs.Noted.{noted_reads};

    /// The reads that are to be noted of a request: those that it makes in an open read-write transaction. What they show is copied, but
    /// documents share their fields with those here.
    pub(crate) fn shown(&self, alloc: Global, request: &Request) -> Result<Reads, AllocError>
        ensures { IfOk result (λ rs. rs ≡ noted_reads self.now request.now) }
    {
        let when = when_of(request);
        if !self.is_noted(&when) {
            return Ok(Reads::new(alloc));
        }
        self.stand();
        shown_of(alloc, &self.past, request, self.read_time(&when))
    }

    /// The time of a read: the released one, the one that is asked for, or its transaction's.
    pub(crate) fn read_time(&self, when: &When) -> Micros
        ensures { result ≡ read_time self.now when.now }
    {
        match when {
            When::Released => self.past.released(),
            When::At(time) => *time,
            When::In(id) => match self.txns.find(*id) {
                Ok(txn) => time_of_kind(self.config.mode, &self.past, txn.kind, txn.read_time),
                Err(_) => self.past.released(),
            },
        }
    }
}
