//! Limits.
use fs_time::Micros;
use fs_write::MOST_WRITES;

/// The numbers that requests may not pass, by the names that refusals tell. A server may be given smaller ones, as tests do,
/// but no greater.
#[derive(Clone, Copy, PartialEq, Eq)]
pub struct Limits {
    /// Writes of a commit.
    pub writes: u64,
    /// Messages in a session's outbox: with so many, its requests are refused.
    pub outbox: u64,
    /// Sessions that are open at a time.
    pub sessions: u64,
    /// Targets of a session.
    pub targets: u64,
    /// Transactions that are open at a time.
    pub transactions: u64,
    /// Write streams that were opened.
    pub streams: u64,
    /// Requests that wait.
    pub parked: u64,
    /// Batches in the history, and commits that aren't in it yet.
    pub batches: u64,
    /// What these count together, in bytes.
    pub journal: u64,
    /// What open read-write transactions were shown, in bytes.
    pub reads: u64,
    /// The last number that a commit or a transaction may get, and the last of a target.
    pub ids: u64,
    /// The last commit time, in microseconds since 1970.
    pub time: u64,
    /// Batches of a client that aren't covered by a snapshot.
    pub queue: u64,
    /// Clients of a script.
    pub clients: u64,
}

impl Limits {
    ghost use Rattle.std.specs.Prelude.{◌≡◌, ◌↔◌, IsTrue};
    ghost use Rattle.fs_machine.specs.Limits.{greatest, AreAllowed};

    /// The limits of the program.
    pub fn greatest() -> Limits
        ensures { result ≡ greatest }
    {
        Limits {
            writes: MOST_WRITES,
            outbox: 1_000,
            sessions: 64,
            targets: 100,
            transactions: 1_000,
            streams: 100_000,
            parked: 1_000,
            batches: 1_000_000,
            journal: 134_217_728,
            reads: 134_217_728,
            ids: u64::MAX,
            time: Micros::LAST.unsigned_abs(),
            queue: 1_000,
            clients: 64,
        }
    }

    /// Whether none is above that of the program, so that a server may have them.
    pub fn are_allowed(&self) -> bool
        ensures { IsTrue result ↔ AreAllowed self.now }
    {
        let greatest = Limits::greatest();
        self.writes <= greatest.writes
            && self.outbox <= greatest.outbox
            && self.sessions <= greatest.sessions
            && self.targets <= greatest.targets
            && self.transactions <= greatest.transactions
            && self.streams <= greatest.streams
            && self.parked <= greatest.parked
            && self.batches <= greatest.batches
            && self.journal <= greatest.journal
            && self.reads <= greatest.reads
            && self.ids <= greatest.ids
            && self.time <= greatest.time
            && self.queue <= greatest.queue
            && self.clients <= greatest.clients
    }
}
