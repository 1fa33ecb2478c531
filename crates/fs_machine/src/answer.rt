//! What calls of a server answer.
use fs_request::Message;
use fs_status::{Id, Refusal};
use fs_time::Micros;
use fs_write::{Changes, WriteResults};

/// What a request is answered at once.
#[derive(Drop)]
pub enum Answer {
    /// It is carried out, and this is its reply.
    Reply(Message),
    /// It is a commit, which is pending: by its number and its commit time. Its reply comes to the session's outbox.
    Prepared(Id, Micros),
    /// It waits, and is tried again: by the number of what it waits for, the least of several.
    Held(Id),
    /// It is the batch that its stream has in progress, behind so many that are finished. The response comes once it is finished.
    InProgress(u64),
    /// It isn't carried out.
    Refused(Refusal),
}

/// What the writes of a pending commit come to.
#[derive(Drop)]
pub enum Outcome {
    /// What they change, and their results.
    Effects(Changes, WriteResults),
    /// The first of them that is refused is refused so.
    Refused(Refusal),
}

/// What has become of a commit that was settled.
#[derive(Clone, Copy, PartialEq, Eq)]
pub enum Settled {
    /// It is accepted, and released: it is in the history at this time.
    Released(Micros),
    /// It is accepted at this time, and an earlier commit is still pending.
    Waiting(Micros),
    /// Its writes were refused.
    Dropped,
    /// Memory ran out. With a time, the commit is accepted or dropped at that time, and what it lets out is still to be
    /// released; the next tick or settling does so. Without one, all is as before.
    Memory(Option<Micros>),
}
