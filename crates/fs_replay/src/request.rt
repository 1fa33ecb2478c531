//! What the lines of a script ask for.
use fs_path::Text;
use fs_rpc::SessionRequest;
use fs_status::{Id, Reason};
use fs_time::Micros;

/// A line of a script, as it was read.
#[derive(Drop)]
pub enum Line {
    /// It is empty, and gives nothing.
    Empty,
    /// It is of a form that isn't built.
    NotBuilt,
    /// It is of no form, for this reason.
    Refused(Reason),
    /// A request on a session.
    Asked(SessionRequest),
    /// The clock goes on to this moment.
    Clock(Micros),
    /// Times before this one are given up.
    Compact(Micros),
    /// The session of this name ends.
    Leave(Text),
    /// From now on the script settles by hand, or no more.
    Manual(bool),
    /// The pending commit of this number is settled.
    Settle(Id),
    /// Each request that waits is tried again.
    Retry,
    /// A target of the session of a name is loaded, at a time or at what is released.
    Load {
        session: Text,
        target: u32,
        at: Option<Micros>,
    },
    /// A shard is matched.
    Match(u32),
    /// The session of this name is raised.
    Raise(Text),
}
