//! What is told of requests that wait.
use fs_path::Text;
use fs_status::Id;

/// A request that waits, as a server tells of it.
#[derive(Drop)]
pub struct Parked {
    /// The session that asked.
    pub session: u32,
    /// The id of its request.
    pub id: Option<Text>,
    /// The write stream whose batch it is.
    pub stream: Option<u64>,
    /// By the number of what holds it now, the least of several; none, where nothing does.
    pub held: Option<Id>,
}
