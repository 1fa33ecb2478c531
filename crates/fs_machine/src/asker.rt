//! Whom a commit is answered.
use fs_path::Text;
use fs_request::copy_id;
use std::alloc::{AllocError, Global};

/// Whom a commit is answered: the session that asked for it, or the stream whose batch it is. The session of a batch may leave before it is
/// finished, and another may own the stream by then.
#[derive(Drop)]
pub enum Asker {
    /// A session, and the id of its request.
    Session { session: u32, request: Option<Text> },
    /// The write stream of a number, and so whoever owns it then.
    Stream(u64),
}

impl Asker {
    ghost use Rattle.std.specs.Prelude.{◌≡◌, IfOk};

    pub fn copy(&self, alloc: Global) -> Result<Asker, AllocError>
        ensures { IfOk result (λ a. a ≡ self.now) }
    {
        Ok(match self {
            Asker::Session { session, request } => Asker::Session {
                session: *session,
                request: copy_id(alloc, request)?,
            },
            Asker::Stream(stream) => Asker::Stream(*stream),
        })
    }
}
