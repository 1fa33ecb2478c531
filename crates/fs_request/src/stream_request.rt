//! What is asked of write streams.
ghost use Rattle.std.specs.Prelude.{◌≡◌, IfOk};

use fs_write::Writes;
use std::alloc::{AllocError, Global};

/// What a `write` asks of a stream, by the members that it has.
#[derive(Drop)]
pub enum StreamRequest {
    /// None of them: a stream is opened.
    Open,
    /// `streamId` and `streamToken`: the session is to own the stream, and knows of so many finished batches.
    Resume {
        stream: u64,
        token: u64,
    },
    /// `streamToken` and writes: a batch for the stream that the session owns.
    Batch {
        token: u64,
        writes: Writes,
    },
    /// `streamToken` alone: where is the stream that the session owns?
    Ask {
        token: u64,
    },
    /// All three. The request that names a stream has no writes, so no stream takes these.
    Mixed {
        stream: u64,
        token: u64,
        writes: Writes,
    },
}

impl StreamRequest {
    pub fn copy(&self, alloc: Global) -> Result<StreamRequest, AllocError>
        ensures { IfOk result (λ r. r ≡ self.now) }
    {
        Ok(match self {
            StreamRequest::Open => StreamRequest::Open,
            StreamRequest::Resume { stream, token } => StreamRequest::Resume {
                stream: *stream,
                token: *token,
            },
            StreamRequest::Batch { token, writes } => StreamRequest::Batch {
                token: *token,
                writes: writes.copy(alloc)?,
            },
            StreamRequest::Ask { token } => StreamRequest::Ask { token: *token },
            StreamRequest::Mixed {
                stream,
                token,
                writes,
            } => StreamRequest::Mixed {
                stream: *stream,
                token: *token,
                writes: writes.copy(alloc)?,
            },
        })
    }
}
