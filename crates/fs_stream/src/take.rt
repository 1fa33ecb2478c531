//! What a stream answers.
use crate::kept::Kept;

/// What a batch with a stream token is to the stream.
#[derive(Drop)]
pub enum Take {
    /// It is the next one, of the stream of this number, and in progress from now on.
    New(u64),
    /// It is the last that was finished, which was answered so.
    Repeat(Kept),
    /// It is the one in progress, behind so many that are finished. It is answered once it is finished.
    InProgress(u64),
}

/// What a resumption with a stream token is told.
#[derive(Drop)]
pub enum Resumed {
    /// So many batches are finished, as the token says.
    At(u64),
    /// What the last batch was answered, which the token doesn't know of.
    Repeat(Kept),
}
