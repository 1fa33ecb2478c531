//! The response to a finished batch.
use fs_status::Refusal;
use fs_time::Micros;
use fs_write::WriteResults;
use std::alloc::{AllocError, Global};

/// What a batch was answered once it was finished, committed or refused. It is kept, so that who didn't hear it is answered the
/// same once more. (v1 reference, "WriteResponse".)
#[derive(Drop)]
pub struct Kept {
    /// How many batches of the stream were finished with this one: the stream token of the response.
    pub token: u64,
    /// What each write was answered; none where the batch was refused.
    pub results: WriteResults,
    /// When the batch was committed.
    pub commit: Option<Micros>,
    /// Why the batch was refused.
    pub refusal: Option<Refusal>,
}

impl Kept {
    ghost use Rattle.std.specs.Prelude.{◌≡◌, IfOk};

    pub fn copy(&self, alloc: Global) -> Result<Kept, AllocError>
        ensures { IfOk result (λ k. k ≡ self.now) }
    {
        Ok(Kept {
            token: self.token,
            results: self.results.copy(alloc)?,
            commit: self.commit,
            refusal: match &self.refusal {
                Some(refusal) => Some(refusal.copy(alloc)?),
                None => None,
            },
        })
    }
}
