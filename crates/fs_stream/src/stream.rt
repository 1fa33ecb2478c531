//! One write stream.
use crate::error::StreamError;
use crate::kept::Kept;
use crate::take::{Resumed, Take};
use std::alloc::Global;

/// A write stream: how many of its batches are finished, what the last of them was answered, and whether one more is in progress.
///
///     opened                    none is finished
///     a batch with token 0      it is new, and in progress
///     the same again            it is in progress
///     that is finished          one is finished, and its response is kept
///     the same again            a repeat, answered by the response that is kept
///     a batch with token 1      it is new, and in progress
#[derive(Drop)]
pub struct Stream {
    /// How many of its batches are finished: the token of the next one.
    pub finished: u64,
    /// The response to the last of them; none where none is finished.
    pub kept: Option<Kept>,
    /// Whether a batch is in progress.
    pub busy: bool,
}

impl Stream {
    ghost use Rattle.std.specs.Prelude.{◌≡◌, ◌<◌, ◌^◌, suc, Err, IfErr, IfOk, IsOk, Ok, alloc_error};
    ghost use Rattle.fs_stream.specs.Answers.{batch_told, missed, resumption_told};
    ghost use Rattle.fs_stream.specs.Streams.{finished_by, fresh};
    ghost use Rattle.fs_stream.specs.declared.error.StreamError.{StreamError};
    ghost use Rattle.fs_stream.specs.declared.error.StreamError.TheVariants.{Memory};

    /// No batch yet.
    pub(crate) fn new() -> Stream
        ensures { result ≡ fresh }
    {
        Stream {
            finished: 0,
            kept: None,
            busy: false,
        }
    }

    // What who knows of so many finished batches has missed: nothing, or the response to the last.
    fn missed(&self, alloc: Global, token: u64) -> Result<Option<Kept>, StreamError>
        ensures ok { IfOk result (λ k. missed self.now token ≡ Ok k) }
        ensures refused { IfErr (missed self.now token) (λ e. result ≡ Err e) }
        ensures memory { IsOk (missed self.now token) → IfErr result (λ e. e ≡ Memory alloc_error) }
    {
        if token == self.finished {
            return Ok(None);
        }
        if token > self.finished {
            return Err(StreamError::Ahead(token, self.finished));
        }
        if self.finished - token > 1 {
            return Err(StreamError::Stale(token, self.finished));
        }
        match &self.kept {
            Some(kept) => Ok(Some(kept.copy(alloc)?)),
            None => Ok(None),
        }
    }

    /// What a batch with a token is to this stream, which has a number.
    pub(crate) fn batch(&self, alloc: Global, number: u64, token: u64) -> Result<Take, StreamError>
        ensures ok { IfOk result (λ t. batch_told number self.now token ≡ Ok t) }
        ensures refused { IfErr (batch_told number self.now token) (λ e. result ≡ Err e) }
        ensures memory { IsOk (batch_told number self.now token) → IfErr result (λ e. e ≡ Memory alloc_error) }
    {
        match self.missed(alloc, token) {
            Ok(Some(kept)) => Ok(Take::Repeat(kept)),
            Ok(None) if self.busy => Ok(Take::InProgress(self.finished)),
            Ok(None) => Ok(Take::New(number)),
            Err(e) => Err(e),
        }
    }

    /// What a resumption with a token is told.
    pub(crate) fn resumption(&self, alloc: Global, token: u64) -> Result<Resumed, StreamError>
        ensures ok { IfOk result (λ r. resumption_told self.now token ≡ Ok r) }
        ensures refused { IfErr (resumption_told self.now token) (λ e. result ≡ Err e) }
        ensures memory { IsOk (resumption_told self.now token) → IfErr result (λ e. e ≡ Memory alloc_error) }
    {
        match self.missed(alloc, token) {
            Ok(Some(kept)) => Ok(Resumed::Repeat(kept)),
            Ok(None) => Ok(Resumed::At(self.finished)),
            Err(e) => Err(e),
        }
    }

    /// The batch in progress is finished, and its response is kept. It takes no memory.
    pub(crate) fn finish(&mut self, kept: Kept)
        requires { suc self.old.finished < 2 ^ 64 }
        ensures { self.new ≡ finished_by kept self.old }
    {
        self.finished += 1;
        self.kept = Some(kept);
        self.busy = false;
    }
}
