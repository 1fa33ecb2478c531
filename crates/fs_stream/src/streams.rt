//! The write streams of a database.
use crate::error::StreamError;
use crate::kept::Kept;
use crate::stream::Stream;
use crate::take::{Resumed, Take};
use fs_pairs::Pairs;
use std::alloc::Global;
use std::marker::Model;

/// The write streams of a database, by their numbers from 1 on, and the sessions that own them. A session owns one at most.
///
///     session 4 opens, session 7 opens         4 owns stream 1, 7 owns stream 2
///     4 sends a batch with token 0             it is new, and in progress
///     session 4 leaves                         nobody owns stream 1, whose batch goes on
///     that is finished                         stream 1 has one finished, and keeps its response
///     session 9 resumes stream 1 with 0        9 owns it, and is given that response
///
/// A call costs a logarithm of the number of sessions that own a stream.
#[derive(Drop)]
pub struct Streams {
    // stream 1 first
    opened: Vec<Stream>,
    owners: Pairs,
    limit: u64,
}

impl Model for Streams {
    ghost use Rattle.fs_stream.specs.Streams.{Streams, streams_code};

    ghost Value = { Streams };

    ghost coded = { streams_code };

    ghost use Rattle.fs_stream.specs.Stands.{Stands};

    ghost view = { λ s. record { opened = s.opened.items; owners = s.owners; limit = s.limit } };

    ghost invariant = { λ s. Stands (record { opened = s.opened.items; owners = s.owners; limit = s.limit }) };
}

impl Streams {
    ghost use Rattle.std.specs.Prelude.{◌≡◌, ◌↔◌, ◌<◌, ◌≤◌, ◌^◌, suc, Err, IfErr, IfOk, IfSome, IsNone, IsOk, None, Ok, OnErr, OnOk, alloc_error, false, length, true};
    ghost use Rattle.std.specs.FinMap.{entries};
    ghost use Rattle.fs_pairs.specs.Pairs.{AreDistinct, key_of};
    ghost use Rattle.fs_stream.specs.Answers.{is_full, is_opened, open_refusal, owns_other, resume_answer, take_answer};
    ghost use Rattle.fs_stream.specs.Stands.{Stands};
    ghost use Rattle.fs_stream.specs.Streams.{finished_with, handed_to, left_by, none_opened, opened_by, owned_by, stream_of, taken};
    ghost use Rattle.fs_stream.specs.declared.error.StreamError.{StreamError};
    ghost use Rattle.fs_stream.specs.declared.error.StreamError.TheVariants.{Memory};
    ghost use Rattle.fs_stream.specs.declared.take.Take.TheVariants.{New};

    /// No streams, of which there may be as many as the limit. The allocator serves those that come.
    pub fn new(alloc: Global, limit: u64) -> Streams
        ensures { result ≡ none_opened limit }
    {
        Streams {
            opened: Vec::new(alloc),
            owners: Pairs::new(alloc),
            limit,
        }
    }

    /// Opens a stream that the session owns, and gives its number. Of two refusals the limit comes first.
    /// (v1 reference, "WriteRequest": the first one, without `streamId`.)
    pub fn open(&mut self, session: u32) -> Result<u64, StreamError>
        ensures ok { IfOk result (λ n. (n ≡ suc (length self.old.opened)) × (self.new ≡ opened_by session self.old)) }
        ensures err { OnErr result (self.new ≡ self.old) }

        // `TooMany` and `Second` just where they hold.
        ensures refused { IfSome (open_refusal session self.old) (λ e. result ≡ Err e) }
        ensures memory { open_refusal session self.old ≡ None → IfErr result (λ e. e ≡ Memory alloc_error) }
    {
        if self.is_full() {
            return Err(StreamError::TooMany(self.limit));
        }
        if self.owners.get(session).is_some() {
            return Err(StreamError::Second);
        }
        let number = self.opened.len() as u64 + 1;
        self.opened.reserve(1)?;
        self.owners.insert(session, number)?;
        self.opened.push_reserved(Stream::new());
        Ok(number)
    }

    /// A session owns the stream of a number from now on, and is told where the stream is; who owned it owns it no longer. Of several
    /// refusals `Unknown` comes first, then `Second`. (v1 reference, "WriteRequest": the first one, with `streamId` and `streamToken`.)
    pub fn resume(
        &mut self,
        alloc: Global,
        session: u32,
        stream: u64,
        token: u64,
    ) -> Result<Resumed, StreamError>
        ensures ok { IfOk result (λ r. (resume_answer session stream token self.old ≡ Ok r) × (self.new ≡ handed_to session stream self.old)) }
        ensures err { OnErr result (self.new ≡ self.old) }

        // `Unknown`, `Second`, `Stale` and `Ahead` just where they hold.
        ensures refused { IfErr (resume_answer session stream token self.old) (λ e. result ≡ Err e) }
        ensures memory { IsOk (resume_answer session stream token self.old) → IfErr result (λ e. e ≡ Memory alloc_error) }
    {
        match self.seek(alloc, session, stream, token) {
            Ok(resumed) => match self.hand(session, stream) {
                Ok(()) => Ok(resumed),
                Err(error) => {
                    drop(resumed);
                    Err(error)
                }
            },
            Err(error) => Err(error),
        }
    }

    /// What `resume` would answer.
    pub fn seek(
        &self,
        alloc: Global,
        session: u32,
        stream: u64,
        token: u64,
    ) -> Result<Resumed, StreamError>
        ensures ok { IfOk result (λ r. resume_answer session stream token self.now ≡ Ok r) }
        ensures refused { IfErr (resume_answer session stream token self.now) (λ e. result ≡ Err e) }
        ensures memory { IsOk (resume_answer session stream token self.now) → IfErr result (λ e. e ≡ Memory alloc_error) }
    {
        let Some(found) = self.get(stream) else {
            return Err(StreamError::Unknown(stream));
        };
        match self.owners.get(session) {
            Some(own) if own != stream => Err(StreamError::Second),
            _ => found.resumption(alloc, token),
        }
    }

    /// Takes a batch with a token for the stream that the session owns. A new one is in progress from now on.
    /// (v1 reference, "WriteRequest": `writes` and `streamToken`.)
    pub fn take(&mut self, alloc: Global, session: u32, token: u64) -> Result<Take, StreamError>
        ensures ok { IfOk result (λ t. (take_answer session token self.old ≡ Ok t) × (self.new ≡ taken t self.old)) }
        ensures err { OnErr result (self.new ≡ self.old) }

        // `NotOwner`, `Stale` and `Ahead` just where they hold.
        ensures refused { IfErr (take_answer session token self.old) (λ e. result ≡ Err e) }
        ensures memory { IsOk (take_answer session token self.old) → IfErr result (λ e. e ≡ Memory alloc_error) }
    {
        let take = self.look(alloc, session, token)?;
        if let Take::New(number) = &take {
            self.opened[*number as usize - 1].busy = true;
        }
        Ok(take)
    }

    /// What `take` would answer.
    pub fn look(&self, alloc: Global, session: u32, token: u64) -> Result<Take, StreamError>
        ensures ok { IfOk result (λ t. take_answer session token self.now ≡ Ok t) }
        ensures refused { IfErr (take_answer session token self.now) (λ e. result ≡ Err e) }
        ensures memory { IsOk (take_answer session token self.now) → IfErr result (λ e. e ≡ Memory alloc_error) }
    {
        match self.owners.get(session) {
            Some(number) => self.stream(number).batch(alloc, number, token),
            None => Err(StreamError::NotOwner),
        }
    }

    /// The next batch of a stream is in progress from now on. It takes no memory.
    pub fn begin(&mut self, stream: u64)
        requires above { 0 < stream }
        requires opened { stream ≤ length self.old.opened }
        ensures { self.new ≡ taken (New stream) self.old }
    {
        self.opened[stream as usize - 1].busy = true;
    }

    /// The batch in progress of a stream is finished, and its response is kept. It takes no memory.
    pub fn finish(&mut self, stream: u64, kept: Kept)
        requires busy { (stream_of stream self.old).busy ≡ true }
        requires counted { suc (stream_of stream self.old).finished < 2 ^ 64 }
        ensures { self.new ≡ finished_with stream kept self.old }
    {
        self.opened[stream as usize - 1].finish(kept);
    }

    /// A session owns no stream any longer. What it owned stays, and a batch in progress goes on. It takes no memory.
    pub fn leave(&mut self, session: u32)
        ensures { self.new ≡ left_by session self.old }
    {
        self.owners.remove(session);
    }

    /// The stream that a session owns, and how many of its batches are finished.
    pub fn owned(&self, session: u32) -> Option<(u64, u64)>
        ensures value { result ≡ owned_by session self.now }
        ensures stands { Stands self.now }
        ensures distinct { AreDistinct self.now.owners }
    {
        let number = self.owners.get(session)?;
        Some((number, self.stream(number).finished))
    }

    /// The session that owns a stream.
    pub fn owner(&self, stream: u64) -> Option<u32>
        ensures { result ≡ key_of stream (entries self.now.owners) }
    {
        self.owners.key_of(stream)
    }

    /// What is known of the stream of a number, if one was opened.
    pub fn get(&self, stream: u64) -> Option<&Stream>
        ensures some { IfSome result (λ s. (is_opened stream self.now ≡ true) × (s.now ≡ stream_of stream self.now)) }
        ensures none { IsNone result ↔ (is_opened stream self.now ≡ false) }
    {
        if stream == 0 || stream > self.opened.len() as u64 {
            None
        } else {
            Some(self.stream(stream))
        }
    }

    /// So many streams may be opened.
    pub fn limit(&self) -> u64
        ensures { result ≡ self.now.limit }
    {
        self.limit
    }

    /// Whether as many streams were opened as may be.
    pub fn is_full(&self) -> bool
        ensures { result ≡ is_full self.now }
    {
        self.limit <= self.opened.len() as u64
    }

    // The stream of a number that was opened.
    fn stream(&self, number: u64) -> &Stream
        requires above { 0 < number }
        requires opened { number ≤ length self.now.opened }
        ensures { result.now ≡ stream_of number self.now }
    {
        &self.opened[number as usize - 1]
    }

    // A session that owns no other stream owns one from now on.
    fn hand(&mut self, session: u32, stream: u64) -> Result<(), StreamError>
        requires opened { is_opened stream self.old ≡ true }
        requires alone { owns_other session stream self.old ≡ false }
        ensures ok { OnOk result (self.new ≡ handed_to session stream self.old) }
        ensures err { OnErr result (self.new ≡ self.old) }
        ensures memory { IfErr result (λ e. e ≡ Memory alloc_error) }
    {
        match self.owners.get(session) {
            Some(_) => Ok(()),
            None => {
                self.owners.give(session, stream)?;
                Ok(())
            }
        }
    }
}
