//! Reading all that a source has.
ghost use Rattle.std.specs.Prelude.{◌≡◌, ◌≢◌, ◌↔◌, ◌<◌, ◌≤◌, ℕ, List, [], Option, length, IfOk, IfSome, OnOk, OnErr, vec_len};
ghost use Rattle.fs_edge.specs.Count.{one_more};
ghost use Rattle.fs_replay.specs.Gathering.{GrowsBy, status_of};
ghost use Rattle.fs_replay.specs.Limits.{longest_input};
ghost use Rattle.fs_replay.specs.Moved.{Taken, TakenUpTo};
ghost use Rattle.fs_replay.specs.Run.{Ends, ReadFaults};

use crate::limits::{LONGEST_INPUT, PIECE};
use fs_edge::{Source, Status, Took};
use std::alloc::{AllocError, Global};

/// Why reading stopped.
#[derive(Clone, Copy, PartialEq, Eq)]
pub enum Stop {
    /// The source told its end.
    End,
    /// The source failed.
    Failed,
    /// The source gave as many bytes as a run takes.
    Full,
}

impl Stop {
    ghost use Rattle.fs_replay.specs.Gathering.{is_whole, status_of};

    /// Whether the last line came whole, newline or not.
    pub fn is_whole(self) -> bool
        ensures { result ≡ is_whole self }
    {
        match self {
            Stop::End => true,
            Stop::Failed => false,
            Stop::Full => false,
        }
    }

    /// How a run ends that has carried out all that was read.
    pub fn status(self) -> Status
        ensures { result ≡ status_of self }
    {
        match self {
            Stop::End => Status::Ok,
            Stop::Failed => Status::ReadFault,
            Stop::Full => Status::InputLimit,
        }
    }
}

/// What was read, and why it ended there.
#[derive(Drop)]
pub struct Input {
    pub bytes: Vec<u8>,
    pub stop: Stop,
}

// A buffer.
fn zeros(alloc: Global, count: usize) -> Result<Vec<u8>, AllocError>
    ensures { IfOk result (λ v. vec_len v ≡ count) }
{
    vec![in alloc; 0u8; count]
}

// Takes the next bytes through a buffer, and adds them to those that were taken before.
fn take_next<S: Source>(
    source: &mut S,
    buffer: &mut [u8],
    bytes: &mut Vec<u8>,
) -> Result<Took, AllocError>
    requires { 0 < length buffer.old }
    ensures taken { OnOk result ((first : Option (List ℕ)) → Taken first (S.left source.old) bytes.old.items
        → Taken first (S.left source.new) bytes.new.items) }
    ensures err { OnErr result (TakenUpTo (length buffer.old) (S.left source.old) (S.left source.new)) }
    ensures grows { IfOk result (λ took. GrowsBy took (vec_len bytes.old) (length buffer.old) (vec_len bytes.new)) }
    ensures end { IfOk result (λ took. took ≡ Took.End → IfSome (S.left source.new) (λ rest. rest ≡ [])) }
    ensures failed { result ≡ Ok Took.Failed → S.faults source.new ≡ one_more (S.faults source.old) }
    ensures no_fault { result ≢ Ok Took.Failed → S.faults source.new ≡ S.faults source.old }
    ensures ended { result ≡ Ok Took.End → S.ends source.new ≡ one_more (S.ends source.old) }
    ensures no_end { result ≢ Ok Took.End → S.ends source.new ≡ S.ends source.old }
{
    let took = source.read(buffer);
    if let Took::Bytes(count) = took {
        bytes.extend_from_slice(&buffer[..count])?;
    }
    Ok(took)
}

/// Takes all bytes of a source, up to the limit.
pub fn gather<S: Source>(alloc: Global, source: &mut S) -> Result<Input, AllocError>
    ensures taken { IfOk result (λ input. Taken (S.left source.old) (S.left source.new) input.bytes.items) }
    ensures err { OnErr result (TakenUpTo longest_input (S.left source.old) (S.left source.new)) }
    ensures end { IfOk result (λ input. input.stop ≡ Stop.End → IfSome (S.left source.new) (λ rest. rest ≡ [])) }
    ensures faults { IfOk result (λ input. ReadFaults (status_of input.stop) (S.faults source.old) (S.faults source.new)) }
    ensures ends { IfOk result (λ input. Ends (status_of input.stop) (S.ends source.old) (S.ends source.new)) }
    ensures no_fault { OnErr result (S.faults source.new ≡ S.faults source.old) }
    ensures no_end { OnErr result (S.ends source.new ≡ S.ends source.old) }
    ensures within { IfOk result (λ input. length input.bytes.items ≤ longest_input) }
    ensures full { IfOk result (λ input. (input.stop ≡ Stop.Full) ↔ (length input.bytes.items ≡ longest_input)) }
{
    let mut buffer = zeros(alloc, PIECE)?;
    let mut bytes = Vec::new(alloc);
    while bytes.len() < LONGEST_INPUT {
        let room = PIECE.min(LONGEST_INPUT - bytes.len());
        let stop = match take_next(source, &mut buffer[..room], &mut bytes)? {
            Took::Bytes(_) => continue,
            Took::End => Stop::End,
            Took::Failed => Stop::Failed,
        };
        return Ok(Input { bytes, stop });
    }
    Ok(Input {
        bytes,
        stop: Stop::Full,
    })
}
