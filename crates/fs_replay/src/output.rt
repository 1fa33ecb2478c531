//! What a run gives to its sink.
ghost use Rattle.std.specs.Prelude.{◌≡◌, ◌++◌, ◌<◌, ℕ, List, [], length};
ghost use Rattle.std.specs.Bool.{OnTrue, OnFalse};
ghost use Rattle.fs_edge.specs.Count.{one_more};
ghost use Rattle.fs_replay.specs.Limits.{piece_size};
ghost use Rattle.fs_replay.specs.Moved.{Gained, GainedFront};

use crate::limits::PIECE;
use fs_edge::{Gave, Sink};

/// Gives all of a piece to a sink, asking again where it took a part. False where the sink failed, which then took
/// some front of the piece. For an empty piece it isn't asked.
pub fn put<K: Sink>(sink: &mut K, piece: &[u8]) -> bool
    ensures whole { OnTrue result (Gained (K.given sink.old) (K.given sink.new) piece.now) }
    ensures part { OnFalse result (GainedFront (K.given sink.old) (K.given sink.new) piece.now) }
    ensures no_fault { OnTrue result (K.faults sink.new ≡ K.faults sink.old) }
    ensures failed { OnFalse result (K.faults sink.new ≡ one_more (K.faults sink.old)) }
    ensures unasked { piece.now ≡ [] → sink.new ≡ sink.old }
{
    let mut rest = piece;
    while !rest.is_empty() {
        match sink.write(rest) {
            Gave::Bytes(count) => rest = &rest[count..],
            Gave::Failed => return false,
        }
    }
    true
}

/// Gives the output to the sink once there is enough for a piece, so that less than one is left. False where the sink failed.
pub fn pass_on<K: Sink>(sink: &mut K, out: &mut Vec<u8>) -> bool
    ensures passed { OnTrue result ((piece : List ℕ) × Gained (K.given sink.old) (K.given sink.new) piece × (out.old.items ≡ piece ++ out.new.items)) }
    ensures failed { OnFalse result (GainedFront (K.given sink.old) (K.given sink.new) out.old.items) }
    ensures left { OnTrue result (length out.new.items < piece_size) }
    ensures no_fault { OnTrue result (K.faults sink.new ≡ K.faults sink.old) }
    ensures cause { OnFalse result (K.faults sink.new ≡ one_more (K.faults sink.old)) }
    ensures unasked { out.old.items ≡ [] → sink.new ≡ sink.old }
{
    if out.len() < PIECE {
        return true;
    }
    let passed = put(sink, out);
    out.clear();
    passed
}
