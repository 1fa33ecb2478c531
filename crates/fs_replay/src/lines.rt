//! Cutting a script into its lines.
ghost use Rattle.std.specs.Prelude.{◌≡◌, ◌∷◌, ◌<◌, [], length, IfSome, IfNone};
ghost use Rattle.fs_replay.specs.Transcript.{lines_of};

use memchr::memchr;

/// The first line of a text, and what follows its newline, where there is one.
pub fn first_line(text: &[u8]) -> Option<(&[u8], &[u8])>
    ensures cut { IfSome result (λ cut. lines_of text.now ≡ cut.0.now ∷ lines_of cut.1.now) }
    ensures shorter { IfSome result (λ cut. length cut.1.now < length text.now) }
    ensures last { IfNone result (lines_of text.now ≡ text.now ∷ []) }
{
    let end = memchr(b'\n', text)?;
    Some((&text[..end], &text[end + 1..]))
}
