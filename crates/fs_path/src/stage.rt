//! The stages of the reader of field paths.
ghost use Rattle.std.specs.Prelude.{◌≡◌};
ghost use Rattle.fs_path.specs.FieldName.{is_name_start, is_name_byte};
ghost use Rattle.fs_path.specs.FieldReader.{stage_after, takes, is_opening};

/// Where a reader of a field path stands: at the beginning of a name, inside a simple one, between backquotes, behind a
/// backslash there, or behind the closing backquote.
#[derive(Clone, Copy, PartialEq, Eq)]
pub(crate) enum Stage {
    Opening,
    Simple,
    Quoted,
    Escaped,
    Closed,
}

impl Stage {
    /// The stage after one byte more, or `None` where no field path goes on so.
    pub fn after(self, b: u8) -> Option<Stage>
        ensures { result ≡ stage_after self b }
    {
        match self {
            Stage::Opening if b == b'`' => Some(Stage::Quoted),
            Stage::Opening if is_name_start(b) => Some(Stage::Simple),
            Stage::Simple | Stage::Closed if b == b'.' => Some(Stage::Opening),
            Stage::Simple if is_name_byte(b) => Some(Stage::Simple),
            Stage::Quoted if b == b'`' => Some(Stage::Closed),
            Stage::Quoted if b == b'\\' => Some(Stage::Escaped),
            Stage::Quoted => Some(Stage::Quoted),
            Stage::Escaped if b == b'`' || b == b'\\' => Some(Stage::Quoted),
            _ => None,
        }
    }
}

/// Whether a dot led to a stage, so that a name is whole.
pub(crate) fn is_opening(stage: Stage) -> bool
    ensures { result ≡ is_opening stage }
{
    matches!(stage, Stage::Opening)
}

/// Whether the byte that leads from one stage to the next belongs to the name, and doesn't only mark it.
pub(crate) fn takes(stage: Stage, next: Stage) -> bool
    ensures { result ≡ takes stage next }
{
    match next {
        Stage::Simple => true,
        Stage::Quoted => stage != Stage::Opening,
        _ => false,
    }
}

/// Whether a simple field name may begin with a byte.
pub(crate) fn is_name_start(b: u8) -> bool
    ensures { result ≡ is_name_start b }
{
    matches!(b, b'a'..=b'z' | b'A'..=b'Z' | b'_')
}

/// Whether a simple field name may have a byte further on.
pub(crate) fn is_name_byte(b: u8) -> bool
    ensures { result ≡ is_name_byte b }
{
    is_name_start(b) || matches!(b, b'0'..=b'9')
}
