//! Lists of texts.
ghost use Rattle.std.specs.Prelude.{◌≡◌, IfOk};
ghost use Rattle.std.specs.Option.{option_copied};
ghost use Rattle.fs_path.specs.Cursor.{rest_segments};

use crate::list::{Copied, List};
use crate::segment::first_segment;
use crate::text::Text;
use std::alloc::{AllocError, Global};

/// Texts in order, as the ids of a path from its root down: `users`, `ada`, `notes`, `1`.
pub type Ids = List<Text>;

/// Texts in order that are no path, as the messages of a link.
pub type Texts = List<Text>;

impl Copied for Text {
    fn copy(&self, alloc: Global) -> Result<Text, AllocError> {
        self.copy(alloc)
    }
}

/// The ids of a path, which are none where there is no text.
pub(crate) fn split(alloc: Global, path: Option<&str>) -> Result<Ids, AllocError>
    ensures { IfOk result (λ l. l ≡ rest_segments (option_copied path.entry)) }
{
    let mut items = Vec::new(alloc);
    let mut rest = path;
    while let Some(text) = rest {
        let (id, more) = first_segment(text);
        items.push(Text::from_str(alloc, id)?)?;
        rest = more;
    }
    Ok(Ids::of(items))
}
