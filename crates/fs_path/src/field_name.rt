//! Names of fields.
ghost use Rattle.std.specs.Prelude.{◌≡◌};
ghost use Rattle.std.specs.List.{list_all};
ghost use Rattle.fs_path.specs.FieldName.{is_simple, is_bad_name, is_name_byte};

use crate::limits::MAX_FIELD_NAME;
use crate::segment::is_reserved;
use crate::stage::{is_name_byte, is_name_start};

/// Whether a field name needs no backquotes in a field path: letters, digits and underscores, no digit first.
pub(crate) fn is_simple_name(name: &str) -> bool
    ensures { result ≡ is_simple name.now }
{
    match name.as_bytes() {
        [] => false,
        [first, rest @ ..] => is_name_start(*first) && all_name_bytes(rest),
    }
}

fn all_name_bytes(bytes: &[u8]) -> bool
    ensures { result ≡ list_all is_name_byte bytes.now }
{
    bytes.iter().all(|b| is_name_byte(*b))
}

/// Whether no document may have a field of this name: it is empty, longer than 1,500 bytes, or matches `__.*__`.
pub fn is_bad_field_name(name: &str) -> bool
    ensures { result ≡ is_bad_name name.now }
{
    name.is_empty() || name.len() > MAX_FIELD_NAME || is_reserved(name)
}
