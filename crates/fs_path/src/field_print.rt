//! Printing of field paths.
ghost use Rattle.std.specs.Prelude.{◌≡◌, ◌++◌, ◌==◌, ◌||◌, IfOk, OnOk, Ok, string_bytes};
ghost use Rattle.std.specs.List.{flat_map};
ghost use Rattle.fs_path.specs.Field.{field_of, field_text, name_text, escaped};

use crate::field::FieldPath;
use crate::field_name::is_simple_name;
use crate::text::Text;
use std::alloc::{AllocError, Global};

/// Writes a field path: each name as it is where it is simple, else in backquotes.
pub fn print_field(alloc: Global, path: &FieldPath) -> Result<Text, AllocError>
    ensures text { IfOk result (λ t. t ≡ field_text path.now.parts) }

    // Reading it back gives the same names.
    ensures again { IfOk result (λ t. field_of t ≡ Ok path.now.parts) }
{
    let mut text = String::new(alloc);
    let names = path.parts.as_slice();
    for i in 0..names.len() {
        if i > 0 {
            text.push_str(".")?;
        }
        push_name(&mut text, names[i].as_str())?;
    }
    Ok(Text::of(text))
}

/// Adds a name at the end, in backquotes where it needs them.
fn push_name(text: &mut String, name: &str) -> Result<(), AllocError>
    ensures { OnOk result (string_bytes text.new ≡ string_bytes text.old ++ name_text name.now) }
{
    if is_simple_name(name) {
        return text.push_str(name);
    }
    text.push_str("`")?;
    push_escaped(text, name)?;
    text.push_str("`")
}

/// Adds a name at the end, with a backslash before each backquote and backslash in it.
fn push_escaped(text: &mut String, name: &str) -> Result<(), AllocError>
    ensures { OnOk result (string_bytes text.new ≡ string_bytes text.old ++ flat_map escaped name.now) }
{
    let bytes = name.as_bytes();
    // The name is written up to here.
    let mut from = 0;
    for at in 0..bytes.len() {
        if is_marked(bytes[at]) {
            text.push_str(&name[from..at])?;
            text.push_str("\\")?;
            from = at;
        }
    }
    text.push_str(&name[from..])
}

/// Whether a byte of a name stands behind a backslash.
fn is_marked(b: u8) -> bool
    ensures { result ≡ (b == 96 || b == 92) }
{
    b == b'`' || b == b'\\'
}
