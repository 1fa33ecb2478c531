//! The two spellings of a member's name: `readTime` may stand as `read_time`.
ghost use Rattle.std.specs.Prelude.{◌≡◌, ◌&&◌, not};
ghost use Rattle.std.specs.Str.{bytes_eq};
ghost use Rattle.fs_json.specs.Names.{snake_of, spells};

/// Whether the key is one of the two spellings of the name. A second spelling is longer than the name, where it is another.
/// (docs/DECISIONS.md, "A key without a `_` is never looked at as a second spelling".)
pub(crate) fn spells(name: &str, key: &str) -> bool
    ensures { result ≡ spells name.now key.now }
{
    if key.len() <= name.len() {
        name == key
    } else {
        is_snake(name.as_bytes(), key.as_bytes())
    }
}

/// Whether the key is the snake_case spelling of the name, and not the name itself.
#[inline(always)]
pub(crate) fn is_second_spelling(name: &str, key: &str) -> bool
    ensures { result ≡ (bytes_eq (snake_of name.now) key.now && not (bytes_eq name.now key.now)) }
{
    key.len() > name.len() && is_snake(name.as_bytes(), key.as_bytes())
}

/// Whether the key is the snake_case spelling of the name.
pub(crate) fn is_snake(name: &[u8], key: &[u8]) -> bool
    ensures { result ≡ bytes_eq (snake_of name.now) key.now }
{
    match name {
        [] => key.is_empty(),
        [c, name @ ..] => if c.is_ascii_uppercase() {
            match key {
                [b'_', k, key @ ..] => *k == c.to_ascii_lowercase() && is_snake(name, key),
                _ => false,
            }
        } else {
            match key {
                [k, key @ ..] => k == c && is_snake(name, key),
                _ => false,
            }
        },
    }
}
