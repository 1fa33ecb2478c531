//! The values that options may have.
ghost use Rattle.std.specs.Prelude.{◌≡◌};
ghost use Rattle.std.specs.Char.{is_ascii_digit};
ghost use Rattle.std.specs.List.{list_all};
ghost use Rattle.fsemu.specs.Words.{is_number, is_project, is_project_letter, is_project_text};
ghost use Rattle.fsemu.specs.Reader.{if_shards, mode_in, number_in, shards_in};

use fs_machine::Mode;
use fs_path::MOST_SHARDS;

const SHORTEST_PROJECT: usize = 2;

const LONGEST_PROJECT: usize = 30;

// The most digits that a number is written with.
const MOST_DIGITS: usize = 10;

/// Whether a text is the name of a project: a lower-case letter, then lower-case letters, digits and `-`.
pub fn is_project(text: &str) -> bool
    ensures { result ≡ is_project text.now }
{
    SHORTEST_PROJECT <= text.len()
        && text.len() <= LONGEST_PROJECT
        && is_project_text(text.as_bytes())
}

fn is_project_text(text: &[u8]) -> bool
    ensures { result ≡ is_project_text text.now }
{
    match text {
        [] => false,
        [first, rest @ ..] => first.is_ascii_lowercase() && all_project_letters(rest),
    }
}

fn all_project_letters(text: &[u8]) -> bool
    ensures { result ≡ list_all is_project_letter text.now }
{
    text.iter().all(|c| is_project_letter(*c))
}

fn is_project_letter(c: u8) -> bool
    ensures { result ≡ is_project_letter c }
{
    c.is_ascii_lowercase() || c.is_ascii_digit() || c == b'-'
}

/// The mode that a text names.
pub fn mode_in(text: &str) -> Option<Mode>
    ensures { result ≡ mode_in text.now }
{
    match text {
        "pessimistic" => Some(Mode::Pessimistic),
        "optimistic" => Some(Mode::Optimistic),
        _ => None,
    }
}

/// The number of shards that a text writes, if a server may have so many.
pub fn shards_in(text: &str) -> Option<u32>
    ensures { result ≡ shards_in text.now }
{
    let n = number_in(text)?;
    if_shards(n)
}

fn if_shards(n: u64) -> Option<u32>
    ensures { result ≡ if_shards n }
{
    if 1 <= n && n <= u64::from(MOST_SHARDS) {
        Some(n as u32)
    } else {
        None
    }
}

fn number_in(text: &str) -> Option<u64>
    ensures { result ≡ number_in text.now }
{
    if !is_number(text.as_bytes()) {
        return None;
    }
    text.parse::<u64>().ok()
}

// Leading zeros are fine, and a sign isn't.
fn is_number(text: &[u8]) -> bool
    ensures { result ≡ is_number text.now }
{
    1 <= text.len() && text.len() <= MOST_DIGITS && all_digits(text)
}

fn all_digits(text: &[u8]) -> bool
    ensures { result ≡ list_all is_ascii_digit text.now }
{
    text.iter().all(|c| c.is_ascii_digit())
}
