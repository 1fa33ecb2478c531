//! A reader of options, word by word.
ghost use Rattle.std.specs.Prelude.{◌≡◌, map, string_bytes, option_map};
ghost use Rattle.fsemu.specs.Reader.{at_first, ended, found_by, read_all, read_option, read_options, read_value, read_word, state_by};

use crate::given::{Given, Name};

/// What options give, or nothing where the words aren't options.
pub fn read_options<'a>(words: &'a [String]) -> Option<Given<'a>>
    ensures { option_map found_by result ≡ read_options (map string_bytes words.now) }
{
    read_all(Reader::new(), words)?.end()
}

// The reader behind these words.
// (docs/DECISIONS.md, "Words are read by a recursion".)
fn read_all<'a>(reader: Reader<'a>, words: &'a [String]) -> Option<Reader<'a>>
    ensures { option_map state_by result ≡ read_all (state_by reader.entry) (map string_bytes words.now) }
{
    match words {
        [] => Some(reader),
        [word, rest @ ..] => read_all(reader.read(word.as_str())?, rest),
    }
}

// What the words so far gave, and the option whose value is the next word.
#[derive(Clone, Copy)]
struct Reader<'a> {
    given: Given<'a>,
    awaited: Option<Name>,
}

impl<'a> Reader<'a> {
    fn new() -> Reader<'a>
        ensures { state_by result ≡ at_first }
    {
        Reader {
            given: Given::nothing(),
            awaited: None,
        }
    }

    fn read(self, word: &'a str) -> Option<Reader<'a>>
        ensures { option_map state_by result ≡ read_word (state_by self.entry) word.entry.now }
    {
        match self.awaited {
            Some(name) => self.value(name, word),
            None => self.option(word),
        }
    }

    // `--shards`, or `--shards=8`
    fn option(self, word: &'a str) -> Option<Reader<'a>>
        ensures { option_map state_by result ≡ read_option (state_by self.entry) word.entry.now }
    {
        match word.split_once('=') {
            Some((name, value)) => self.value(Name::of(name)?, value),
            None => Some(Reader {
                given: self.given,
                awaited: Some(Name::of(word)?),
            }),
        }
    }

    fn value(self, name: Name, value: &'a str) -> Option<Reader<'a>>
        ensures { option_map state_by result ≡ read_value (state_by self.entry) name value.entry.now }
    {
        Some(Reader {
            given: self.given.with(name, value)?,
            awaited: None,
        })
    }

    fn end(self) -> Option<Given<'a>>
        ensures { option_map found_by result ≡ ended (state_by self.entry) }
    {
        match self.awaited {
            Some(_) => None,
            None => Some(self.given),
        }
    }
}
