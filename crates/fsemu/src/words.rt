//! The words of the command line.
ghost use Rattle.std.specs.Prelude.{◌≡◌, IfOk, IfSome, IfNone, OnErr, map, string_bytes, option_map};
ghost use Rattle.fsemu.specs.Words.{AreAllowed, IsCommand, IsReplay};
ghost use Rattle.fsemu.specs.Reader.{found_by, read_command};
ghost use Rattle.fsemu.specs.declared.options.Options.{Options};

use crate::given::Given;
use crate::options::Options;
use crate::reader::read_options;
use std::alloc::{AllocError, Global};

/// What the words ask for, if they are `replay` and its options.
pub fn read_words(alloc: Global, words: &[String]) -> Result<Option<Options>, AllocError>
    ensures some { IfOk result (λ read. IfSome read (IsReplay (map string_bytes words.now))) }
    ensures only { IfOk result (λ read. IfSome read (λ options. (others : Options) → IsReplay (map string_bytes words.now) others → others ≡ options)) }
    ensures none { IfOk result (λ read. IfNone read (¬ (IsCommand (map string_bytes words.now)))) }
    ensures allowed { IfOk result (λ read. IfSome read AreAllowed) }

    // Words that are no command are told as such though there is no memory.
    ensures err { OnErr result (IsCommand (map string_bytes words.now)) }
{
    match given_in(words) {
        Some(given) => Ok(Some(given.options(alloc)?)),
        None => Ok(None),
    }
}

fn given_in<'a>(words: &'a [String]) -> Option<Given<'a>>
    ensures { option_map found_by result ≡ read_command (map string_bytes words.now) }
{
    match words {
        [command, options @ ..] if command.as_str() == "replay" => read_options(options),
        _ => None,
    }
}
