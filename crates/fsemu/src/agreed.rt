//! The same words read by `clap`.
//!
//! The reader of words here is proved to take exactly what the command line may be. `clap` is the library that users know, and
//! reads the words a second time: no run begins on words that the two take differently.
//! (docs/DECISIONS.md, "Words are read twice".)
use crate::options::Options;
use crate::values::{mode_in, shards_in};
use clap::{Arg, ArgMatches, Command, Error};
use std::alloc::{AllocError, Global};

/// Whether `clap` reads these options of the words. Where memory runs out it doesn't.
pub fn is_agreed(alloc: Global, words: &[String], options: &Options) -> bool {
    match matches_of(alloc, words) {
        Ok(matches) => are_found(&matches, options),
        Err(_) => false,
    }
}

fn matches_of<'a>(alloc: Global, words: &'a [String]) -> Result<ArgMatches<'a>, Error> {
    let program = program(alloc)?;
    program.try_get_matches_from(words)
}

fn program<'a>(alloc: Global) -> Result<Command<'a>, AllocError> {
    let replay = replay(alloc)?;
    Command::new(alloc, "fsemu")
        .no_binary_name(true)
        .disable_help_flag(true)
        .disable_help_subcommand(true)
        .disable_version_flag(true)
        .subcommand_required(true)
        .subcommand(replay)
}

fn replay<'a>(alloc: Global) -> Result<Command<'a>, AllocError> {
    Command::new(alloc, "replay")
        .disable_help_flag(true)
        .disable_version_flag(true)
        .arg(option(alloc, "project", "demo"))?
        .arg(option(alloc, "concurrency", "pessimistic"))?
        .arg(option(alloc, "shards", "4"))
}

fn option<'a>(alloc: Global, name: &'a str, default: &'a str) -> Arg<'a> {
    Arg::new(alloc, name).long(name).default_value(default)
}

fn are_found<'a>(matches: &ArgMatches<'a>, options: &Options) -> bool {
    match matches.subcommand() {
        Some(("replay", found)) => {
            found.get_str("project") == Some(options.project.as_str())
                && found.get_str("concurrency").and_then(|text| mode_in(text)) == Some(options.mode)
                && found.get_str("shards").and_then(|text| shards_in(text)) == Some(options.shards)
        }
        _ => false,
    }
}
