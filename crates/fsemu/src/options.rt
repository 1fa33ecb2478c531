//! What a command asks for.
ghost use Rattle.std.specs.Prelude.{◌≡◌, IfOk};

use fs_machine::{Config, Mode};
use fs_path::{Root, Text};
use std::alloc::{AllocError, Global};

const DATABASE: &str = "(default)";

/// What the words of `replay` ask for, by its options or by what holds without them.
#[derive(Drop)]
pub struct Options {
    /// The project whose documents the server has.
    pub project: Text,
    pub mode: Mode,
    /// How many shards the server has, 1 to 16.
    pub shards: u32,
}

impl Options {
    ghost use Rattle.fsemu.specs.Words.{config_of};

    /// The configuration of such a server, whose database is the default one.
    pub fn config(self, alloc: Global) -> Result<Config, AllocError>
        ensures { IfOk result (λ config. config ≡ config_of self) }
    {
        Ok(Config {
            root: Root {
                project: self.project,
                database: Text::from_str(alloc, DATABASE)?,
            },
            mode: self.mode,
            shards: self.shards,
        })
    }
}
