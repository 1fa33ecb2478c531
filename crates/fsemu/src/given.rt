//! The options that words give.
ghost use Rattle.std.specs.Prelude.{◌≡◌, IfOk, option_map};
ghost use Rattle.fsemu.specs.Reader.{found_by, name_in, nothing, options_by, with_value};

use crate::options::Options;
use crate::values::{is_project, mode_in, shards_in};
use fs_machine::Mode;
use fs_path::Text;
use std::alloc::{AllocError, Global};

const DEFAULT_PROJECT: &str = "demo";

const DEFAULT_MODE: Mode = Mode::Pessimistic;

const DEFAULT_SHARDS: u32 = 4;

/// The name of an option.
#[derive(Clone, Copy)]
pub enum Name {
    Project,
    Concurrency,
    Shards,
}

impl Name {
    /// The option that is called so, in full.
    pub fn of(word: &str) -> Option<Name>
        ensures { result ≡ name_in word.now }
    {
        match word {
            "--project" => Some(Name::Project),
            "--concurrency" => Some(Name::Concurrency),
            "--shards" => Some(Name::Shards),
            _ => None,
        }
    }
}

/// The options that were given so far. Nothing is copied before all words are read, so that whether they are a command doesn't
/// hang on memory.
#[derive(Clone, Copy)]
pub struct Given<'a> {
    pub project: Option<&'a str>,
    pub mode: Option<Mode>,
    pub shards: Option<u32>,
}

impl<'a> Given<'a> {
    pub fn nothing() -> Given<'a>
        ensures { found_by result ≡ nothing }
    {
        Given {
            project: None,
            mode: None,
            shards: None,
        }
    }

    /// With one option more, unless it was given before or the text is none of its values.
    pub fn with(self, name: Name, value: &'a str) -> Option<Given<'a>>
        ensures { option_map found_by result ≡ with_value (found_by self.entry) name value.entry.now }
    {
        match name {
            Name::Project => self.with_project(value),
            Name::Concurrency => self.with_mode(value),
            Name::Shards => self.with_shards(value),
        }
    }

    fn with_project(self, value: &'a str) -> Option<Given<'a>>
        ensures { option_map found_by result ≡ with_value (found_by self.entry) Name.Project value.entry.now }
    {
        if self.project.is_some() || !is_project(value) {
            return None;
        }
        Some(Given {
            project: Some(value),
            ..self
        })
    }

    fn with_mode(self, value: &'a str) -> Option<Given<'a>>
        ensures { option_map found_by result ≡ with_value (found_by self.entry) Name.Concurrency value.entry.now }
    {
        if self.mode.is_some() {
            return None;
        }
        Some(Given {
            mode: Some(mode_in(value)?),
            ..self
        })
    }

    fn with_shards(self, value: &'a str) -> Option<Given<'a>>
        ensures { option_map found_by result ≡ with_value (found_by self.entry) Name.Shards value.entry.now }
    {
        if self.shards.is_some() {
            return None;
        }
        Some(Given {
            shards: Some(shards_in(value)?),
            ..self
        })
    }

    /// These, and the defaults for the others.
    pub fn options(self, alloc: Global) -> Result<Options, AllocError>
        ensures { IfOk result (λ options. options ≡ options_by (found_by self.entry)) }
    {
        Ok(Options {
            project: Text::from_str(alloc, self.project.unwrap_or(DEFAULT_PROJECT))?,
            mode: self.mode.unwrap_or(DEFAULT_MODE),
            shards: self.shards.unwrap_or(DEFAULT_SHARDS),
        })
    }
}
