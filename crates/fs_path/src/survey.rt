//! What is wrong with the ids of a path.
ghost use Rattle.std.specs.Prelude.{◌≡◌, ◌+◌, ◌<◌, ◌^◌, length};
ghost use Rattle.std.specs.Option.{option_copied};
ghost use Rattle.fs_path.specs.Refusal.{unless_refused};
ghost use Rattle.fs_path.specs.Cursor.{rest_segments};
ghost use Rattle.fs_path.specs.Findings.{findings, id_refusals, document_refusals, parent_refusals};
ghost use Rattle.fs_path.specs.Survey.{before_all, noted};

use crate::error::PathError;
use crate::limits::{MAX_ID, MAX_NAME, MAX_SEGMENTS};
use crate::segment::{first_segment, is_dots, is_reserved};
use std::marker::Model;

/// What the ids of a path break, as far as they were read.
#[derive(Drop)]
pub(crate) struct Survey {
    count: usize,
    empty: bool,
    reserved: bool,
    dots: bool,
    /// The length of the first id that is too long.
    long: Option<usize>,
}

impl Model for Survey {
    ghost use Rattle.fs_path.specs.Findings.{Findings};

    ghost Value = { Findings };

    ghost view = { λ s. record { count = s.count; empty = s.empty; reserved = s.reserved; dots = s.dots; long = s.long } };
}

impl Survey {
    /// Before any id.
    pub fn new() -> Survey
        ensures { result ≡ before_all }
    {
        Survey {
            count: 0,
            empty: false,
            reserved: false,
            dots: false,
            long: None,
        }
    }

    /// One id more.
    pub fn with(self, id: &str) -> Survey
        requires { self.count + 1 < 2 ^ 64 }
        ensures { result ≡ noted self id.now }
    {
        Survey {
            count: self.count + 1,
            empty: self.empty || id.is_empty(),
            reserved: self.reserved || is_reserved(id),
            dots: self.dots || is_dots(id),
            long: if id.len() > MAX_ID && self.long.is_none() {
                Some(id.len())
            } else {
                self.long
            },
        }
    }

    /// What is wrong first with the path of a document, in a text of so many bytes.
    pub fn check_document(&self, bytes: usize) -> Result<(), PathError>
        ensures { result ≡ unless_refused tt (document_refusals self.now bytes) }
    {
        if self.count % 2 != 0 || self.count == 0 {
            return Err(PathError::Parity);
        }
        self.check(bytes)
    }

    /// What is wrong first with the path of a parent, in a text of so many bytes.
    pub fn check_parent(&self, bytes: usize) -> Result<(), PathError>
        ensures { result ≡ unless_refused tt (parent_refusals self.now bytes) }
    {
        if self.count % 2 != 0 {
            return Err(PathError::Parity);
        }
        self.check(bytes)
    }

    /// What is wrong first with the ids, whatever their number, in a text of so many bytes.
    fn check(&self, bytes: usize) -> Result<(), PathError>
        ensures { result ≡ unless_refused tt (id_refusals self.now bytes) }
    {
        if self.empty {
            return Err(PathError::Empty);
        }
        if self.reserved {
            return Err(PathError::Reserved);
        }
        if self.dots {
            return Err(PathError::Dots);
        }
        if let Some(n) = self.long {
            return Err(PathError::TooLong(n as u64));
        }
        if bytes > MAX_NAME {
            return Err(PathError::TooLong(bytes as u64));
        }
        if self.count > MAX_SEGMENTS {
            return Err(PathError::TooDeep(self.count as u64));
        }
        Ok(())
    }
}

/// What the ids of a path break, where there are any.
pub(crate) fn survey_of(ids: Option<&str>) -> Survey
    ensures { result ≡ findings (rest_segments (option_copied ids.entry)) }
{
    let mut seen = Survey::new();
    let mut rest = ids;
    while let Some(text) = rest {
        let (id, more) = first_segment(text);
        seen = seen.with(id);
        rest = more;
    }
    seen
}
