//! The events of targets.
ghost use Rattle.std.specs.Prelude.{◌≡◌, ◌↔◌, true};
ghost use Rattle.std.specs.List.{AllByRecursion, list_all};
ghost use Rattle.fs_target.specs.Staged.{IsNamed, is_named};

use fs_path::{Copied, DocName, List};
use fs_time::Micros;
use fs_value::Document;
use fs_write::copy_document;
use std::alloc::{AllocError, Global};

/// What a commit means to a target: a document enters what it listens to, changes in it, or leaves it.
#[derive(Drop)]
pub struct TimedEvent {
    /// The commit time.
    pub time: Micros,
    /// The number of the target.
    pub target: u64,
    pub name: DocName,
    /// The document behind the commit, or none where it is gone.
    pub after: Option<Document>,
    /// Whether the target listens to it behind the commit.
    pub inside: bool,
}

impl TimedEvent {
    ghost use Rattle.std.specs.Prelude.{◌≡◌, IfOk};
    ghost use Rattle.std.specs.Option.{option_copied};
    ghost use Rattle.fs_target.specs.Staged.{is_named, left_by};

    /// The same once more. Its document shares its fields with this one.
    pub fn copy(&self, alloc: Global) -> Result<TimedEvent, AllocError>
        ensures { IfOk result (λ e. e ≡ self.now) }
    {
        Ok(TimedEvent {
            time: self.time,
            target: self.target,
            name: self.name.copy(alloc)?,
            after: copy_document(alloc, &self.after)?,
            inside: self.inside,
        })
    }

    // Whether its document bears its name.
    fn is_named(&self) -> bool
        ensures { result ≡ is_named self.now }
    {
        match &self.after {
            Some(document) => document.name == self.name,
            None => true,
        }
    }

    /// Of the documents of the target, what stands at the name behind it.
    pub(crate) fn left(&self) -> Option<&Document>
        ensures { option_copied result ≡ left_by self.now }
    {
        if self.inside {
            self.after.as_ref()
        } else {
            None
        }
    }
}

fn all_named(events: &[TimedEvent]) -> bool
    ensures { result ≡ list_all is_named events.now }
{
    events.iter().all(|event| event.is_named())
}

/// Whether each document of events bears the name of its event, as `Targets::feed` wants it.
pub fn are_named(events: &[TimedEvent]) -> bool
    ensures { (result ≡ true) ↔ AllByRecursion IsNamed events.now }
{
    all_named(events)
}

/// Events of targets, those of each of them by time.
pub type TimedEvents = List<TimedEvent>;

impl Copied for TimedEvent {
    fn copy(&self, alloc: Global) -> Result<TimedEvent, AllocError> {
        self.copy(alloc)
    }
}
