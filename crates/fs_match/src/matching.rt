//! The events of changes.
ghost use Rattle.std.specs.Prelude.{◌≡◌};
ghost use Rattle.std.specs.Option.{option_copied};
ghost use Rattle.fs_query.specs.Fits.{fits};
ghost use Rattle.fs_match.specs.Event.{event_between, event_for, fitting, is_among};

use crate::events::Event;
use fs_path::Names;
use fs_query::{Query, matches};
use fs_value::{Document, document_same};

/// What a change of a document is to a listener of a query, by the document before and after it, each none where there is none.
/// It takes no memory.
pub fn event(q: &Query, before: Option<&Document>, after: Option<&Document>) -> Event
    ensures { result ≡ event_for (fits q.now) (option_copied before.entry) (option_copied after.entry) }
{
    between(fitting_query(q, before), fitting_query(q, after))
}

/// What a change of a document is to a listener of documents by their names. It takes no memory.
pub fn event_names(names: &Names, before: Option<&Document>, after: Option<&Document>) -> Event
    ensures { result ≡ event_for (is_among names.now) (option_copied before.entry) (option_copied after.entry) }
{
    between(fitting_names(names, before), fitting_names(names, after))
}

// The document, where it is there and fits a query.
fn fitting_query<'a>(q: &Query, document: Option<&'a Document>) -> Option<&'a Document>
    ensures { option_copied result ≡ fitting (fits q.now) (option_copied document.entry) }
{
    match document {
        Some(d) if matches(q, d) => Some(d),
        _ => None,
    }
}

// The document, where it is there and its name is among names.
fn fitting_names<'a>(names: &Names, document: Option<&'a Document>) -> Option<&'a Document>
    ensures { option_copied result ≡ fitting (is_among names.now) (option_copied document.entry) }
{
    match document {
        Some(d) if is_named(names, d) => Some(d),
        _ => None,
    }
}

// Whether the document's name is among names.
fn is_named(names: &Names, document: &Document) -> bool
    ensures { result ≡ is_among names.now document.now }
{
    names.as_slice().contains(&document.name)
}

// What happens to what fits, by what fits before and after.
fn between(before: Option<&Document>, after: Option<&Document>) -> Event
    ensures { result ≡ event_between (option_copied before.entry) (option_copied after.entry) }
{
    match (before, after) {
        (None, None) => Event::None,
        (None, Some(_)) => Event::Enter,
        (Some(_), None) => Event::Leave,
        (Some(one), Some(other)) => {
            if document_same(one, other) {
                Event::None
            } else {
                Event::Change
            }
        }
    }
}
