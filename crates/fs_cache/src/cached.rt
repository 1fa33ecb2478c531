//! A document that a client has.
ghost use Rattle.std.specs.Prelude.{◌≡◌, ◌∷◌, ◌++◌, [], IfOk, OnOk};
ghost use Rattle.std.specs.List.{list_any};
ghost use Rattle.std.specs.Option.{option_copied};
ghost use Rattle.fs_cache.specs.Cached.{changed_for, is_number, left_by, of_targets, targets_of, without};
ghost use Rattle.fs_cache.specs.Places.{is_left};

use fs_query::Numbers;
use fs_value::Document;
use std::alloc::{AllocError, Global};

/// A document that a client has, and the targets whose views have it. There is one at least.
#[derive(Drop)]
pub struct CachedDocument {
    pub document: Document,
    pub targets: Numbers,
}

// Whether a number is among some.
fn is_number(numbers: &[u32], number: u32) -> bool
    ensures { result ≡ is_number numbers.now number }
{
    numbers.contains(&number)
}

// The targets of some that aren't among those that are gone, nor among others.
fn without(
    alloc: Global,
    targets: &[u32],
    gone: &[u32],
    others: &[u32],
) -> Result<Numbers, AllocError>
    ensures { IfOk result (λ n. n ≡ without (gone.now ++ others.now) targets.now) }
{
    let mut left = Numbers::new(alloc);
    for target in targets {
        if !is_number(gone, *target) && !is_number(others, *target) {
            left.push(*target)?;
        }
    }
    Ok(left)
}

/// Whether what is had is another once some targets have it no longer.
pub(crate) fn is_left(gone: &[u32], had: Option<&CachedDocument>) -> bool
    ensures { result ≡ is_left gone.now (option_copied had.entry) }
{
    match had {
        None => false,
        Some(had) => had.targets.is_empty() || is_any(gone, had.targets.as_slice()),
    }
}

// Whether any of some numbers is among others.
fn is_any(numbers: &[u32], some: &[u32]) -> bool
    ensures { result ≡ list_any (is_number numbers.now) some.now }
{
    some.iter().any(|number| is_number(numbers, *number))
}

// The document of some targets, if there is one.
fn of_targets(document: Document, targets: Numbers) -> Option<CachedDocument>
    ensures { result ≡ of_targets document targets }
{
    if targets.is_empty() {
        None
    } else {
        Some(CachedDocument { document, targets })
    }
}

/// What is had of a document that some targets have no longer.
pub(crate) fn left_by(
    alloc: Global,
    gone: &[u32],
    had: Option<&CachedDocument>,
) -> Result<Option<CachedDocument>, AllocError>
    ensures { IfOk result (λ c. c ≡ left_by gone.now (option_copied had.entry)) }
{
    match had {
        None => Ok(None),
        Some(had) => {
            let targets = without(alloc, had.targets.as_slice(), gone, &[])?;
            if targets.is_empty() {
                return Ok(None);
            }
            Ok(of_targets(had.document.copy(alloc)?, targets))
        }
    }
}

/// What is had of a document that is another now for some targets, and gone for others.
pub(crate) fn changed_for(
    alloc: Global,
    document: &Document,
    targets: &[u32],
    gone: &[u32],
    had: Option<&CachedDocument>,
) -> Result<Option<CachedDocument>, AllocError>
    ensures { IfOk result (λ c. c ≡ changed_for document.now targets.now gone.now (option_copied had.entry)) }
{
    if targets.is_empty() {
        return left_by(alloc, gone, had);
    }
    let mut all = match had {
        Some(had) => without(alloc, had.targets.as_slice(), gone, targets)?,
        None => Numbers::new(alloc),
    };
    push_all(&mut all, targets)?;
    Ok(Some(CachedDocument {
        document: document.copy(alloc)?,
        targets: all,
    }))
}

fn push_all(numbers: &mut Numbers, more: &[u32]) -> Result<(), AllocError>
    ensures { OnOk result (numbers.new ≡ numbers.old ++ more.now) }
{
    for number in more {
        numbers.push(*number)?;
    }
    Ok(())
}

/// A target has a document no longer, in place. Where it was the last, none is had.
pub(crate) fn forget(had: &mut Option<CachedDocument>, target: u32)
    ensures { had.new ≡ left_by (target ∷ []) had.old }
{
    let Some(CachedDocument { document, targets }) = had.take() else {
        return;
    };
    let mut left = targets.into_vec();
    left.retain(|t| *t != target);
    *had = of_targets(document, Numbers::of(left));
}
