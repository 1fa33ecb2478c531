//! Whether paths of a mask overlap.
ghost use Rattle.std.specs.Prelude.{◌≡◌, IfOk};
ghost use Rattle.std.specs.List.{list_any};
ghost use Rattle.fs_path.specs.FieldOrder.{paths_at};
ghost use Rattle.fs_write.specs.Neighbours.{neighbours_overlap};
ghost use Rattle.fs_write.specs.Rules.{overlap, some_overlap};

use fs_path::{FieldPath, Paths};
use std::alloc::{AllocError, Global};

/// Whether two of these paths are equal, or one begins the other. It refuses only for want of memory. The paths are sorted,
/// name by name, so that those which a path begins stand right behind it, and each is compared with the next alone:
///
///     a.b, c, a, a_      sorted: a, a.b, a_, c      `a` begins `a.b`
pub fn overlap_with(alloc: Global, paths: &Paths) -> Result<bool, AllocError>
    ensures { IfOk result (λ b. b ≡ some_overlap paths.now) }
{
    some_overlap_with(alloc, paths.as_slice())
}

/// Whether two of these paths are equal, or one begins the other.
pub(crate) fn some_overlap_with(alloc: Global, paths: &[FieldPath]) -> Result<bool, AllocError>
    ensures { IfOk result (λ b. b ≡ some_overlap paths.now) }
{
    let mut sorted = references(alloc, paths)?;
    sorted.sort()?;
    Ok(neighbours_overlap(sorted.as_slice()))
}

fn references<'a>(alloc: Global, paths: &'a [FieldPath]) -> Result<Vec<&'a FieldPath>, AllocError>
    ensures { IfOk result (λ refs. paths_at refs.items ≡ paths.now) }
{
    let mut refs = Vec::with_capacity(alloc, paths.len())?;
    for path in paths {
        refs.push(path)?;
    }
    Ok(refs)
}

fn neighbours_overlap(paths: &[&FieldPath]) -> bool
    ensures { result ≡ neighbours_overlap (paths_at paths.now) }
{
    for i in 1..paths.len() {
        if overlap(paths[i - 1], paths[i]) {
            return true;
        }
    }
    false
}

fn overlaps_one(path: &FieldPath, others: &[FieldPath]) -> bool
    ensures { result ≡ list_any (overlap path.now) others.now }
{
    others.iter().any(|other| overlap(path, other))
}

/// Whether two of these paths are equal, or one begins the other. It takes no memory, and compares each with each.
pub(crate) fn some_overlap(paths: &[FieldPath]) -> bool
    ensures { result ≡ some_overlap paths.now }
{
    for (i, path) in paths.iter().enumerate() {
        if overlaps_one(path, &paths[i + 1..]) {
            return true;
        }
    }
    false
}

fn overlap(a: &FieldPath, b: &FieldPath) -> bool
    ensures { result ≡ overlap a.now b.now }
{
    let (p, q) = (a.parts.as_slice(), b.parts.as_slice());
    p.starts_with(q) || q.starts_with(p)
}
