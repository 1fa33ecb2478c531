//! The rules that writes may break though they were walked.
ghost use Rattle.std.specs.Prelude.{◌≡◌, IfOk};
ghost use Rattle.std.specs.List.{AllByRecursion};
ghost use Rattle.fs_path.specs.Way.{place_of};
ghost use Rattle.fs_path.specs.declared.name.Root.{Root};
ghost use Rattle.fs_json.specs.Answer.{Gives};
ghost use Rattle.fs_writejson.specs.Rules.{judged_at, permitted_at, rule_of_draft, rules_at};
ghost use Rattle.fs_writejson.specs.Valid.{IsDraftOf, IsWriteOf};

use crate::draft::{Draft, Drafts};
use fs_json::Bad;
use fs_path::{Rule, Way};
use fs_write::{Write, Writes, check_with, overlap_with};
use std::alloc::{AllocError, Global};

/// The writes of a commit, once no rule of writes is broken: the first write that breaks one is told at its place in the
/// list, with the least of its rules. 2: two paths of the mask are equal, or one begins the other, also in a mask that a
/// delete may not have. 3: a delete with a mask or transforms. 4: the operand of `increment`, `maximum` or `minimum` isn't
/// an integer. Then those that `fs_write::check` tells.
/// (docs/DECISIONS.md, "The rules for a write's fields are tested after the whole request was walked".)
pub fn judge(alloc: Global, drafts: Drafts, way: &Way<'_>) -> Result<Writes, Bad>
    ensures gives { Gives (λ ws. ws) result (judged_at drafts (place_of way.now)) }

    // Drafts of the root's documents, whose references are names of documents, are then writes that are read back.
    ensures valid { (root : Root) → AllByRecursion (IsDraftOf root) drafts
        → IfOk result (λ ws. AllByRecursion (IsWriteOf root) ws) }
{
    refuse_broken(alloc, drafts.as_slice(), way)?;
    let writes = drafts.into_vec().into_iter().map(|draft| draft.write);
    Ok(Writes::of(writes.collect(alloc)?))
}

fn refuse_broken(alloc: Global, drafts: &[Draft], way: &Way<'_>) -> Result<(), Bad>
    ensures { Gives (λ u. u) result (rules_at drafts.now 0 (place_of way.now)) }
{
    for (i, draft) in drafts.iter().enumerate() {
        if let Some(rule) = rule_of_draft(alloc, draft)? {
            return Err(Bad::at(alloc, Rule::E(rule), &way.item(i as u64)));
        }
    }
    Ok(())
}

/// The write of a draft that breaks no rule.
pub(crate) fn permitted(alloc: Global, draft: Draft, way: &Way<'_>) -> Result<Write, Bad>
    ensures { Gives (λ w. w) result (permitted_at draft (place_of way.now)) }
{
    match rule_of_draft(alloc, &draft)? {
        Some(rule) => Err(Bad::at(alloc, Rule::E(rule), way)),
        None => Ok(draft.write),
    }
}

/// The least rule that a draft breaks, or none.
fn rule_of_draft(alloc: Global, draft: &Draft) -> Result<Option<u8>, AllocError>
    ensures { IfOk result (λ r. r ≡ rule_of_draft draft.now) }
{
    if let Some(mask) = &draft.idle_mask {
        return Ok(Some(if overlap_with(alloc, mask)? { 2 } else { 3 }));
    }
    match check_with(alloc, &draft.write)? {
        Some(rule) if rule < 4 => Ok(Some(rule)),
        rule => Ok(if draft.is_numeric { rule } else { Some(4) }),
    }
}
