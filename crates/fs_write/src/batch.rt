//! The writes of a commit, one after another.
ghost use Rattle.std.specs.Prelude.{◌≡◌, ◌≢◌, ◌<◌, ◌^◌, ◌∷◌, ◌++◌, IsTrue, IfOk, IfErr, OnOk, Ok, Err, Some, [], length};
ghost use Rattle.std.specs.FinMap.{get, is_sorted};
ghost use Rattle.std.specs.List.{AllByRecursion};
ghost use Rattle.fs_path.specs.NameOrder.{name_cmp};
ghost use Rattle.fs_status.specs.Refusal.{refusal_of};
ghost use Rattle.fs_status.specs.declared.reason.Reason.TheVariants.{Memory};
ghost use Rattle.fs_value.specs.Named.{by_name};
ghost use Rattle.fs_write.specs.Batch.{Docs, docs_of, batch, change_of, is_unchanged, IsNamed, IsOutcome};
ghost use Rattle.fs_write.specs.OneWrite.{one_write};
ghost use Rattle.fs_write.specs.Refused.{refused};
ghost use Rattle.fs_write.specs.Staging.{staged_at, both_of, with_change, IsStage, IsTaken, IsPut, IsNext, AreStagedChanges};
ghost use Rattle.fs_write.specs.WrittenName.{written_name};

use crate::change::{Change, Changes, copy_document};
use crate::one_write::{carry_out, is_same};
use crate::write::{Write, Writes};
use crate::write_result::{WriteResult, WriteResults};
use fs_path::DocName;
use fs_status::Refusal;
use fs_time::Micros;
use fs_value::{Document, Documents};
use std::alloc::{AllocError, Global};
use std::collections::BTreeMap;
use std::marker::Model;

// A document that is written: as it was before the commit, and as the writes so far leave it.
// (docs/DECISIONS.md, "A document that is being written has a block of its own".)
#[derive(Drop)]
struct Staged {
    before: Option<Document>,
    now: Option<Document>,
}

// The same, in a block of its own: in the map itself, whose nodes have room for fifteen, it would make each node so large
// that the allocator tidies its free blocks up whenever one is made.
#[derive(Drop)]
struct Boxed {
    staged: Box<Staged>,
}

impl Model for Boxed {
    ghost use Rattle.fs_write.specs.contracts.batch.Staged as plain;
    ghost use Rattle.fs_write.specs.declared.batch.Staged.{Staged};

    ghost Value = { Staged };

    ghost coded = { plain.the_row.coded };

    ghost view = { λ b. b.staged.value };
}

impl Boxed {
    ghost use Rattle.std.specs.Prelude.{◌≡◌, IfOk};

    fn new(alloc: Global, staged: Staged) -> Result<Boxed, AllocError>
        ensures { IfOk result (λ b. b ≡ staged) }
    {
        Ok(Boxed {
            staged: Box::new(alloc, staged)?,
        })
    }

    fn into_staged(self) -> Staged
        ensures { result ≡ self }
    {
        Box::into_inner(self.staged)
    }
}

// A name's document before it is written. Both copies share its fields.
fn stage_first(alloc: Global, docs: &Documents, name: &DocName) -> Result<Staged, AllocError>
    requires { IsTrue (is_sorted name_cmp (by_name docs.now)) }
    ensures before { IfOk result (λ s. s.before ≡ get (docs_of docs.now) name.now) }
    ensures now { IfOk result (λ s. s.now ≡ get (docs_of docs.now) name.now) }
{
    let before = match docs.find(name) {
        Some(document) => Some(document.copy(alloc)?),
        None => None,
    };
    let now = copy_document(alloc, &before)?;
    Ok(Staged { before, now })
}

// A name's document as it is staged, or where it isn't written yet, as it is there.
fn take(
    alloc: Global,
    docs: &Documents,
    stage: &mut BTreeMap<DocName, Boxed>,
    name: &DocName,
) -> Result<Staged, AllocError>
    requires { IsTrue (is_sorted name_cmp (by_name docs.now)) }
    ensures value { IfOk result (λ s. (s.before, s.now)
        ≡ both_of (get (docs_of docs.now) name.now) (staged_at name.now stage.old.entries)) }
    ensures taken { IfOk result (λ s. IsTaken stage.old.entries stage.new.entries name.now) }
{
    match stage.remove(name) {
        Some(staged) => Ok(staged.into_staged()),
        None => stage_first(alloc, docs, name),
    }
}

// Stages a name's document anew.
fn put(
    alloc: Global,
    stage: &mut BTreeMap<DocName, Boxed>,
    name: &DocName,
    staged: Staged,
) -> Result<(), AllocError>
    ensures { OnOk result (IsPut stage.old.entries stage.new.entries name.now staged) }
{
    let staged = Boxed::new(alloc, staged)?;
    stage.insert(name.copy(alloc)?, staged)?;
    Ok(())
}

// Carries out one more write, of this number, on its document as the writes before it left it.
fn write_next(
    alloc: Global,
    docs: &Documents,
    stage: &mut BTreeMap<DocName, Boxed>,
    write: &Write,
    number: u32,
    time: Micros,
) -> Result<WriteResult, Refusal>
    requires { IsTrue (is_sorted name_cmp (by_name docs.now)) }
    ensures ok { IfOk result (λ r. (after : Docs) → IsStage (docs_of docs.now) stage.old.entries after
        → IsNext (docs_of docs.now) stage.old.entries stage.new.entries write.now time r after) }
    ensures err { IfErr result (λ e. e ≢ refusal_of Memory
        → (after : Docs) → IsStage (docs_of docs.now) stage.old.entries after
        → refused number (one_write (get after (written_name write.now)) write.now time) ≡ Some e) }
{
    let name = write.name();
    let staged = take(alloc, docs, stage, name)?;
    let (now, answer) = carry_out(alloc, staged.now, write, number, time)?;
    let written = Staged {
        before: staged.before,
        now,
    };
    put(alloc, stage, name, written)?;
    Ok(answer)
}

fn is_unchanged(before: &Option<Document>, after: &Option<Document>) -> bool
    ensures { result ≡ is_unchanged before.now after.now }
{
    match (before, after) {
        (None, None) => true,
        (Some(one), Some(other)) => is_same(&one.fields, &other.fields),
        _ => false,
    }
}

// Adds the change of a document that was written, if it is changed.
fn add_change(changes: &mut Changes, name: DocName, staged: Staged) -> Result<(), AllocError>
    ensures { OnOk result (changes.new ≡ changes.old ++ with_change (change_of name staged.before staged.now) []) }
{
    let Staged { before, now } = staged;
    if is_unchanged(&before, &now) {
        return Ok(());
    }
    changes.push(Change {
        name,
        before,
        after: now,
    })
}

// The changes of the documents that were written.
fn changes_of(alloc: Global, stage: BTreeMap<DocName, Boxed>) -> Result<Changes, AllocError>
    ensures { IfOk result (λ changes. AreStagedChanges stage.entries changes) }
{
    let mut changes = Changes::new(alloc);
    for (name, staged) in stage {
        add_change(&mut changes, name, staged.into_staged())?;
    }
    Ok(changes)
}

/// Carries out the writes of a commit at a time, each on what those before it left. It answers the changes in the order of
/// names and the writes' results in theirs, or the refusal of the first write that is refused, with its number counted
/// from 0; then nothing is changed. Where memory runs out, it is refused for that.
///
/// Of the documents, whose names rise, only those matter that the writes name. A document whose fields are in the end what
/// they were isn't changed, whatever came between:
///
///     docs             c/a {n: 1} since time 5
///     writes at 9      c/a to {n: 2}, c/b to {n: 1}, c/a to {n: 1}
///     changes          c/b from none to {n: 1}, created and updated at 9
///     results          9, 9, 9
/// (docs/DECISIONS.md, "A batch is stated by two look-ups".)
pub fn apply_batch(
    alloc: Global,
    docs: &Documents,
    writes: &Writes,
    time: Micros,
) -> Result<(Changes, WriteResults), Refusal>
    requires rising { IsTrue (is_sorted name_cmp (by_name docs.now)) }
    requires few { length writes.now < 2 ^ 32 }
    ensures ok { IfOk result (λ r. IsOutcome (docs_of docs.now) writes.now time r.0 r.1) }
    ensures named { IfOk result (λ r. AllByRecursion IsNamed r.0) }
    ensures err { IfErr result (λ e. e ≢ refusal_of Memory → batch (docs_of docs.now) writes.now time ≡ Err e) }
{
    match writes.as_slice() {
        // Most commits have one write, which wants no map of the documents that are written.
        [write] => apply_one(alloc, docs, write, time),
        writes => apply_all(alloc, docs, writes, time),
    }
}

// One write alone.
fn apply_one(
    alloc: Global,
    docs: &Documents,
    write: &Write,
    time: Micros,
) -> Result<(Changes, WriteResults), Refusal>
    requires { IsTrue (is_sorted name_cmp (by_name docs.now)) }
    ensures ok { IfOk result (λ r. IsOutcome (docs_of docs.now) (write.now ∷ []) time r.0 r.1) }
    ensures named { IfOk result (λ r. AllByRecursion IsNamed r.0) }
    ensures err { IfErr result (λ e. e ≢ refusal_of Memory → batch (docs_of docs.now) (write.now ∷ []) time ≡ Err e) }
{
    let name = write.name();
    let staged = stage_first(alloc, docs, name)?;
    let (now, answer) = carry_out(alloc, staged.now, write, 0, time)?;
    let written = Staged {
        before: staged.before,
        now,
    };
    let mut changes = Changes::new(alloc);
    add_change(&mut changes, name.copy(alloc)?, written)?;
    let mut results = WriteResults::new(alloc);
    results.push(answer)?;
    Ok((changes, results))
}

fn apply_all(
    alloc: Global,
    docs: &Documents,
    writes: &[Write],
    time: Micros,
) -> Result<(Changes, WriteResults), Refusal>
    requires rising { IsTrue (is_sorted name_cmp (by_name docs.now)) }
    requires few { length writes.now < 2 ^ 32 }
    ensures ok { IfOk result (λ r. IsOutcome (docs_of docs.now) writes.now time r.0 r.1) }
    ensures named { IfOk result (λ r. AllByRecursion IsNamed r.0) }
    ensures err { IfErr result (λ e. e ≢ refusal_of Memory → batch (docs_of docs.now) writes.now time ≡ Err e) }
{
    let mut stage = BTreeMap::new(alloc);
    let mut results = WriteResults::new(alloc);
    for write in writes {
        let number = results.len() as u32;
        let answer = write_next(alloc, docs, &mut stage, write, number, time)?;
        results.push(answer)?;
    }
    Ok((changes_of(alloc, stage)?, results))
}
