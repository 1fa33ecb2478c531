//! The changes of an array, carried out together. From the last change to the first it is gathered what the changes take
//! out, and which of the values that they give no later one takes out. Then one walk over the elements takes out and
//! another appends. Values are looked up in sets, so that none is compared with each of the others.
//!
//!     [1, 2]    append 3, 1; remove 1; append 1      taken out {1}, given 3, 1; so [2], and then [2, 3, 1]
ghost use Rattle.std.specs.Prelude.{◌≡◌, ◌++◌, List, IfOk, OnOk};
ghost use Rattle.fs_value.specs.Data.{Data};
ghost use Rattle.fs_edit.specs.Arrays.{append_missing, remove_all};
ghost use Rattle.fs_edit.specs.Closing.{HasExactly, HasMissing, Gains, stacked, TakesIn, AreTogether, AppendsOne};
ghost use Rattle.fs_value.specs.View.{view};

use crate::array_change::ArrayChange;
use fs_value::{Value, Values};
use std::alloc::{AllocError, Global};
use std::collections::BTreeSet;

/// What changes take out and what they give.
pub(crate) fn gather(
    alloc: Global,
    changes: Vec<ArrayChange>,
) -> Result<(BTreeSet<Value>, Values), AllocError>
    ensures { IfOk result (λ r. AreTogether changes.items r.0 r.1) }
{
    let mut changes = changes;
    let mut gone = BTreeSet::new(alloc);
    let mut stack = Vec::new(alloc);
    while let Some(change) = changes.pop() {
        take_in(change, &mut gone, &mut stack)?;
    }
    stack.reverse();
    Ok((gone, Values::of(stack)))
}

// Takes in a change that comes before those that are taken in already.
fn take_in(
    change: ArrayChange,
    gone: &mut BTreeSet<Value>,
    stack: &mut Vec<Value>,
) -> Result<(), AllocError>
    ensures { OnOk result (TakesIn change gone.old (stacked stack.old.items) gone.new (stacked stack.new.items)) }
{
    match change {
        ArrayChange::Append(values) => put_first(stack, without(values, gone)),
        ArrayChange::Remove(values) => add_to(gone, values),
    }
}

// Puts values in front of those in a stack.
fn put_first(stack: &mut Vec<Value>, values: Values) -> Result<(), AllocError>
    ensures { OnOk result (stacked stack.new.items ≡ values ++ stacked stack.old.items) }
{
    let mut last_first = values.into_vec();
    last_first.reverse();
    stack.append(&mut last_first)
}

fn add_to(set: &mut BTreeSet<Value>, values: Values) -> Result<(), AllocError>
    ensures { OnOk result (Gains set.old set.new values) }
{
    for value in values.into_vec() {
        let _is_new = set.insert(value)?;
    }
    Ok(())
}

/// These values without those of a set.
pub(crate) fn without(values: Values, gone: &BTreeSet<Value>) -> Values
    ensures { (ds : List Data) → HasExactly gone.now ds → result ≡ remove_all values ds }
{
    let mut items = values.into_vec();
    items.retain(|value| !gone.contains(value));
    Values::of(items)
}

/// These elements and those values, each unless it is there by then. Each value that is appended leaves the set of those
/// that are missing, so it isn't appended again:
///
///     [1, 2] and 3, 1, 3      missing are {3}      the first 3 is appended: [1, 2, 3], and missing is {}
pub(crate) fn append(alloc: Global, there: Values, values: Values) -> Result<Values, AllocError>
    ensures { IfOk result (λ vs. vs ≡ append_missing there values) }
{
    let mut missing = missing_in(alloc, &there, &values)?;
    let mut elements = there;
    for value in values.into_vec() {
        append_one(&mut elements, &mut missing, value)?;
    }
    Ok(elements)
}

fn append_one(
    elements: &mut Values,
    missing: &mut BTreeSet<Value>,
    value: Value,
) -> Result<(), AllocError>
    ensures { OnOk result (AppendsOne (view value) missing.old elements.old missing.new elements.new) }
{
    if missing.remove(&value) {
        elements.push(value)
    } else {
        drop(value);
        Ok(())
    }
}

// Those values that aren't among these elements.
fn missing_in(alloc: Global, there: &Values, values: &Values) -> Result<BTreeSet<Value>, AllocError>
    ensures { IfOk result (λ set. HasMissing set there.now values.now) }
{
    let mut missing = BTreeSet::new(alloc);
    add_to(&mut missing, values.copy(alloc)?)?;
    for element in there.as_slice() {
        let _was_given = missing.remove(element);
    }
    Ok(missing)
}
