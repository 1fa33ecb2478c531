//! The order of values, and whether two are the same.
ghost use Rattle.std.specs.Prelude.{◌≡◌, ◌↔◌, ℕ, List, IsTrue};
ghost use Rattle.std.specs.Ordering.{then_cmp, on};
ghost use Rattle.std.specs.Cmp.{IsTotalOrder};
ghost use Rattle.std.specs.Cmp.Lexicographic.{slice_cmp};
ghost use Rattle.fs_path.specs.TextOrder.{text_cmp};
ghost use Rattle.fs_value.specs.Data.{Data, array, object, items_of, members_of};
ghost use Rattle.fs_value.specs.ValueOrder.{kind as kind_of, value_cmp, items_cmp, members_cmp};
ghost use Rattle.fs_value.specs.View.{view};

use crate::fields::Fields;
use crate::value::Value;
use crate::values::Values;
use std::cmp::Ordering;

/// The number of a value's kind, from 0 for null to 8 for a map. Values of unlike kinds are ordered by it.
pub fn kind(v: &Value) -> u8
    ensures { result ≡ kind_of (view v.now) }
{
    match v {
        Value::Null => 0,
        Value::Boolean(_) => 1,
        Value::Integer(_) => 2,
        Value::Timestamp(_) => 3,
        Value::String(_) => 4,
        Value::Bytes(_) => 5,
        Value::Reference(_) => 6,
        Value::Array(_) => 7,
        Value::Map(_) => 8,
    }
}

/// Compares two values as Cloud Firestore orders them. Each is walked once, up to the first place where they differ.
#[cycle(compare)]
pub fn compare(a: &Value, b: &Value) -> Ordering
    ensures { result ≡ value_cmp (view a.now) (view b.now) }
{
    match (a, b) {
        (Value::Boolean(x), Value::Boolean(y)) => x.cmp(y),
        (Value::Integer(x), Value::Integer(y)) => x.cmp(y),
        (Value::Timestamp(x), Value::Timestamp(y)) => x.cmp(y),
        (Value::String(x), Value::String(y)) => x.cmp(y),
        (Value::Bytes(x), Value::Bytes(y)) => x.cmp(y),
        (Value::Reference(x), Value::Reference(y)) => x.cmp(y),
        (Value::Array(x), Value::Array(y)) => compare_items(x, y),
        (Value::Map(x), Value::Map(y)) => compare_fields(x, y),
        _ => kind(a).cmp(&kind(b)),
    }
}

#[cycle(compare)]
fn compare_items(a: &Values, b: &Values) -> Ordering
    ensures { result ≡ items_cmp (items_of a.now) (items_of b.now) }
{
    for i in 0..a.len().min(b.len()) {
        let by_value = compare(a.at(i), b.at(i));
        if by_value != Ordering::Equal {
            return by_value;
        }
    }
    a.len().cmp(&b.len())
}

#[cycle(compare)]
fn compare_fields(x: &Fields, y: &Fields) -> Ordering
    ensures { result ≡ members_cmp (members_of x.now) (members_of y.now) }
{
    for i in 0..x.len().min(y.len()) {
        let by_key = x.key_at(i).cmp(y.key_at(i));
        if by_key != Ordering::Equal {
            return by_key;
        }
        let by_value = compare(x.value_at(i), y.value_at(i));
        if by_value != Ordering::Equal {
            return by_value;
        }
    }
    x.len().cmp(&y.len())
}

/// The laws of the order of values: it is total and transitive; only a value compares as equal to itself; arrays are
/// compared as lists of values, and maps as lists of fields in the order of their keys, each by key and then by value.
pub fn order_is_lawful()
    ensures total { IsTotalOrder value_cmp }
    ensures alike { (a : Data) (b : Data) → (value_cmp a b ≡ Ordering.Equal) ↔ (a ≡ b) }
    ensures arrays { (a : List Data) (b : List Data) → value_cmp (array (items_of a)) (array (items_of b))
        ≡ slice_cmp value_cmp a b }
    ensures maps { (a : List (List ℕ × Data)) (b : List (List ℕ × Data)) → value_cmp (object (members_of a)) (object (members_of b))
        ≡ slice_cmp (then_cmp (on (λ f. f.0) text_cmp) (on (λ f. f.1) value_cmp)) a b }
{}

/// Whether two values are the same: the order tells no more apart.
pub fn same(a: &Value, b: &Value) -> bool
    ensures { IsTrue result ↔ (view a.now ≡ view b.now) }
{
    compare(a, b) == Ordering::Equal
}

/// Whether two maps have the same keys with the same values.
pub fn fields_same(a: &Fields, b: &Fields) -> bool
    ensures { IsTrue result ↔ (a.now ≡ b.now) }
{
    compare_fields(a, b) == Ordering::Equal
}

impl PartialEq for Value {
    ghost use Rattle.std.specs.Ordering.{eq_by_cmp, on};
    ghost use Rattle.fs_value.specs.ValueOrder.{value_cmp};
    ghost use Rattle.fs_value.specs.ViewOrder.{view_eq_partial};
    ghost use Rattle.fs_value.specs.View.{view};

    ghost eq = { eq_by_cmp (on view value_cmp) };

    ghost laws = { view_eq_partial };

    fn eq(&self, other: &Value) -> bool {
        compare(self, other) == Ordering::Equal
    }
}

impl Eq for Value {
    ghost use Rattle.fs_value.specs.ViewOrder.{view_eq_equiv};

    ghost laws = { view_eq_equiv };
}

impl PartialOrd for Value {
    ghost use Rattle.std.specs.Prelude.{Some};
    ghost use Rattle.fs_value.specs.ValueOrder.{value_cmp};
    ghost use Rattle.fs_value.specs.ViewOrder.{view_po};
    ghost use Rattle.fs_value.specs.View.{view};

    ghost partial_cmp = { λ a b. Some (value_cmp (view a) (view b)) };

    ghost laws = { view_po };

    fn partial_cmp(&self, other: &Value) -> Option<Ordering> {
        Some(compare(self, other))
    }
}

impl Ord for Value {
    ghost use Rattle.std.specs.Prelude.{refl};
    ghost use Rattle.std.specs.Ordering.{on};
    ghost use Rattle.fs_value.specs.ValueOrder.{value_cmp};
    ghost use Rattle.fs_value.specs.ViewOrder.{view_cmp_total};
    ghost use Rattle.fs_value.specs.View.{view};

    ghost cmp = { on view value_cmp };

    ghost total = { view_cmp_total };

    ghost matches_partial_cmp = { λ _ _. refl };

    ghost matches_eq = { λ _ _. refl };

    fn cmp(&self, other: &Value) -> Ordering {
        compare(self, other)
    }
}
