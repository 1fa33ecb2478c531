//! The laws of the operations of transforms.
ghost use Rattle.std.specs.Prelude.{◌≡◌, ℕ, ◌≤◌, ℤ, ◌+ℤ◌, ◌*ℤ◌, ◌≤ℤ◌, ◌<ℤ◌, ◌⊎◌, List, ◌∷◌, ◌++◌, Some, length, take};
ghost use Rattle.std.specs.List.{Contains};
ghost use Rattle.fs_value.specs.Data.{Data, integer};
ghost use Rattle.fs_edit.specs.Arrays.{append_missing, remove_all};
ghost use Rattle.fs_write.specs.Operation.{IsInteger, least_integer, greatest_integer, millisecond, whole_milliseconds, value_after};
ghost use Rattle.fs_write.specs.declared.transform.Operation.TheVariants.{Increment, Maximum, Minimum};

/// The laws of operations, for all values and operands. An increment gives the sum where 64 bits hold it, and else the end
/// that it passes. A maximum or a minimum is one of the two, and neither is beyond it. `appendMissingElements` keeps the
/// elements that are there, in front; has all that are given afterwards, and none else; never appends an element that
/// stands before it; and twice is as once. `removeAllFromArray` leaves none of the given elements and keeps the others. A
/// server time is the greatest whole number of milliseconds that isn't above the time of the commit.
pub fn operations_are_lawful()
    ensures increment_fits { (m : ℤ) (n : ℤ) (t : ℤ) → IsInteger (m +ℤ n)
        → value_after (Increment n) t (Some (integer m)) ≡ integer (m +ℤ n) }
    ensures increment_above { (m : ℤ) (n : ℤ) (t : ℤ) → greatest_integer <ℤ (m +ℤ n)
        → value_after (Increment n) t (Some (integer m)) ≡ integer greatest_integer }
    ensures increment_below { (m : ℤ) (n : ℤ) (t : ℤ) → (m +ℤ n) <ℤ least_integer
        → value_after (Increment n) t (Some (integer m)) ≡ integer least_integer }
    ensures maximum { (m : ℤ) (n : ℤ) (t : ℤ) → (r : ℤ) × (value_after (Maximum n) t (Some (integer m)) ≡ integer r)
        × ((r ≡ m) ⊎ (r ≡ n)) × (m ≤ℤ r) × (n ≤ℤ r) }
    ensures minimum { (m : ℤ) (n : ℤ) (t : ℤ) → (r : ℤ) × (value_after (Minimum n) t (Some (integer m)) ≡ integer r)
        × ((r ≡ m) ⊎ (r ≡ n)) × (r ≤ℤ m) × (r ≤ℤ n) }
    ensures append_keeps { (there : List Data) (ds : List Data) → take (length there) (append_missing there ds) ≡ there }
    ensures append_all { (there : List Data) (ds : List Data) (d : Data) → Contains ds d → Contains (append_missing there ds) d }
    ensures append_only { (there : List Data) (ds : List Data) (d : Data) → Contains (append_missing there ds) d
        → Contains there d ⊎ Contains ds d }
    ensures append_new { (there : List Data) (ds : List Data) (front : List Data) (d : Data) (back : List Data)
        → append_missing there ds ≡ front ++ d ∷ back → length there ≤ length front → ¬ Contains front d }
    ensures append_twice { (there : List Data) (ds : List Data)
        → append_missing (append_missing there ds) ds ≡ append_missing there ds }
    ensures remove_gone { (there : List Data) (ds : List Data) (d : Data) → Contains ds d → ¬ Contains (remove_all there ds) d }
    ensures remove_others { (there : List Data) (ds : List Data) (d : Data) → Contains there d → ¬ Contains ds d
        → Contains (remove_all there ds) d }
    ensures time_whole { (t : ℤ) → (k : ℤ) × (whole_milliseconds t ≡ k *ℤ millisecond) }
    ensures time_not_above { (t : ℤ) → whole_milliseconds t ≤ℤ t }
    ensures time_greatest { (t : ℤ) (k : ℤ) → (k *ℤ millisecond) ≤ℤ t → (k *ℤ millisecond) ≤ℤ whole_milliseconds t }
{}
