//! What an operation makes of the number that is there, and of a time.
ghost use Rattle.std.specs.Prelude.{◌≡◌, ◌+ℤ◌};
ghost use Rattle.std.specs.Int.{int_max, int_min};
ghost use Rattle.std.specs.Option.{option_map_or};
ghost use Rattle.fs_write.specs.Operation.{saturated, whole_milliseconds};

use fs_time::Micros;

// The microseconds of a millisecond, to which the time of a commit is rounded down where a field becomes it.
const MILLISECOND: i64 = 1000;

/// The sum, up to the ends of 64 bits, or the operand where no integer is there.
pub(crate) fn incremented(there: Option<i64>, n: i64) -> i64
    ensures { result ≡ option_map_or (λ m. saturated (m +ℤ n)) there n }
{
    match there {
        Some(m) => m.saturating_add(n),
        None => n,
    }
}

/// The larger of the two, or the operand where no integer is there.
pub(crate) fn larger(there: Option<i64>, n: i64) -> i64
    ensures { result ≡ option_map_or (λ m. int_max m n) there n }
{
    match there {
        Some(m) => m.max(n),
        None => n,
    }
}

/// The smaller of the two, or the operand where no integer is there.
pub(crate) fn smaller(there: Option<i64>, n: i64) -> i64
    ensures { result ≡ option_map_or (λ m. int_min m n) there n }
{
    match there {
        Some(m) => m.min(n),
        None => n,
    }
}

/// A time rounded down to milliseconds.
pub(crate) fn whole_milliseconds(time: Micros) -> Micros
    ensures { result ≡ whole_milliseconds time }
{
    match Micros::new(time.get().div_euclid(MILLISECOND) * MILLISECOND) {
        Some(rounded) => rounded,
        None => unreachable!(),
    }
}
