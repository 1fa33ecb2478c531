//! Counting faults and ends.
ghost use Rattle.std.specs.Prelude.{◌≡◌, ◌≤◌};
ghost use Rattle.fs_edge.specs.Count.{one_more};

/// Counts one more, unless the count stands at its last number.
pub(crate) fn count(times: &mut u64)
    ensures value { times.new ≡ one_more times.old }
    ensures kept { times.old ≤ times.new }
{
    *times = times.saturating_add(1);
}
