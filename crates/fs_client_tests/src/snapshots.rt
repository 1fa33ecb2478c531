//! When a client has a snapshot, and what it shows before.
use crate::steps::goes;

/// A snapshot is taken where each target was told whole on this link, and the time isn't below that of the last one.
const TAKEN: &str = "listen 1 all | listen 2 names c/b | connect | told target ADD 1,2
told doc c/a 1 1 | told doc c/b 2 1,2 | see 1 => none cache | told still 3 AQ== | see 1 => none cache
told current 1 3 AQ== | told still 3 AQ== | see 1 => none cache | see 2 => none cache
told current 2 3 AQ== | see 1 => none cache
told still 3 AQ== | see 1 => 3 live c/a {n:1} c/b {n:2} | see 2 => 3 live c/b {n:2}
told doc c/a 5 1 | see 1 => 3 live c/a {n:1} c/b {n:2}
told still 2 Ag== | see 1 => 3 live c/a {n:1} c/b {n:2}
told still 3 Ag== | see 1 => 3 live c/a {n:5} c/b {n:2}
told still 5 Ag== | see 2 => 5 live c/b {n:2}";

/// A lost link throws away what no snapshot has, and what is shown is from the cache until the next one.
const LOST: &str = "listen 1 all | listen 2 names c/b | connect
told doc c/a 1 1 | told doc c/b 2 1,2 | told current 1,2 3 AQ== | told still 3 AQ==
told doc c/a 5 1 | told gone Delete c/b 4 1,2 | told doc c/d 6 1
lose | see 1 => 3 cache c/a {n:1} c/b {n:2}
connect | told still 4 Ag== | see 1 => 3 cache c/a {n:1} c/b {n:2}
told current 1 4 Ag== | told still 4 Ag== | see 1 => 3 cache c/a {n:1} c/b {n:2} | see 2 => 3 cache c/b {n:2}
told current 2 4 Ag== | see 2 => 3 cache c/b {n:2}
told still 4 Ag== | see 1 => 4 live c/a {n:1} c/b {n:2} | see 2 => 4 live c/b {n:2}
listen 3 first | see 3 => 4 cache c/a {n:1} | see 1 => 4 live c/a {n:1} c/b {n:2}
told still 5 Aw== | see 3 => 4 cache c/a {n:1}
told current 3 5 Aw== | told still 5 Aw== | see 3 => 5 live c/a {n:1}
lose | see 3 => 5 cache c/a {n:1}";

#[test]
fn a_snapshot_has_all_targets(rt: HostRuntime) {
    goes(&rt, rt.alloc(), 3, 4, TAKEN);
}

#[test]
fn a_lost_link_leaves_the_last_snapshot(rt: HostRuntime) {
    goes(&rt, rt.alloc(), 3, 4, LOST);
}
