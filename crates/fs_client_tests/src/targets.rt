//! What becomes of the documents of a client's targets.
use crate::steps::goes;

/// A document leaves the views of some targets, or there is none any longer. Names are shown in their order, each once.
const LEFT: &str = "listen 1 low | listen 2 names c/b c/a c/b | connect
sent => open; query 1: low; names 2: name c/b, name c/a, name c/b
told doc c/b 2 1,2 | told doc c/d 3 1 | told doc c/a 1 1,2 | told current 1,2 1 AQ== | told still 1 AQ==
see 1 => 1 live c/a {n:1} c/b {n:2} c/d {n:3} | see 2 => 1 live c/a {n:1} c/b {n:2}
told gone Remove c/d 2 1 | told doc c/b 8 2 1 | told still 2 Ag==
see 1 => 2 live c/a {n:1} | see 2 => 2 live c/a {n:1} c/b {n:8}
told gone Delete c/a 3 1,2 | told still 3 Aw== | see 1 => 3 live | see 2 => 3 live c/b {n:8}";

/// A target that is reset is told anew: what only it had is gone with the next snapshot.
const RESET: &str = "listen 1 all | listen 2 names c/a | connect
told doc c/a 1 1,2 | told doc c/b 2 1 | told current 1,2 1 AQ== | told still 1 AQ==
lose | connect | told target RESET 1 | see 1 => 1 cache c/a {n:1} c/b {n:2}
told doc c/d 4 1 | told current 1,2 2 Ag== | told still 2 Ag==
see 1 => 2 live c/a {n:1} c/d {n:4} | see 2 => 2 live c/a {n:1}";

/// A target that the server refuses is unknown from then on, and what only it had is gone.
const BANNED: &str = "listen 1 all | listen 2 names c/a c/b | connect
told doc c/a 1 1,2 | told doc c/b 2 2 | told current 1,2 1 AQ== | told still 1 AQ==
see 1 => 1 live c/a {n:1} c/b {n:2} | cause 2 => none | told doc c/d 3 2
told banned 2 3 bad | see 1 => 1 live c/a {n:1} | see 2 => target 2 unknown | unlisten 2 => target 2 unknown
cause 2 => 3 bad | cause 1 => none | told still 2 Ag== | see 1 => 2 live c/a {n:1}
told doc c/b 2 2 | told still 3 Ag== | see 1 => 3 live c/a {n:1}
lose | connect | sent => open; query_from 1 Ag==: all";

/// A target that isn't listened to any longer leaves what another has, and what is told of it doesn't count.
const UNLISTENED: &str = "listen 1 all | listen 2 names c/a c/d | connect
sent => open; query 1: all; names 2: name c/a, name c/d
told doc c/a 1 1,2 | told doc c/b 2 1 | told current 1,2 1 AQ== | told still 1 AQ==
unlisten 1 | sent => remove 1 | see 1 => target 1 unknown | see 2 => 1 live c/a {n:1}
told target REMOVE 1 | told doc c/b 5 1 | told doc c/a 6 1 | told doc c/d 7 9,2 | told target RESET 1,9
told current 9 2 Ag== | told gone Delete c/a 2 1 | told gone Remove c/a 2 9 | told banned 9 3 bad | cause 9 => none
told still 2 Ag== | see 2 => 2 live c/a {n:1} c/d {n:7}
listen 3 all | see 3 => 2 cache c/a {n:1} c/d {n:7}";

/// A limit counts what is there with the client's own writes.
const LIMITED: &str = "listen 1 first | listen 2 names c/b | connect
told doc c/a 3 1 | told doc c/b 4 2 | told current 1,2 1 AQ== | told still 1 AQ== | see 1 => 1 live c/a {n:3}
write set c/d 2 => 1 | see 1 => 1 live c/d {n:2} *c/d | write set c/d 9 => 2 | see 1 => 1 live c/a {n:3}
write add c/a 5 => 3 | see 1 => 1 live c/b {n:4} | write delete c/b => 4 | see 1 => 1 live c/a {n:8} *c/a";

#[test]
fn documents_leave_views(rt: HostRuntime) {
    let alloc = rt.alloc();
    goes(&rt, alloc, 3, 4, LEFT);
    goes(&rt, alloc, 3, 4, RESET);
}

#[test]
fn a_target_that_is_gone_leaves_what_others_have(rt: HostRuntime) {
    let alloc = rt.alloc();
    goes(&rt, alloc, 3, 4, BANNED);
    goes(&rt, alloc, 3, 4, UNLISTENED);
}

#[test]
fn a_limit_counts_own_writes(rt: HostRuntime) {
    goes(&rt, rt.alloc(), 3, 4, LIMITED);
}
