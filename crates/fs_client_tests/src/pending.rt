//! What a client shows of its own writes, from the write to the snapshot that has it.
use crate::steps::goes;

/// The response to a batch is lost with the link, and given again on the next one. What is incremented is so once.
const RESUMED: &str = "listen 1 all | connect | told stands 5 0
told doc c/a 1 1 | told current 1 1 AQ== | told still 1 AQ== | see 1 => 1 live c/a {n:1}
lose | write add c/a 1 => 1 | see 1 => 1 cache c/a {n:2} *c/a
connect | sent => resume 5 0; query_from 1 AQ==: all | told stands 5 0 | sent => batch 0: add c/a 1
lose | see 1 => 1 cache c/a {n:2} *c/a
connect | sent => resume 5 0; query_from 1 AQ==: all
told committed 5 1 2 | see 1 => 1 cache c/a {n:2} *c/a | sent =>
told committed 5 1 2 | see 1 => 1 cache c/a {n:2} *c/a | sent =>
told current 1 1 Ag== | told still 1 Ag== | see 1 => 1 live c/a {n:2} *c/a
told doc c/a 2 1 | see 1 => 1 live c/a {n:2} *c/a
told still 2 Ag== | see 1 => 2 live c/a {n:2}
told committed 5 1 2 | see 1 => 2 live c/a {n:2}
write add c/a 1 => 2 | see 1 => 2 live c/a {n:3} *c/a | sent => batch 1: add c/a 1";

/// Where a snapshot has the time of a commit already, the batch goes as it is acknowledged. A response whose token isn't the next answers no
/// batch, but ends the greeting of a link.
const COVERED: &str =
    "listen 1 all | connect | told stands 5 0 | told current 1 1 AQ== | told still 1 AQ==
write set c/a 4 => 1 | write set c/b 5 => 2 | sent => open; query 1: all; batch 0: set c/a 4
told committed 5 2 2 | told refused 5 2 404 NOT_FOUND missing | refusal => none | sent =>
told doc c/a 7 1 | told still 3 Ag== | see 1 => 3 live c/a {n:4} c/b {n:5} *c/a *c/b
told committed 5 1 2 | see 1 => 3 live c/a {n:7} c/b {n:5} *c/b | sent => batch 1: set c/b 5
told committed 5 2 4 | see 1 => 3 live c/a {n:7} c/b {n:5} *c/b
told doc c/b 5 1 | told still 4 Aw== | see 1 => 4 live c/a {n:7} c/b {n:5}
lose | connect | told committed 5 2 4 | write set c/a 1 => 3 | sent => resume 5 2; query_from 1 Aw==: all; batch 2: set c/a 1";

/// With no target that is listened to, the time of a commit is that of the snapshot.
const UNHEARD: &str =
    "connect | told stands 5 0 | write set c/a 1 => 1 | write set c/b 1 => 2 | sent => open; batch 0: set c/a 1
told committed 5 1 7 | listen 1 all | see 1 => 7 cache c/b {n:1} *c/b | sent => query 1: all; batch 1: set c/b 1
told current 1 6 AQ== | told still 6 AQ== | see 1 => 7 cache c/b {n:1} *c/b
told committed 5 2 8 | see 1 => 7 cache c/b {n:1} *c/b
told doc c/a 1 1 | told doc c/b 1 1 | told still 8 AQ== | see 1 => 8 live c/a {n:1} c/b {n:1}";

/// A client that was never connected shows what it wrote.
const NEVER: &str = "see 1 => target 1 unknown | write set c/a 1 => 1
listen 1 all | see 1 => none cache c/a {n:1} *c/a | sent =>
write set c/b 2 => 2 | listen 2 falling | see 2 => none cache c/b {n:2} c/a {n:1} *c/b *c/a
listen 3 names c/x c/b | see 3 => none cache c/b {n:2} *c/b | write delete c/b => 3 | see 3 => none cache";

/// What batches make of documents, one after another: an update time isn't tested, and a write that would be refused does nothing.
const LOCALLY: &str =
    "listen 1 all | connect | told doc c/a 1 1 | told current 1 1 AQ== | told still 1 AQ==
write exists c/b 1 true => 1 | see 1 => 1 live c/a {n:1}
write exists c/a 7 false => 2 | see 1 => 1 live c/a {n:1} *c/a
write timed c/a 4 9, timed c/d 5 9 => 3 | see 1 => 1 live c/a {n:4} c/d {n:5} *c/a *c/d
write set c/b 1, merge c/b m 2 => 4 | see 1 => 1 live c/a {n:4} c/b {m:2,n:1} c/d {n:5} *c/a *c/b *c/d
write add c/b 2, unset c/b m, add c/a 1 => 5 | see 1 => 1 live c/a {n:5} c/b {n:3} c/d {n:5} *c/a *c/b *c/d
write delete c/a, exists c/a 6 true, delete c/d => 6 | see 1 => 1 live c/b {n:3} *c/b
write add c/d 6 => 7 | see 1 => 1 live c/b {n:3} c/d {n:6} *c/b *c/d";

#[test]
fn a_batch_is_shown_once_though_its_response_is_lost(rt: HostRuntime) {
    goes(&rt, rt.alloc(), 1, 4, RESUMED);
}

#[test]
fn a_batch_is_shown_until_a_snapshot_has_it(rt: HostRuntime) {
    let alloc = rt.alloc();
    goes(&rt, alloc, 1, 4, COVERED);
    goes(&rt, alloc, 1, 4, UNHEARD);
}

#[test]
fn batches_are_made_one_after_another(rt: HostRuntime) {
    let alloc = rt.alloc();
    goes(&rt, alloc, 3, 4, NEVER);
    goes(&rt, alloc, 1, 9, LOCALLY);
}
