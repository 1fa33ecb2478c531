//! What a server refuses of a client, and what the client refuses itself.
use crate::steps::goes;

/// A batch that is refused is gone at once and told once, and the next one is sent.
const BATCHES: &str =
    "listen 1 all | connect | told stands 5 0 | told doc c/a 1 1 | told current 1 1 AQ== | told still 1 AQ==
write set c/a 5 => 1 | write add c/a 1 => 2 | see 1 => 1 live c/a {n:6} *c/a
sent => open; query 1: all; batch 0: set c/a 5 | refusal => none
told refused 5 1 404 NOT_FOUND missing | see 1 => 1 live c/a {n:2} *c/a | sent => batch 1: add c/a 1
told refused 5 1 404 NOT_FOUND missing | see 1 => 1 live c/a {n:2} *c/a | sent =>
write delete c/a => 3 | see 1 => 1 live | told refused 5 2 409 ABORTED conflict | see 1 => 1 live | sent => batch 2: delete c/a
refusal => 1 NOT_FOUND missing | refusal => 2 ABORTED conflict | refusal => none
told refused 5 3 429 RESOURCE_EXHAUSTED limit | see 1 => 1 live c/a {n:1}
write add c/a 3 => 4 | see 1 => 1 live c/a {n:4} *c/a | sent => batch 3: add c/a 3
refusal => 3 RESOURCE_EXHAUSTED limit | refusal => none
told error 404 NOT_FOUND other | sent => | told refused 5 3 404 NOT_FOUND missing | refusal => none | see 1 => 1 live c/a {n:4} *c/a";

/// Of several refusals of a target its id comes first, then the number of targets, then the rule of its query.
const TARGETS: &str =
    "listen 1 broken => a rule of queries is broken: 12 | listen 1 all | listen 3 names c/a
listen 3 broken => target 3 isn't above 3 | listen 2 broken => target 2 isn't above 3
listen 4 broken => more than 2 targets | listen 4 all => more than 2 targets
unlisten 4 => target 4 unknown | unlisten 3 | listen 3 all => target 3 isn't above 3
listen 4 broken => a rule of queries is broken: 12 | listen 4 all
told banned 4 9 old | listen 4 all => target 4 isn't above 4 | listen 5 all | listen 6 all => more than 2 targets";

/// Of several refusals of a batch it comes first that there are too many, then the number of its writes, then the rules of these.
const WRITES: &str =
    "listen 1 all | write => 0 writes | many 501 delete c/a => 501 writes | many 501 mixed c/a => 501 writes
write set c/a 1, mixed c/b, twice c/d => write 1: E3 | write twice c/d => write 0: E2 | see 1 => none cache
many 500 delete c/a => 1 | write set c/a 1 => 2 | write => more than 2 batches | write mixed c/b => more than 2 batches
see 1 => none cache c/a {n:1} *c/a
connect | told stands 5 0 | told committed 5 1 2 | write set c/b 1 => more than 2 batches
told current 1 2 AQ== | told still 2 AQ== | write set c/b 1 => 3 | write set c/b 1 => more than 2 batches
told refused 5 2 404 NOT_FOUND missing | write set c/b 2 => 4 | see 1 => 2 live c/b {n:2} *c/b";

#[test]
fn a_refused_batch_is_told_once(rt: HostRuntime) {
    goes(&rt, rt.alloc(), 1, 4, BATCHES);
}

#[test]
fn targets_and_batches_are_refused(rt: HostRuntime) {
    let alloc = rt.alloc();
    goes(&rt, alloc, 2, 2, TARGETS);
    goes(&rt, alloc, 2, 2, WRITES);
}
