//! What a client sends on its links.
use crate::steps::goes;

/// Nothing is sent without a link. On a new one the stream is opened or resumed, then each target is listened to, and batches wait for the
/// first answer of the stream. A response counts where nothing waits for it, too.
const LINKS: &str = "listen 1 all | write set c/a 1 => 1 | sent =>
connect | sent => open; query 1: all | sent =>
lose | sent => | connect | connect | sent => open; query 1: all
listen 2 names c/b | write delete c/b => 2 | sent => names 2: name c/b
told stands 5 0 | listen 3 first | sent => query 3: first; batch 0: set c/a 1 | sent =>
told committed 5 1 2 | sent => batch 1: delete c/b | sent =>
unlisten 3 | sent => remove 3 | listen 4 all | lose | sent =>
connect | sent => resume 5 1; query 1: all; names 2: name c/b; query 4: all | sent =>
told stands 5 1 | sent => batch 1: delete c/b | told committed 5 2 3 | sent =>
lose | unlisten 4 | connect | told stands 5 2 | sent => resume 5 2; query 1: all; names 2: name c/b
told committed 5 3 4 | write set c/a 2 => 3 | sent => batch 3: set c/a 2";

/// A target goes on from the token of the last snapshot, if that has it: not of one that was passed over, nor of CURRENT.
const TOKENS: &str =
    "listen 1 all | listen 2 names c/b | connect | told stands 5 0 | told current 1,2 3 AQ==
lose | connect | sent => resume 5 0; query 1: all; names 2: name c/b
told current 1,2 3 AQ== | told still 3 Ag== | listen 4 low | told still 4 Aw==
lose | connect | sent => resume 5 0; query_from 1 Ag==: all; names_from 2 Ag==: name c/b; query 4: low
told current 1,2,4 4 Aw== | told still 2 BA== | unlisten 2
lose | connect | sent => resume 5 0; query_from 1 Ag==: all; query 4: low
told current 1,4 4 Aw== | told still 4 BQ==
lose | connect | sent => resume 5 0; query_from 1 BQ==: all; query_from 4 BQ==: low";

#[test]
fn a_link_begins_with_the_stream_and_the_targets(rt: HostRuntime) {
    let alloc = rt.alloc();
    goes(&rt, alloc, 3, 4, LINKS);
    goes(&rt, alloc, 3, 4, TOKENS);
}
