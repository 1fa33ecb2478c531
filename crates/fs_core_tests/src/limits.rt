//! Scripts of servers with small limits.
ghost use Rattle.fs_machine.specs.Limits.{AreAllowed};

use crate::replay::ends_so;
use fs_edge::{MemorySource, Paces, Status};
use fs_path::Bytes;
use fs_replay::Limits;
use std::alloc::Global;
use std::process::Abort;

// Each case begins with the limits that differ from the greatest. Behind `> ` stands what the lines above write. A document
// `c/a {n: 1}` counts 62 bytes in the journal, and a batch 64 more. `@` is the database, and `~` its documents.
const CASES: &str = r#"batches 1
{"session":"s","id":"1","commit":{"database":"@","writes":[{"update":{"name":"~/c/a","fields":{"n":{"integerValue":"1"}}},"currentDocument":{"exists":true}}]}}
> {"error":{"code":404,"message":"write 0: document missing","status":"NOT_FOUND"},"id":"1","session":"s"}
{"session":"s","id":"2","commit":{"database":"@","writes":[{"update":{"name":"~/c/a","fields":{"n":{"integerValue":"1"}}}}]}}
> {"id":"2","result":{"commitTime":"2024-01-01T00:00:00.000002Z","writeResults":[{"updateTime":"2024-01-01T00:00:00.000002Z"}]},"session":"s"}
{"compact":"2024-01-01T00:00:00.000002Z"}
{"session":"s","id":"3","commit":{"database":"@","writes":[{"update":{"name":"~/c/a","fields":{"n":{"integerValue":"2"}}}}]}}
> {"error":{"code":429,"message":"limit batches 1","status":"RESOURCE_EXHAUSTED"},"id":"3","session":"s"}
{"session":"s","id":"4","getDocument":{"name":"~/c/a"}}
> {"id":"4","result":{"createTime":"2024-01-01T00:00:00.000002Z","fields":{"n":{"integerValue":"1"}},"name":"~/c/a","updateTime":"2024-01-01T00:00:00.000002Z"},"session":"s"}

journal 126
{"session":"s","id":"1","commit":{"database":"@","writes":[{"update":{"name":"~/c/a","fields":{"n":{"integerValue":"1"}}},"currentDocument":{"exists":true}}]}}
> {"error":{"code":404,"message":"write 0: document missing","status":"NOT_FOUND"},"id":"1","session":"s"}
{"session":"s","id":"2","commit":{"database":"@","writes":[{"update":{"name":"~/c/a","fields":{"n":{"integerValue":"1"}}}}]}}
> {"id":"2","result":{"commitTime":"2024-01-01T00:00:00.000002Z","writeResults":[{"updateTime":"2024-01-01T00:00:00.000002Z"}]},"session":"s"}
{"session":"s","id":"3","commit":{"database":"@"}}
> {"error":{"code":429,"message":"limit journal 126","status":"RESOURCE_EXHAUSTED"},"id":"3","session":"s"}

journal 125
{"session":"s","id":"1","commit":{"database":"@","writes":[{"update":{"name":"~/c/a","fields":{"n":{"integerValue":"1"}}}}]}}
> {"error":{"code":429,"message":"limit journal 125","status":"RESOURCE_EXHAUSTED"},"id":"1","session":"s"}
{"session":"s","id":"2","commit":{"database":"@","writes":[{"delete":"~/c/a"}]}}
> {"id":"2","result":{"commitTime":"2024-01-01T00:00:00.000001Z","writeResults":[{}]},"session":"s"}
{"session":"s","id":"3","commit":{"database":"@"}}
> {"error":{"code":429,"message":"limit journal 125","status":"RESOURCE_EXHAUSTED"},"id":"3","session":"s"}

journal 188
{"session":"s","id":"1","commit":{"database":"@","writes":[{"update":{"name":"~/c/a","fields":{"n":{"integerValue":"1"}}}},{"update":{"name":"~/c/b","fields":{"n":{"integerValue":"1"}}}},{"delete":"~/c/d"}]}}
> {"id":"1","result":{"commitTime":"2024-01-01T00:00:00.000001Z","writeResults":[{"updateTime":"2024-01-01T00:00:00.000001Z"},{"updateTime":"2024-01-01T00:00:00.000001Z"},{}]},"session":"s"}

journal 187
{"session":"s","id":"1","commit":{"database":"@","writes":[{"update":{"name":"~/c/a","fields":{"n":{"integerValue":"1"}}}},{"update":{"name":"~/c/b","fields":{"n":{"integerValue":"1"}}}},{"delete":"~/c/d"}]}}
> {"error":{"code":429,"message":"limit journal 187","status":"RESOURCE_EXHAUSTED"},"id":"1","session":"s"}

journal 190
{"session":"s","id":"1","commit":{"database":"@","writes":[{"update":{"name":"~/c/a","fields":{"n":{"integerValue":"1"}}}}]}}
> {"id":"1","result":{"commitTime":"2024-01-01T00:00:00.000001Z","writeResults":[{"updateTime":"2024-01-01T00:00:00.000001Z"}]},"session":"s"}
{"session":"s","id":"2","commit":{"database":"@","writes":[{"delete":"~/c/a"}]}}
> {"id":"2","result":{"commitTime":"2024-01-01T00:00:00.000002Z","writeResults":[{}]},"session":"s"}
{"session":"s","id":"3","commit":{"database":"@"}}
> {"error":{"code":429,"message":"limit journal 190","status":"RESOURCE_EXHAUSTED"},"id":"3","session":"s"}

journal 189
{"session":"s","id":"1","commit":{"database":"@","writes":[{"update":{"name":"~/c/a","fields":{"n":{"integerValue":"1"}}}}]}}
> {"id":"1","result":{"commitTime":"2024-01-01T00:00:00.000001Z","writeResults":[{"updateTime":"2024-01-01T00:00:00.000001Z"}]},"session":"s"}
{"session":"s","id":"2","commit":{"database":"@","writes":[{"delete":"~/c/a"}]}}
> {"error":{"code":429,"message":"limit journal 189","status":"RESOURCE_EXHAUSTED"},"id":"2","session":"s"}

ids 2
{"session":"s","id":"1","commit":{"database":"@","writes":[{"update":{"name":"~/c/a","fields":{"n":{"integerValue":"1"}}},"currentDocument":{"exists":true}}]}}
> {"error":{"code":404,"message":"write 0: document missing","status":"NOT_FOUND"},"id":"1","session":"s"}
{"session":"s","id":"2","commit":{"database":"@","writes":[{"update":{"name":"~/c/a","fields":{"n":{"integerValue":"2"}}}}]}}
> {"id":"2","result":{"commitTime":"2024-01-01T00:00:00.000002Z","writeResults":[{"updateTime":"2024-01-01T00:00:00.000002Z"}]},"session":"s"}
{"session":"s","id":"3","commit":{"database":"@","writes":[{"update":{"name":"~/c/a","fields":{"n":{"integerValue":"3"}}}}]}}
> {"error":{"code":429,"message":"limit ids 2","status":"RESOURCE_EXHAUSTED"},"id":"3","session":"s"}
{"session":"s","id":"4","getDocument":{"name":"~/c/a"}}
> {"id":"4","result":{"createTime":"2024-01-01T00:00:00.000002Z","fields":{"n":{"integerValue":"2"}},"name":"~/c/a","updateTime":"2024-01-01T00:00:00.000002Z"},"session":"s"}

writes 1, batches 1, journal 126, ids 1, time 1704067200000001
{"session":"s","id":"1","commit":{"database":"@","writes":[{"update":{"name":"~/c/a","fields":{"n":{"integerValue":"1"}}}}]}}
> {"id":"1","result":{"commitTime":"2024-01-01T00:00:00.000001Z","writeResults":[{"updateTime":"2024-01-01T00:00:00.000001Z"}]},"session":"s"}
{"session":"s","id":"2","commit":{"database":"@","writes":[{"update":{"name":"~/c/a","fields":{"n":{"integerValue":"1"}}}},{"update":{"name":"~/c/b","fields":{"n":{"integerValue":"1"}}}}]}}
> {"error":{"code":429,"message":"limit writes 1","status":"RESOURCE_EXHAUSTED"},"id":"2","session":"s"}
{"session":"s","id":"3","commit":{"database":"@","writes":[{"update":{"name":"~/c/a","fields":{"n":{"integerValue":"2"}}}}]}}
> {"error":{"code":429,"message":"limit batches 1","status":"RESOURCE_EXHAUSTED"},"id":"3","session":"s"}

journal 126, ids 1, time 1704067200000001
{"session":"s","id":"1","commit":{"database":"@","writes":[{"update":{"name":"~/c/a","fields":{"n":{"integerValue":"1"}}}}]}}
> {"id":"1","result":{"commitTime":"2024-01-01T00:00:00.000001Z","writeResults":[{"updateTime":"2024-01-01T00:00:00.000001Z"}]},"session":"s"}
{"session":"s","id":"2","commit":{"database":"@","writes":[{"update":{"name":"~/c/a","fields":{"n":{"integerValue":"2"}}}}]}}
> {"error":{"code":429,"message":"limit journal 126","status":"RESOURCE_EXHAUSTED"},"id":"2","session":"s"}

ids 1, time 1704067200000001
{"session":"s","id":"1","commit":{"database":"@","writes":[{"update":{"name":"~/c/a","fields":{"n":{"integerValue":"1"}}}}]}}
> {"id":"1","result":{"commitTime":"2024-01-01T00:00:00.000001Z","writeResults":[{"updateTime":"2024-01-01T00:00:00.000001Z"}]},"session":"s"}
{"session":"s","id":"2","commit":{"database":"@","writes":[{"update":{"name":"~/c/a","fields":{"n":{"integerValue":"2"}}}}]}}
> {"error":{"code":429,"message":"limit ids 1","status":"RESOURCE_EXHAUSTED"},"id":"2","session":"s"}

time 1704067200000001
{"session":"s","id":"1","commit":{"database":"@","writes":[{"update":{"name":"~/c/a","fields":{"n":{"integerValue":"1"}}}}]}}
> {"id":"1","result":{"commitTime":"2024-01-01T00:00:00.000001Z","writeResults":[{"updateTime":"2024-01-01T00:00:00.000001Z"}]},"session":"s"}
{"session":"s","id":"2","commit":{"database":"@","writes":[{"update":{"name":"~/c/a","fields":{"n":{"integerValue":"2"}}}}]}}
> {"error":{"code":429,"message":"limit time 1704067200000001","status":"RESOURCE_EXHAUSTED"},"id":"2","session":"s"}

parked 0, ids 1
{"manual":true}
{"session":"s","id":"1","commit":{"database":"@","writes":[{"update":{"name":"~/c/a","fields":{"n":{"integerValue":"1"}}}}]}}
{"session":"s","id":"2","commit":{"database":"@","writes":[{"update":{"name":"~/c/a","fields":{"n":{"integerValue":"2"}}}}]}}
> {"error":{"code":429,"message":"limit ids 1","status":"RESOURCE_EXHAUSTED"},"id":"2","session":"s"}

batches 2
{"manual":true}
{"session":"s","id":"1","commit":{"database":"@","writes":[{"update":{"name":"~/c/a","fields":{"n":{"integerValue":"1"}}}}]}}
{"session":"s","id":"2","commit":{"database":"@","writes":[{"update":{"name":"~/c/a","fields":{"n":{"integerValue":"2"}}}}]}}
{"session":"s","id":"3","commit":{"database":"@","writes":[{"update":{"name":"~/c/b","fields":{"n":{"integerValue":"1"}}}}]}}
{"retry":true}
> {"error":{"code":429,"message":"limit batches 2","status":"RESOURCE_EXHAUSTED"},"id":"2","session":"s"}

journal 252
{"manual":true}
{"session":"s","id":"1","commit":{"database":"@","writes":[{"update":{"name":"~/c/a","fields":{"n":{"integerValue":"1"}}}}]}}
{"session":"s","id":"2","commit":{"database":"@","writes":[{"update":{"name":"~/c/a","fields":{"n":{"integerValue":"2"}}}}]}}
{"session":"s","id":"3","commit":{"database":"@","writes":[{"update":{"name":"~/c/b","fields":{"n":{"integerValue":"1"}}}}]}}
{"settle":"1"}
> {"id":"1","result":{"commitTime":"2024-01-01T00:00:00.000001Z","writeResults":[{"updateTime":"2024-01-01T00:00:00.000001Z"}]},"session":"s"}
{"retry":true}
> {"error":{"code":429,"message":"limit journal 252","status":"RESOURCE_EXHAUSTED"},"id":"2","session":"s"}

time 1704067200000002, ids 3
{"manual":true}
{"session":"s","id":"1","commit":{"database":"@","writes":[{"update":{"name":"~/c/a","fields":{"n":{"integerValue":"1"}}}}]}}
{"session":"s","id":"2","commit":{"database":"@","writes":[{"update":{"name":"~/c/a","fields":{"n":{"integerValue":"2"}}}}]}}
{"session":"s","id":"3","commit":{"database":"@","writes":[{"update":{"name":"~/c/b","fields":{"n":{"integerValue":"1"}}}}]}}
{"settle":"1"}
> {"id":"1","result":{"commitTime":"2024-01-01T00:00:00.000001Z","writeResults":[{"updateTime":"2024-01-01T00:00:00.000001Z"}]},"session":"s"}
{"retry":true}
> {"error":{"code":429,"message":"limit time 1704067200000002","status":"RESOURCE_EXHAUSTED"},"id":"2","session":"s"}

transactions 1, ids 2
{"session":"s","id":"1","beginTransaction":{"database":"@"}}
> {"id":"1","result":{"transaction":"AAAAAAAAAAE="},"session":"s"}
{"session":"s","id":"2","beginTransaction":{"database":"@"}}
> {"error":{"code":429,"message":"limit transactions 1","status":"RESOURCE_EXHAUSTED"},"id":"2","session":"s"}
{"session":"s","id":"3","rollback":{"database":"@","transaction":"AAAAAAAAAAE="}}
> {"id":"3","result":{},"session":"s"}
{"session":"s","id":"4","beginTransaction":{"database":"@"}}
> {"id":"4","result":{"transaction":"AAAAAAAAAAI="},"session":"s"}
{"session":"s","id":"5","rollback":{"database":"@","transaction":"AAAAAAAAAAI="}}
> {"id":"5","result":{},"session":"s"}
{"session":"s","id":"6","beginTransaction":{"database":"@"}}
> {"error":{"code":429,"message":"limit ids 2","status":"RESOURCE_EXHAUSTED"},"id":"6","session":"s"}

reads 62
{"session":"s","id":"1","commit":{"database":"@","writes":[{"update":{"name":"~/c/a","fields":{"n":{"integerValue":"1"}}}}]}}
> {"id":"1","result":{"commitTime":"2024-01-01T00:00:00.000001Z","writeResults":[{"updateTime":"2024-01-01T00:00:00.000001Z"}]},"session":"s"}
{"session":"s","id":"2","beginTransaction":{"database":"@"}}
> {"id":"2","result":{"transaction":"AAAAAAAAAAI="},"session":"s"}
{"session":"s","id":"3","getDocument":{"name":"~/c/a","transaction":"AAAAAAAAAAI="}}
> {"id":"3","result":{"createTime":"2024-01-01T00:00:00.000001Z","fields":{"n":{"integerValue":"1"}},"name":"~/c/a","updateTime":"2024-01-01T00:00:00.000001Z"},"session":"s"}
{"session":"s","id":"4","getDocument":{"name":"~/c/b","transaction":"AAAAAAAAAAI="}}
> {"error":{"code":404,"message":"no document at 2024-01-01T00:00:00.000001Z","status":"NOT_FOUND"},"id":"4","session":"s"}
{"session":"s","id":"5","batchGetDocuments":{"database":"@","documents":["~/c/a"],"transaction":"AAAAAAAAAAI="}}
> {"error":{"code":429,"message":"limit reads 62","status":"RESOURCE_EXHAUSTED"},"id":"5","session":"s"}
{"session":"s","id":"6","getDocument":{"name":"~/c/a"}}
> {"id":"6","result":{"createTime":"2024-01-01T00:00:00.000001Z","fields":{"n":{"integerValue":"1"}},"name":"~/c/a","updateTime":"2024-01-01T00:00:00.000001Z"},"session":"s"}
{"session":"s","id":"7","beginTransaction":{"database":"@","options":{"readOnly":{}}}}
> {"id":"7","result":{"transaction":"AAAAAAAAAAM="},"session":"s"}
{"session":"s","id":"8","getDocument":{"name":"~/c/a","transaction":"AAAAAAAAAAM="}}
> {"id":"8","result":{"createTime":"2024-01-01T00:00:00.000001Z","fields":{"n":{"integerValue":"1"}},"name":"~/c/a","updateTime":"2024-01-01T00:00:00.000001Z"},"session":"s"}
{"session":"s","id":"9","rollback":{"database":"@","transaction":"AAAAAAAAAAI="}}
> {"id":"9","result":{},"session":"s"}
{"session":"s","id":"10","beginTransaction":{"database":"@"}}
> {"id":"10","result":{"transaction":"AAAAAAAAAAQ="},"session":"s"}
{"session":"s","id":"11","runQuery":{"parent":"~","structuredQuery":{"from":[{"collectionId":"c"}]},"transaction":"AAAAAAAAAAQ="}}
> {"id":"11","result":[{"document":{"createTime":"2024-01-01T00:00:00.000001Z","fields":{"n":{"integerValue":"1"}},"name":"~/c/a","updateTime":"2024-01-01T00:00:00.000001Z"},"readTime":"2024-01-01T00:00:00.000001Z"}],"session":"s"}

journal 188, batches 2
{"session":"s","id":"1","commit":{"database":"@","writes":[{"update":{"name":"~/c/a","fields":{"n":{"integerValue":"1"}}}}]}}
> {"id":"1","result":{"commitTime":"2024-01-01T00:00:00.000001Z","writeResults":[{"updateTime":"2024-01-01T00:00:00.000001Z"}]},"session":"s"}
{"session":"s","id":"2","beginTransaction":{"database":"@"}}
> {"id":"2","result":{"transaction":"AAAAAAAAAAI="},"session":"s"}
{"session":"s","id":"3","getDocument":{"name":"~/c/a","transaction":"AAAAAAAAAAI="}}
> {"id":"3","result":{"createTime":"2024-01-01T00:00:00.000001Z","fields":{"n":{"integerValue":"1"}},"name":"~/c/a","updateTime":"2024-01-01T00:00:00.000001Z"},"session":"s"}
{"session":"s","id":"4","commit":{"database":"@","transaction":"AAAAAAAAAAI="}}
> {"error":{"code":429,"message":"limit journal 188","status":"RESOURCE_EXHAUSTED"},"id":"4","session":"s"}
{"session":"s","id":"5","beginTransaction":{"database":"@","options":{"readOnly":{}}}}
> {"id":"5","result":{"transaction":"AAAAAAAAAAM="},"session":"s"}
{"session":"s","id":"6","commit":{"database":"@","transaction":"AAAAAAAAAAM="}}
> {"id":"6","result":{"commitTime":"2024-01-01T00:00:00.000001Z"},"session":"s"}

targets 1
{"manual":true}
{"session":"s","listen":{"database":"@","addTarget":{"targetId":1,"documents":{"documents":["~/c/a"]}}}}
> {"listen":{"targetChange":{"targetChangeType":"ADD","targetIds":[1]}},"session":"s"}
{"session":"s","listen":{"database":"@","addTarget":{"targetId":2,"documents":{"documents":["~/c/a"]}}}}
> {"listen":{"targetChange":{"cause":{"code":8,"message":"limit targets 1"},"targetChangeType":"REMOVE","targetIds":[2]}},"session":"s"}
{"session":"s","id":"3","listen":{"database":"@","addTarget":{"targetId":1,"documents":{"documents":["~/c/a"]}}}}
> {"error":{"code":429,"message":"limit targets 1","status":"RESOURCE_EXHAUSTED"},"id":"3","session":"s"}
{"session":"s","id":"4","listen":{"database":"@","removeTarget":2}}
> {"error":{"code":400,"message":"target 2 unknown","status":"INVALID_ARGUMENT"},"id":"4","session":"s"}
{"session":"s","listen":{"database":"@","removeTarget":1}}
> {"listen":{"targetChange":{"targetChangeType":"REMOVE","targetIds":[1]}},"session":"s"}
{"session":"s","listen":{"database":"@","addTarget":{"targetId":2,"documents":{"documents":["~/c/a"]}}}}
> {"listen":{"targetChange":{"targetChangeType":"ADD","targetIds":[2]}},"session":"s"}

streams 1
{"session":"s","id":"1","write":{"database":"@"}}
> {"session":"s","write":{"streamId":"1","streamToken":"AAAAAAAAAAA="}}
{"session":"t","id":"2","write":{"database":"@"}}
> {"error":{"code":429,"message":"limit streams 1","status":"RESOURCE_EXHAUSTED"},"id":"2","session":"t"}
{"session":"s","id":"3","write":{"database":"@"}}
> {"error":{"code":429,"message":"limit streams 1","status":"RESOURCE_EXHAUSTED"},"id":"3","session":"s"}
{"session":"t","id":"4","write":{"database":"@","streamId":"1","streamToken":"AAAAAAAAAAA="}}
> {"session":"t","write":{"streamId":"1","streamToken":"AAAAAAAAAAA="}}
{"session":"s","id":"5","write":{"database":"@","streamToken":"AAAAAAAAAAA=","writes":[{"update":{"name":"~/c/a","fields":{"n":{"integerValue":"1"}}}}]}}
> {"error":{"code":400,"message":"stream not owned","status":"INVALID_ARGUMENT"},"id":"5","session":"s"}
{"session":"t","leave":true}
{"session":"s","id":"6","write":{"database":"@"}}
> {"error":{"code":429,"message":"limit streams 1","status":"RESOURCE_EXHAUSTED"},"id":"6","session":"s"}
{"session":"s","id":"7","write":{"database":"@","streamId":"1","streamToken":"AAAAAAAAAAA="}}
> {"session":"s","write":{"streamId":"1","streamToken":"AAAAAAAAAAA="}}

ids 1
{"session":"s","id":"1","write":{"database":"@"}}
> {"session":"s","write":{"streamId":"1","streamToken":"AAAAAAAAAAA="}}
{"session":"s","id":"2","commit":{"database":"@","writes":[{"update":{"name":"~/c/a","fields":{"n":{"integerValue":"1"}}}}]}}
> {"id":"2","result":{"commitTime":"2024-01-01T00:00:00.000001Z","writeResults":[{"updateTime":"2024-01-01T00:00:00.000001Z"}]},"session":"s"}
{"session":"s","id":"3","write":{"database":"@","streamToken":"AAAAAAAAAAA=","writes":[{"update":{"name":"~/c/a","fields":{"n":{"integerValue":"2"}}}}]}}
> {"error":{"code":429,"message":"limit ids 1","status":"RESOURCE_EXHAUSTED"},"id":"3","session":"s"}
{"session":"s","id":"4","write":{"database":"@","streamToken":"AAAAAAAAAAA="}}
> {"session":"s","write":{"streamId":"1","streamToken":"AAAAAAAAAAA="}}

parked 0
{"manual":true}
{"session":"s","id":"1","write":{"database":"@"}}
> {"session":"s","write":{"streamId":"1","streamToken":"AAAAAAAAAAA="}}
{"session":"s","id":"2","commit":{"database":"@","writes":[{"update":{"name":"~/c/a","fields":{"n":{"integerValue":"1"}}}}]}}
{"session":"s","id":"3","write":{"database":"@","streamToken":"AAAAAAAAAAA=","writes":[{"update":{"name":"~/c/a","fields":{"n":{"integerValue":"2"}}}}]}}
> {"error":{"code":429,"message":"limit parked 0","status":"RESOURCE_EXHAUSTED"},"id":"3","session":"s"}
{"session":"s","id":"4","write":{"database":"@","streamToken":"AAAAAAAAAAA="}}
> {"session":"s","write":{"streamId":"1","streamToken":"AAAAAAAAAAA="}}

batches 2
{"manual":true}
{"session":"s","id":"1","write":{"database":"@"}}
> {"session":"s","write":{"streamId":"1","streamToken":"AAAAAAAAAAA="}}
{"session":"s","id":"2","commit":{"database":"@","writes":[{"update":{"name":"~/c/a","fields":{"n":{"integerValue":"1"}}}}]}}
{"session":"s","id":"3","write":{"database":"@","streamToken":"AAAAAAAAAAA=","writes":[{"update":{"name":"~/c/a","fields":{"n":{"integerValue":"2"}}}}]}}
{"session":"s","id":"4","commit":{"database":"@","writes":[{"update":{"name":"~/c/b","fields":{"n":{"integerValue":"1"}}}}]}}
{"retry":true}
> {"session":"s","write":{"error":{"code":429,"message":"limit batches 2","status":"RESOURCE_EXHAUSTED"},"streamId":"1","streamToken":"AAAAAAAAAAE="}}
{"session":"s","id":"5","write":{"database":"@","streamToken":"AAAAAAAAAAA=","writes":[{"update":{"name":"~/c/a","fields":{"n":{"integerValue":"2"}}}}]}}
> {"session":"s","write":{"error":{"code":429,"message":"limit batches 2","status":"RESOURCE_EXHAUSTED"},"streamId":"1","streamToken":"AAAAAAAAAAE="}}"#;

const DATABASE: &str = "projects/demo/databases/(default)";

// Another number under a name, as `ids 2`.
fn set_limit(rt: &impl Abort, limits: &mut Limits, text: &str) {
    let (name, number) = text.split_once(" ").expect(rt, "a limit");
    let number = number.parse::<u64>().expect(rt, "a number");
    match name {
        "writes" => limits.writes = number,
        "targets" => limits.targets = number,
        "transactions" => limits.transactions = number,
        "streams" => limits.streams = number,
        "parked" => limits.parked = number,
        "batches" => limits.batches = number,
        "journal" => limits.journal = number,
        "reads" => limits.reads = number,
        "ids" => limits.ids = number,
        _ => limits.time = number,
    }
}

fn limits_of(rt: &impl Abort, text: &str) -> Limits
    ensures { AreAllowed result }
{
    let mut limits = Limits::greatest();
    for one in text.split(", ") {
        set_limit(rt, &mut limits, one);
    }
    assert!(rt; limits.are_allowed());
    limits
}

fn push(rt: &impl Abort, text: &mut String, line: &str) {
    text.push_str(line).expect(rt, "memory");
    text.push_str("\n").expect(rt, "memory");
}

// Adds a line to the transcript where it is written, or else to the script.
fn push_line(rt: &impl Abort, line: &str, script: &mut String, transcript: &mut String) {
    match line.strip_prefix("> ") {
        Some(told) => push(rt, transcript, told),
        None => push(rt, script, line),
    }
}

fn full(rt: &impl Abort, alloc: Global, text: &str) -> String {
    let text = text.replace(alloc, "~", "@/documents").expect(rt, "memory");
    text.replace(alloc, "@", DATABASE).expect(rt, "memory")
}

// Whether a script writes this, with these limits.
fn writes(rt: &impl Abort, alloc: Global, limits: Limits, script: &str, transcript: &str) -> bool
    requires { AreAllowed limits }
{
    let script = Bytes::from_slice(alloc, script.as_bytes()).expect(rt, "memory");
    let source = MemorySource::new(script, Paces::free(alloc));
    ends_so(
        rt,
        alloc,
        limits,
        source,
        Paces::free(alloc),
        Status::Ok,
        transcript.as_bytes(),
    )
}

fn is_so(rt: &impl Abort, alloc: Global, case: &str) -> bool {
    let (limits, lines) = case.split_once("\n").expect(rt, "lines");
    let mut script = String::new(alloc);
    let mut transcript = String::new(alloc);
    for line in lines.lines() {
        push_line(rt, line, &mut script, &mut transcript);
    }
    let script = full(rt, alloc, script.as_str());
    let transcript = full(rt, alloc, transcript.as_str());
    writes(
        rt,
        alloc,
        limits_of(rt, limits),
        script.as_str(),
        transcript.as_str(),
    )
}

#[test]
fn each_limit_at_its_number_and_above(rt: HostRuntime) {
    for case in CASES.split("\n\n") {
        assert!(rt; is_so(&rt, rt.alloc(), case), "{case}");
    }
}
