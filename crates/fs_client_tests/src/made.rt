//! What is made of short texts.
use crate::forms::spelled;
use fs_path::{DocName, Ids, Names, Root, Text, Way};
use fs_query::Target;
use fs_queryjson::walk_listened;
use fs_request::Message;
use fs_rpc::read_message;
use fs_time::Micros;
use fs_write::Writes;
use fs_writejson::read_drafts;
use serde_json::Value;
use std::alloc::Global;
use std::process::Abort;

pub(crate) fn id_of(rt: &impl Abort, text: &str) -> u32 {
    text.parse::<u32>().expect(rt, "an id")
}

pub(crate) fn moment(rt: &impl Abort, text: &str) -> Micros {
    let n = text.parse::<i64>().expect(rt, "a number");
    Micros::new(n).expect(rt, "a moment")
}

fn text_of(rt: &impl Abort, alloc: Global, text: &str) -> Text {
    Text::from_str(alloc, text).expect(rt, "memory")
}

pub(crate) fn root(rt: &impl Abort, alloc: Global) -> Root {
    Root {
        project: text_of(rt, alloc, "demo"),
        database: text_of(rt, alloc, "(default)"),
    }
}

pub(crate) fn name_of(rt: &impl Abort, alloc: Global, path: &str) -> DocName {
    let path = format!(in alloc; "demo/(default)/{path}").expect(rt, "memory");
    DocName::of_path(path).expect(rt, "a name")
}

fn json(rt: &impl Abort, alloc: Global, text: &str) -> Value {
    let text = spelled(rt, alloc, text);
    Value::from_str(alloc, text.as_str()).expect(rt, "JSON")
}

/// A message, as `doc c/a 1 1,2`.
pub(crate) fn message_of(rt: &impl Abort, alloc: Global, text: &str) -> Message {
    let root = root(rt, alloc);
    let text = spelled(rt, alloc, text);
    read_message(alloc, &root, text.as_str()).expect(rt, "a message")
}

/// Writes, as `set c/a 1, delete c/b`, whatever rules they break.
pub(crate) fn writes_of(rt: &impl Abort, alloc: Global, text: &str) -> Writes {
    let root = root(rt, alloc);
    let list = format!(in alloc; "list: {text}").expect(rt, "memory");
    let list = json(rt, alloc, list.as_str());
    let drafts = read_drafts(alloc, &root, &list, &Way::method("x")).expect(rt, "writes");
    let mut writes = Writes::new(alloc);
    for draft in drafts.into_vec() {
        writes.push(draft.write).expect(rt, "memory");
    }
    writes
}

fn names(rt: &impl Abort, alloc: Global, paths: &str) -> Names {
    let mut names = Names::new(alloc);
    for path in paths.split_whitespace() {
        names.push(name_of(rt, alloc, path)).expect(rt, "memory");
    }
    names
}

/// A target, as `names c/b c/a`, or the query of a form, whatever rule it breaks.
pub(crate) fn target_of(rt: &impl Abort, alloc: Global, text: &str) -> Target {
    if let Some(paths) = text.strip_prefix("names ") {
        return Target::Documents(names(rt, alloc, paths));
    }
    let query = json(rt, alloc, text);
    let walked = walk_listened(alloc, &Ids::new(alloc), &query, &Way::method("x"));
    Target::Query(walked.expect(rt, "a query"))
}
