//! Requests, messages and writes in short, as the tables have them, and the JSON that they stand for.
use std::alloc::Global;
use std::process::Abort;

/// What a word stands for: queries and names, writes, requests, and messages. `$1` is the first word behind it, and `%` the list behind a
/// colon.
const FORMS: &str = r#"all {"from":[{"collectionId":"c"}]}
low {"from":[{"collectionId":"c"}],"where":{"fieldFilter":{"field":{"fieldPath":"n"},"op":"LESS_THAN","value":{"integerValue":"5"}}}}
first {"from":[{"collectionId":"c"}],"limit":1,"orderBy":[{"direction":"ASCENDING","field":{"fieldPath":"n"}}]}
falling {"from":[{"collectionId":"c"}],"orderBy":[{"direction":"DESCENDING","field":{"fieldPath":"n"}}]}
broken {"from":[{"collectionId":"c"}],"limit":-1}
name "~/$1"
list [%]
set {"update":{"fields":{"n":{"integerValue":"$2"}},"name":"~/$1"}}
exists {"currentDocument":{"exists":$3},"update":{"fields":{"n":{"integerValue":"$2"}},"name":"~/$1"}}
timed {"currentDocument":{"updateTime":"^$3Z"},"update":{"fields":{"n":{"integerValue":"$2"}},"name":"~/$1"}}
add {"update":{"name":"~/$1"},"updateMask":{},"updateTransforms":[{"fieldPath":"n","increment":{"integerValue":"$2"}}]}
merge {"update":{"fields":{"$2":{"integerValue":"$3"}},"name":"~/$1"},"updateMask":{"fieldPaths":["$2"]}}
unset {"update":{"name":"~/$1"},"updateMask":{"fieldPaths":["$2"]}}
delete {"delete":"~/$1"}
twice {"update":{"name":"~/$1"},"updateMask":{"fieldPaths":["n","n"]}}
mixed {"delete":"~/$1","updateTransforms":[{"fieldPath":"n","increment":{"integerValue":"1"}}]}
open {"write":{"database":"@"}}
resume {"write":{"database":"@","streamId":"$1","streamToken":"!$2"}}
batch {"write":{"database":"@","streamToken":"!$1","writes":[%]}}
query {"listen":{"addTarget":{"query":{"parent":"~","structuredQuery":%},"targetId":$1},"database":"@"}}
query_from {"listen":{"addTarget":{"query":{"parent":"~","structuredQuery":%},"resumeToken":"$2","targetId":$1},"database":"@"}}
names {"listen":{"addTarget":{"documents":{"documents":[%]},"targetId":$1},"database":"@"}}
names_from {"listen":{"addTarget":{"documents":{"documents":[%]},"resumeToken":"$2","targetId":$1},"database":"@"}}
remove {"listen":{"database":"@","removeTarget":$1}}
doc {"listen":{"documentChange":{"document":{"name":"~/$1","fields":{"n":{"integerValue":"$2"}},"createTime":"^1Z","updateTime":"^1Z"},"targetIds":[$3],"removedTargetIds":[$4]}}}
gone {"listen":{"document$1":{"document":"~/$2","readTime":"^$3Z","removedTargetIds":[$4]}}}
target {"listen":{"targetChange":{"targetChangeType":"$1","targetIds":[$2]}}}
banned {"listen":{"targetChange":{"targetChangeType":"REMOVE","targetIds":[$1],"cause":{"code":$2,"message":"$3"}}}}
current {"listen":{"targetChange":{"targetChangeType":"CURRENT","targetIds":[$1],"readTime":"^$2Z","resumeToken":"$3"}}}
still {"listen":{"targetChange":{"readTime":"^$1Z","resumeToken":"$2"}}}
stands {"write":{"streamId":"$1","streamToken":"!$2"}}
committed {"write":{"streamId":"$1","streamToken":"!$2","commitTime":"^$3Z"}}
refused {"write":{"streamId":"$1","streamToken":"!$2","error":{"code":$3,"status":"$4","message":"$5"}}}
error {"error":{"code":$1,"status":"$2","message":"$3"}}"#;

/// What marks stand for in all of these: documents, the database, moments in microseconds, and the tokens of a stream.
const MARKS: [(&str, &str); 7] = [
    ("~", "projects/demo/databases/(default)/documents"),
    ("@", "projects/demo/databases/(default)"),
    ("^", "1970-01-01T00:00:00.00000"),
    ("!0", "AAAAAAAAAAA="),
    ("!1", "AAAAAAAAAAE="),
    ("!2", "AAAAAAAAAAI="),
    ("!3", "AAAAAAAAAAM="),
];

/// What stands before a mark, and what stands behind it.
pub(crate) fn cut<'a>(text: &'a str, mark: &str) -> (&'a str, &'a str) {
    text.split_once(mark).unwrap_or((text, ""))
}

// The form of a word. There is one of each word but the empty one.
fn form_of(word: &str) -> &'static str {
    for line in FORMS.lines() {
        let (name, form) = cut(line, " ");
        if name == word {
            return form;
        }
    }
    if word.is_empty() { "" } else { "?" }
}

fn replaced(rt: &impl Abort, alloc: Global, text: &str, mark: &str, by: &str) -> String {
    text.replace(alloc, mark, by).expect(rt, "memory")
}

// The form of the first word of a text, with the words behind it in their places.
fn filled(rt: &impl Abort, alloc: Global, text: &str) -> String {
    let (word, mut rest) = cut(text, " ");
    let mut form = String::from_str(alloc, form_of(word)).expect(rt, "memory");
    for mark in ["$1", "$2", "$3", "$4", "$5"] {
        let (one, behind) = cut(rest, " ");
        form = replaced(rt, alloc, form.as_str(), mark, one);
        rest = behind;
    }
    form
}

// Each of a list, with commas between.
fn listed(rt: &impl Abort, alloc: Global, text: &str) -> String {
    let mut list = String::new(alloc);
    for one in text.split(", ") {
        let one = filled(rt, alloc, one);
        if !list.is_empty() {
            list.push_str(",").expect(rt, "memory");
        }
        list.push_str(one.as_str()).expect(rt, "memory");
    }
    list
}

/// The JSON that a short text stands for, as `batch 0: set c/a 1, delete c/b`.
pub(crate) fn spelled(rt: &impl Abort, alloc: Global, text: &str) -> String {
    let (head, list) = cut(text, ": ");
    let form = filled(rt, alloc, head);
    let list = listed(rt, alloc, list);
    let mut text = replaced(rt, alloc, form.as_str(), "%", list.as_str());
    for (mark, by) in MARKS {
        text = replaced(rt, alloc, text.as_str(), mark, by);
    }
    text
}

/// That of each of several, as `open; query 1: all`, with a space before each.
pub(crate) fn all_spelled(rt: &impl Abort, alloc: Global, text: &str) -> String {
    let mut all = String::new(alloc);
    for one in text.split("; ") {
        let one = spelled(rt, alloc, one);
        all.push_str(" ").expect(rt, "memory");
        all.push_str(one.as_str()).expect(rt, "memory");
    }
    all
}
