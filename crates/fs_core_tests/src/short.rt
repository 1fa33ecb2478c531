//! What tests are given, in short. Where memory runs out, the process ends.
use fs_path::{DocName, Root, Text};
use fs_time::Micros;
use fs_value::{Fields, SharedFields, Value};
use std::alloc::Global;
use std::process::Abort;

/// The moment that is so many microseconds after 1970 began.
pub(crate) fn micros(rt: &impl Abort, n: i64) -> Micros {
    Micros::new(n).expect(rt, "a moment")
}

fn text_of(rt: &impl Abort, alloc: Global, text: &str) -> Text {
    Text::from_str(alloc, text).expect(rt, "memory")
}

/// The root of all names.
pub(crate) fn root(rt: &impl Abort, alloc: Global) -> Root {
    Root {
        project: text_of(rt, alloc, "demo"),
        database: text_of(rt, alloc, "(default)"),
    }
}

/// The document `a` of the collection `c`.
pub(crate) fn name(rt: &impl Abort, alloc: Global) -> DocName {
    let path = String::from_str(alloc, "demo/(default)/c/a").expect(rt, "memory");
    DocName::of_path(path).expect(rt, "a name")
}

/// The fields with this `n` alone.
pub(crate) fn fields_of(rt: &impl Abort, alloc: Global, n: i64) -> SharedFields {
    let mut fields = Fields::new(alloc);
    let key = text_of(rt, alloc, "n");
    fields.put(key, Value::Integer(n)).expect(rt, "memory");
    SharedFields::of(alloc, fields).expect(rt, "memory")
}
