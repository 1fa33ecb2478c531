//! The normal form of a query, and the order of documents by it.
use crate::made::{demo, json};
use fs_path::{Ids, Way};
use fs_query::{Normal, Query, compare_docs, normal_form};
use fs_queryjson::walk_query;
use fs_valjson::read_document;
use fs_value::Document;
use std::alloc::Global;
use std::cmp::Ordering;
use std::process::Abort;

const FALLING: &str =
    r#"{"from":[{"collectionId":"t"}],"orderBy":[{"field":{"fieldPath":"n"},"direction":"DESCENDING"}],"limit":1}"#;

const FIRST: &str =
    r#"{"name":"projects/demo/databases/(default)/documents/t/1","fields":{"n":{"integerValue":"7"}}}"#;

const SECOND: &str =
    r#"{"name":"projects/demo/databases/(default)/documents/t/2","fields":{"n":{"integerValue":"7"}}}"#;

fn query(rt: &impl Abort, alloc: Global, text: &str) -> Query {
    let v = json(rt, alloc, text);
    walk_query(alloc, &Ids::new(alloc), &v, &Way::method("x")).expect(rt, "a query")
}

fn document(rt: &impl Abort, alloc: Global, text: &str) -> Document {
    let (root, v) = (demo(rt, alloc), json(rt, alloc, text));
    read_document(alloc, &root, &v, &Way::method("x")).expect(rt, "a document")
}

fn normal(rt: &impl Abort, alloc: Global, query: &Query) -> Normal {
    let normal = normal_form(alloc, query).expect(rt, "memory");
    normal.copy(alloc).expect(rt, "memory")
}

fn second_comes_first(rt: &impl Abort, alloc: Global, normal: &Normal) -> bool {
    let one = document(rt, alloc, FIRST);
    let other = document(rt, alloc, SECOND);
    compare_docs(normal, &other, &one) == Ordering::Less
}

fn normal_of(rt: &impl Abort, alloc: Global, text: &str) -> Normal {
    let asked = query(rt, alloc, text);
    normal(rt, alloc, &asked)
}

// By `n` and by name, both descending.
#[test]
fn a_normal_form_has_the_whole_order(rt: HostRuntime) {
    let alloc = rt.alloc();
    let normal = normal_of(&rt, alloc, FALLING);
    let is_whole = normal.orders.len() == 2 && normal.disjuncts.len() == 1;
    let is_so = is_whole && second_comes_first(&rt, alloc, &normal);
    drop(normal);
    assert!(rt; is_so);
}
