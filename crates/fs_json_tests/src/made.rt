//! What is made of the text of a line.
use fs_json::Bad;
use fs_path::{Root, Text, Way};
use fs_request::{Envelope, Message};
use fs_rpc::{read_message, read_request, write_message, write_request};
use fs_write::Write;
use fs_writejson::{read_write, write_write};
use serde_json::Value;
use std::alloc::Global;
use std::process::Abort;

/// What a text is read as, and written again.
#[derive(Clone, Copy)]
pub(crate) enum Make {
    Message,
    Request,
    Write,
}

pub(crate) fn made(rt: &impl Abort, alloc: Global, make: Make, text: &str) -> Result<String, Bad> {
    let root = demo(rt, alloc);
    match make {
        Make::Message => Ok(message_again(rt, alloc, read_message(alloc, &root, text)?)),
        Make::Request => Ok(request_again(rt, alloc, read_request(alloc, &root, text)?)),
        Make::Write => Ok(write_again(rt, alloc, write_of(rt, alloc, &root, text)?)),
    }
}

fn message_again(rt: &impl Abort, alloc: Global, message: Message) -> String {
    let bytes = write_message(alloc, &message).expect(rt, "memory");
    drop(message);
    String::from_utf8_lossy(alloc, &bytes).expect(rt, "memory")
}

fn request_again(rt: &impl Abort, alloc: Global, request: Envelope) -> String {
    let text = write_request(alloc, &request).expect(rt, "memory");
    drop(request);
    text.into_string()
}

fn write_of(rt: &impl Abort, alloc: Global, root: &Root, text: &str) -> Result<Write, Bad> {
    read_write(alloc, root, &json(rt, alloc, text), &Way::method("x"))
}

fn write_again(rt: &impl Abort, alloc: Global, write: Write) -> String {
    let json = write_write(alloc, &write).expect(rt, "memory");
    drop(write);
    json.to_string(alloc).expect(rt, "memory")
}

pub(crate) fn json(rt: &impl Abort, alloc: Global, text: &str) -> Value {
    Value::from_str(alloc, text).expect(rt, "JSON")
}

/// The root of all names.
pub(crate) fn demo(rt: &impl Abort, alloc: Global) -> Root {
    Root {
        project: Text::from_str(alloc, "demo").expect(rt, "memory"),
        database: Text::from_str(alloc, "(default)").expect(rt, "memory"),
    }
}
