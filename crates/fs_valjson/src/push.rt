//! Writes values and documents token by token, into a text that goes on: no tree of JSON values is made of them.
ghost use Rattle.std.specs.Prelude.{◌≡◌, ◌++◌, codes, OnOk};
ghost use Rattle.serde_json.specs.Data.{string as json_text, object, no_members};
ghost use Rattle.fs_time.specs.Rfc3339.{time_text};
ghost use Rattle.fs_value.specs.Data.{null, boolean, integer, timestamp, string, bytes, reference, array, object as map, items_of, members_of};
ghost use Rattle.fs_value.specs.View.{view};
ghost use Rattle.fs_valjson.specs.Document.{document_json, with_fields};
ghost use Rattle.fs_valjson.specs.Held.{IsHeld, ItemsAreHeld, MembersAreHeld};
ghost use Rattle.fs_valjson.specs.Steps.{values_member};
ghost use Rattle.fs_valjson.specs.Tokens.{member_tokens, text_member, tokens_of};
ghost use Rattle.fs_valjson.specs.Valid.{IsDocumentHeld, IsListHeld};
ghost use Rattle.fs_valjson.specs.Writing.{fields_content, items_json, list_content, list_json, members_json, value_json};
ghost use Rattle.fs_json.specs.Members.{with_one};
ghost use Rattle.fs_json.specs.Time.{IsTimeHeld};

use crate::names::{
    ARRAY_VALUE, BOOLEAN_VALUE, BYTES_VALUE, CREATE_TIME, FIELDS, INTEGER_VALUE, MAP_VALUE, NAME,
    NULL_VALUE, REFERENCE_VALUE, STRING_VALUE, TIMESTAMP_VALUE, UPDATE_TIME, VALUES,
};
use base64::engine::general_purpose::STANDARD;
use fs_path::{Bytes, DocName, Text, print_document};
use fs_time::{Micros, print};
use fs_value::{Document, Fields, Value, Values};
use json::Writer;
use std::alloc::{AllocError, Global};

// ---- members

/// Writes a member that is a text.
pub fn push_text(line: &mut Writer, name: &str, text: &str) -> Result<(), AllocError>
    ensures tokens { OnOk result (line.new.tokens ≡ line.old.tokens ++ text_member name.now text.now) }
    ensures before { line.new.before ≡ line.old.before }
{
    line.key(name)?;
    line.string(text)
}

/// Writes a member that is a time. Many times are the same as one whose text is known: it isn't printed again then.
pub fn push_time(
    alloc: Global,
    line: &mut Writer,
    name: &str,
    time: Micros,
    known: Micros,
    text: &str,
) -> Result<(), AllocError>
    requires { text.now ≡ time_text known }
    ensures tokens { OnOk result (line.new.tokens ≡ line.old.tokens ++ text_member name.now (time_text time)) }
    ensures before { line.new.before ≡ line.old.before }
    ensures held { OnOk result (IsTimeHeld time) }
{
    times_are_held(time);
    if time == known {
        push_text(line, name, text)
    } else {
        push_text(line, name, &print(alloc, time)?)
    }
}

// The text of a time is read back.
fn times_are_held(time: Micros)
    ensures { IsTimeHeld time }
{
    time.get();
}

// ---- values

// Writes a value.
#[cycle(push)]
fn push_value(alloc: Global, line: &mut Writer, v: &Value) -> Result<(), AllocError>
    ensures tokens { OnOk result (line.new.tokens ≡ line.old.tokens ++ tokens_of (value_json (view v.now))) }
    ensures before { line.new.before ≡ line.old.before }
    ensures held { OnOk result (IsHeld (view v.now)) }
{
    match v {
        Value::Null => push_null(line),
        Value::Boolean(b) => push_boolean(line, *b),
        Value::Integer(n) => push_integer(line, *n),
        Value::Timestamp(t) => push_timestamp(alloc, line, *t),
        Value::String(text) => push_string(line, text),
        Value::Bytes(bytes) => push_bytes(alloc, line, bytes),
        Value::Reference(name) => push_reference(alloc, line, name),
        Value::Array(values) => push_array(alloc, line, values),
        Value::Map(fields) => push_map(alloc, line, fields),
    }
}

// An object of one member, which is a text.
fn push_one(line: &mut Writer, name: &str, text: &str) -> Result<(), AllocError>
    ensures tokens { OnOk result (line.new.tokens ≡ line.old.tokens ++ tokens_of (with_one name.now (json_text text.now))) }
    ensures before { line.new.before ≡ line.old.before }
{
    line.begin_object()?;
    line.key(name)?;
    line.string(text)?;
    line.end_object()
}

fn push_null(line: &mut Writer) -> Result<(), AllocError>
    ensures tokens { OnOk result (line.new.tokens ≡ line.old.tokens ++ tokens_of (value_json null)) }
    ensures before { line.new.before ≡ line.old.before }
{
    line.begin_object()?;
    line.key(NULL_VALUE)?;
    line.null()?;
    line.end_object()
}

fn push_boolean(line: &mut Writer, b: bool) -> Result<(), AllocError>
    ensures tokens { OnOk result (line.new.tokens ≡ line.old.tokens ++ tokens_of (value_json (boolean b))) }
    ensures before { line.new.before ≡ line.old.before }
{
    line.begin_object()?;
    line.key(BOOLEAN_VALUE)?;
    line.boolean(b)?;
    line.end_object()
}

// A 64-bit integer is a text.
fn push_integer(line: &mut Writer, n: i64) -> Result<(), AllocError>
    ensures tokens { OnOk result (line.new.tokens ≡ line.old.tokens ++ tokens_of (value_json (integer n))) }
    ensures before { line.new.before ≡ line.old.before }
    ensures held { OnOk result (IsHeld (integer n)) }
{
    line.begin_object()?;
    line.key(INTEGER_VALUE)?;
    line.quoted_i64(n)?;
    line.end_object()
}

fn push_string(line: &mut Writer, s: &Text) -> Result<(), AllocError>
    ensures tokens { OnOk result (line.new.tokens ≡ line.old.tokens ++ tokens_of (value_json (string s.now))) }
    ensures before { line.new.before ≡ line.old.before }
{
    push_one(line, STRING_VALUE, s.as_str())
}

fn push_timestamp(alloc: Global, line: &mut Writer, t: Micros) -> Result<(), AllocError>
    ensures tokens { OnOk result (line.new.tokens ≡ line.old.tokens ++ tokens_of (value_json (timestamp t))) }
    ensures before { line.new.before ≡ line.old.before }
    ensures held { OnOk result (IsHeld (timestamp t)) }
{
    push_one(line, TIMESTAMP_VALUE, &print(alloc, t)?)
}

fn push_bytes(alloc: Global, line: &mut Writer, b: &Bytes) -> Result<(), AllocError>
    ensures tokens { OnOk result (line.new.tokens ≡ line.old.tokens ++ tokens_of (value_json (bytes b.now))) }
    ensures before { line.new.before ≡ line.old.before }
    ensures held { OnOk result (IsHeld (bytes b.now)) }
{
    push_one(line, BYTES_VALUE, &STANDARD.encode(alloc, b.as_slice())?)
}

fn push_reference(alloc: Global, line: &mut Writer, name: &DocName) -> Result<(), AllocError>
    ensures tokens { OnOk result (line.new.tokens ≡ line.old.tokens ++ tokens_of (value_json (reference name.now))) }
    ensures before { line.new.before ≡ line.old.before }
    ensures held { OnOk result (IsHeld (reference name.now)) }
{
    push_one(line, REFERENCE_VALUE, print_document(alloc, name)?.as_str())
}

// `{"arrayValue":{"values":[..]}}`, and `{"arrayValue":{}}` where there are none.
#[cycle(push)]
fn push_array(alloc: Global, line: &mut Writer, values: &Values) -> Result<(), AllocError>
    ensures tokens { OnOk result (line.new.tokens ≡ line.old.tokens ++ tokens_of (value_json (array (items_of values.now)))) }
    ensures before { line.new.before ≡ line.old.before }
    ensures held { OnOk result (ItemsAreHeld (items_of values.now)) }
{
    line.begin_object()?;
    line.key(ARRAY_VALUE)?;
    push_content(alloc, line, values)?;
    line.end_object()
}

#[cycle(push)]
fn push_content(alloc: Global, line: &mut Writer, values: &Values) -> Result<(), AllocError>
    ensures tokens { OnOk result (line.new.tokens ≡ line.old.tokens ++ tokens_of (list_content (items_json (items_of values.now)))) }
    ensures before { line.new.before ≡ line.old.before }
    ensures held { OnOk result (ItemsAreHeld (items_of values.now)) }
{
    line.begin_object()?;
    push_values(alloc, line, values)?;
    line.end_object()
}

// The member of the values, where there are any.
#[cycle(push)]
fn push_values(alloc: Global, line: &mut Writer, values: &Values) -> Result<(), AllocError>
    ensures tokens { OnOk result (line.new.tokens ≡ line.old.tokens ++ member_tokens (values_member (items_json (items_of values.now)))) }
    ensures before { line.new.before ≡ line.old.before }
    ensures held { OnOk result (ItemsAreHeld (items_of values.now)) }
{
    if values.is_empty() {
        return Ok(());
    }
    line.key(VALUES)?;
    push_items(alloc, line, values)
}

#[cycle(push)]
fn push_items(alloc: Global, line: &mut Writer, values: &Values) -> Result<(), AllocError>
    ensures tokens { OnOk result (line.new.tokens ≡ line.old.tokens ++ tokens_of (list_json values.now)) }
    ensures before { line.new.before ≡ line.old.before }
    ensures held { OnOk result (ItemsAreHeld (items_of values.now)) }
{
    line.begin_array()?;
    for value in values.as_slice() {
        push_value(alloc, line, value)?;
    }
    line.end_array()
}

// `{"mapValue":{"fields":{..}}}`, and `{"mapValue":{}}` where there are none.
#[cycle(push)]
fn push_map(alloc: Global, line: &mut Writer, fields: &Fields) -> Result<(), AllocError>
    ensures tokens { OnOk result (line.new.tokens ≡ line.old.tokens ++ tokens_of (value_json (map (members_of fields.now)))) }
    ensures before { line.new.before ≡ line.old.before }
    ensures held { OnOk result (MembersAreHeld (members_of fields.now)) }
{
    line.begin_object()?;
    line.key(MAP_VALUE)?;
    push_fields_content(alloc, line, fields)?;
    line.end_object()
}

#[cycle(push)]
fn push_fields_content(alloc: Global, line: &mut Writer, fields: &Fields) -> Result<(), AllocError>
    ensures tokens { OnOk result (line.new.tokens ≡ line.old.tokens ++ tokens_of (fields_content (members_json (members_of fields.now)))) }
    ensures before { line.new.before ≡ line.old.before }
    ensures held { OnOk result (MembersAreHeld (members_of fields.now)) }
{
    line.begin_object()?;
    push_fields(alloc, line, fields)?;
    line.end_object()
}

// The member of the fields, where there are any.
#[cycle(push)]
fn push_fields(alloc: Global, line: &mut Writer, fields: &Fields) -> Result<(), AllocError>
    ensures tokens { OnOk result (line.new.tokens
        ≡ line.old.tokens ++ member_tokens (with_fields (members_json (members_of fields.now)) no_members)) }
    ensures before { line.new.before ≡ line.old.before }
    ensures held { OnOk result (MembersAreHeld (members_of fields.now)) }
{
    if fields.is_empty() {
        return Ok(());
    }
    line.key(FIELDS)?;
    push_members(alloc, line, fields)
}

#[cycle(push)]
fn push_members(alloc: Global, line: &mut Writer, fields: &Fields) -> Result<(), AllocError>
    ensures tokens { OnOk result (line.new.tokens ≡ line.old.tokens ++ tokens_of (object (members_json (members_of fields.now)))) }
    ensures before { line.new.before ≡ line.old.before }
    ensures held { OnOk result (MembersAreHeld (members_of fields.now)) }
{
    line.begin_object()?;
    for field in fields.as_slice() {
        line.key(field.key.as_str())?;
        push_value(alloc, line, &field.value)?;
    }
    line.end_object()
}

// ---- lists and documents

/// Writes a list of values.
pub fn push_list(alloc: Global, line: &mut Writer, values: &Values) -> Result<(), AllocError>
    ensures tokens { OnOk result (line.new.tokens ≡ line.old.tokens ++ tokens_of (list_json values.now)) }
    ensures before { line.new.before ≡ line.old.before }

    // What is written is read back as the same list.
    ensures held { OnOk result (IsListHeld values.now) }
{
    push_items(alloc, line, values)
}

/// Writes a document, with its two times. Fields that are none are left out.
pub fn push_document(alloc: Global, line: &mut Writer, d: &Document) -> Result<(), AllocError>
    ensures tokens { OnOk result (line.new.tokens ≡ line.old.tokens ++ tokens_of (document_json d.now)) }
    ensures before { line.new.before ≡ line.old.before }

    // What is written is read back as the same document.
    ensures held { OnOk result (IsDocumentHeld d.now) }
{
    let created = print(alloc, d.created)?;
    push_dated(alloc, line, d, &created)
}

// The same, with the text of the time of its creation.
fn push_dated(
    alloc: Global,
    line: &mut Writer,
    d: &Document,
    created: &str,
) -> Result<(), AllocError>
    requires { created.now ≡ time_text d.now.created }
    ensures tokens { OnOk result (line.new.tokens ≡ line.old.tokens ++ tokens_of (document_json d.now)) }
    ensures before { line.new.before ≡ line.old.before }
    ensures held { OnOk result (IsDocumentHeld d.now) }
{
    times_are_held(d.created);
    line.begin_object()?;
    push_text(line, CREATE_TIME, created)?;
    push_fields(alloc, line, d.fields.as_fields())?;
    push_text(line, NAME, print_document(alloc, &d.name)?.as_str())?;
    push_time(alloc, line, UPDATE_TIME, d.updated, d.created, created)?;
    line.end_object()
}
