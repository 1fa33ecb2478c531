//! Reading the lines of a script.
ghost use Rattle.std.specs.Prelude.{◌≡◌, ◌||◌, Err, IfOk, map, option_map};
ghost use Rattle.serde_json.specs.View.{members_view, view as json};
ghost use Rattle.fs_json.specs.Answer.{Gives};
ghost use Rattle.fs_rpc.specs.Envelope.{session_request_at};
ghost use Rattle.fs_rpc.specs.declared.envelope.SessionRequest.{SessionRequest};
ghost use Rattle.fs_replay.specs.Line.{bare, form_at, form_members, form_of, has_any, is_unbuilt_form, IsFault, json_of, leaves_session, line_of, line_reason, without_each, without_member};

use crate::forms::{
    LEAVE, SESSION, id_in, leaving_in, load_in, number_in, text_in, time_in, true_in, truth_in,
};
use crate::limits::LONGEST_LINE;
use crate::request::Line;
use fs_json::{Bad, is_there};
use fs_path::{Place, Root, Rule};
use fs_rpc::{SessionRequest, read_session_request};
use fs_status::{LineFault, Reason};
use serde_json::{Map, Value};
use std::alloc::{AllocError, Global};
use std::mem;

/// The form of lines that isn't built, told by a member.
const UNBUILT_FORMS: [&str; 1] = ["client"];

// The members that tell the other forms.
const CLOCK: &str = "clock";

const COMPACT: &str = "compact";

const MANUAL: &str = "manual";

const SETTLE: &str = "settle";

const RETRY: &str = "retry";

const LOAD: &str = "load";

const MATCH: &str = "match";

const RAISE: &str = "raise";

// All of them: `leave` tells one beside a session.
const FORM_MEMBERS: [&str; 9] = [
    CLOCK, COMPACT, MANUAL, SETTLE, RETRY, LOAD, MATCH, RAISE, LEAVE,
];

// Whether an object has a member of one of these names, whatever it holds.
fn has_any(v: &Value, names: &[&str]) -> bool
    ensures { result ≡ has_any (map (λ n. n.now) names.now) (json v.now) }
{
    match names {
        [] => false,
        [name, rest @ ..] => v.get(*name).is_some() || has_any(v, rest),
    }
}

fn is_unbuilt_form(v: &Value) -> bool
    ensures { result ≡ is_unbuilt_form (json v.now) }
{
    has_any(v, &UNBUILT_FORMS)
}

// The value of a line that is JSON.
fn json_of(alloc: Global, line: &[u8]) -> Result<Option<Value>, AllocError>
    ensures { IfOk result (λ found. option_map json found ≡ json_of line.now) }
{
    match Value::from_slice(alloc, line) {
        Ok(v) => Ok(Some(v)),
        Err(e) => {
            if e.is_memory() {
                Err(AllocError)
            } else {
                Ok(None)
            }
        }
    }
}

/// Reads a line without its newline.
pub fn read_line(alloc: Global, root: &Root, line: &[u8]) -> Result<Line, AllocError>
    ensures { IfOk result (λ l. l ≡ line_of root.now line.now) }
{
    if line.is_empty() {
        return Ok(Line::Empty);
    }
    if line.len() > LONGEST_LINE {
        let bytes = line.len() as u64;
        return Ok(Line::Refused(Reason::Line(LineFault::HasBytes(bytes))));
    }
    match json_of(alloc, line)? {
        Some(mut v) => {
            let line = line_in(alloc, root, &mut v);
            drop(v);
            line
        }
        None => Ok(Line::Refused(Reason::Line(LineFault::NotAnObject))),
    }
}

// No member that is there of a request tells another form, so that is looked for only where a line isn't read as a request.
// (docs/DECISIONS.md, "Whether a line is a request is asked first".) Want of memory ends the run: nothing is tried again.
fn line_in(alloc: Global, root: &Root, v: &mut Value) -> Result<Line, AllocError>
    ensures { IfOk result (λ l. l ≡ form_of root.now (json v.old)) }
{
    match read_session_request(alloc, root, v) {
        Ok(asked) => Ok(Line::Asked(asked)),
        Err(bad) => unread(alloc, root, v, bad),
    }
}

// A line that isn't read as a request. Where none of its members may tell another form, it is refused for what is wrong with the request,
// and isn't read again.
fn unread(alloc: Global, root: &Root, v: &mut Value, bad: Bad) -> Result<Line, AllocError>
    requires { Gives {X = SessionRequest} (λ r. r) (Err bad) (session_request_at root.now (json v.old)) }
    ensures { IfOk result (λ l. l ≡ form_of root.now (json v.old)) }
{
    if let Bad::Memory(_) = &bad {
        return refused(bad);
    }
    if has_form(v) {
        drop(bad);
        return other_line(alloc, root, v);
    }
    refused(bad)
}

// Whether there is a member that may tell a form other than requests.
fn has_form(v: &Value) -> bool
    ensures { result ≡ (is_unbuilt_form (json v.now) || has_any form_members (json v.now)) }
{
    is_unbuilt_form(v) || has_any(v, &FORM_MEMBERS)
}

// A line of any form, where one that isn't read is refused.
fn other_line(alloc: Global, root: &Root, v: &mut Value) -> Result<Line, AllocError>
    ensures { IfOk result (λ l. l ≡ form_of root.now (json v.old)) }
{
    match form_in(alloc, root, v) {
        Ok(line) => Ok(line),
        Err(bad) => refused(bad),
    }
}

// The members that are there tell which form a line has, and are asked for in this order.
// (docs/DECISIONS.md, "Which form a line has is told by the members that are there".)
fn form_in(alloc: Global, root: &Root, v: &mut Value) -> Result<Line, Bad>
    ensures { Gives (λ l. l) result (form_at root.now (json v.old)) }
{
    if is_unbuilt_form(v) {
        return Ok(Line::NotBuilt);
    }
    if is_there(v, CLOCK) {
        return Ok(Line::Clock(time_in(alloc, v, CLOCK)?));
    }
    if is_there(v, COMPACT) {
        return Ok(Line::Compact(time_in(alloc, v, COMPACT)?));
    }
    if is_there(v, MANUAL) {
        return Ok(Line::Manual(truth_in(alloc, v, MANUAL)?));
    }
    if is_there(v, SETTLE) {
        return Ok(Line::Settle(id_in(alloc, v, SETTLE)?));
    }
    if is_there(v, RETRY) {
        true_in(alloc, v, RETRY)?;
        return Ok(Line::Retry);
    }
    if is_there(v, LOAD) {
        return load_in(alloc, v, LOAD);
    }
    if is_there(v, MATCH) {
        return Ok(Line::Match(number_in(alloc, v, MATCH)?));
    }
    if is_there(v, RAISE) {
        return Ok(Line::Raise(text_in(alloc, v, RAISE)?));
    }
    if leaves_session(v) {
        return Ok(Line::Leave(leaving_in(alloc, v)?));
    }
    Ok(Line::Asked(bare_request(alloc, root, v)?))
}

fn leaves_session(v: &Value) -> bool
    ensures { result ≡ leaves_session (json v.now) }
{
    is_there(v, SESSION) && is_there(v, LEAVE)
}

// The line as a request, with the members of other forms taken out, none of which tells one.
fn bare_request(alloc: Global, root: &Root, v: &mut Value) -> Result<SessionRequest, Bad>
    ensures { Gives (λ r. r) result (session_request_at root.now (bare (json v.old))) }
{
    let bare = bare_of(mem::replace(v, Value::Null));
    let asked = read_session_request(alloc, root, &bare);
    drop(bare);
    asked
}

fn bare_of(v: Value) -> Value
    ensures { json result ≡ bare (json v) }
{
    match v {
        Value::Object(mut members) => {
            remove_each(&mut members, &FORM_MEMBERS);
            Value::Object(members)
        }
        other => other,
    }
}

fn remove_each(members: &mut Map<String, Value>, names: &[&str])
    ensures { members_view members.new.entries ≡ without_each (map (λ n. n.now) names.now) (members_view members.old.entries) }
{
    match names {
        [] => (),
        [name, rest @ ..] => {
            remove(members, name);
            remove_each(members, rest);
        }
    }
}

fn remove(members: &mut Map<String, Value>, name: &str)
    ensures { members_view members.new.entries ≡ without_member name.now (members_view members.old.entries) }
{
    drop(members.remove(name));
}

// A line that isn't read.
fn refused(bad: Bad) -> Result<Line, AllocError>
    ensures { IfOk result (λ l. IsFault bad × (l ≡ Line.Refused (line_reason bad))) }
{
    match bad {
        Bad::At(rule, place) => Ok(Line::Refused(line_fault(rule, place))),
        Bad::Method(name) => Ok(Line::Refused(Reason::Method(name))),
        Bad::Memory(e) => Err(e),
    }
}

// Why a line is refused that breaks a rule at a place. One whose own place is at fault is no object of any form.
fn line_fault(rule: Rule, place: Place) -> Reason
    ensures { result ≡ line_reason (Bad.At rule place) }
{
    if place.as_str().is_empty() {
        Reason::Line(LineFault::NotAnObject)
    } else {
        Reason::Rule(rule, place)
    }
}
