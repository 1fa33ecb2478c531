//! Requests with what stands round them.
ghost use Rattle.std.specs.Prelude.{◌≡◌, ◌≤◌, IfOk};
ghost use Rattle.serde_json.specs.Data.{depth};
ghost use Rattle.serde_json.specs.Read.{max_depth};
ghost use Rattle.serde_json.specs.View.{view as json};
ghost use Rattle.fs_json.specs.Answer.{Gives};
ghost use Rattle.fs_rpc.specs.Envelope.{envelope_at, request_of, session_request_at};
ghost use Rattle.fs_rpc.specs.RequestJson.{envelope_json};
ghost use Rattle.fs_rpc.specs.ByMethod.{request_at};
ghost use Rattle.fs_rpc.specs.ValidRequest.{IsRequestOf};

use crate::id::read_id;
use crate::message_read::read_json;
use crate::names::{ENVELOPE_HEAD, METHODS, SESSION, SESSION_HEAD};
use crate::read::read_method;
use fs_json::{Bad, member, one_of, only_of_two, read_text};
use fs_path::{Root, Rule, Text, Way};
use fs_request::{Envelope, Request};
use serde_json::Value;
use std::alloc::{AllocError, Global};

/// A request on a session, as a line of a script has it. A fault of the method's content is the request's, and is answered
/// with the session and the id; so it stands in the request's place. It never is want of memory.
/// (docs/DECISIONS.md, "A fault of a request's content stands in the request's place".)
#[derive(Drop)]
pub struct SessionRequest {
    pub session: Text,
    pub id: Option<Text>,
    pub request: Result<Request, Bad>,
}

/// Reads a request on a session: what stands round the request, and then the content of its method. Only a fault of the
/// former, as an unknown member or two methods, is an error here.
///
/// `{"session":"s","id":"1","getDocument":{"name":"c"}}` is read, with a request that is refused at `getDocument.name`.
#[tactic(auto, unfolding(crate::specs::Envelope::session_request_at))]
pub fn read_session_request(alloc: Global, root: &Root, v: &Value) -> Result<SessionRequest, Bad>
    ensures gives { Gives (λ r. r) result (session_request_at root.now (json v.now)) }

    // Where the request is one, it is of the root's documents.
    ensures valid { IfOk result (λ r. IfOk r.request (λ x. IsRequestOf root.now x)) }
{
    let top = Way::method("");
    only_of_two(alloc, v, &SESSION_HEAD, &METHODS, &top)?;
    let Some(session) = member(alloc, v, SESSION, &top)? else {
        return Err(Bad::at(alloc, Rule::G, &top));
    };
    let session = read_text(alloc, session, &Way::method(SESSION))?;
    let id = read_id(alloc, v)?;
    let (method, content) = one_of(alloc, v, &METHODS, &top)?;
    let request = read_apart(alloc, root, method, content)?;
    Ok(SessionRequest {
        session,
        id,
        request,
    })
}

// What a method asks for, or its fault, beside want of memory.
fn read_apart(
    alloc: Global,
    root: &Root,
    method: &str,
    v: &Value,
) -> Result<Result<Request, Bad>, AllocError>
    ensures { IfOk result (λ r. r ≡ request_at root.now method.now (json v.now)) }
{
    match read_method(alloc, root, method, v) {
        Err(Bad::Memory(e)) => Err(e),
        read => Ok(read),
    }
}

/// Reads a request with its id. It stands alone, as no line of a script does: `session` is an unknown member of it.
#[tactic(auto, unfolding(crate::specs::Envelope::envelope_at))]
pub fn read_envelope(alloc: Global, root: &Root, v: &Value) -> Result<Envelope, Bad>
    ensures gives { Gives (λ e. e) result (envelope_at root.now (json v.now)) }

    // It is a request of the root's documents, so what is written of it is read back.
    ensures valid { IfOk result (λ e. IsRequestOf root.now e.request) }
{
    let top = Way::method("");
    only_of_two(alloc, v, &ENVELOPE_HEAD, &METHODS, &top)?;
    let id = read_id(alloc, v)?;
    let (method, content) = one_of(alloc, v, &METHODS, &top)?;
    let request = read_method(alloc, root, method, content)?;
    Ok(Envelope { id, request })
}

/// Reads a request's text. One that isn't the JSON of an object is at fault at the empty place.
pub fn read_request(alloc: Global, root: &Root, line: &str) -> Result<Envelope, Bad>
    ensures gives { Gives (λ e. e) result (request_of root.now line.now) }
    ensures valid { IfOk result (λ e. IsRequestOf root.now e.request) }

    // What is written of it nests no deeper than JSON is read.
    ensures nests { IfOk result (λ e. depth (envelope_json e) ≤ max_depth) }
{
    let v = read_json(alloc, line)?;
    read_envelope(alloc, root, &v)
}
