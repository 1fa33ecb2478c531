//! What is written for lines.
ghost use Rattle.std.specs.Prelude.{◌≡◌, ◌∷◌, ◌++◌, [], IfOk, OnOk, codes, decimal};
ghost use Rattle.json.specs.Token.{key, number as number_token};
ghost use Rattle.serde_json.specs.Written.{compact_text};
ghost use Rattle.fs_request.specs.Refused.{refused};
ghost use Rattle.fs_rpc.specs.MessageJson.{error_json};
ghost use Rattle.fs_replay.specs.Outboxes.{message_line, message_lines};
ghost use Rattle.fs_replay.specs.Reply.{json_line, line_error, refusal_json, refused_json};
ghost use Rattle.fs_valjson.specs.Tokens.{tokens_of};

use fs_path::Text;
use fs_request::Message;
use fs_rpc::{push_status, write_message_on};
use fs_status::{Code, Reason, Refusal, message};
use json::Writer;
use std::alloc::{AllocError, Global};

/// Most errors of lines are shorter, and need no more room than this.
const ROOM: usize = 128;

/// Adds a text as a line.
pub fn add_line(out: &mut Vec<u8>, text: &[u8]) -> Result<(), AllocError>
    ensures { OnOk result (out.new.items ≡ out.old.items ++ (text.now ++ 10 ∷ [])) }
{
    out.extend_from_slice(text)?;
    Ok(out.push(b'\n')?)
}

// ---- lines that are at fault

/// Adds an error to a line of a number.
pub fn say_error(
    alloc: Global,
    code: Code,
    text: &str,
    number: u64,
    out: &mut Vec<u8>,
) -> Result<(), AllocError>
    ensures { OnOk result (out.new.items ≡ out.old.items ++ json_line (line_error (error_json code text.now) number)) }
{
    let line = error_bytes(alloc, code, text, number)?;
    let said = add_line(out, &line);
    drop(line);
    said
}

fn error_bytes(alloc: Global, code: Code, text: &str, number: u64) -> Result<Vec<u8>, AllocError>
    ensures { IfOk result (λ b. b.items ≡ compact_text (line_error (error_json code text.now) number)) }
{
    let mut line = Writer::new(Vec::with_capacity(alloc, ROOM)?);
    push_error(&mut line, code, text, number)?;
    Ok(line.into_inner())
}

// `{"error":{"code":400,"message":"..","status":"INVALID_ARGUMENT"},"line":1}`
fn push_error(line: &mut Writer, code: Code, text: &str, number: u64) -> Result<(), AllocError>
    ensures tokens { OnOk result (line.new.tokens
        ≡ line.old.tokens ++ tokens_of (line_error (error_json code text.now) number)) }
    ensures before { line.new.before ≡ line.old.before }
{
    line.begin_object()?;
    line.key("error")?;
    push_status(line, code, text)?;
    push_number(line, number)?;
    line.end_object()
}

fn push_number(line: &mut Writer, number: u64) -> Result<(), AllocError>
    ensures tokens { OnOk result (line.new.tokens
        ≡ line.old.tokens ++ key (codes "line") ∷ number_token (decimal number) ∷ []) }
    ensures before { line.new.before ≡ line.old.before }
{
    line.key("line")?;
    line.u64(number)
}

/// Adds why a line of a number is refused.
pub fn say_refused(
    alloc: Global,
    reason: Reason,
    number: u64,
    out: &mut Vec<u8>,
) -> Result<(), AllocError>
    ensures { OnOk result (out.new.items ≡ out.old.items ++ json_line (line_error (refused_json reason) number)) }
{
    let refusal = Refusal::of(reason);
    let said = say_refusal(alloc, &refusal, number, out);
    drop(refusal);
    said
}

fn say_refusal(
    alloc: Global,
    refusal: &Refusal,
    number: u64,
    out: &mut Vec<u8>,
) -> Result<(), AllocError>
    ensures { OnOk result (out.new.items ≡ out.old.items ++ json_line (line_error (refusal_json refusal.now) number)) }
{
    let text = message(alloc, refusal)?;
    let said = say_error(alloc, refusal.code, text.as_str(), number, out);
    drop(text);
    said
}

// ---- messages

/// Adds a message of a session.
pub fn say(
    alloc: Global,
    session: &str,
    message: &Message,
    out: &mut Vec<u8>,
) -> Result<(), AllocError>
    ensures { OnOk result (out.new.items ≡ out.old.items ++ message_line session.now message.now) }
{
    let line = write_message_on(alloc, session, message)?;
    let said = add_line(out, &line);
    drop(line);
    said
}

/// Adds messages of a session.
pub fn say_all(
    alloc: Global,
    session: &str,
    messages: &[Message],
    out: &mut Vec<u8>,
) -> Result<(), AllocError>
    ensures { OnOk result (out.new.items ≡ out.old.items ++ message_lines session.now messages.now) }
{
    for message in messages {
        say(alloc, session, message, out)?;
    }
    Ok(())
}

/// Adds that a request is refused.
pub fn refuse(
    alloc: Global,
    session: &str,
    id: &Option<Text>,
    refusal: &Refusal,
    out: &mut Vec<u8>,
) -> Result<(), AllocError>
    ensures { OnOk result (out.new.items ≡ out.old.items ++ message_line session.now (refused id.now refusal.now)) }
{
    let id = match id {
        Some(id) => Some(id.copy(alloc)?),
        None => None,
    };
    let message = Message::refused(alloc, id, refusal)?;
    let said = say(alloc, session, &message, out);
    drop(message);
    said
}
