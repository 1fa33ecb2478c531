//! The messages of refusals.
ghost use Rattle.std.specs.Prelude.{◌≡◌, IfOk, string_bytes};
ghost use Rattle.fs_status.specs.Message.{message_text, expired_text, line_text, numbered_text, read_time_text, rule_text, stream_token_text, token_ahead_text, transaction_text, update_time_text, write_text};

use crate::id::Id;
use crate::reason::{LineFault, Reason};
use crate::refusal::Refusal;
use fs_path::{Rule, Text};
use fs_time::{Micros, print};
use std::alloc::{AllocError, Global};

/// The message of a refusal, for a person: `no document at 2024-01-01T00:00:00Z`.
pub fn message(alloc: Global, refusal: &Refusal) -> Result<Text, AllocError>
    ensures { IfOk result (λ t. t ≡ message_text refusal.now.reason) }
{
    Ok(Text::of(reason_text(alloc, &refusal.reason)?))
}

fn reason_text(alloc: Global, reason: &Reason) -> Result<String, AllocError>
    ensures { IfOk result (λ s. string_bytes s ≡ message_text reason.now) }
{
    match reason {
        Reason::Rule(rule, place) => {
            let rule = rule_text(alloc, *rule)?;
            let (rule, place) = (rule.as_str(), place.as_str());
            format!(in alloc; "{rule} at {place}")
        }
        Reason::Missing(write) => write_text(alloc, *write, "document missing"),
        Reason::Exists(write) => write_text(alloc, *write, "document exists"),
        Reason::OtherTime(write, time) => update_time_text(alloc, *write, *time),
        Reason::DeepAfter(write) => write_text(alloc, *write, "E6"),
        Reason::LargeAfter(write, bytes) => {
            format!(in alloc; "write {write}: document has {bytes} bytes")
        }
        Reason::NoDocument(time) => {
            let time = print(alloc, *time)?;
            let time = time.as_str();
            format!(in alloc; "no document at {time}")
        }
        Reason::TooOld(time, floor) => read_time_text(alloc, *time, "before", *floor),
        Reason::TooNew(time, released) => read_time_text(alloc, *time, "after", *released),
        Reason::NotOpen(transaction) => transaction_text(alloc, *transaction, "is not open"),
        Reason::Expired(transaction, since, now) => {
            let ran = expired_text(alloc, *since, *now)?;
            transaction_text(alloc, *transaction, ran.as_str())
        }
        Reason::ReadOnly(transaction) => transaction_text(alloc, *transaction, "is read-only"),
        Reason::Conflict(with) => {
            let with = with.get();
            format!(in alloc; "conflict with {with}")
        }
        Reason::TokenLength(bytes) => format!(in alloc; "token length {bytes}"),
        Reason::TokenMark => String::from_str(alloc, "token mark"),
        Reason::TokenTime => String::from_str(alloc, "token time"),
        Reason::TokenAhead(time, released) => token_ahead_text(alloc, *time, *released),
        Reason::TargetInUse(target) => format!(in alloc; "target {target} in use"),
        Reason::TargetUnknown(target) => format!(in alloc; "target {target} unknown"),
        Reason::NoStream => String::from_str(alloc, "no stream"),
        Reason::StreamUnknown(stream) => format!(in alloc; "stream {stream} unknown"),
        Reason::NotOwner => String::from_str(alloc, "stream not owned"),
        Reason::SecondStream => String::from_str(alloc, "second stream"),
        Reason::Stale(token, next) => stream_token_text(alloc, *token, "stale", *next),
        Reason::Ahead(token, next) => stream_token_text(alloc, *token, "ahead", *next),
        Reason::AtLimit(name, number) => {
            let name = name.as_str();
            format!(in alloc; "limit {name} {number}")
        }
        Reason::Method(name) => {
            let name = name.as_str();
            format!(in alloc; "method {name}")
        }
        Reason::Line(line) => line_text(alloc, *line),
        Reason::Memory => String::from_str(alloc, "out of memory"),
    }
}

// What is told of a write, which is named by its number.
fn write_text(alloc: Global, write: u32, what: &str) -> Result<String, AllocError>
    ensures { IfOk result (λ s. string_bytes s ≡ write_text write what.now) }
{
    format!(in alloc; "write {write}: {what}")
}

// The update time that a write found, or that there was none.
fn update_time_text(alloc: Global, write: u32, time: Option<Micros>) -> Result<String, AllocError>
    ensures { IfOk result (λ s. string_bytes s ≡ update_time_text write time) }
{
    match time {
        Some(time) => {
            let time = print(alloc, time)?;
            let time = time.as_str();
            format!(in alloc; "write {write}: update time is {time}")
        }
        None => write_text(alloc, write, "update time is none"),
    }
}

// A time that was asked for, and the bound on whose wrong side it is.
fn read_time_text(
    alloc: Global,
    time: Micros,
    side: &str,
    bound: Micros,
) -> Result<String, AllocError>
    ensures { IfOk result (λ s. string_bytes s ≡ read_time_text time side.now bound) }
{
    let time = print(alloc, time)?;
    let bound = print(alloc, bound)?;
    let (time, bound) = (time.as_str(), bound.as_str());
    format!(in alloc; "read time {time} is {side} {bound}")
}

// The time that a resume token shows, and the latest that can be read.
fn token_ahead_text(alloc: Global, time: Micros, released: Micros) -> Result<String, AllocError>
    ensures { IfOk result (λ s. string_bytes s ≡ token_ahead_text time released) }
{
    let time = print(alloc, time)?;
    let released = print(alloc, released)?;
    let (time, released) = (time.as_str(), released.as_str());
    format!(in alloc; "token time {time} is after {released}")
}

// A stream token, how it stands to the stream, and the token of the next batch.
fn stream_token_text(alloc: Global, token: u64, how: &str, next: u64) -> Result<String, AllocError>
    ensures { IfOk result (λ s. string_bytes s ≡ stream_token_text token how.now next) }
{
    format!(in alloc; "stream token {token} {how}, next {next}")
}

// What is told of a transaction, which is named by its number.
fn transaction_text(alloc: Global, transaction: Id, what: &str) -> Result<String, AllocError>
    ensures { IfOk result (λ s. string_bytes s ≡ transaction_text transaction what.now) }
{
    let transaction = transaction.get();
    format!(in alloc; "transaction {transaction} {what}")
}

// Since when the time of a transaction ran that expired, and when it had run out.
fn expired_text(alloc: Global, since: Micros, now: Micros) -> Result<String, AllocError>
    ensures { IfOk result (λ s. string_bytes s ≡ expired_text since now) }
{
    let since = print(alloc, since)?;
    let now = print(alloc, now)?;
    let (since, now) = (since.as_str(), now.as_str());
    format!(in alloc; "expired: since {since}, now {now}")
}

// A rule by its letter and its number, and the number that it carries.
fn rule_text(alloc: Global, rule: Rule) -> Result<String, AllocError>
    ensures { IfOk result (λ s. string_bytes s ≡ rule_text rule) }
{
    match rule {
        Rule::G => String::from_str(alloc, "G"),
        Rule::T(n) => numbered_text(alloc, "T", n, None),
        Rule::P(n, carried) => numbered_text(alloc, "P", n, carried),
        Rule::E(n) => numbered_text(alloc, "E", n, None),
        Rule::Q(n, carried) => numbered_text(alloc, "Q", n, carried),
    }
}

fn numbered_text(
    alloc: Global,
    letter: &str,
    n: u8,
    carried: Option<u64>,
) -> Result<String, AllocError>
    ensures { IfOk result (λ s. string_bytes s ≡ numbered_text letter.now n carried) }
{
    match carried {
        None => format!(in alloc; "{letter}{n}"),
        Some(carried) => format!(in alloc; "{letter}{n} {carried}"),
    }
}

fn line_text(alloc: Global, line: LineFault) -> Result<String, AllocError>
    ensures { IfOk result (λ s. string_bytes s ≡ line_text line) }
{
    match line {
        LineFault::NotAnObject => String::from_str(alloc, "line is not a JSON object"),
        LineFault::DoesNotApply => String::from_str(alloc, "line does not apply"),
        LineFault::HasBytes(n) => format!(in alloc; "line has {n} bytes"),
    }
}
