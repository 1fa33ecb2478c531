//! Reads what is told of write streams.
ghost use Rattle.std.specs.Prelude.{codes};
ghost use Rattle.fs_path.specs.Way.{place_of};
ghost use Rattle.serde_json.specs.View.{view as json};
ghost use Rattle.fs_json.specs.Answer.{Gives};
ghost use Rattle.fs_json.specs.Members.{required_as};
ghost use Rattle.fs_rpc.specs.Decimal.{decimal_at};
ghost use Rattle.fs_rpc.specs.Eight.{eight_at};
ghost use Rattle.fs_rpc.specs.ReadStreamAnswer.{committed_at, finished_at, refused_at, stands_at, stream_answer_at, told_at};

use crate::decimal::read_decimal;
use crate::eight::read_eight;
use crate::error_read::read_refusal;
use crate::listen_read::refuse_given;
use crate::names::{
    BATCH_OUTCOMES, COMMIT_TIME, ERROR, STREAM_ANSWER_MEMBERS, STREAM_ID, STREAM_TOKEN,
    WRITE_RESULTS,
};
use crate::results::read_results;
use fs_json::{Bad, at_most_one_of, only, read_time, required};
use fs_path::Way;
use fs_request::{Message, StreamAnswer};
use serde_json::Value;
use std::alloc::Global;

/// Reads what is told of a write stream. (v1 reference, `WriteResponse`.)
#[tactic(auto, unfolding(crate::specs::ReadStreamAnswer::stream_answer_at))]
pub(crate) fn read_stream_answer(alloc: Global, v: &Value, way: &Way<'_>) -> Result<Message, Bad>
    ensures { Gives (λ m. m) result (stream_answer_at (json v.now) (place_of way.now)) }
{
    only(alloc, v, &STREAM_ANSWER_MEMBERS, way)?;
    let answer = read_told(alloc, v, way)?;
    let stream = read_stream(alloc, v, way)?;
    let token = read_token(alloc, v, way)?;
    Ok(Message::Write {
        stream,
        token,
        answer,
    })
}

fn read_stream(alloc: Global, v: &Value, way: &Way<'_>) -> Result<u64, Bad>
    ensures { Gives (λ n. n) result
        (required_as decimal_at (codes "streamId") (json v.now) (place_of way.now)) }
{
    let stream = required(alloc, v, STREAM_ID, way)?;
    read_decimal(alloc, stream, &way.member(STREAM_ID))
}

fn read_token(alloc: Global, v: &Value, way: &Way<'_>) -> Result<u64, Bad>
    ensures { Gives (λ n. n) result
        (required_as eight_at (codes "streamToken") (json v.now) (place_of way.now)) }
{
    let token = required(alloc, v, STREAM_TOKEN, way)?;
    read_eight(alloc, token, &way.member(STREAM_TOKEN))
}

// What is told of a batch comes first, since it decides whether there may be results.
fn read_told(alloc: Global, v: &Value, way: &Way<'_>) -> Result<StreamAnswer, Bad>
    ensures { Gives (λ a. a) result (told_at (json v.now) (place_of way.now)) }
{
    match at_most_one_of(alloc, v, &BATCH_OUTCOMES, way)? {
        Some((name, content)) => read_finished(alloc, name, content, v, way),
        None => read_stands(alloc, v, way),
    }
}

fn read_finished(
    alloc: Global,
    name: &str,
    content: &Value,
    v: &Value,
    way: &Way<'_>,
) -> Result<StreamAnswer, Bad>
    ensures { Gives (λ a. a) result (finished_at name.now (json content.now) (json v.now) (place_of way.now)) }
{
    match name {
        COMMIT_TIME => read_committed(alloc, content, v, way),
        _ => read_refused(alloc, content, v, way),
    }
}

fn read_committed(
    alloc: Global,
    content: &Value,
    v: &Value,
    way: &Way<'_>,
) -> Result<StreamAnswer, Bad>
    ensures { Gives (λ a. a) result (committed_at (json content.now) (json v.now) (place_of way.now)) }
{
    let time = read_time(alloc, content, &way.member(COMMIT_TIME))?;
    let results = read_results(alloc, v, way)?;
    Ok(StreamAnswer::Committed { time, results })
}

fn read_refused(
    alloc: Global,
    content: &Value,
    v: &Value,
    way: &Way<'_>,
) -> Result<StreamAnswer, Bad>
    ensures { Gives (λ a. a) result (refused_at (json content.now) (json v.now) (place_of way.now)) }
{
    refuse_given(alloc, v, WRITE_RESULTS, way)?;
    let (code, message) = read_refusal(alloc, content, &way.member(ERROR))?;
    Ok(StreamAnswer::Refused { code, message })
}

fn read_stands(alloc: Global, v: &Value, way: &Way<'_>) -> Result<StreamAnswer, Bad>
    ensures { Gives (λ a. a) result (stands_at (json v.now) (place_of way.now)) }
{
    refuse_given(alloc, v, WRITE_RESULTS, way)?;
    Ok(StreamAnswer::Stands)
}
