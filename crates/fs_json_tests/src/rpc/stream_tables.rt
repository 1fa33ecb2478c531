//! What is told of write streams: what is read, an arrow, and what is written of it or the place at which it is refused. `1us` stands for a
//! time of 2024, and `$0`, `$1` and `$2` for the tokens where so many batches are finished.

/// What a session is told of its stream. Where nothing stands behind the arrow, the same text is written.
pub(crate) const TOLD: &str = r#"{"write":{"streamId":"1","streamToken":"$0"}} =>
{"write":{"commitTime":"1us","streamId":"1","streamToken":"$1"}} =>
{"write":{"commitTime":"1us","streamId":"18446744073709551615","streamToken":"//////////8=","writeResults":[{"transformResults":[{"integerValue":"3"}],"updateTime":"1us"},{}]}} =>
{"write":{"error":{"code":404,"message":"write 0: document missing","status":"NOT_FOUND"},"streamId":"2","streamToken":"$2"}} =>
{"write":{"error":{"code":409,"message":"","status":"ALREADY_EXISTS"},"streamId":"0","streamToken":"$0"}} =>
{"id":null,"result":null,"write":{"commitTime":null,"error":null,"streamId":"1","streamToken":"$0","writeResults":null}} => {"write":{"streamId":"1","streamToken":"$0"}}
{"write":{"commit_time":"1us","stream_id":"007","stream_token":"AAAAAAAAAAE","write_results":[]}} => {"write":{"commitTime":"1us","streamId":"7","streamToken":"$1"}}
{"write":{"stream_token":"$1","commitTime":"2024-01-01T01:00:00.0000019+01:00","streamId":"1","writeResults":[{"update_time":"1us"}]}} => {"write":{"commitTime":"1us","streamId":"1","streamToken":"$1","writeResults":[{"updateTime":"1us"}]}}"#;

/// The first place of the walk that is at fault.
pub(crate) const MISTOLD: &str = r#"{"write":1} => G at write
{"write":{}} => G at write.streamId
{"id":"1","write":1} => G at id
{"write":{"streamId":"1","streamToken":"$0"},"listen":{}} => G at
{"write":{"streamId":"1","streamToken":"$0","token":1,"commitTime":1,"error":1}} => G at write.token
{"write":{"streamId":"1","stream_id":"1","streamToken":"$0"}} => G at write.stream_id
{"write":{"commitTime":"soon","error":1,"streamId":"1"}} => G at write
{"write":{"streamId":1,"streamToken":1,"writeResults":[]}} => G at write.writeResults
{"write":{"error":1,"streamId":1,"writeResults":[{}]}} => G at write.writeResults
{"write":{"error":{"code":404,"message":"","status":"ABORTED"},"streamId":1}} => G at write.error.code
{"write":{"error":{"code":404,"message":"","status":"Not found"},"streamId":1}} => G at write.error.status
{"write":{"error":{"code":404,"details":[],"message":"","status":"NOT_FOUND"}}} => G at write.error.details
{"write":{"commitTime":"soon","streamId":1,"writeResults":1}} => T(1) at write.commitTime
{"write":{"commitTime":"1us","streamId":1,"writeResults":[{},1]}} => G at write.writeResults[1]
{"write":{"commitTime":"1us","streamId":1,"streamToken":1}} => G at write.streamId
{"write":{"streamId":"x","streamToken":1}} => G at write.streamId
{"write":{"streamId":"1"}} => G at write.streamToken
{"write":{"streamId":"1","streamToken":"AA=="}} => G at write.streamToken
{"write":{"streamId":"1","streamToken":null}} => G at write.streamToken"#;
