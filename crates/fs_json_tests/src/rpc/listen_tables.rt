//! What a session that listens is told: what is read, an arrow, and what is written of it or the place at which it is refused.
//! `~` stands for the documents of the root, and `0s`, `1us` and `2us` for times of 2024.

/// Where nothing stands behind the arrow, the same text is written.
pub(crate) const TOLD: &str =
    r#"{"listen":{"targetChange":{"targetChangeType":"ADD","targetIds":[1]}}} =>
{"listen":{"documentChange":{"document":{"createTime":"1us","fields":{"n":{"integerValue":"1"}},"name":"~/c/a","updateTime":"1us"},"targetIds":[1]}}} =>
{"listen":{"targetChange":{"readTime":"1us","resumeToken":"RlNSMQAGDdcQISAB","targetChangeType":"CURRENT","targetIds":[1]}}} =>
{"listen":{"targetChange":{"readTime":"1us","resumeToken":"RlNSMQAGDdcQISAB"}}} =>
{"listen":{"targetChange":{"readTime":"2024-01-01T00:00:00.000003Z","resumeToken":"RlNSMQAGDdcQISAD"}}} =>
{"listen":{"targetChange":{"readTime":"0s","resumeToken":"RlNSMQAGDdcQISAA","targetChangeType":"CURRENT","targetIds":[1]}}} =>
{"listen":{"targetChange":{"targetChangeType":"RESET","targetIds":[1]}}} =>
{"listen":{"documentChange":{"document":{"createTime":"1us","fields":{"n":{"integerValue":"0"}},"name":"~/c/a","updateTime":"2us"},"removedTargetIds":[1],"targetIds":[2]}}} =>
{"listen":{"documentDelete":{"document":"~/c/a","readTime":"2us","removedTargetIds":[2]}}} =>
{"listen":{"documentRemove":{"document":"~/c/a","readTime":"2us","removedTargetIds":[1,4]}}} =>
{"listen":{"targetChange":{"cause":{"code":3,"message":"token length 11"},"targetChangeType":"REMOVE","targetIds":[1]}}} =>
{"listen":{"targetChange":{"targetChangeType":"REMOVE","targetIds":[1,2,2147483647]}}} =>
{"listen":{"targetChange":{"targetChangeType":"ADD"}}} =>
{"listen":{"targetChange":{"targetChangeType":"RESET","targetIds":[0]}}} =>
{"listen":{"targetChange":{"targetChangeType":"NO_CHANGE","readTime":"1us","resumeToken":"","targetIds":[]}}} => {"listen":{"targetChange":{"readTime":"1us","resumeToken":""}}}
{"listen":{"target_change":{"target_change_type":"ADD","target_ids":["1","-0"],"cause":null}}} => {"listen":{"targetChange":{"targetChangeType":"ADD","targetIds":[1,0]}}}
{"listen":{"document_delete":{"document":"~/c/a","read_time":"1us","removed_target_ids":[]}}} => {"listen":{"documentDelete":{"document":"~/c/a","readTime":"1us"}}}
{"id":null,"error":null,"listen":{"documentRemove":{"document":"~/c/a","readTime":"1us"},"documentChange":null}} => {"listen":{"documentRemove":{"document":"~/c/a","readTime":"1us"}}}
{"listen":null,"result":{}} => {"result":{}}"#;

/// The first place of the walk that is at fault.
pub(crate) const REFUSED: &str = r#"{"listen":1} => G at listen
{"listen":{}} => G at listen
{"listen":{"filter":{"count":1}}} => G at listen.filter
{"listen":{"targetChange":{"targetChangeType":"ADD"},"documentDelete":{}}} => G at listen
{"id":"1","listen":1} => G at id
{"listen":{"targetChange":{"targetChangeType":"ADD"}},"result":{}} => G at
{"listen":{"targetChange":[]}} => G at listen.targetChange
{"listen":{"targetChange":{}}} => G at listen.targetChange.readTime
{"listen":{"targetChange":{"readTime":"1us"}}} => G at listen.targetChange.resumeToken
{"listen":{"targetChange":{"readTime":"soon","resumeToken":1}}} => T(1) at listen.targetChange.readTime
{"listen":{"targetChange":{"readTime":"1us","resumeToken":"QQ="}}} => G at listen.targetChange.resumeToken
{"listen":{"targetChange":{"readTime":"1us","resumeToken":"","targetIds":[1]}}} => G at listen.targetChange.targetIds
{"listen":{"targetChange":{"cause":{},"readTime":1}}} => G at listen.targetChange.cause
{"listen":{"targetChange":{"targetChangeType":"add","cause":1}}} => G at listen.targetChange.targetChangeType
{"listen":{"targetChange":{"targetChangeType":1}}} => G at listen.targetChange.targetChangeType
{"listen":{"targetChange":{"targetChangeType":1,"once":true}}} => G at listen.targetChange.once
{"listen":{"targetChange":{"targetIds":[1],"target_ids":[1]}}} => G at listen.targetChange.target_ids
{"listen":{"targetChange":{"cause":{},"targetChangeType":"ADD","targetIds":1}}} => G at listen.targetChange.cause
{"listen":{"targetChange":{"readTime":1,"targetChangeType":"RESET"}}} => G at listen.targetChange.readTime
{"listen":{"targetChange":{"resume_token":"","targetChangeType":"RESET"}}} => G at listen.targetChange.resumeToken
{"listen":{"targetChange":{"cause":{"code":3,"message":""},"readTime":"1us","targetChangeType":"REMOVE"}}} => G at listen.targetChange.readTime
{"listen":{"targetChange":{"cause":{},"resumeToken":"","targetChangeType":"REMOVE"}}} => G at listen.targetChange.cause.code
{"listen":{"targetChange":{"cause":{"code":-1},"targetChangeType":"REMOVE"}}} => G at listen.targetChange.cause.code
{"listen":{"targetChange":{"cause":{"code":3,"message":3},"targetChangeType":"REMOVE"}}} => G at listen.targetChange.cause.message
{"listen":{"targetChange":{"cause":{"code":3,"details":[],"message":""},"targetChangeType":"REMOVE"}}} => G at listen.targetChange.cause.details
{"listen":{"targetChange":{"cause":{},"targetChangeType":"CURRENT"}}} => G at listen.targetChange.cause
{"listen":{"targetChange":{"readTime":"1us","targetChangeType":"CURRENT","targetIds":[1]}}} => G at listen.targetChange.resumeToken
{"listen":{"targetChange":{"targetChangeType":"ADD","targetIds":1}}} => G at listen.targetChange.targetIds
{"listen":{"targetChange":{"targetChangeType":"ADD","targetIds":[1,-1]}}} => G at listen.targetChange.targetIds[1]
{"listen":{"targetChange":{"targetChangeType":"ADD","targetIds":[2147483648]}}} => G at listen.targetChange.targetIds[0]
{"listen":{"targetChange":{"targetChangeType":"ADD","targetIds":[null]}}} => G at listen.targetChange.targetIds[0]
{"listen":{"documentChange":{}}} => G at listen.documentChange.document
{"listen":{"documentChange":{"document":{"name":"~/c"}}}} => P(3, None) at listen.documentChange.document.name
{"listen":{"documentChange":{"document":{"name":"~/c/a"},"removedTargetIds":[1.0]}}} => G at listen.documentChange.removedTargetIds[0]
{"listen":{"documentChange":{"document":{"name":"~/c/a"},"readTime":"1us"}}} => G at listen.documentChange.readTime
{"listen":{"documentDelete":{}}} => G at listen.documentDelete.document
{"listen":{"documentDelete":{"document":"~/c"}}} => P(3, None) at listen.documentDelete.document
{"listen":{"documentDelete":{"document":"projects/p/databases/d/documents/c/a"}}} => P(2, None) at listen.documentDelete.document
{"listen":{"documentDelete":{"document":"~/c/a"}}} => G at listen.documentDelete.readTime
{"listen":{"documentDelete":{"document":"~/c/a","readTime":"1us","targetIds":[1]}}} => G at listen.documentDelete.targetIds
{"listen":{"documentRemove":{"document":"~/c/a","readTime":"1us","removedTargetIds":["x"]}}} => G at listen.documentRemove.removedTargetIds[0]"#;
