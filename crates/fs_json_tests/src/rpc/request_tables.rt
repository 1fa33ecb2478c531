//! Requests that are written as they are read. `@` stands for the root's database, `~` for its documents, `0s`, `1us` and `2us` for times of
//! 2024, and `$2` for transaction 2.

pub(crate) const REQUESTS: &str =
    r#"{"commit":{"database":"@","writes":[{"update":{"fields":{"n":{"integerValue":"1"}},"name":"~/c/a"}},{"currentDocument":{"updateTime":"1us"},"update":{"fields":{"m":{"mapValue":{"fields":{"a":{"booleanValue":true}}}}},"name":"~/c/b"},"updateMask":{"fieldPaths":["m.a","x"]}},{"update":{"name":"~/c/b"},"updateMask":{},"updateTransforms":[{"fieldPath":"t","setToServerValue":"REQUEST_TIME"},{"fieldPath":"n","increment":{"integerValue":"2"}},{"appendMissingElements":{"values":[{"stringValue":"x"}]},"fieldPath":"l"}]},{"currentDocument":{"exists":true},"delete":"~/c/z"}]},"id":"1"} =>
{"commit":{"database":"@"},"id":""} =>
{"getDocument":{"mask":{"fieldPaths":["a","b.c"]},"name":"~/c/a"},"id":"2"} =>
{"getDocument":{"name":"~/c/a/d/b"}} =>
{"batchGetDocuments":{"database":"@","documents":["~/c/z","~/c/a"],"mask":{}},"id":"3"} =>
{"batchGetDocuments":{"database":"@","documents":[]}} =>
{"id":"4","runQuery":{"parent":"~","structuredQuery":{"endAt":{"values":[{"integerValue":"9"}]},"from":[{"allDescendants":true,"collectionId":"c"}],"limit":3,"offset":2,"orderBy":[{"direction":"DESCENDING","field":{"fieldPath":"a"}}],"select":{"fields":[{"fieldPath":"a"},{"fieldPath":"b.c"}]},"startAt":{"before":true,"values":[{"integerValue":"20"}]},"where":{"fieldFilter":{"field":{"fieldPath":"a"},"op":"GREATER_THAN","value":{"integerValue":"5"}}}}}} =>
{"runQuery":{"parent":"~/c/a","structuredQuery":{"from":[{"collectionId":"d"}],"limit":0}}} =>
{"getDocument":{"mask":{"fieldPaths":["a"]},"name":"~/c/a","readTime":"1us"},"id":"2"} =>
{"batchGetDocuments":{"database":"@","documents":["~/c/a"],"mask":{},"readTime":"0s"}} =>
{"id":"4","runQuery":{"parent":"~","readTime":"2us","structuredQuery":{"from":[{"collectionId":"c"}]}}} =>
{"beginTransaction":{"database":"@","options":{"readWrite":{}}},"id":"1"} =>
{"beginTransaction":{"database":"@","options":{"readOnly":{}}}} =>
{"beginTransaction":{"database":"@","options":{"readOnly":{"readTime":"1us"}}},"id":"2"} =>
{"id":"3","rollback":{"database":"@","transaction":"$2"}} =>
{"commit":{"database":"@","transaction":"$2","writes":[{"delete":"~/c/a"}]},"id":"4"} =>
{"getDocument":{"mask":{"fieldPaths":["a"]},"name":"~/c/a","transaction":"$2"}} =>
{"batchGetDocuments":{"database":"@","documents":["~/c/a"],"mask":{},"transaction":"$2"}} =>
{"id":"5","runQuery":{"parent":"~","structuredQuery":{"from":[{"collectionId":"c"}]},"transaction":"$2"}} =>
{"listen":{"addTarget":{"documents":{"documents":["~/c/a"]},"targetId":1},"database":"@"}} =>
{"id":"1","listen":{"addTarget":{"documents":{"documents":["~/c/z","~/c/a/d/b"]},"resumeToken":"RlNSMQAGDdcQISAB","targetId":2147483647},"database":"@"}} =>
{"listen":{"addTarget":{"query":{"parent":"~","structuredQuery":{"from":[{"collectionId":"c"}]}},"resumeToken":"RlNSMQAGDdcQISAB","targetId":2},"database":"@"}} =>
{"id":"2","listen":{"addTarget":{"query":{"parent":"~/c/a","structuredQuery":{"endAt":{"values":[{"integerValue":"9"}]},"from":[{"allDescendants":true,"collectionId":"d"}],"limit":0,"orderBy":[{"direction":"DESCENDING","field":{"fieldPath":"a"}}],"startAt":{"before":true,"values":[{"integerValue":"20"}]},"where":{"fieldFilter":{"field":{"fieldPath":"a"},"op":"GREATER_THAN","value":{"integerValue":"5"}}}}},"targetId":3},"database":"@"}} =>
{"listen":{"database":"@","removeTarget":1}} =>
{"id":"3","listen":{"database":"@","removeTarget":-1}} =>
{"listen":{"database":"@","removeTarget":0}} =>
{"listen":{"database":"@","removeTarget":-2147483648}} =>
{"write":{"database":"@"}} =>
{"id":"1","write":{"database":"@","streamId":"1","streamToken":"$0"}} =>
{"id":"2","write":{"database":"@","streamToken":"$0","writes":[{"delete":"~/c/a"}]}} =>
{"write":{"database":"@","streamToken":"$1"}} =>
{"write":{"database":"@","streamId":"2","streamToken":"$1","writes":[{"currentDocument":{"exists":true},"delete":"~/c/a"},{"update":{"fields":{"n":{"integerValue":"1"}},"name":"~/c/b"}}]}} =>
{"write":{"database":"@","streamId":"18446744073709551615","streamToken":"//////////8="}} =>
{"write":{"database":"@","streamId":"0","streamToken":"$2"}} =>
{"commit":{"database":"@","writes":[{"update":{"fields":{"v":{"arrayValue":{"values":[{"nullValue":null},{"booleanValue":true},{"integerValue":"-9223372036854775808"},{"timestampValue":"2024-01-01T00:00:00.123456Z"},{"stringValue":"é\n"},{"bytesValue":"/+8="},{"referenceValue":"projects/p/databases/d/documents/c/a"},{"mapValue":{}}]}}},"name":"~/c/a"}}]}} =>
{"commit":{"database":"@","writes":[{"update":{"fields":{"v":{"mapValue":{"fields":{"a":{"mapValue":{}},"b c":{"integerValue":"1"},"l":{"arrayValue":{}}}}}},"name":"~/c/a"}}]}} =>
{"commit":{"database":"@","writes":[{"currentDocument":{"exists":true},"update":{"fields":{"n":{"integerValue":"1"}},"name":"~/c/a"},"updateMask":{"fieldPaths":["n"]},"updateTransforms":[{"fieldPath":"n","increment":{"integerValue":"1"}}]}]}} =>
{"commit":{"database":"@","writes":[{"update":{"name":"~/c/a"},"updateTransforms":[{"fieldPath":"t","setToServerValue":"REQUEST_TIME"},{"fieldPath":"m","maximum":{"integerValue":"-2"}},{"fieldPath":"k","minimum":{"integerValue":"3"}},{"appendMissingElements":{"values":[{"stringValue":"x"},{"nullValue":null}]},"fieldPath":"a"},{"fieldPath":"b.c","removeAllFromArray":{}}]}]}} =>
{"runQuery":{"parent":"~","structuredQuery":{"endAt":{"values":[{"integerValue":"9"}]},"from":[{"allDescendants":true,"collectionId":"c"}],"limit":3,"offset":2,"orderBy":[{"direction":"DESCENDING","field":{"fieldPath":"a"}}],"select":{"fields":[{"fieldPath":"a"}]},"startAt":{"before":true,"values":[{"integerValue":"1"}]},"where":{"compositeFilter":{"filters":[{"fieldFilter":{"field":{"fieldPath":"a"},"op":"GREATER_THAN","value":{"integerValue":"1"}}},{"unaryFilter":{"field":{"fieldPath":"a"},"op":"IS_NOT_NULL"}}],"op":"AND"}}}}} =>
{"runQuery":{"parent":"~","structuredQuery":{"from":[{"collectionId":"c"}],"select":{"fields":[{"fieldPath":"__name__"}]}}}} =>
{"getDocument":{"mask":{"fieldPaths":["a","a.b","`a.b`","__name__"]},"name":"~/c/a"}} =>
{"getDocument":{"mask":{"fieldPaths":["`a b`.c","`a`.`_1`","``.`1`","`a\\`\\\\é`"]},"name":"~/c/a"}} => {"getDocument":{"mask":{"fieldPaths":["`a b`.c","a._1","``.`1`","`a\\`\\\\é`"]},"name":"~/c/a"}}
{"commit":{"database":"projects/x/databases/(default)"}} => P(2, None) at commit.database"#;

/// A write by itself, and one whose rules are broken.
pub(crate) const WRITES: &str = r#"{"currentDocument":{"updateTime":"1us"},"delete":"~/c/a"} =>
{"delete":"~/c/a","updateMask":{"fieldPaths":["__a__"]}} => E(3) at x"#;
