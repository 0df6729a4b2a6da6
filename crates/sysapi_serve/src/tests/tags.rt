//! Tags, over whole streams.

use super::rows::{Row, hold_behind_a_commit};
use std::test::Fail;

/// A tag is made, told and deleted, and a second one is made.
const TAGS: [Row; 10] = [
    (
        "POST /projects/$0/tags",
        r#"{"name":"v1","taggedCommit":{"@id":"$2"}}"#,
        "201 Created",
        r#"{"@id":"$5","@type":"Tag","created":"2000-01-01T00:00:00.000Z","name":"v1","owningProject":{"@id":"$0"},"referencedCommit":{"@id":"$2"},"taggedCommit":{"@id":"$2"}}"#,
    ),
    (
        "GET /projects/$0/tags",
        "",
        "200 OK",
        r#"[{"@id":"$5","@type":"Tag","created":"2000-01-01T00:00:00.000Z","name":"v1","owningProject":{"@id":"$0"},"referencedCommit":{"@id":"$2"},"taggedCommit":{"@id":"$2"}}]"#,
    ),
    (
        "GET /projects/$0/tags/$5",
        "",
        "200 OK",
        r#"{"@id":"$5","@type":"Tag","created":"2000-01-01T00:00:00.000Z","name":"v1","owningProject":{"@id":"$0"},"referencedCommit":{"@id":"$2"},"taggedCommit":{"@id":"$2"}}"#,
    ),
    (
        "POST /projects/$0/tags",
        r#"{"referencedCommit":{"@id":"$2"}}"#,
        "201 Created",
        r#"{"@id":"$6","@type":"Tag","created":"2000-01-01T00:00:00.000Z","name":null,"owningProject":{"@id":"$0"},"referencedCommit":{"@id":"$2"},"taggedCommit":{"@id":"$2"}}"#,
    ),
    (
        "GET /projects/$0/tags",
        "",
        "200 OK",
        r#"[{"@id":"$5","@type":"Tag","created":"2000-01-01T00:00:00.000Z","name":"v1","owningProject":{"@id":"$0"},"referencedCommit":{"@id":"$2"},"taggedCommit":{"@id":"$2"}},{"@id":"$6","@type":"Tag","created":"2000-01-01T00:00:00.000Z","name":null,"owningProject":{"@id":"$0"},"referencedCommit":{"@id":"$2"},"taggedCommit":{"@id":"$2"}}]"#,
    ),
    (
        "DELETE /projects/$0/tags/$5",
        "",
        "200 OK",
        r#"{"@id":"$5","@type":"Tag","created":"2000-01-01T00:00:00.000Z","name":"v1","owningProject":{"@id":"$0"},"referencedCommit":{"@id":"$2"},"taggedCommit":{"@id":"$2"}}"#,
    ),
    (
        "DELETE /projects/$0/tags/$5",
        "",
        "404 Not Found",
        r#"{"@type":"Error","error":"unknown-tag"}"#,
    ),
    (
        "GET /projects/$0/tags/$5",
        "",
        "404 Not Found",
        r#"{"@type":"Error","error":"unknown-tag"}"#,
    ),
    (
        "GET /projects/$0/tags",
        "",
        "200 OK",
        r#"[{"@id":"$6","@type":"Tag","created":"2000-01-01T00:00:00.000Z","name":null,"owningProject":{"@id":"$0"},"referencedCommit":{"@id":"$2"},"taggedCommit":{"@id":"$2"}}]"#,
    ),
    (
        "GET /projects/$0/commits/$2",
        "",
        "200 OK",
        r#"{"@id":"$2","@type":"Commit","created":"2000-01-01T00:00:00.000Z","description":null,"owningProject":{"@id":"$0"},"previousCommit":null}"#,
    ),
];

/// Tags that are refused draw no id. The project 5 has no commit.
const REFUSED: [Row; 15] = [
    (
        "POST /projects",
        r#"{"name":"Q"}"#,
        "201 Created",
        r#"{"@id":"$5","@type":"Project","created":"2000-01-01T00:00:00.000Z","defaultBranch":{"@id":"$6"},"description":null,"name":"Q"}"#,
    ),
    (
        "POST /projects/$5/tags",
        r#"{"taggedCommit":{"@id":"$2"}}"#,
        "404 Not Found",
        r#"{"@type":"Error","error":"unknown-commit"}"#,
    ),
    (
        "POST /projects/$5/branches",
        r#"{"head":{"@id":"$2"}}"#,
        "404 Not Found",
        r#"{"@type":"Error","error":"unknown-commit"}"#,
    ),
    (
        "POST /projects/$0/tags",
        r#"{"taggedCommit":{"@id":"$3"}}"#,
        "404 Not Found",
        r#"{"@type":"Error","error":"unknown-commit"}"#,
    ),
    (
        "POST /projects/$2/tags",
        r#"{"taggedCommit":{"@id":"$3"}}"#,
        "404 Not Found",
        r#"{"@type":"Error","error":"unknown-project"}"#,
    ),
    (
        "POST /projects/$0/tags",
        r#"{"name":"v1"}"#,
        "400 Bad Request",
        r#"{"@type":"Error","error":"bad-body","key":"taggedCommit"}"#,
    ),
    (
        "POST /projects/$0/tags",
        r#"{"referencedCommit":{"@id":"$2"},"taggedCommit":null}"#,
        "400 Bad Request",
        r#"{"@type":"Error","error":"bad-body","key":"taggedCommit"}"#,
    ),
    (
        "POST /projects/$0/tags",
        r#"{"referencedCommit":null}"#,
        "400 Bad Request",
        r#"{"@type":"Error","error":"bad-body","key":"referencedCommit"}"#,
    ),
    (
        "POST /projects/$0/tags",
        r#"{"name":7}"#,
        "400 Bad Request",
        r#"{"@type":"Error","error":"bad-body","key":"name"}"#,
    ),
    (
        "POST /projects/$0/tags",
        r#"{"taggedCommit":{"@id":"$2"}}"#,
        "201 Created",
        r#"{"@id":"$7","@type":"Tag","created":"2000-01-01T00:00:00.000Z","name":null,"owningProject":{"@id":"$0"},"referencedCommit":{"@id":"$2"},"taggedCommit":{"@id":"$2"}}"#,
    ),
    ("GET /projects/$5/tags", "", "200 OK", "[]"),
    (
        "GET /projects/$5/tags/$7",
        "",
        "404 Not Found",
        r#"{"@type":"Error","error":"unknown-tag"}"#,
    ),
    (
        "DELETE /projects/$5/tags/$7",
        "",
        "404 Not Found",
        r#"{"@type":"Error","error":"unknown-tag"}"#,
    ),
    (
        "GET /projects/$2/tags",
        "",
        "404 Not Found",
        r#"{"@type":"Error","error":"unknown-project"}"#,
    ),
    (
        "GET /projects/$0/tags/$7",
        "",
        "200 OK",
        r#"{"@id":"$7","@type":"Tag","created":"2000-01-01T00:00:00.000Z","name":null,"owningProject":{"@id":"$0"},"referencedCommit":{"@id":"$2"},"taggedCommit":{"@id":"$2"}}"#,
    ),
];

#[test]
fn tags_made_and_deleted(rt: HostRuntime) -> Result<(), Fail> {
    assert!(rt; hold_behind_a_commit(rt.alloc(), &TAGS)?);
    Ok(())
}

#[test]
fn refused_tags(rt: HostRuntime) -> Result<(), Fail> {
    assert!(rt; hold_behind_a_commit(rt.alloc(), &REFUSED)?);
    Ok(())
}
