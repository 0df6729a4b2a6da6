//! The changes of commits, over whole streams.

use super::rows::{Row, hold_behind_a_commit};
use std::test::Fail;

/// The commits 2, 5 and 9 with their changes. A payload tells its identity as its id, in lower case.
const CHANGES: [Row; 10] = [
    (
        "GET /projects/$0/commits/$2/changes",
        "",
        "200 OK",
        r#"[{"@id":"$3","@type":"DataVersion","identity":{"@id":"$4","@type":"DataIdentity"},"payload":{"@id":"$4","@type":"Package","declaredName":"A"}}]"#,
    ),
    (
        "GET /projects/$0/commits/$2/changes/$3",
        "",
        "200 OK",
        r#"{"@id":"$3","@type":"DataVersion","identity":{"@id":"$4","@type":"DataIdentity"},"payload":{"@id":"$4","@type":"Package","declaredName":"A"}}"#,
    ),
    (
        "POST /projects/$0/commits",
        r#"{"change":[{"identity":{"@id":"$4"},"payload":null},{"payload":{"@type":"ExternalData"}}]}"#,
        "201 Created",
        r#"{"@id":"$5","@type":"Commit","created":"2000-01-01T00:00:00.000Z","description":null,"owningProject":{"@id":"$0"},"previousCommit":{"@id":"$2"}}"#,
    ),
    (
        "GET /projects/$0/commits/$5/changes",
        "",
        "200 OK",
        r#"[{"@id":"$6","@type":"DataVersion","identity":{"@id":"$4","@type":"DataIdentity"},"payload":null},{"@id":"$7","@type":"DataVersion","identity":{"@id":"$8","@type":"DataIdentity"},"payload":{"@id":"$8","@type":"ExternalData"}}]"#,
    ),
    (
        "GET /projects/$0/commits/$5/changes/$6",
        "",
        "200 OK",
        r#"{"@id":"$6","@type":"DataVersion","identity":{"@id":"$4","@type":"DataIdentity"},"payload":null}"#,
    ),
    (
        "GET /projects/$0/commits/$5/changes/$7",
        "",
        "200 OK",
        r#"{"@id":"$7","@type":"DataVersion","identity":{"@id":"$8","@type":"DataIdentity"},"payload":{"@id":"$8","@type":"ExternalData"}}"#,
    ),
    (
        "POST /projects/$0/commits",
        r#"{"change":[{"payload":{"x":[1],"@id":"11111111-1111-4111-8111-11111111111A"}}]}"#,
        "201 Created",
        r#"{"@id":"$9","@type":"Commit","created":"2000-01-01T00:00:00.000Z","description":null,"owningProject":{"@id":"$0"},"previousCommit":{"@id":"$5"}}"#,
    ),
    (
        "GET /projects/$0/commits/$9/changes",
        "",
        "200 OK",
        r#"[{"@id":"$a","@type":"DataVersion","identity":{"@id":"11111111-1111-4111-8111-11111111111a","@type":"DataIdentity"},"payload":{"@id":"11111111-1111-4111-8111-11111111111a","x":[1]}}]"#,
    ),
    (
        "POST /projects/$0/commits",
        "{}",
        "201 Created",
        r#"{"@id":"$b","@type":"Commit","created":"2000-01-01T00:00:00.000Z","description":null,"owningProject":{"@id":"$0"},"previousCommit":{"@id":"$9"}}"#,
    ),
    ("GET /projects/$0/commits/$b/changes", "", "200 OK", "[]"),
];

const UNKNOWN: [Row; 9] = [
    (
        "POST /projects/$0/commits",
        r#"{"change":[{"payload":{}}]}"#,
        "201 Created",
        r#"{"@id":"$5","@type":"Commit","created":"2000-01-01T00:00:00.000Z","description":null,"owningProject":{"@id":"$0"},"previousCommit":{"@id":"$2"}}"#,
    ),
    (
        "GET /projects/$0/commits/$2/changes/$4",
        "",
        "404 Not Found",
        r#"{"@type":"Error","error":"unknown-change"}"#,
    ),
    (
        "GET /projects/$0/commits/$5/changes/$3",
        "",
        "404 Not Found",
        r#"{"@type":"Error","error":"unknown-change"}"#,
    ),
    (
        "GET /projects/$0/commits/$2/changes/$6",
        "",
        "404 Not Found",
        r#"{"@type":"Error","error":"unknown-change"}"#,
    ),
    (
        "GET /projects/$0/commits/$3/changes/$3",
        "",
        "404 Not Found",
        r#"{"@type":"Error","error":"unknown-commit"}"#,
    ),
    (
        "GET /projects/$0/commits/$3/changes",
        "",
        "404 Not Found",
        r#"{"@type":"Error","error":"unknown-commit"}"#,
    ),
    (
        "GET /projects/$2/commits/$3/changes/$3",
        "",
        "404 Not Found",
        r#"{"@type":"Error","error":"unknown-project"}"#,
    ),
    (
        "GET /projects/$0/commits/$3",
        "",
        "404 Not Found",
        r#"{"@type":"Error","error":"unknown-commit"}"#,
    ),
    (
        "GET /projects/$2/commits",
        "",
        "404 Not Found",
        r#"{"@type":"Error","error":"unknown-project"}"#,
    ),
];

#[test]
fn changes_of_commits(rt: HostRuntime) -> Result<(), Fail> {
    assert!(rt; hold_behind_a_commit(rt.alloc(), &CHANGES)?);
    Ok(())
}

#[test]
fn unknown_changes(rt: HostRuntime) -> Result<(), Fail> {
    assert!(rt; hold_behind_a_commit(rt.alloc(), &UNKNOWN)?);
    Ok(())
}
