//! Projects updated and deleted, over whole streams.

use super::rows::{Row, hold_behind_a_commit};
use std::test::Fail;

/// An update replaces the name and the description, and the default branch where it names one.
const UPDATES: [Row; 13] = [
    (
        "POST /projects/$0/branches",
        r#"{"name":"x","head":{"@id":"$2"}}"#,
        "201 Created",
        r#"{"@id":"$5","@type":"Branch","created":"2000-01-01T00:00:00.000Z","head":{"@id":"$2"},"name":"x","owningProject":{"@id":"$0"},"referencedCommit":{"@id":"$2"}}"#,
    ),
    (
        "PUT /projects/$0",
        r#"{"defaultBranch":{"@id":"$5"},"name":"Q"}"#,
        "200 OK",
        r#"{"@id":"$0","@type":"Project","created":"2000-01-01T00:00:00.000Z","defaultBranch":{"@id":"$5"},"description":null,"name":"Q"}"#,
    ),
    (
        "GET /projects/$0",
        "",
        "200 OK",
        r#"{"@id":"$0","@type":"Project","created":"2000-01-01T00:00:00.000Z","defaultBranch":{"@id":"$5"},"description":null,"name":"Q"}"#,
    ),
    (
        "POST /projects/$0/commits",
        "{}",
        "201 Created",
        r#"{"@id":"$6","@type":"Commit","created":"2000-01-01T00:00:00.000Z","description":null,"owningProject":{"@id":"$0"},"previousCommit":{"@id":"$2"}}"#,
    ),
    (
        "GET /projects/$0/branches",
        "",
        "200 OK",
        r#"[{"@id":"$1","@type":"Branch","created":"2000-01-01T00:00:00.000Z","head":{"@id":"$2"},"name":null,"owningProject":{"@id":"$0"},"referencedCommit":{"@id":"$2"}},{"@id":"$5","@type":"Branch","created":"2000-01-01T00:00:00.000Z","head":{"@id":"$6"},"name":"x","owningProject":{"@id":"$0"},"referencedCommit":{"@id":"$6"}}]"#,
    ),
    (
        "DELETE /projects/$0/branches/$5",
        "",
        "409 Conflict",
        r#"{"@type":"Error","error":"default-branch"}"#,
    ),
    (
        "DELETE /projects/$0/branches/$1",
        "",
        "200 OK",
        r#"{"@id":"$1","@type":"Branch","created":"2000-01-01T00:00:00.000Z","head":{"@id":"$2"},"name":null,"owningProject":{"@id":"$0"},"referencedCommit":{"@id":"$2"}}"#,
    ),
    (
        "PUT /projects/$0",
        r#"{"description":"d"}"#,
        "200 OK",
        r#"{"@id":"$0","@type":"Project","created":"2000-01-01T00:00:00.000Z","defaultBranch":{"@id":"$5"},"description":"d","name":null}"#,
    ),
    (
        "PUT /projects/$0",
        r#"{"defaultBranch":null,"name":"R"}"#,
        "200 OK",
        r#"{"@id":"$0","@type":"Project","created":"2000-01-01T00:00:00.000Z","defaultBranch":{"@id":"$5"},"description":null,"name":"R"}"#,
    ),
    (
        "PUT /projects/$0",
        r#"{"defaultBranch":{"@id":"$1"}}"#,
        "404 Not Found",
        r#"{"@type":"Error","error":"unknown-branch"}"#,
    ),
    (
        "PUT /projects/$0",
        r#"{"defaultBranch":7}"#,
        "400 Bad Request",
        r#"{"@type":"Error","error":"bad-body","key":"defaultBranch"}"#,
    ),
    (
        "PUT /projects/$0",
        r#"{"defaultBranch":7,"description":7}"#,
        "400 Bad Request",
        r#"{"@type":"Error","error":"bad-body","key":"description"}"#,
    ),
    (
        "GET /projects",
        "",
        "200 OK",
        r#"[{"@id":"$0","@type":"Project","created":"2000-01-01T00:00:00.000Z","defaultBranch":{"@id":"$5"},"description":null,"name":"R"}]"#,
    ),
];

/// A branch of another project is no branch of this one.
const OF_TWO: [Row; 8] = [
    (
        "POST /projects",
        r#"{"description":"d"}"#,
        "201 Created",
        r#"{"@id":"$5","@type":"Project","created":"2000-01-01T00:00:00.000Z","defaultBranch":{"@id":"$6"},"description":"d","name":null}"#,
    ),
    (
        "PUT /projects/$0",
        r#"{"defaultBranch":{"@id":"$6"}}"#,
        "404 Not Found",
        r#"{"@type":"Error","error":"unknown-branch"}"#,
    ),
    (
        "PUT /projects/$6",
        r#"{"defaultBranch":{"@id":"$1"}}"#,
        "404 Not Found",
        r#"{"@type":"Error","error":"unknown-project"}"#,
    ),
    (
        "GET /projects/$5/branches/$1",
        "",
        "404 Not Found",
        r#"{"@type":"Error","error":"unknown-branch"}"#,
    ),
    (
        "DELETE /projects/$5/branches/$1",
        "",
        "404 Not Found",
        r#"{"@type":"Error","error":"unknown-branch"}"#,
    ),
    ("GET /projects/$5/commits", "", "200 OK", "[]"),
    (
        "GET /projects/$5/commits/$2",
        "",
        "404 Not Found",
        r#"{"@type":"Error","error":"unknown-commit"}"#,
    ),
    (
        "GET /projects",
        "",
        "200 OK",
        r#"[{"@id":"$0","@type":"Project","created":"2000-01-01T00:00:00.000Z","defaultBranch":{"@id":"$1"},"description":null,"name":"P"},{"@id":"$5","@type":"Project","created":"2000-01-01T00:00:00.000Z","defaultBranch":{"@id":"$6"},"description":"d","name":null}]"#,
    ),
];

/// A deleted project is hidden, with all that it has.
const DELETED: [Row; 15] = [
    (
        "POST /projects",
        "{}",
        "201 Created",
        r#"{"@id":"$5","@type":"Project","created":"2000-01-01T00:00:00.000Z","defaultBranch":{"@id":"$6"},"description":null,"name":null}"#,
    ),
    (
        "POST /projects/$0/tags",
        r#"{"taggedCommit":{"@id":"$2"}}"#,
        "201 Created",
        r#"{"@id":"$7","@type":"Tag","created":"2000-01-01T00:00:00.000Z","name":null,"owningProject":{"@id":"$0"},"referencedCommit":{"@id":"$2"},"taggedCommit":{"@id":"$2"}}"#,
    ),
    (
        "DELETE /projects/$0",
        "",
        "200 OK",
        r#"{"@id":"$0","@type":"Project","created":"2000-01-01T00:00:00.000Z","defaultBranch":{"@id":"$1"},"description":null,"name":"P"}"#,
    ),
    (
        "GET /projects/$0",
        "",
        "404 Not Found",
        r#"{"@type":"Error","error":"unknown-project"}"#,
    ),
    (
        "DELETE /projects/$0",
        "",
        "404 Not Found",
        r#"{"@type":"Error","error":"unknown-project"}"#,
    ),
    (
        "PUT /projects/$0",
        "{}",
        "404 Not Found",
        r#"{"@type":"Error","error":"unknown-project"}"#,
    ),
    (
        "GET /projects/$0/branches",
        "",
        "404 Not Found",
        r#"{"@type":"Error","error":"unknown-project"}"#,
    ),
    (
        "GET /projects/$0/branches/$1",
        "",
        "404 Not Found",
        r#"{"@type":"Error","error":"unknown-project"}"#,
    ),
    (
        "GET /projects/$0/tags/$7",
        "",
        "404 Not Found",
        r#"{"@type":"Error","error":"unknown-project"}"#,
    ),
    (
        "GET /projects/$0/commits",
        "",
        "404 Not Found",
        r#"{"@type":"Error","error":"unknown-project"}"#,
    ),
    (
        "GET /projects/$0/commits/$2/elements/$4",
        "",
        "404 Not Found",
        r#"{"@type":"Error","error":"unknown-project"}"#,
    ),
    (
        "GET /projects/$0/commits/$2/changes/$3",
        "",
        "404 Not Found",
        r#"{"@type":"Error","error":"unknown-project"}"#,
    ),
    (
        "POST /projects/$0/commits",
        "{}",
        "404 Not Found",
        r#"{"@type":"Error","error":"unknown-project"}"#,
    ),
    (
        "GET /projects",
        "",
        "200 OK",
        r#"[{"@id":"$5","@type":"Project","created":"2000-01-01T00:00:00.000Z","defaultBranch":{"@id":"$6"},"description":null,"name":null}]"#,
    ),
    (
        "POST /projects/$5/commits",
        "{}",
        "201 Created",
        r#"{"@id":"$8","@type":"Commit","created":"2000-01-01T00:00:00.000Z","description":null,"owningProject":{"@id":"$5"},"previousCommit":null}"#,
    ),
];

#[test]
fn updated_projects(rt: HostRuntime) -> Result<(), Fail> {
    assert!(rt; hold_behind_a_commit(rt.alloc(), &UPDATES)?);
    Ok(())
}

#[test]
fn two_projects(rt: HostRuntime) -> Result<(), Fail> {
    assert!(rt; hold_behind_a_commit(rt.alloc(), &OF_TWO)?);
    Ok(())
}

#[test]
fn deleted_project(rt: HostRuntime) -> Result<(), Fail> {
    assert!(rt; hold_behind_a_commit(rt.alloc(), &DELETED)?);
    Ok(())
}
