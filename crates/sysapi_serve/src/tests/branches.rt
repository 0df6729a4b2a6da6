//! Branches, over whole streams.

use super::rows::{Row, hold_behind_a_commit};
use std::test::Fail;

/// Two branches at one commit, a commit on each, and one of them deleted.
const TWO_BRANCHES: [Row; 17] = [
    (
        "POST /projects/$0/branches",
        r#"{"name":"x","head":{"@id":"$2"}}"#,
        "201 Created",
        r#"{"@id":"$5","@type":"Branch","created":"2000-01-01T00:00:00.000Z","head":{"@id":"$2"},"name":"x","owningProject":{"@id":"$0"},"referencedCommit":{"@id":"$2"}}"#,
    ),
    (
        "POST /projects/$0/branches",
        r#"{"name":"y","head":{"@id":"$2"}}"#,
        "201 Created",
        r#"{"@id":"$6","@type":"Branch","created":"2000-01-01T00:00:00.000Z","head":{"@id":"$2"},"name":"y","owningProject":{"@id":"$0"},"referencedCommit":{"@id":"$2"}}"#,
    ),
    (
        "POST /projects/$0/commits?branchId=$5",
        r#"{"change":[{"identity":{"@id":"$4"},"payload":{"@type":"Package","declaredName":"X"}}]}"#,
        "201 Created",
        r#"{"@id":"$7","@type":"Commit","created":"2000-01-01T00:00:00.000Z","description":null,"owningProject":{"@id":"$0"},"previousCommit":{"@id":"$2"}}"#,
    ),
    (
        "POST /projects/$0/commits?branchId=$6",
        r#"{"change":[{"identity":{"@id":"$4"},"payload":{"@type":"Package","declaredName":"Y"}}]}"#,
        "201 Created",
        r#"{"@id":"$9","@type":"Commit","created":"2000-01-01T00:00:00.000Z","description":null,"owningProject":{"@id":"$0"},"previousCommit":{"@id":"$2"}}"#,
    ),
    (
        "GET /projects/$0/commits/$7/elements/$4",
        "",
        "200 OK",
        r#"{"@id":"$4","@type":"Package","declaredName":"X"}"#,
    ),
    (
        "GET /projects/$0/commits/$9/elements/$4",
        "",
        "200 OK",
        r#"{"@id":"$4","@type":"Package","declaredName":"Y"}"#,
    ),
    (
        "GET /projects/$0/commits/$2/elements/$4",
        "",
        "200 OK",
        r#"{"@id":"$4","@type":"Package","declaredName":"A"}"#,
    ),
    (
        "GET /projects/$0/branches/$5",
        "",
        "200 OK",
        r#"{"@id":"$5","@type":"Branch","created":"2000-01-01T00:00:00.000Z","head":{"@id":"$7"},"name":"x","owningProject":{"@id":"$0"},"referencedCommit":{"@id":"$7"}}"#,
    ),
    (
        "GET /projects/$0/branches/$6",
        "",
        "200 OK",
        r#"{"@id":"$6","@type":"Branch","created":"2000-01-01T00:00:00.000Z","head":{"@id":"$9"},"name":"y","owningProject":{"@id":"$0"},"referencedCommit":{"@id":"$9"}}"#,
    ),
    (
        "GET /projects/$0/branches/$1",
        "",
        "200 OK",
        r#"{"@id":"$1","@type":"Branch","created":"2000-01-01T00:00:00.000Z","head":{"@id":"$2"},"name":null,"owningProject":{"@id":"$0"},"referencedCommit":{"@id":"$2"}}"#,
    ),
    (
        "GET /projects/$0/commits?branchId=$5",
        "",
        "200 OK",
        r#"[{"@id":"$2","@type":"Commit","created":"2000-01-01T00:00:00.000Z","description":null,"owningProject":{"@id":"$0"},"previousCommit":null},{"@id":"$7","@type":"Commit","created":"2000-01-01T00:00:00.000Z","description":null,"owningProject":{"@id":"$0"},"previousCommit":{"@id":"$2"}}]"#,
    ),
    (
        "DELETE /projects/$0/branches/$1",
        "",
        "409 Conflict",
        r#"{"@type":"Error","error":"default-branch"}"#,
    ),
    (
        "DELETE /projects/$0/branches/$6",
        "",
        "200 OK",
        r#"{"@id":"$6","@type":"Branch","created":"2000-01-01T00:00:00.000Z","head":{"@id":"$9"},"name":"y","owningProject":{"@id":"$0"},"referencedCommit":{"@id":"$9"}}"#,
    ),
    (
        "GET /projects/$0/commits/$9/elements/$4",
        "",
        "200 OK",
        r#"{"@id":"$4","@type":"Package","declaredName":"Y"}"#,
    ),
    (
        "GET /projects/$0/branches/$6",
        "",
        "404 Not Found",
        r#"{"@type":"Error","error":"unknown-branch"}"#,
    ),
    (
        "GET /projects/$0/branches",
        "",
        "200 OK",
        r#"[{"@id":"$1","@type":"Branch","created":"2000-01-01T00:00:00.000Z","head":{"@id":"$2"},"name":null,"owningProject":{"@id":"$0"},"referencedCommit":{"@id":"$2"}},{"@id":"$5","@type":"Branch","created":"2000-01-01T00:00:00.000Z","head":{"@id":"$7"},"name":"x","owningProject":{"@id":"$0"},"referencedCommit":{"@id":"$7"}}]"#,
    ),
    (
        "GET /projects/$0/commits",
        "",
        "200 OK",
        r#"[{"@id":"$2","@type":"Commit","created":"2000-01-01T00:00:00.000Z","description":null,"owningProject":{"@id":"$0"},"previousCommit":null},{"@id":"$7","@type":"Commit","created":"2000-01-01T00:00:00.000Z","description":null,"owningProject":{"@id":"$0"},"previousCommit":{"@id":"$2"}},{"@id":"$9","@type":"Commit","created":"2000-01-01T00:00:00.000Z","description":null,"owningProject":{"@id":"$0"},"previousCommit":{"@id":"$2"}}]"#,
    ),
];

/// A branch without a head, which a first commit gives one.
const HEADLESS: [Row; 11] = [
    (
        "POST /projects/$0/branches",
        r#"{"head":null,"name":"n","referencedCommit":{"@id":"$2"}}"#,
        "201 Created",
        r#"{"@id":"$5","@type":"Branch","created":"2000-01-01T00:00:00.000Z","head":null,"name":"n","owningProject":{"@id":"$0"},"referencedCommit":null}"#,
    ),
    ("GET /projects/$0/commits?branchId=$5", "", "200 OK", "[]"),
    (
        "POST /projects/$0/commits?branchId=$5",
        r#"{"description":"d"}"#,
        "201 Created",
        r#"{"@id":"$6","@type":"Commit","created":"2000-01-01T00:00:00.000Z","description":"d","owningProject":{"@id":"$0"},"previousCommit":null}"#,
    ),
    (
        "GET /projects/$0/branches/$5",
        "",
        "200 OK",
        r#"{"@id":"$5","@type":"Branch","created":"2000-01-01T00:00:00.000Z","head":{"@id":"$6"},"name":"n","owningProject":{"@id":"$0"},"referencedCommit":{"@id":"$6"}}"#,
    ),
    (
        "GET /projects/$0/commits?branchId=$5",
        "",
        "200 OK",
        r#"[{"@id":"$6","@type":"Commit","created":"2000-01-01T00:00:00.000Z","description":"d","owningProject":{"@id":"$0"},"previousCommit":null}]"#,
    ),
    (
        "GET /projects/$0/commits?branchId=$1",
        "",
        "200 OK",
        r#"[{"@id":"$2","@type":"Commit","created":"2000-01-01T00:00:00.000Z","description":null,"owningProject":{"@id":"$0"},"previousCommit":null}]"#,
    ),
    (
        "POST /projects/$0/commits?branchId=$5",
        r#"{"previousCommit":{"@id":"$2"}}"#,
        "409 Conflict",
        r#"{"@type":"Error","error":"head-moved","head":{"@id":"$6"}}"#,
    ),
    (
        "POST /projects/$0/branches",
        r#"{"referencedCommit":{"@id":"$6"}}"#,
        "201 Created",
        r#"{"@id":"$7","@type":"Branch","created":"2000-01-01T00:00:00.000Z","head":{"@id":"$6"},"name":null,"owningProject":{"@id":"$0"},"referencedCommit":{"@id":"$6"}}"#,
    ),
    (
        "POST /projects/$0/branches",
        r#"{"name":"m"}"#,
        "201 Created",
        r#"{"@id":"$8","@type":"Branch","created":"2000-01-01T00:00:00.000Z","head":null,"name":"m","owningProject":{"@id":"$0"},"referencedCommit":null}"#,
    ),
    (
        "POST /projects/$0/commits?branchId=$8",
        r#"{"previousCommit":{"@id":"$2"}}"#,
        "409 Conflict",
        r#"{"@type":"Error","error":"head-moved","head":null}"#,
    ),
    (
        "GET /projects/$0/branches",
        "",
        "200 OK",
        r#"[{"@id":"$1","@type":"Branch","created":"2000-01-01T00:00:00.000Z","head":{"@id":"$2"},"name":null,"owningProject":{"@id":"$0"},"referencedCommit":{"@id":"$2"}},{"@id":"$5","@type":"Branch","created":"2000-01-01T00:00:00.000Z","head":{"@id":"$6"},"name":"n","owningProject":{"@id":"$0"},"referencedCommit":{"@id":"$6"}},{"@id":"$7","@type":"Branch","created":"2000-01-01T00:00:00.000Z","head":{"@id":"$6"},"name":null,"owningProject":{"@id":"$0"},"referencedCommit":{"@id":"$6"}},{"@id":"$8","@type":"Branch","created":"2000-01-01T00:00:00.000Z","head":null,"name":"m","owningProject":{"@id":"$0"},"referencedCommit":null}]"#,
    ),
];

/// Branches that are refused draw no id.
const REFUSED: [Row; 12] = [
    (
        "POST /projects/$0/branches",
        r#"{"head":{"@id":"$3"}}"#,
        "404 Not Found",
        r#"{"@type":"Error","error":"unknown-commit"}"#,
    ),
    (
        "POST /projects/$0/branches",
        r#"{"head":7,"name":7}"#,
        "400 Bad Request",
        r#"{"@type":"Error","error":"bad-body","key":"name"}"#,
    ),
    (
        "POST /projects/$0/branches",
        r#"{"head":7,"referencedCommit":7}"#,
        "400 Bad Request",
        r#"{"@type":"Error","error":"bad-body","key":"head"}"#,
    ),
    (
        "POST /projects/$0/branches",
        r#"{"referencedCommit":7}"#,
        "400 Bad Request",
        r#"{"@type":"Error","error":"bad-body","key":"referencedCommit"}"#,
    ),
    (
        "POST /projects/$9/branches",
        r#"{"head":{"@id":"$3"}}"#,
        "404 Not Found",
        r#"{"@type":"Error","error":"unknown-project"}"#,
    ),
    (
        "GET /projects/$0/branches/$2",
        "",
        "404 Not Found",
        r#"{"@type":"Error","error":"unknown-branch"}"#,
    ),
    (
        "DELETE /projects/$0/branches/$5",
        "",
        "404 Not Found",
        r#"{"@type":"Error","error":"unknown-branch"}"#,
    ),
    (
        "DELETE /projects/$9/branches/$1",
        "",
        "404 Not Found",
        r#"{"@type":"Error","error":"unknown-project"}"#,
    ),
    (
        "GET /projects/$9/branches",
        "",
        "404 Not Found",
        r#"{"@type":"Error","error":"unknown-project"}"#,
    ),
    (
        "POST /projects/$0/commits?branchId=$5",
        r#"{"previousCommit":[{"@id":"$2"},{"@id":"$2"}]}"#,
        "404 Not Found",
        r#"{"@type":"Error","error":"unknown-branch"}"#,
    ),
    (
        "GET /projects/$0/commits?branchId=$5",
        "",
        "404 Not Found",
        r#"{"@type":"Error","error":"unknown-branch"}"#,
    ),
    (
        "POST /projects/$0/branches",
        "{}",
        "201 Created",
        r#"{"@id":"$5","@type":"Branch","created":"2000-01-01T00:00:00.000Z","head":null,"name":null,"owningProject":{"@id":"$0"},"referencedCommit":null}"#,
    ),
];

#[test]
fn two_branches(rt: HostRuntime) -> Result<(), Fail> {
    assert!(rt; hold_behind_a_commit(rt.alloc(), &TWO_BRANCHES)?);
    Ok(())
}

#[test]
fn branches_without_a_head(rt: HostRuntime) -> Result<(), Fail> {
    assert!(rt; hold_behind_a_commit(rt.alloc(), &HEADLESS)?);
    Ok(())
}

#[test]
fn refused_branches(rt: HostRuntime) -> Result<(), Fail> {
    assert!(rt; hold_behind_a_commit(rt.alloc(), &REFUSED)?);
    Ok(())
}
