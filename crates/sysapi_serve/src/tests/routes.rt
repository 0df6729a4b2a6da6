//! Targets, methods and parameters, over whole streams.

use super::rows::{Row, Rows, hold_behind_a_commit, refused, request, response};
use std::alloc::Global;
use std::test::Fail;

const NO_ROUTE: &str = r#"{"@type":"Error","error":"no-route"}"#;

const UNKNOWN_PROJECT: &str = r#"{"@type":"Error","error":"unknown-project"}"#;

/// Paths are taken as written.
const WITHOUT_A_ROUTE: [&str; 12] = [
    "GET /project",
    "GET /",
    "GET /projects/",
    "GET /Projects",
    "GET /%70rojects",
    "GET /projects/$0/",
    "GET /projects/$0/commit",
    "DELETE /projects/$0/commits/$2/changes/$3/x",
    "GET projects",
    "GET https://h/projects",
    "GET http://h",
    "OPTIONS *",
];

/// Requests whose method the target doesn't take, and those that it takes. The ids are not read then.
const WITHOUT_THE_METHOD: [(&str, &str); 12] = [
    ("PATCH /projects", "GET, POST"),
    ("get /projects", "GET, POST"),
    ("PATCH /projects/x", "GET, PUT, DELETE"),
    ("PUT /projects/x/branches", "GET, POST"),
    ("PUT /projects/x/branches/x", "GET, DELETE"),
    ("DELETE /projects/x/tags", "GET, POST"),
    ("POST /projects/x/tags/x", "GET, DELETE"),
    ("DELETE /projects/x/commits", "GET, POST"),
    ("PUT /projects/x/commits/x", "GET"),
    ("POST /projects/x/commits/x/changes", "GET"),
    ("DELETE /projects/x/commits/x/changes/x", "GET"),
    ("POST http://h/projects/x/commits/x/elements/x?y", "GET"),
];

/// Requests with a part that is no id's text, and the key of the first such part.
const WITHOUT_AN_ID: [(&str, &str); 9] = [
    ("GET /projects/x", "projectId"),
    ("GET /projects/$0%30", "projectId"),
    ("DELETE /projects/x/branches/x", "projectId"),
    ("GET /projects/$0/branches/x", "branchId"),
    ("GET /projects/$0/tags/x", "tagId"),
    ("GET /projects/$0/commits/x/changes/x", "commitId"),
    ("GET /projects/$0/commits/$2/changes/x", "changeId"),
    ("GET /projects/$0/commits/$2/elements/x", "elementId"),
    ("POST /projects/x/commits?branchId=x", "projectId"),
];

/// Requests whose branch is no id's text, or is given twice.
const WITHOUT_A_BRANCH: [&str; 6] = [
    "GET /projects/$0/commits?branchId=x",
    "GET /projects/$0/commits?branchId",
    "GET /projects/$0/commits?x=1&branch%49d=$1%30",
    "GET /projects/$0/commits?branchId=$1&branchId=$1",
    "GET /projects/$9/commits?branchId=x",
    "POST /projects/$0/commits?branchId=x",
];

/// Parameters that are read in their percent-encoded form too, and those that are ignored.
const PARAMETERS: [Row; 4] = [
    (
        "GET /projects/$0/commits?x=%zz&branch%49d=%300000000-0001-8000-8000-00000000000%31",
        "",
        "200 OK",
        r#"[{"@id":"$2","@type":"Commit","created":"2000-01-01T00:00:00.000Z","description":null,"owningProject":{"@id":"$0"},"previousCommit":null}]"#,
    ),
    (
        "GET /projects/$0?branchId=x",
        "",
        "200 OK",
        r#"{"@id":"$0","@type":"Project","created":"2000-01-01T00:00:00.000Z","defaultBranch":{"@id":"$1"},"description":null,"name":"P"}"#,
    ),
    (
        "GET /projects/$0/tags?branchId=x&branchId=y",
        "",
        "200 OK",
        "[]",
    ),
    (
        "POST /projects/$9/tags?branchId=x",
        r#"{"taggedCommit":{"@id":"$2"}}"#,
        "404 Not Found",
        UNKNOWN_PROJECT,
    ),
];

/// Targets in absolute form. Their authority is not looked at.
const ABSOLUTE: [Row; 4] = [
    ("GET http://h/projects", "", "200 OK", "[]"),
    ("GET http://other:81/projects?x", "", "200 OK", "[]"),
    (
        "GET http://h/projects/$0",
        "",
        "404 Not Found",
        UNKNOWN_PROJECT,
    ),
    (
        "GET http://h/projects/x",
        "",
        "400 Bad Request",
        r#"{"@type":"Error","error":"bad-id","key":"projectId"}"#,
    ),
];

/// The response that tells the methods.
fn no_method(alloc: Global, allow: &str) -> Result<Vec<u8>, Fail> {
    let text = format!(in alloc;
        "HTTP/1.1 405 Method Not Allowed\r\nDate: Sat, 01 Jan 2000 00:00:00 GMT\r\nContent-Type: application/json\r\nContent-Length: 37\r\nAllow: {allow}\r\n\r\n{{\"@type\":\"Error\",\"error\":\"no-method\"}}"
    )?;
    Ok(Vec::from_slice(alloc, text.as_bytes())?)
}

/// A request and the response that tells a wrong key.
fn wrong_key(
    alloc: Global,
    rows: &mut Rows,
    asked: &str,
    name: &str,
    key: &str,
) -> Result<(), Fail> {
    let more = format!(in alloc; ",\"key\":\"{key}\"")?;
    rows.row(
        &request(alloc, asked, "{")?,
        &refused(alloc, "400 Bad Request", name, more.as_str())?,
    )
}

#[test]
fn targets_without_a_route(rt: HostRuntime) -> Result<(), Fail> {
    let alloc = rt.alloc();
    let mut rows = Rows::none(alloc);
    let response = response(alloc, "404 Not Found", NO_ROUTE)?;
    for asked in &WITHOUT_A_ROUTE {
        rows.row(&request(alloc, asked, "")?, &response)?;
    }
    assert!(rt; rows.hold(alloc)?);
    Ok(())
}

#[test]
fn methods_that_a_target_does_not_take(rt: HostRuntime) -> Result<(), Fail> {
    let alloc = rt.alloc();
    let mut rows = Rows::none(alloc);
    for (asked, allow) in &WITHOUT_THE_METHOD {
        rows.row(&request(alloc, asked, "")?, &no_method(alloc, allow)?)?;
    }
    assert!(rt; rows.hold(alloc)?);
    Ok(())
}

#[test]
fn parts_that_are_no_ids(rt: HostRuntime) -> Result<(), Fail> {
    let alloc = rt.alloc();
    let mut rows = Rows::none(alloc);
    for (asked, key) in &WITHOUT_AN_ID {
        wrong_key(alloc, &mut rows, asked, "bad-id", key)?;
    }
    assert!(rt; rows.hold(alloc)?);
    Ok(())
}

#[test]
fn branches_that_are_no_ids(rt: HostRuntime) -> Result<(), Fail> {
    let alloc = rt.alloc();
    let mut rows = Rows::none(alloc);
    for asked in &WITHOUT_A_BRANCH {
        wrong_key(alloc, &mut rows, asked, "bad-parameter", "branchId")?;
    }
    assert!(rt; rows.hold(alloc)?);
    Ok(())
}

#[test]
fn parameters(rt: HostRuntime) -> Result<(), Fail> {
    assert!(rt; hold_behind_a_commit(rt.alloc(), &PARAMETERS)?);
    Ok(())
}

#[test]
fn targets_in_absolute_form(rt: HostRuntime) -> Result<(), Fail> {
    let alloc = rt.alloc();
    let mut rows = Rows::none(alloc);
    rows.rows(alloc, &ABSOLUTE)?;
    assert!(rt; rows.hold(alloc)?);
    Ok(())
}

/// No method takes HEAD, whose response has the head alone.
#[test]
fn head_has_no_body(rt: HostRuntime) -> Result<(), Fail> {
    let alloc = rt.alloc();
    let mut rows = Rows::none(alloc);
    let told = no_method(alloc, "GET, POST")?;
    let head = &told[..told.len().saturating_sub(37)];
    rows.row(&request(alloc, "HEAD /projects", "")?, head)?;
    let told = response(alloc, "404 Not Found", NO_ROUTE)?;
    let head = &told[..told.len().saturating_sub(36)];
    rows.row(&request(alloc, "HEAD /project", "")?, head)?;
    assert!(rt; rows.hold(alloc)?);
    Ok(())
}

/// The request for all projects, in one piece, byte by byte, and twice in one piece.
#[test]
fn no_projects(rt: HostRuntime) -> Result<(), Fail> {
    let alloc = rt.alloc();
    let mut rows = Rows::none(alloc);
    rows.rows(alloc, &[("GET /projects", "", "200 OK", "[]")])?;
    assert!(rt; rows.hold(alloc)?);
    assert!(rt; rows.hold_byte_by_byte(alloc)?);
    rows.rows(alloc, &[("GET /projects", "", "200 OK", "[]")])?;
    assert!(rt; rows.hold(alloc)?);
    Ok(())
}
