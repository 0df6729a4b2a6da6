//! Commits and elements, over whole streams.

use super::post;
use super::rows::{COMMITS, Rows, commit, id, made, refused, response};
use std::alloc::Global;
use std::test::Fail;

/// An id that no server made.
const E: &str = "11111111-1111-4111-8111-111111111111";

const UNKNOWN_ELEMENT: (&str, &str) = ("404 Not Found", "unknown-element");

/// A request for the element of the serial 4 at the commit of a serial.
fn element_4(alloc: Global, at: u64) -> Result<Vec<u8>, Fail> {
    element(alloc, at, id(alloc, 4)?.as_str())
}

fn element(alloc: Global, at: u64, element: &str) -> Result<Vec<u8>, Fail> {
    let at = id(alloc, at)?;
    let text = format!(in alloc;
        "GET {COMMITS}/{at}/elements/{element} HTTP/1.1\r\nHost: h\r\n\r\n"
    )?;
    Ok(Vec::from_slice(alloc, text.as_bytes())?)
}

/// The response that tells element 4 with a name.
fn named(alloc: Global, name: &str) -> Result<Vec<u8>, Fail> {
    let body = format!(in alloc;
        "{{\"@id\":\"00000000-0001-8000-8000-000000000004\",\"@type\":\"Package\",\"declaredName\":\"{name}\"}}"
    )?;
    response(alloc, "200 OK", body.as_str())
}

#[test]
fn element_made_replaced_and_deleted(rt: HostRuntime) -> Result<(), Fail> {
    let alloc = rt.alloc();
    let mut rows = Rows::three_commits(alloc)?;
    rows.row(&element_4(alloc, 2)?, &named(alloc, "A")?)?;
    rows.row(&element_4(alloc, 5)?, &named(alloc, "B")?)?;
    let (status, name) = UNKNOWN_ELEMENT;
    rows.row(&element_4(alloc, 7)?, &refused(alloc, status, name, "")?)?;
    rows.row(&element_4(alloc, 2)?, &named(alloc, "A")?)?;
    assert!(rt; rows.hold(alloc)?);
    Ok(())
}

#[test]
fn delete_of_an_unknown(rt: HostRuntime) -> Result<(), Fail> {
    let alloc = rt.alloc();
    let mut rows = Rows::three_commits(alloc)?;
    let body = format!(in alloc;
        "{{\"change\":[{{\"identity\":{{\"@id\":\"{E}\"}},\"payload\":null}}]}}"
    )?;
    rows.row(
        &commit(alloc, body.as_str())?,
        &refused(alloc, "409 Conflict", "delete-unknown", ",\"place\":0")?,
    )?;
    rows.row(&commit(alloc, "{}")?, &made(alloc, 9, Some(7))?)?;
    assert!(rt; rows.hold(alloc)?);
    Ok(())
}

#[test]
fn identities_that_differ_or_come_twice(rt: HostRuntime) -> Result<(), Fail> {
    let alloc = rt.alloc();
    let mut rows = Rows::three_commits(alloc)?;
    let twice = format!(in alloc;
        "{{\"change\":[{{\"identity\":{{\"@id\":\"{E}\"}},\"payload\":{{}}}},{{\"identity\":{{\"@id\":\"{E}\"}},\"payload\":{{}}}}]}}"
    )?;
    rows.row(
        &commit(alloc, twice.as_str())?,
        &refused(alloc, "400 Bad Request", "identity-twice", ",\"place\":1")?,
    )?;
    let other = format!(in alloc;
        "{{\"change\":[{{\"identity\":{{\"@id\":\"{E}\"}},\"payload\":{{\"@id\":\"{}\"}}}}]}}",
        id(alloc, 4)?
    )?;
    rows.row(
        &commit(alloc, other.as_str())?,
        &refused(
            alloc,
            "400 Bad Request",
            "identity-mismatch",
            ",\"place\":0",
        )?,
    )?;
    assert!(rt; rows.hold(alloc)?);
    Ok(())
}

/// Of three changes the second names the identity of the serial 4, so that the others get those of 5 and 8.
#[test]
fn identities_that_are_passed_over(rt: HostRuntime) -> Result<(), Fail> {
    let alloc = rt.alloc();
    let mut rows = Rows::start(alloc)?;
    let body = format!(in alloc;
        "{{\"change\":[{{\"payload\":{{}}}},{{\"identity\":{{\"@id\":\"{}\"}},\"payload\":{{}}}},{{\"payload\":{{}}}}]}}",
        id(alloc, 4)?
    )?;
    rows.row(&commit(alloc, body.as_str())?, &made(alloc, 2, None)?)?;
    for serial in [5, 4, 8] {
        let own = id(alloc, serial)?;
        let body = format!(in alloc; "{{\"@id\":\"{own}\"}}")?;
        rows.row(
            &element(alloc, 2, own.as_str())?,
            &response(alloc, "200 OK", body.as_str())?,
        )?;
    }
    let (status, name) = UNKNOWN_ELEMENT;
    rows.row(
        &element(alloc, 2, id(alloc, 7)?.as_str())?,
        &refused(alloc, status, name, "")?,
    )?;
    rows.row(&commit(alloc, "{}")?, &made(alloc, 9, Some(2))?)?;
    assert!(rt; rows.hold(alloc)?);
    Ok(())
}

#[test]
fn previous_commit(rt: HostRuntime) -> Result<(), Fail> {
    let alloc = rt.alloc();
    let mut rows = Rows::three_commits(alloc)?;
    rows.row(
        &commit(
            alloc,
            "{\"previousCommit\":{\"@id\":\"00000000-0001-8000-8000-000000000002\"}}",
        )?,
        &refused(
            alloc,
            "409 Conflict",
            "head-moved",
            ",\"head\":{\"@id\":\"00000000-0001-8000-8000-000000000007\"}",
        )?,
    )?;
    rows.row(
        &commit(
            alloc,
            "{\"previousCommit\":[{\"@id\":\"00000000-0001-8000-8000-000000000007\"},{\"@id\":\"00000000-0001-8000-8000-000000000005\"}]}",
        )?,
        &refused(alloc, "400 Bad Request", "multiple-previous", "")?,
    )?;
    rows.row(
        &commit(
            alloc,
            "{\"previousCommit\":[{\"@id\":\"00000000-0001-8000-8000-000000000007\"}]}",
        )?,
        &made(alloc, 9, Some(7))?,
    )?;
    assert!(rt; rows.hold(alloc)?);
    Ok(())
}

/// Data of these types are stored but are no elements; a usage can't be stored yet.
#[test]
fn data_that_are_no_elements(rt: HostRuntime) -> Result<(), Fail> {
    let alloc = rt.alloc();
    let mut rows = Rows::start(alloc)?;
    let body = format!(in alloc;
        "{{\"change\":[{{\"payload\":{{\"@id\":\"{E}\",\"@type\":\"ExternalData\"}}}}]}}"
    )?;
    rows.row(&commit(alloc, body.as_str())?, &made(alloc, 2, None)?)?;
    let (status, name) = UNKNOWN_ELEMENT;
    rows.row(&element(alloc, 2, E)?, &refused(alloc, status, name, "")?)?;
    rows.row(
        &commit(
            alloc,
            "{\"change\":[{\"payload\":{}},{\"payload\":{\"@type\":\"ProjectUsage\"}}]}",
        )?,
        &refused(alloc, "409 Conflict", "unknown-pin", ",\"place\":1")?,
    )?;
    assert!(rt; rows.hold(alloc)?);
    Ok(())
}

/// A commit of another project, or an id that is none's, is unknown.
#[test]
fn commits_of_others(rt: HostRuntime) -> Result<(), Fail> {
    let alloc = rt.alloc();
    let mut rows = Rows::three_commits(alloc)?;
    rows.row(
        &post(alloc, b"{}")?,
        &response(
            alloc,
            "201 Created",
            "{\"@id\":\"00000000-0001-8000-8000-000000000009\",\"@type\":\"Project\",\"created\":\"2000-01-01T00:00:00.000Z\",\"defaultBranch\":{\"@id\":\"00000000-0001-8000-8000-00000000000a\"},\"description\":null,\"name\":null}",
        )?,
    )?;
    let request =
        b"GET /projects/00000000-0001-8000-8000-000000000009/commits/00000000-0001-8000-8000-000000000002/elements/00000000-0001-8000-8000-000000000004 HTTP/1.1\r\nHost: h\r\n\r\n";
    rows.row(
        request,
        &refused(alloc, "404 Not Found", "unknown-commit", "")?,
    )?;
    rows.row(
        &element_4(alloc, 3)?,
        &refused(alloc, "404 Not Found", "unknown-commit", "")?,
    )?;
    let request =
        b"GET /projects/00000000-0001-8000-8000-000000000001/commits/00000000-0001-8000-8000-000000000002/elements/00000000-0001-8000-8000-000000000004 HTTP/1.1\r\nHost: h\r\n\r\n";
    rows.row(
        request,
        &refused(alloc, "404 Not Found", "unknown-project", "")?,
    )?;
    assert!(rt; rows.hold(alloc)?);
    Ok(())
}

/// A payload of so many levels, lists within an object.
fn payload(alloc: Global, depth: usize) -> Result<String, Fail> {
    let mut text = String::from_str(alloc, "{\"a\":")?;
    for _ in 1..depth {
        text.push_str("[")?;
    }
    for _ in 1..depth {
        text.push_str("]")?;
    }
    text.push_str("}")?;
    Ok(text)
}

#[test]
fn depths_of_payloads(rt: HostRuntime) -> Result<(), Fail> {
    let alloc = rt.alloc();
    let mut rows = Rows::start(alloc)?;
    let body = format!(in alloc; "{{\"change\":[{{\"payload\":{}}}]}}", payload(alloc, 97)?)?;
    rows.row(&commit(alloc, body.as_str())?, &made(alloc, 2, None)?)?;
    for depth in [98, 100, 101] {
        let body = format!(in alloc;
            "{{\"change\":[{{\"payload\":{}}}]}}",
            payload(alloc, depth)?
        )?;
        rows.row(
            &commit(alloc, body.as_str())?,
            &refused(alloc, "400 Bad Request", "too-deep", "")?,
        )?;
    }
    assert!(rt; rows.hold(alloc)?);
    Ok(())
}

#[test]
fn numbers_of_payloads(rt: HostRuntime) -> Result<(), Fail> {
    let alloc = rt.alloc();
    let mut rows = Rows::start(alloc)?;
    let right =
        "{\"change\":[{\"payload\":{\"a\":18446744073709551615,\"b\":-9223372036854775808}}]}";
    rows.row(&commit(alloc, right)?, &made(alloc, 2, None)?)?;
    rows.row(
        &element_4(alloc, 2)?,
        &response(
            alloc,
            "200 OK",
            "{\"@id\":\"00000000-0001-8000-8000-000000000004\",\"a\":18446744073709551615,\"b\":-9223372036854775808}",
        )?,
    )?;
    for number in [
        "18446744073709551616",
        "-9223372036854775809",
        "1.5",
        "-0",
        "1e2",
    ] {
        let body = format!(in alloc; "{{\"change\":[{{\"payload\":{{\"a\":{number}}}}}]}}")?;
        rows.row(
            &commit(alloc, body.as_str())?,
            &refused(alloc, "400 Bad Request", "not-whole", "")?,
        )?;
    }
    assert!(rt; rows.hold(alloc)?);
    Ok(())
}

#[test]
fn wrong_bodies(rt: HostRuntime) -> Result<(), Fail> {
    let alloc = rt.alloc();
    let mut rows = Rows::start(alloc)?;
    rows.row(
        &commit(alloc, "{")?,
        &refused(alloc, "400 Bad Request", "bad-json", "")?,
    )?;
    for (body, key) in [
        ("[]", ""),
        ("{\"change\":1}", "change"),
        ("{\"change\":[{\"identity\":7},7]}", "change"),
        (
            "{\"change\":[{\"identity\":7}],\"description\":7}",
            "identity",
        ),
        ("{\"change\":[{\"payload\":7}]}", "payload"),
        ("{\"change\":[{\"payload\":{\"@id\":null}}]}", "@id"),
        ("{\"description\":7,\"previousCommit\":7}", "description"),
        ("{\"previousCommit\":[{}]}", "previousCommit"),
    ] {
        let more = format!(in alloc; ",\"key\":\"{key}\"")?;
        rows.row(
            &commit(alloc, body)?,
            &refused(alloc, "400 Bad Request", "bad-body", more.as_str())?,
        )?;
    }
    assert!(rt; rows.hold(alloc)?);
    Ok(())
}
