mod branches;
mod changes;
mod commits;
mod flag;
mod keeping;
mod projects;
mod routes;
mod rows;
mod tags;

use super::*;
use journal_disk::MemoryDisk;
use std::alloc::Global;
use std::test::Fail;
use sysapi_base::{MemoryClock, MemorySink, MemorySource, Moment};

/// 2000-01-01T00:00:00.000Z.
const NOW: u64 = 946_684_800_000;

const POST: &[u8] =
    b"POST /projects HTTP/1.1\r\nHost: h\r\nContent-Length: 12\r\n\r\n{\"name\":\"P\"}";

const GET: &[u8] =
    b"GET /projects/00000000-0001-8000-8000-000000000000 HTTP/1.1\r\nHost: h\r\n\r\n";

const CREATED: &[u8] =
    b"HTTP/1.1 201 Created\r\nDate: Sat, 01 Jan 2000 00:00:00 GMT\r\nContent-Type: application/json\r\nContent-Length: 194\r\n\r\n";

const FOUND: &[u8] =
    b"HTTP/1.1 200 OK\r\nDate: Sat, 01 Jan 2000 00:00:00 GMT\r\nContent-Type: application/json\r\nContent-Length: 194\r\n\r\n";

const PROJECT: &[u8] =
    br#"{"@id":"00000000-0001-8000-8000-000000000000","@type":"Project","created":"2000-01-01T00:00:00.000Z","defaultBranch":{"@id":"00000000-0001-8000-8000-000000000001"},"description":null,"name":"P"}"#;

/// The project of the serial 10.
const SIXTH_PROJECT: &[u8] =
    br#"{"@id":"00000000-0001-8000-8000-00000000000a","@type":"Project","created":"2000-01-01T00:00:00.000Z","defaultBranch":{"@id":"00000000-0001-8000-8000-00000000000b"},"description":null,"name":"P"}"#;

const UNKNOWN_CODING: &[u8] =
    b"HTTP/1.1 501 Not Implemented\r\nDate: Sat, 01 Jan 2000 00:00:00 GMT\r\nContent-Type: application/json\r\nContent-Length: 42\r\nConnection: close\r\n\r\n{\"@type\":\"Error\",\"error\":\"unknown-coding\"}";

const UNKNOWN: &[u8] =
    b"HTTP/1.1 404 Not Found\r\nDate: Sat, 01 Jan 2000 00:00:00 GMT\r\nContent-Type: application/json\r\nContent-Length: 43\r\n\r\n{\"@type\":\"Error\",\"error\":\"unknown-project\"}";

const NO_ROUTE: &[u8] =
    b"HTTP/1.1 404 Not Found\r\nDate: Sat, 01 Jan 2000 00:00:00 GMT\r\nContent-Type: application/json\r\nContent-Length: 36\r\n\r\n{\"@type\":\"Error\",\"error\":\"no-route\"}";

const BAD_JSON: &[u8] =
    b"HTTP/1.1 400 Bad Request\r\nDate: Sat, 01 Jan 2000 00:00:00 GMT\r\nContent-Type: application/json\r\nContent-Length: 36\r\n\r\n{\"@type\":\"Error\",\"error\":\"bad-json\"}";

const BAD_HEAD: &[u8] =
    b"HTTP/1.1 400 Bad Request\r\nDate: Sat, 01 Jan 2000 00:00:00 GMT\r\nContent-Type: application/json\r\nContent-Length: 36\r\nConnection: close\r\n\r\n{\"@type\":\"Error\",\"error\":\"bad-head\"}";

/// What the program did.
#[derive(Drop)]
struct Ran {
    status: u8,
    output: Vec<u8>,
    complaints: Vec<u8>,
}

fn joined(alloc: Global, parts: &[&[u8]]) -> Result<Vec<u8>, Fail> {
    let mut all = Vec::new(alloc);
    for part in parts {
        all.extend_from_slice(part)?;
    }
    Ok(all)
}

/// Runs the program on these words, between which a space stands.
fn run(
    alloc: Global,
    text: &str,
    mut source: MemorySource,
    mut sink: MemorySink,
) -> Result<Ran, Fail> {
    let mut words = Vec::new(alloc);
    for word in text.split(' ') {
        words.push(String::from_str(alloc, word)?)?;
    }
    let mut complaints = MemorySink::new(alloc);
    let mut clock = MemoryClock::new(Moment::at_most(NOW), 0);
    let ran = run_offline(
        alloc,
        &words,
        &mut source,
        &mut sink,
        &mut complaints,
        MemoryDisk::new(alloc),
        &mut clock,
    );
    Ok(Ran {
        status: ran.status,
        output: Vec::from_slice(alloc, sink.bytes().ok_or("the sink tells")?)?,
        complaints: Vec::from_slice(alloc, complaints.bytes().ok_or("the complaints tell")?)?,
    })
}

fn once(alloc: Global, input: &[u8]) -> Result<Ran, Fail> {
    let source = MemorySource::new(alloc, Vec::from_slice(alloc, input)?);
    run(alloc, "once", source, MemorySink::new(alloc))
}

fn post(alloc: Global, body: &[u8]) -> Result<Vec<u8>, Fail> {
    let head = format!(in alloc;
        "POST /projects HTTP/1.1\r\nHost: h\r\nContent-Length: {}\r\n\r\n",
        body.len()
    )?;
    joined(alloc, &[head.as_bytes(), body])
}

#[test]
fn empty_input(rt: HostRuntime) -> Result<(), Fail> {
    let ran = once(rt.alloc(), b"")?;
    assert_eq!(rt; ran.status, 0);
    assert!(rt; ran.output.is_empty());
    assert!(rt; ran.complaints.is_empty());
    Ok(())
}

#[test]
fn first_project(rt: HostRuntime) -> Result<(), Fail> {
    let alloc = rt.alloc();
    let ran = once(alloc, &joined(alloc, &[POST, GET])?)?;
    let expected = joined(alloc, &[CREATED, PROJECT, FOUND, PROJECT])?;
    assert_eq!(rt; ran.output.as_slice(), expected.as_slice());
    assert_eq!(rt; ran.status, 0);
    assert!(rt; ran.complaints.is_empty());
    Ok(())
}

#[test]
fn refused_routes(rt: HostRuntime) -> Result<(), Fail> {
    let alloc = rt.alloc();
    let project = b"GET /project HTTP/1.1\r\nHost: h\r\n\r\n";
    let ran = once(alloc, &joined(alloc, &[GET, project])?)?;
    let expected = joined(alloc, &[UNKNOWN, NO_ROUTE])?;
    assert_eq!(rt; ran.output.as_slice(), expected.as_slice());
    assert_eq!(rt; ran.status, 0);
    Ok(())
}

#[test]
fn parameters_and_upper_case(rt: HostRuntime) -> Result<(), Fail> {
    let alloc = rt.alloc();
    let posted =
        b"POST /projects?x=1 HTTP/1.1\r\nHost: h\r\nContent-Length: 12\r\n\r\n{\"name\":\"P\"}";
    let asked = b"GET /projects/00000000-0001-8000-8000-00000000000A?x HTTP/1.1\r\nHost: h\r\n\r\n";
    let ran = once(
        alloc,
        &joined(alloc, &[POST, POST, POST, POST, POST, posted, asked])?,
    )?;
    let found = joined(alloc, &[FOUND, SIXTH_PROJECT])?;
    assert!(rt; ran.output.as_slice().ends_with(&found));
    assert_eq!(rt; ran.status, 0);
    Ok(())
}

#[test]
fn form_that_is_not_built(rt: HostRuntime) -> Result<(), Fail> {
    let alloc = rt.alloc();
    let chunked =
        b"POST /projects HTTP/1.1\r\nHost: h\r\nTransfer-Encoding: chunked\r\n\r\n0\r\n\r\n";
    let ran = once(alloc, chunked)?;
    assert_eq!(rt; ran.output.as_slice(), UNKNOWN_CODING);
    assert_eq!(rt; ran.status, 6);
    Ok(())
}

#[test]
fn one_byte_behind_the_body(rt: HostRuntime) -> Result<(), Fail> {
    let alloc = rt.alloc();
    let ran = once(
        alloc,
        b"POST /projects HTTP/1.1\r\nHost: h\r\nContent-Length: 11\r\n\r\n{\"name\":\"P\"}",
    )?;
    let expected = joined(alloc, &[BAD_JSON, BAD_HEAD])?;
    assert_eq!(rt; ran.output.as_slice(), expected.as_slice());
    assert_eq!(rt; ran.status, 6);
    assert_eq!(rt;
        ran.complaints.as_slice(),
        b"sysapi: request refused\n".as_slice()
    );
    Ok(())
}

#[test]
fn input_that_ends_in_the_body(rt: HostRuntime) -> Result<(), Fail> {
    let ran = once(rt.alloc(), &POST[..60])?;
    assert!(rt; ran.output.is_empty());
    assert_eq!(rt; ran.status, 6);
    assert_eq!(rt;
        ran.complaints.as_slice(),
        b"sysapi: input cut short\n".as_slice()
    );
    Ok(())
}

#[test]
fn cut_after_each_byte(rt: HostRuntime) -> Result<(), Fail> {
    let alloc = rt.alloc();
    let source = MemorySource::new(alloc, joined(alloc, &[POST, GET])?).in_pieces(1);
    let ran = run(alloc, "once", source, MemorySink::new(alloc).in_pieces(1))?;
    let expected = joined(alloc, &[CREATED, PROJECT, FOUND, PROJECT])?;
    assert_eq!(rt; ran.output.as_slice(), expected.as_slice());
    assert_eq!(rt; ran.status, 0);
    Ok(())
}

#[test]
fn read_fault_behind_a_request(rt: HostRuntime) -> Result<(), Fail> {
    let alloc = rt.alloc();
    let mut calls = Vec::new(alloc);
    calls.push(1)?;
    let source = MemorySource::failing(joined(alloc, &[POST, GET])?, calls).in_pieces(POST.len());
    let ran = run(alloc, "once", source, MemorySink::new(alloc))?;
    assert_eq!(rt;
        ran.output.as_slice(),
        joined(alloc, &[CREATED, PROJECT])?.as_slice()
    );
    assert_eq!(rt; ran.status, 1);
    assert_eq!(rt;
        ran.complaints.as_slice(),
        b"sysapi: read fault\n".as_slice()
    );
    Ok(())
}

#[test]
fn write_fault_in_a_response(rt: HostRuntime) -> Result<(), Fail> {
    let alloc = rt.alloc();
    let mut calls = Vec::new(alloc);
    calls.push(1)?;
    let source = MemorySource::new(alloc, joined(alloc, &[POST, GET])?);
    let sink = MemorySink::failing(alloc, calls).in_pieces(100);
    let ran = run(alloc, "once", source, sink)?;
    assert_eq!(rt; ran.output.as_slice(), &CREATED[..100]);
    assert_eq!(rt; ran.status, 1);
    assert_eq!(rt;
        ran.complaints.as_slice(),
        b"sysapi: write fault\n".as_slice()
    );
    Ok(())
}

#[test]
fn bad_bodies(rt: HostRuntime) -> Result<(), Fail> {
    let alloc = rt.alloc();
    let mut deep = vec![in alloc; b'['; 101]?;
    deep.extend_from_slice(&[b']'; 101])?;
    let bodies: [(&[u8], &str); 13] = [
        (b"", "\"bad-json\""),
        (b"{", "\"bad-json\""),
        (b"\xff", "\"bad-json\""),
        (b"{\"name\":\"P\"}}", "\"bad-json\""),
        (b"[]", "\"bad-body\",\"key\":\"\""),
        (b"7", "\"bad-body\",\"key\":\"\""),
        (b"null", "\"bad-body\",\"key\":\"\""),
        (b"{\"name\":7}", "\"bad-body\",\"key\":\"name\""),
        (
            b"{\"description\":[],\"name\":7}",
            "\"bad-body\",\"key\":\"name\"",
        ),
        (
            b"{\"description\":[]}",
            "\"bad-body\",\"key\":\"description\"",
        ),
        (b"{\"name\":\"P\",\"x\":1.5}", "\"not-whole\""),
        (
            b"{\"name\":\"P\",\"x\":18446744073709551616}",
            "\"not-whole\"",
        ),
        (&deep, "\"too-deep\""),
    ];
    for (body, error) in &bodies {
        let ran = once(alloc, &post(alloc, body)?)?;
        let told = format!(in alloc; "{{\"@type\":\"Error\",\"error\":{error}}}")?;
        let expected = rows::response(alloc, "400 Bad Request", told.as_str())?;
        assert_eq!(rt; ran.output.as_slice(), expected.as_slice());
        assert_eq!(rt; ran.status, 0);
    }
    Ok(())
}

#[test]
fn words_that_are_not_the_language(rt: HostRuntime) -> Result<(), Fail> {
    let alloc = rt.alloc();
    for words in ["twice", "once --room 5", "once once", "Once", ""] {
        let source = MemorySource::new(alloc, Vec::from_slice(alloc, POST)?);
        let ran = run(alloc, words, source, MemorySink::new(alloc))?;
        assert_eq!(rt; ran.status, 2);
        assert!(rt; ran.output.is_empty());
        assert_eq!(rt;
            ran.complaints.as_slice(),
            b"sysapi: bad words\n".as_slice()
        );
    }
    Ok(())
}
