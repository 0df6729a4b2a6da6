//! Rows that follow one another in one session, each a request and its response.

use super::{Ran, joined, once, run};
use std::alloc::Global;
use std::test::Fail;
use sysapi_base::{MemorySink, MemorySource};

/// The path of the first project's commits.
pub(super) const COMMITS: &str = "/projects/00000000-0001-8000-8000-000000000000/commits";

/// The method and the target of a request, its body, and the status and the body of the response. In the targets and the bodies a
/// `$` stands for all but the last digit of an id that repository 1 made.
pub(super) type Row = (&'static str, &'static str, &'static str, &'static str);

/// The text of the id that repository 1 makes of a serial.
pub(super) fn id(alloc: Global, serial: u64) -> Result<String, Fail> {
    Ok(format!(in alloc; "00000000-0001-8000-8000-{serial:012x}")?)
}

/// The text with its ids written out.
fn in_full(alloc: Global, text: &str) -> Result<String, Fail> {
    Ok(text.replace(alloc, '$', "00000000-0001-8000-8000-00000000000")?)
}

/// A request; one without a body has no length either.
pub(super) fn request(alloc: Global, asked: &str, body: &str) -> Result<Vec<u8>, Fail> {
    let asked = in_full(alloc, asked)?;
    let body = in_full(alloc, body)?;
    let text = if body.is_empty() {
        format!(in alloc; "{asked} HTTP/1.1\r\nHost: h\r\n\r\n")?
    } else {
        format!(in alloc;
            "{asked} HTTP/1.1\r\nHost: h\r\nContent-Length: {}\r\n\r\n{body}",
            body.len()
        )?
    };
    Ok(Vec::from_slice(alloc, text.as_bytes())?)
}

pub(super) fn commit(alloc: Global, body: &str) -> Result<Vec<u8>, Fail> {
    request(alloc, "POST /projects/$0/commits", body)
}

/// A response with this status line and body.
pub(super) fn response(alloc: Global, status: &str, body: &str) -> Result<Vec<u8>, Fail> {
    let body = in_full(alloc, body)?;
    let text = format!(in alloc;
        "HTTP/1.1 {status}\r\nDate: Sat, 01 Jan 2000 00:00:00 GMT\r\nContent-Type: application/json\r\nContent-Length: {}\r\n\r\n{body}",
        body.len()
    )?;
    Ok(Vec::from_slice(alloc, text.as_bytes())?)
}

/// The response that tells a commit of the first project.
pub(super) fn made(alloc: Global, serial: u64, previous: Option<u64>) -> Result<Vec<u8>, Fail> {
    let this = id(alloc, serial)?;
    let previous = match previous {
        Some(serial) => format!(in alloc; "{{\"@id\":\"{}\"}}", id(alloc, serial)?)?,
        None => String::from_str(alloc, "null")?,
    };
    let body = format!(in alloc;
        "{{\"@id\":\"{this}\",\"@type\":\"Commit\",\"created\":\"2000-01-01T00:00:00.000Z\",\"description\":null,\"owningProject\":{{\"@id\":\"$0\"}},\"previousCommit\":{previous}}}"
    )?;
    response(alloc, "201 Created", body.as_str())
}

/// The response that tells an error; `more` is the rest of its object.
pub(super) fn refused(
    alloc: Global,
    status: &str,
    name: &str,
    more: &str,
) -> Result<Vec<u8>, Fail> {
    let body = format!(in alloc; "{{\"@type\":\"Error\",\"error\":\"{name}\"{more}}}")?;
    response(alloc, status, body.as_str())
}

/// The rows that follow one another: each is a request and its response behind those before it.
#[derive(Drop)]
pub(super) struct Rows {
    requests: Vec<u8>,
    responses: Vec<u8>,
}

impl Rows {
    /// No row yet.
    pub(super) fn none(alloc: Global) -> Rows {
        Rows {
            requests: Vec::new(alloc),
            responses: Vec::new(alloc),
        }
    }

    /// The first project.
    pub(super) fn start(alloc: Global) -> Result<Rows, Fail> {
        Ok(Rows {
            requests: Vec::from_slice(alloc, super::POST)?,
            responses: joined(alloc, &[super::CREATED, super::PROJECT])?,
        })
    }

    pub(super) fn row(&mut self, request: &[u8], response: &[u8]) -> Result<(), Fail> {
        self.requests.extend_from_slice(request)?;
        self.responses.extend_from_slice(response)?;
        Ok(())
    }

    pub(super) fn rows(&mut self, alloc: Global, rows: &[Row]) -> Result<(), Fail> {
        for (asked, body, status, told) in rows {
            let request = request(alloc, asked, body)?;
            let response = response(alloc, status, told)?;
            self.row(&request, &response)?;
        }
        Ok(())
    }

    /// The first project, and its commit 2, which makes element 4.
    pub(super) fn one_commit(alloc: Global) -> Result<Rows, Fail> {
        let mut rows = Rows::start(alloc)?;
        rows.row(
            &commit(
                alloc,
                "{\"change\":[{\"payload\":{\"@type\":\"Package\",\"declaredName\":\"A\"}}],\"previousCommit\":null}",
            )?,
            &made(alloc, 2, None)?,
        )?;
        Ok(rows)
    }

    /// The commits 2, 5 and 7: element 4 is made, replaced and deleted.
    pub(super) fn three_commits(alloc: Global) -> Result<Rows, Fail> {
        let mut rows = Rows::one_commit(alloc)?;
        rows.row(
            &commit(
                alloc,
                "{\"change\":[{\"identity\":{\"@id\":\"$4\"},\"payload\":{\"@type\":\"Package\",\"declaredName\":\"B\"}}]}",
            )?,
            &made(alloc, 5, Some(2))?,
        )?;
        rows.row(
            &commit(
                alloc,
                "{\"change\":[{\"identity\":{\"@id\":\"$4\"},\"payload\":null}]}",
            )?,
            &made(alloc, 7, Some(5))?,
        )?;
        Ok(rows)
    }

    /// Whether the session gives the responses.
    pub(super) fn hold(&self, alloc: Global) -> Result<bool, Fail> {
        Ok(self.are_told(&once(alloc, &self.requests)?))
    }

    /// Whether it gives them where each read and each write moves one byte.
    pub(super) fn hold_byte_by_byte(&self, alloc: Global) -> Result<bool, Fail> {
        let requests = Vec::from_slice(alloc, &self.requests)?;
        let source = MemorySource::new(alloc, requests).in_pieces(1);
        let sink = MemorySink::new(alloc).in_pieces(1);
        Ok(self.are_told(&run(alloc, "once", source, sink)?))
    }

    fn are_told(&self, ran: &Ran) -> bool {
        ran.status == 0 && ran.output.as_slice() == self.responses.as_slice()
    }
}

/// Whether the rows hold behind the first project's first commit.
pub(super) fn hold_behind_a_commit(alloc: Global, rows: &[Row]) -> Result<bool, Fail> {
    let mut all = Rows::one_commit(alloc)?;
    all.rows(alloc, rows)?;
    all.hold(alloc)
}
