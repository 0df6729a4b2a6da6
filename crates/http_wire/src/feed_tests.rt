//! Worked streams.

use super::*;
use std::test::*;

const GET: &[u8] = b"GET /projects HTTP/1.1\r\nHost: h\r\n\r\n";

const POST: &[u8] = b"POST /a HTTP/1.1\r\nHost: h\r\nContent-Length: 12\r\n\r\n";

const BODY: &[u8] = b"{\"name\":\"P\"}";

/// What a feed answered.
#[derive(Clone, Copy, Debug, PartialEq)]
enum Kind {
    Waits,
    Gives,
    BadHead,
    UnknownCoding,
    Memory,
}

fn ask(rt: HostRuntime, feed: &mut Feed) -> Kind {
    match feed.next(rt.alloc()) {
        None => Kind::Waits,
        Some(Ok(_)) => Kind::Gives,
        Some(Err(e)) => match e {
            WireError::BadHead => Kind::BadHead,
            WireError::UnknownCoding => Kind::UnknownCoding,
            WireError::Memory => Kind::Memory,
        },
    }
}

fn push(feed: &mut Feed, bytes: &[u8]) -> Result<(), Fail> {
    feed.push(bytes).ok().ok_or("no memory")?;
    Ok(())
}

fn take(rt: HostRuntime, feed: &mut Feed) -> Result<Request, Fail> {
    let answer = feed.next(rt.alloc()).ok_or("nothing yet")?;
    Ok(answer.ok().ok_or("an error")?)
}

/// The answer to a start, a part so many times, and an end.
fn judge(
    rt: HostRuntime,
    start: &[u8],
    part: &[u8],
    times: usize,
    end: &[u8],
) -> Result<Kind, Fail> {
    let mut feed = Feed::new(rt.alloc());
    push(&mut feed, start)?;
    for _ in 0..times {
        push(&mut feed, part)?;
    }
    push(&mut feed, end)?;
    Ok(ask(rt, &mut feed))
}

#[test]
fn a_request_cut_after_each_byte(rt: HostRuntime) -> Result<(), Fail> {
    let mut feed = Feed::new(rt.alloc());
    for b in GET {
        assert_eq!(rt; ask(rt, &mut feed), Kind::Waits);
        push(&mut feed, &[*b])?;
    }
    let request = take(rt, &mut feed)?;
    assert_eq!(rt; request.method.as_str(), "GET");
    assert_eq!(rt; request.target.as_str(), "/projects");
    assert!(rt; request.body.as_slice().is_empty());
    assert!(rt; feed.is_empty());
    assert_eq!(rt; ask(rt, &mut feed), Kind::Waits);
    Ok(())
}

#[test]
fn two_requests_in_one_piece(rt: HostRuntime) -> Result<(), Fail> {
    let mut feed = Feed::new(rt.alloc());
    push(
        &mut feed,
        b"GET /a HTTP/1.1\r\nHost: h\r\n\r\nGET /b HTTP/1.1\r\nHost: h\r\n\r\n\r\n",
    )?;
    for target in ["/a", "/b"] {
        let request = take(rt, &mut feed)?;
        assert_eq!(rt; request.target.as_str(), target);
    }
    // The line end behind the last request may begin another one.
    assert_eq!(rt; ask(rt, &mut feed), Kind::Waits);
    assert!(rt; !feed.is_empty());
    Ok(())
}

#[test]
fn a_body_and_what_follows(rt: HostRuntime) -> Result<(), Fail> {
    let mut feed = Feed::new(rt.alloc());
    push(
        &mut feed,
        b"POST /projects HTTP/1.1\r\nHost: h\r\nContent-Length: 11\r\n\r\n{\"name\"",
    )?;
    assert_eq!(rt; ask(rt, &mut feed), Kind::Waits);
    push(&mut feed, b":\"P\"}")?;
    let request = take(rt, &mut feed)?;
    assert_eq!(rt; request.method.as_str(), "POST");
    assert_eq!(rt; request.body.as_slice(), b"{\"name\":\"P\"".as_slice());
    // The brace that is left begins no request, and no bytes behind it change that.
    assert_eq!(rt; ask(rt, &mut feed), Kind::BadHead);
    push(&mut feed, GET)?;
    assert_eq!(rt; ask(rt, &mut feed), Kind::BadHead);
    Ok(())
}

fn is_get(request: &Request) -> bool {
    request.target.as_str() == "/projects" && request.body.as_slice().is_empty()
}

fn is_post(request: &Request) -> bool {
    request.target.as_str() == "/a" && request.body.as_slice() == BODY
}

#[test]
fn a_body_between_two_requests(rt: HostRuntime) -> Result<(), Fail> {
    // So much of the last request is there with the body: less than the body, as much, and more.
    for cut in [0, 1, 11, 12, 13, 34, 35] {
        let mut feed = Feed::new(rt.alloc());
        for piece in [GET, POST, BODY, &GET[..cut]] {
            push(&mut feed, piece)?;
        }
        assert!(rt; is_get(&take(rt, &mut feed)?));
        assert!(rt; is_post(&take(rt, &mut feed)?));
        assert_eq!(rt; feed.is_empty(), cut == 0);
        push(&mut feed, &GET[cut..])?;
        assert!(rt; is_get(&take(rt, &mut feed)?));
        assert!(rt; feed.is_empty());
    }
    Ok(())
}

/// Pushes byte by byte. Nothing may be given before the last one.
fn push_each(rt: HostRuntime, feed: &mut Feed, bytes: &[u8]) -> Result<(), Fail> {
    for b in bytes {
        let waits = ask(rt, feed) == Kind::Waits;
        waits.then_some(()).ok_or("an answer too early")?;
        push(feed, &[*b])?;
    }
    Ok(())
}

#[test]
fn bodies_cut_after_each_byte(rt: HostRuntime) -> Result<(), Fail> {
    let mut feed = Feed::new(rt.alloc());
    for _ in 0..2 {
        push_each(rt, &mut feed, POST)?;
        push_each(rt, &mut feed, BODY)?;
        assert!(rt; is_post(&take(rt, &mut feed)?));
        push_each(rt, &mut feed, GET)?;
        assert!(rt; is_get(&take(rt, &mut feed)?));
    }
    assert!(rt; feed.is_empty());
    Ok(())
}

#[test]
fn heads(rt: HostRuntime) -> Result<(), Fail> {
    let table: [(&[u8], Kind); 11] = [
        (GET, Kind::Gives),
        (b"G{T", Kind::BadHead),
        // A fault at the first space or behind it is found when its line ends.
        (b" GET / HTTP/1.1", Kind::Waits),
        (b" GET / HTTP/1.1\n", Kind::BadHead),
        (b"GET / HTTQ", Kind::Waits),
        (b"GET / HTTQ\r\n", Kind::BadHead),
        // So is a target that isn't UTF-8.
        (b"GET /\xff HTTP/1.1", Kind::Waits),
        (b"GET /\xff HTTP/1.1\r\n", Kind::BadHead),
        (b"GET / HTTP/1.0\r\nHost: h\r\n\r\n", Kind::UnknownCoding),
        (b"GET / HTTP/1.1\r\n\r\n", Kind::UnknownCoding),
        (b"GET / HTTP/1.1\r\nHost h\r\n", Kind::BadHead),
    ];
    for (bytes, want) in table {
        assert_eq!(rt; judge(rt, bytes, b"", 0, b"")?, want);
    }
    Ok(())
}

#[test]
fn fields(rt: HostRuntime) -> Result<(), Fail> {
    let table: [(&[u8], Kind); 16] = [
        (b"HOST: h\r\n", Kind::UnknownCoding),
        (b"Transfer-Encoding: chunked\r\n", Kind::UnknownCoding),
        (b"Connection: close\r\n", Kind::UnknownCoding),
        (
            b"Connection: keep-alive\r\nConnection: close\r\n",
            Kind::UnknownCoding,
        ),
        (b"CONNECTION: Keep-Alive\r\n", Kind::Gives),
        (b"Content-Length: 0\r\n", Kind::Gives),
        (b"Content-Length: 0012\r\n", Kind::Waits),
        (
            b"Content-Length: 000000000000000000000000000012\r\n",
            Kind::Waits,
        ),
        (b"Content-Length: 67108864\r\n", Kind::Waits),
        (b"Content-Length: 67108865\r\n", Kind::UnknownCoding),
        (
            b"Content-Length: 18446744073709551616\r\n",
            Kind::UnknownCoding,
        ),
        (b"Content-Length: \r\n", Kind::UnknownCoding),
        (b"Content-Length: +1\r\n", Kind::UnknownCoding),
        (b"Content-Length: 1 2\r\n", Kind::UnknownCoding),
        (
            b"Content-Length: 0\r\ncontent-length: 0\r\n",
            Kind::UnknownCoding,
        ),
        (
            b"Content-Length: 0\r\nTransfer-Encoding: chunked\r\n",
            Kind::UnknownCoding,
        ),
    ];
    for (lines, want) in table {
        assert_eq!(rt;
            judge(rt, b"POST / HTTP/1.1\r\nHost: h\r\n", lines, 1, b"\r\n")?,
            want
        );
    }
    Ok(())
}

#[test]
fn many_fields(rt: HostRuntime) -> Result<(), Fail> {
    // Beside Host there are as many fields as the number says.
    let table: [(usize, &[u8], Kind); 5] = [
        (63, b"\r\n", Kind::Gives),
        (64, b"\r\n", Kind::UnknownCoding),
        (64, b"a", Kind::Waits),
        (64, b"{", Kind::Waits),
        (64, b"{\n", Kind::BadHead),
    ];
    for (times, end, want) in table {
        assert_eq!(rt;
            judge(rt, b"GET / HTTP/1.1\r\nHost: h\r\n", b"a:\n", times, end)?,
            want
        );
    }
    Ok(())
}

#[test]
fn long_heads(rt: HostRuntime) -> Result<(), Fail> {
    // The start and the whole end have 27 bytes.
    let table: [(usize, &[u8], Kind); 6] = [
        (16_357, b" HTTP/1.1\r\nHost: h\r\n\r\n", Kind::Gives),
        (16_357, b" HTTP/1.1\r\nHost: h\r\n\r", Kind::Waits),
        (16_358, b" HTTP/1.1\r\nHost: h\r\n\r\n", Kind::UnknownCoding),
        (16_358, b" HTTP/1.1\r\nHost: h\r\n\r", Kind::UnknownCoding),
        (16_378, b"", Kind::Waits),
        (16_379, b"", Kind::UnknownCoding),
    ];
    for (times, end, want) in table {
        assert_eq!(rt; judge(rt, b"GET /", b"a", times, end)?, want);
    }
    Ok(())
}
