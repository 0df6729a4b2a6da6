ghost use Rattle.http_wire.specs.Responses.{HasPhrase};

use super::*;
use std::test::*;

// 2000-01-01T00:00:00Z
const Y2K: u64 = 946_684_800_000;

fn moment(millis: u64) -> Result<Moment, Fail> {
    Ok(Moment::from_millis(millis).ok_or("a moment")?)
}

fn written(
    rt: HostRuntime,
    status: u16,
    allow: Option<&str>,
    close: bool,
    no_body: bool,
    body: &[u8],
) -> Result<Vec<u8>, Fail>
    requires { HasPhrase status }
{
    let allow = match allow {
        Some(methods) => Some(Text::of(String::from_str(rt.alloc(), methods)?)),
        None => None,
    };
    let response = Response {
        status,
        moment: moment(Y2K)?,
        allow,
        close,
        no_body,
        body: Bytes::of(Vec::from_slice(rt.alloc(), body)?),
    };
    Ok(
        write_response(rt.alloc(), &response)
            .ok()
            .ok_or("no memory")?,
    )
}

#[test]
fn a_project_is_created(rt: HostRuntime) -> Result<(), Fail> {
    let body =
        br#"{"@id":"00000000-0001-8000-8000-000000000000","@type":"Project","created":"2000-01-01T00:00:00.000Z","defaultBranch":{"@id":"00000000-0001-8000-8000-000000000001"},"description":null,"name":"P"}"#;
    let mut expected = Vec::from_slice(
        rt.alloc(),
        b"HTTP/1.1 201 Created\r\nDate: Sat, 01 Jan 2000 00:00:00 GMT\r\nContent-Type: application/json\r\nContent-Length: 194\r\n\r\n",
    )?;
    expected.extend_from_slice(body)?;
    let text = written(rt, 201, None, false, false, body)?;
    assert_eq!(rt; text.as_slice(), expected.as_slice());
    Ok(())
}

#[test]
fn a_project_is_unknown(rt: HostRuntime) -> Result<(), Fail> {
    let text = written(
        rt,
        404,
        None,
        false,
        false,
        br#"{"@type":"Error","error":"unknown-project"}"#,
    )?;
    assert_eq!(rt;
        text.as_slice(),
        b"HTTP/1.1 404 Not Found\r\nDate: Sat, 01 Jan 2000 00:00:00 GMT\r\nContent-Type: application/json\r\nContent-Length: 43\r\n\r\n{\"@type\":\"Error\",\"error\":\"unknown-project\"}".as_slice()
    );
    Ok(())
}

#[test]
fn a_head_alone_tells_the_length(rt: HostRuntime) -> Result<(), Fail> {
    let text = written(
        rt,
        404,
        None,
        true,
        true,
        br#"{"@type":"Error","error":"unknown-project"}"#,
    )?;
    assert_eq!(rt;
        text.as_slice(),
        b"HTTP/1.1 404 Not Found\r\nDate: Sat, 01 Jan 2000 00:00:00 GMT\r\nContent-Type: application/json\r\nContent-Length: 43\r\nConnection: close\r\n\r\n".as_slice()
    );
    Ok(())
}

#[test]
fn the_methods_are_told(rt: HostRuntime) -> Result<(), Fail> {
    let text = written(
        rt,
        405,
        Some("GET, POST"),
        true,
        false,
        br#"{"@type":"Error","error":"no-method"}"#,
    )?;
    assert_eq!(rt;
        text.as_slice(),
        b"HTTP/1.1 405 Method Not Allowed\r\nDate: Sat, 01 Jan 2000 00:00:00 GMT\r\nContent-Type: application/json\r\nContent-Length: 37\r\nAllow: GET, POST\r\nConnection: close\r\n\r\n{\"@type\":\"Error\",\"error\":\"no-method\"}".as_slice()
    );
    Ok(())
}

#[test]
fn an_empty_list_is_found(rt: HostRuntime) -> Result<(), Fail> {
    let text = written(rt, 200, None, false, false, b"[]")?;
    assert_eq!(rt;
        text.as_slice(),
        b"HTTP/1.1 200 OK\r\nDate: Sat, 01 Jan 2000 00:00:00 GMT\r\nContent-Type: application/json\r\nContent-Length: 2\r\n\r\n[]".as_slice()
    );
    Ok(())
}

#[test]
fn no_memory_closes(rt: HostRuntime) -> Result<(), Fail> {
    let text = fixed_response(503, moment(Y2K)?, true, false);
    assert_eq!(rt;
        text.as_slice(),
        b"HTTP/1.1 503 Service Unavailable\r\nDate: Sat, 01 Jan 2000 00:00:00 GMT\r\nContent-Type: application/json\r\nContent-Length: 34\r\nConnection: close\r\n\r\n{\"@type\":\"Error\",\"error\":\"memory\"}".as_slice()
    );
    Ok(())
}

// The third is the example of RFC 9110, section 5.6.7.
#[test]
fn dates(rt: HostRuntime) -> Result<(), Fail> {
    for (millis, date) in [
        (951_782_400_000, "Tue, 29 Feb 2000 00:00:00 GMT"),
        (4_107_542_400_000, "Mon, 01 Mar 2100 00:00:00 GMT"),
        (784_111_777_999, "Sun, 06 Nov 1994 08:49:37 GMT"),
        (0, "Thu, 01 Jan 1970 00:00:00 GMT"),
        (253_402_300_799_999, "Fri, 31 Dec 9999 23:59:59 GMT"),
    ] {
        let text = fixed_response(507, moment(millis)?, false, true);
        let start = b"HTTP/1.1 507 Insufficient Storage\r\nDate: ".len();
        assert_eq!(rt;
            text.as_slice().get(start..start + 29),
            Some(date.as_bytes())
        );
    }
    Ok(())
}

fn shared<T: Send + Sync + Drop>(_value: T) {}

#[test]
fn threads_can_share_them(rt: HostRuntime) -> Result<(), Fail> {
    let body = Bytes::of(Vec::new(rt.alloc()));
    let moment = moment(Y2K)?;
    shared(Response {
        status: 200,
        moment,
        allow: None,
        close: false,
        no_body: false,
        body,
    });
    shared(fixed_response(500, moment, false, false));
    Ok(())
}
