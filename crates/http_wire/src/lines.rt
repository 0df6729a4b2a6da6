//! The lines of a response's head. Each fits the room of a `Fixed` with the longest phrase and the longest numbers.

ghost use Rattle.std.specs.Prelude.{◌≡◌, ◌+◌, ◌≤◌, ◌++◌, length, OnOk};
ghost use Rattle.http_wire.specs.Responses.{HasPhrase, status_line, date_line, type_line, length_line, allow_line, close_line, line_end};

use crate::date::http_date;
use crate::fixed::{Fixed, ROOM};
use crate::status::phrase;
use sysapi_base::{Memory, Moment, Text};

fn put_status(text: &mut Fixed, status: u16)
    requires phrase { HasPhrase status }
    requires room { length text.old + 63 ≤ ROOM }
    ensures text { text.new ≡ text.old ++ status_line status }
    ensures size { length text.new ≤ length text.old + 63 }
{
    text.put(b"HTTP/1.1 ");
    text.put_number(status as u64);
    text.put(b" ");
    text.put(phrase(status).as_bytes());
    text.put(b"\r\n");
}

fn put_date(text: &mut Fixed, moment: Moment)
    requires { length text.old + 37 ≤ ROOM }
    ensures text { text.new ≡ text.old ++ date_line moment }
    ensures size { length text.new ≡ length text.old + 37 }
{
    text.put(b"Date: ");
    text.put(&http_date(moment));
    text.put(b"\r\n");
}

fn put_length(text: &mut Fixed, size: usize)
    requires { length text.old + 38 ≤ ROOM }
    ensures text { text.new ≡ text.old ++ length_line size }
    ensures size { length text.new ≤ length text.old + 38 }
{
    text.put(b"Content-Length: ");
    text.put_number(size as u64);
    text.put(b"\r\n");
}

/// The head up to the length of the body.
pub(crate) fn opening(status: u16, moment: Moment, size: usize) -> Fixed
    requires { HasPhrase status }
    ensures text { result ≡ status_line status ++ date_line moment ++ type_line ++ length_line size }
    ensures size { length result ≤ 170 }
{
    let mut text = Fixed::new();
    put_status(&mut text, status);
    put_date(&mut text, moment);
    text.put(b"Content-Type: application/json\r\n");
    put_length(&mut text, size);
    text
}

/// How many bytes the line of the methods has.
pub(crate) fn allow_size(allow: &Option<Text>) -> usize
    ensures { result ≡ length (allow_line allow.now) }
{
    match allow {
        Some(methods) => b"Allow: ".len() + methods.as_str().len() + b"\r\n".len(),
        None => 0,
    }
}

/// Adds the line of the methods, where they are told.
pub(crate) fn put_allow(text: &mut Vec<u8>, allow: &Option<Text>) -> Result<(), Memory>
    ensures { OnOk result (text.new.items ≡ text.old.items ++ allow_line allow.now) }
{
    if let Some(methods) = allow {
        text.extend_from_slice(b"Allow: ")?;
        text.extend_from_slice(methods.as_str().as_bytes())?;
        text.extend_from_slice(b"\r\n")?;
    }
    Ok(())
}

/// The rest of the head, and the empty line.
pub(crate) fn ending(close: bool) -> &'static [u8]
    ensures text { result.now ≡ close_line close ++ line_end }
    ensures size { length result.now ≤ 21 }
{
    if close {
        b"Connection: close\r\n\r\n"
    } else {
        b"\r\n"
    }
}
