//! What a head's fields say of the body.

ghost use Rattle.std.specs.Prelude.{◌≡◌, ◌≤◌, [], ◌∷◌, ◌++◌, length, map, All, IfSome, List, ℕ};
ghost use Rattle.httparse.specs.Spans.{IsHeaderWithin, header_bytes};
ghost use Rattle.http_wire.specs.Fields.{same_text, values, IsFound, are_kept_alive, body_len, with_digit, length_of_text, length_in};

use crate::head::FIELDS_MOST;
use httparse::spans::HeaderSpan;

/// A body has at most so many bytes.
pub const BODY_MOST: usize = 67_108_864;

/// The values of the fields of one name.
#[derive(Clone, Copy)]
enum Found<'a> {
    Absent,
    Once(&'a [u8]),
    Repeated,
}

impl<'a> Found<'a> {
    fn with(self, value: &'a [u8]) -> Found<'a>
        ensures { (vs : List (List ℕ)) → IsFound self.entry vs → IsFound result (vs ++ value.now ∷ []) }
    {
        match self {
            Found::Absent => Found::Once(value),
            _ => Found::Repeated,
        }
    }
}

fn is_same_text(a: &[u8], b: &[u8]) -> bool
    ensures { result ≡ same_text a.now b.now }
{
    a.eq_ignore_ascii_case(b)
}

fn find<'a>(bytes: &'a [u8], fields: &[HeaderSpan], name: &[u8]) -> Found<'a>
    requires { All (IsHeaderWithin (length bytes.now)) fields.now }
    ensures { IsFound result (values name.now (map (header_bytes bytes.now) fields.now)) }
{
    let mut found = Found::Absent;
    for field in fields {
        if is_same_text(field.name.of(bytes), name) {
            found = found.with(field.value.of(bytes));
        }
    }
    found
}

fn is_kept_alive(bytes: &[u8], fields: &[HeaderSpan]) -> bool
    requires { All (IsHeaderWithin (length bytes.now)) fields.now }
    ensures { result ≡ are_kept_alive (map (header_bytes bytes.now) fields.now) }
{
    for field in fields {
        if is_same_text(field.name.of(bytes), b"connection")
            && !is_same_text(field.value.of(bytes), b"keep-alive")
        {
            return false;
        }
    }
    true
}

/// The length with one more digit. None where it is no digit, or the length is above the limit.
fn push_digit(len: usize, digit: u8) -> Option<usize>
    requires { len ≤ BODY_MOST }
    ensures bound { IfSome result (λ more. more ≤ BODY_MOST) }
    ensures value { result ≡ with_digit len digit }
{
    if !digit.is_ascii_digit() {
        return None;
    }
    let more = len * 10 + usize::from(digit - b'0');
    if more <= BODY_MOST { Some(more) } else { None }
}

/// The length that a Content-Length writes (RFC 9110, section 8.6), with any number of zeros before it. None where the
/// text is empty or has another byte than a digit, or the length is above the limit.
fn parse_length(text: &[u8]) -> Option<usize>
    ensures bound { IfSome result (λ n. n ≤ BODY_MOST) }
    ensures value { result ≡ length_of_text text.now }
{
    if text.is_empty() {
        return None;
    }
    let mut len = 0;
    for digit in text {
        len = push_digit(len, *digit)?;
    }
    Some(len)
}

fn length_in(bytes: &[u8], fields: &[HeaderSpan]) -> Option<usize>
    requires { All (IsHeaderWithin (length bytes.now)) fields.now }
    ensures bound { IfSome result (λ n. n ≤ BODY_MOST) }
    ensures value { result ≡ length_in (map (header_bytes bytes.now) fields.now) }
{
    match find(bytes, fields, b"content-length") {
        Found::Absent => Some(0),
        Found::Once(value) => parse_length(value),
        Found::Repeated => None,
    }
}

/// The length of the body, or None where this form of request isn't built.
pub(crate) fn body_len(bytes: &[u8], minor: u8, fields: &[HeaderSpan]) -> Option<usize>
    requires within { All (IsHeaderWithin (length bytes.now)) fields.now }
    requires few { length fields.now ≤ FIELDS_MOST }
    ensures bound { IfSome result (λ n. n ≤ BODY_MOST) }
    ensures value { result ≡ body_len minor (map (header_bytes bytes.now) fields.now) }
{
    if minor != 1
        || !matches!(find(bytes, fields, b"host"), Found::Once(_))
        || !matches!(find(bytes, fields, b"transfer-encoding"), Found::Absent)
        || !is_kept_alive(bytes, fields)
    {
        return None;
    }
    length_in(bytes, fields)
}
