//! The front of the bytes: a request, an error, or nothing yet.

ghost use Rattle.std.specs.Prelude.{◌≡◌, ◌≤◌, length, IfOk, IfSome, IsUtf8};
ghost use Rattle.httparse.specs.Grammar.{RequestHead};
ghost use Rattle.httparse.specs.Spans.{span_bytes, IsWithin, IsRequestAt};
ghost use Rattle.http_wire.specs.Heads.{IsFoundAt};
ghost use Rattle.http_wire.specs.Fronts.{window, stands, front_of, IsFront, Tells, with_body};

use crate::error::WireError;
use crate::fields::body_len;
use crate::head::{FIELDS_MOST, HEAD_MOST, Head, judge_head};
use httparse::spans::{EMPTY_HEADER_SPAN, HeaderSpan, RequestSpans, Span};
use std::alloc::{AllocError, Global};
use sysapi_base::Text;

/// The parts of a request at the front. The body stays where it stands, since it can be long.
#[derive(Drop)]
pub(crate) struct Parts {
    pub(crate) method: Text,
    pub(crate) target: Text,
    /// So many bytes stand before the body.
    pub(crate) head_len: usize,
    /// So many bytes are the head and the body.
    pub(crate) len: usize,
}

fn text_at(alloc: Global, bytes: &[u8], span: Span) -> Result<Text, AllocError>
    requires within { IsWithin (length bytes.now) span }
    requires text { IsUtf8 (span_bytes bytes.now span) }
    ensures { IfOk result (λ t. t ≡ span_bytes bytes.now span) }
{
    Ok(Text::of(String::from_utf8_lossy(alloc, span.of(bytes))?))
}

/// The bytes in which a head is looked for.
fn window(bytes: &[u8]) -> &[u8]
    ensures { result.now ≡ window bytes.now }
{
    if bytes.len() < HEAD_MOST {
        bytes
    } else {
        &bytes[..HEAD_MOST]
    }
}

/// Judges the bytes behind a head that stands.
fn judge_body(
    alloc: Global,
    bytes: &[u8],
    head: &RequestSpans,
    spans: &[HeaderSpan],
) -> Result<Option<Parts>, WireError>
    requires found { IsFoundAt (window bytes.now) spans.now head.now }
    requires room { length spans.now ≡ FIELDS_MOST }
    ensures order { IfOk result (λ found. IfSome found (λ parts. parts.head_len ≤ parts.len)) }
    ensures within { IfOk result (λ found. IfSome found (λ parts. parts.len ≤ length bytes.now)) }
    ensures front { (h : RequestHead) → IsRequestAt (window bytes.now) spans.now head.now h
        → Tells (with_body bytes.now result) (λ front. front_of (stands h) bytes.now ≡ front) }
{
    let window = window(bytes);
    let Some(body_len) = body_len(window, head.version, &spans[..head.headers]) else {
        return Err(WireError::UnknownCoding);
    };
    let len = head.len + body_len;
    if bytes.len() < len {
        return Ok(None);
    }
    Ok(Some(Parts {
        method: text_at(alloc, window, head.method)?,
        target: text_at(alloc, window, head.path)?,
        head_len: head.len,
        len,
    }))
}

fn judge_with(
    alloc: Global,
    bytes: &[u8],
    spans: &mut [HeaderSpan],
) -> Result<Option<Parts>, WireError>
    requires { length spans.old ≡ FIELDS_MOST }
    ensures order { IfOk result (λ found. IfSome found (λ parts. parts.head_len ≤ parts.len)) }
    ensures within { IfOk result (λ found. IfSome found (λ parts. parts.len ≤ length bytes.now)) }
    ensures front { Tells (with_body bytes.now result) (IsFront bytes.now) }
{
    let head = judge_head(alloc, window(bytes), spans)?;
    match head {
        Head::Stands(head) => judge_body(alloc, bytes, &head, spans),
        Head::Crowded => Err(WireError::UnknownCoding),
        Head::Broken => Err(WireError::BadHead),
        Head::Open if bytes.len() < HEAD_MOST => Ok(None),
        Head::Open => Err(WireError::UnknownCoding),
    }
}

/// The parts of the request at the front, or None where it hasn't come yet.
pub(crate) fn judge(alloc: Global, bytes: &[u8]) -> Result<Option<Parts>, WireError>
    ensures order { IfOk result (λ found. IfSome found (λ parts. parts.head_len ≤ parts.len)) }
    ensures within { IfOk result (λ found. IfSome found (λ parts. parts.len ≤ length bytes.now)) }
    ensures front { Tells (with_body bytes.now result) (IsFront bytes.now) }
{
    let mut spans = [EMPTY_HEADER_SPAN; FIELDS_MOST];
    judge_with(alloc, bytes, &mut spans)
}
