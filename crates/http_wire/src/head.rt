//! Whether a head stands at the front, can still come, or can't.

ghost use Rattle.std.specs.Prelude.{◌≡◌, ◌≢◌, ℕ, ◌<◌, ◌≤◌, ◌+◌, ◌-◌, ◌*◌, length, slice_index, IfOk, IfSome, MatchBool};
ghost use Rattle.httparse.specs.Grammar.{HasNoRequest, NeverHasRequest};
ghost use Rattle.httparse.specs.Spans.{RequestOverflows};
ghost use Rattle.http_wire.specs.Heads.{IsJudgedKind, IsHeadsFront, IsOpen, IsBroken, IsParsedAs, IsCrowdedAs, IsJudgedAs};

use httparse::spans::{EMPTY_HEADER_SPAN, HeaderSpan, RequestSpans, parse_request};
use httparse::{Error, Status};
use std::alloc::{AllocError, Global};

/// A head is looked for in so many bytes.
pub const HEAD_MOST: usize = 16_384;

/// A request has at most so many fields.
pub const FIELDS_MOST: usize = 64;

/// What httparse says of bytes, with room for all their fields.
#[derive(Drop)]
enum Parsed {
    Whole(RequestSpans),
    /// A head of more fields than a request may have.
    Crowded,
    Partial,
    Invalid,
}

/// What stands at the front of the bytes in which a head is looked for.
pub(crate) enum Head {
    Stands(RequestSpans),
    /// A head of more fields than a request may have.
    Crowded,
    Broken,
    Open,
}

/// Parses bytes whose fields don't fit the usual room, in room for all of them.
fn parse_crowded(bytes: &[u8], spans: &mut [HeaderSpan]) -> Parsed
    requires crowd { RequestOverflows FIELDS_MOST bytes.now }
    requires room { length bytes.now < 3 * length spans.old + 3 }
    ensures { IsCrowdedAs bytes.now result }
{
    match parse_request(bytes, spans) {
        Ok(Status::Complete(_)) => Parsed::Crowded,
        Ok(Status::Partial) => Parsed::Partial,
        Err(_) => Parsed::Invalid,
    }
}

/// The same with room of its own. A field has three bytes or more.
fn parse_apart(alloc: Global, bytes: &[u8]) -> Result<Parsed, AllocError>
    requires { RequestOverflows FIELDS_MOST bytes.now }
    ensures { IfOk result (IsCrowdedAs bytes.now) }
{
    let mut spans = vec![in alloc; EMPTY_HEADER_SPAN; bytes.len() / 3]?;
    Ok(parse_crowded(bytes, &mut spans))
}

/// Only a head with more fields than the room has takes memory.
fn parse(alloc: Global, bytes: &[u8], spans: &mut [HeaderSpan]) -> Result<Parsed, AllocError>
    requires { length spans.old ≡ FIELDS_MOST }
    ensures { IfOk result (IsParsedAs bytes.now spans.new) }
{
    match parse_request(bytes, spans) {
        Ok(Status::Complete(head)) => Ok(Parsed::Whole(head)),
        Ok(Status::Partial) => Ok(Parsed::Partial),
        Err(e) => match e {
            Error::TooManyHeaders => parse_apart(alloc, bytes),
            _ => Ok(Parsed::Invalid),
        },
    }
}

/// Whether a head begins with these bytes.
fn can_begin(alloc: Global, prefix: &[u8], spans: &mut [HeaderSpan]) -> Result<bool, AllocError>
    requires room { length spans.old ≡ FIELDS_MOST }
    requires kind { IsJudgedKind prefix.now }
    requires none { HasNoRequest prefix.now }
    ensures { IfOk result (λ can. MatchBool can (IsHeadsFront prefix.now) (¬ (IsHeadsFront prefix.now))) }
{
    Ok(matches!(parse(alloc, prefix, spans)?, Parsed::Partial))
}

/// How many bytes stand before the first space.
fn first_space(window: &[u8]) -> usize
    ensures within { result ≤ length window.now }
    ensures before { (k : ℕ) → k < result → slice_index window.now k ≢ 32 }
    ensures found { result < length window.now → slice_index window.now result ≡ 32 }
{
    window
        .iter()
        .position(|b| *b == b' ')
        .unwrap_or(window.len())
}

/// How many bytes the whole lines have.
fn lines_len(window: &[u8]) -> usize
    ensures within { result ≤ length window.now }
    ensures last { 0 < result → slice_index window.now (result - 1) ≡ 10 }
    ensures after { (k : ℕ) → result ≤ k → k < length window.now → slice_index window.now k ≢ 10 }
{
    let mut len = 0;
    for (i, b) in window.iter().enumerate() {
        if *b == b'\n' {
            len = i + 1;
        }
    }
    len
}

/// Whether a head can still come, where the parser finds a fault. Only the bytes before the first space and those of
/// the whole lines are judged: with each shorter prefix that ends so a head begins if one begins with these.
fn is_open(alloc: Global, window: &[u8], spans: &mut [HeaderSpan]) -> Result<bool, AllocError>
    requires room { length spans.old ≡ FIELDS_MOST }
    requires none { NeverHasRequest window.now }
    ensures { IfOk result (λ can. MatchBool can (IsOpen window.now) (IsBroken window.now)) }
{
    if !can_begin(alloc, &window[..first_space(window)], spans)? {
        return Ok(false);
    }
    can_begin(alloc, &window[..lines_len(window)], spans)
}

/// Judges the bytes in which a head is looked for, with room for as many fields as a request may have.
pub(crate) fn judge_head(
    alloc: Global,
    window: &[u8],
    spans: &mut [HeaderSpan],
) -> Result<Head, AllocError>
    requires { length spans.old ≡ FIELDS_MOST }
    ensures { IfOk result (IsJudgedAs window.now spans.new) }
{
    let parsed = parse(alloc, window, spans)?;
    match parsed {
        Parsed::Whole(head) => Ok(Head::Stands(head)),
        Parsed::Crowded => Ok(Head::Crowded),
        Parsed::Partial => Ok(Head::Open),
        Parsed::Invalid => judge_invalid(alloc, window, spans),
    }
}

fn judge_invalid(alloc: Global, window: &[u8], spans: &mut [HeaderSpan]) -> Result<Head, AllocError>
    requires room { length spans.old ≡ FIELDS_MOST }
    requires none { NeverHasRequest window.now }
    ensures { IfOk result (IsJudgedAs window.now spans.new) }
{
    if is_open(alloc, window, spans)? {
        Ok(Head::Open)
    } else {
        Ok(Head::Broken)
    }
}
