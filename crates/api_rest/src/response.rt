//! The responses to requests.

ghost use Rattle.std.specs.Prelude.{◌≡◌, ◌≢◌, [], IfOk, codes};
ghost use Rattle.doc_value.specs.Document.{IsSound, text};
ghost use Rattle.doc_value.specs.Seen.{document};
ghost use Rattle.http_wire.specs.Responses.{HasPhrase};
ghost use Rattle.api_records.specs.Records.{reference_or_null};
ghost use Rattle.entry_codec.specs.Replies.{IsSoundReply};
ghost use Rattle.api_rest.specs.Responses.{error_doc, told, place_told, refusal_doc, refusal_status, body_doc, is_head, response_with, reply_response, not_allowed, rest_response, closing, wire_response};

use crate::error::{BodyError, RestError};
use api_records::{Refusal, optional_reference_doc};
use doc_value::{Doc, Fields};
use entry_codec::Reply;
use http_wire::{Request, Response, WireError};
use std::alloc::Global;
use sysapi_base::{Bytes, Id, Memory, Moment, Text};

/// Whether a request asks for the head alone (RFC 9110, section 9.3.2).
pub fn is_head(request: &Request) -> bool
    ensures { result ≡ is_head request.now }
{
    request.method.as_str() == "HEAD"
}

/// The fields that tell an error of this name.
fn error_fields(alloc: Global, name: &str) -> Result<Fields, Memory>
    ensures { IfOk result (λ fields. Doc.Object fields ≡ error_doc name.now []) }
{
    let mut fields = Fields::new(alloc);
    fields.insert(alloc, "@type", Doc::of_text(alloc, "Error")?)?;
    fields.insert(alloc, "error", Doc::of_text(alloc, name)?)?;
    Ok(fields)
}

/// The document that tells an error of this name, and nothing else.
fn error_doc(alloc: Global, name: &str) -> Result<Doc, Memory>
    ensures doc { IfOk result (λ d. d ≡ error_doc name.now []) }
    ensures sound { IfOk result (λ d. IsSound (document d)) }
{
    Ok(Doc::Object(error_fields(alloc, name)?))
}

/// The same with a head.
fn error_with_head(alloc: Global, name: &str, head: Option<Id>) -> Result<Doc, Memory>
    ensures doc { IfOk result (λ d. d ≡ error_doc name.now (told (codes "head") (reference_or_null head))) }
    ensures sound { IfOk result (λ d. IsSound (document d)) }
{
    let mut fields = error_fields(alloc, name)?;
    fields.insert(alloc, "head", optional_reference_doc(alloc, head)?)?;
    Ok(Doc::Object(fields))
}

/// The same with the place of a change.
fn error_with_place(alloc: Global, name: &str, place: u32) -> Result<Doc, Memory>
    ensures doc { IfOk result (λ d. d ≡ error_doc name.now (place_told place)) }
    ensures sound { IfOk result (λ d. IsSound (document d)) }
{
    let mut fields = error_fields(alloc, name)?;
    fields.insert(alloc, "place", Doc::Whole(i128::from(place)))?;
    Ok(Doc::Object(fields))
}

/// The same with a key: of the body, of the path or of the query.
fn error_with_key(alloc: Global, name: &str, key: &Text) -> Result<Doc, Memory>
    ensures doc { IfOk result (λ d. d ≡ error_doc name.now (told (codes "key") (text key.now))) }
    ensures sound { IfOk result (λ d. IsSound (document d)) }
{
    let mut fields = error_fields(alloc, name)?;
    fields.insert(alloc, "key", Doc::Text(key.copy(alloc)?))?;
    Ok(Doc::Object(fields))
}

/// The document that tells a refusal.
fn refusal_doc(alloc: Global, why: &Refusal) -> Result<Doc, Memory>
    ensures doc { IfOk result (λ d. d ≡ refusal_doc why.now) }
    ensures sound { IfOk result (λ d. IsSound (document d)) }
{
    match why {
        Refusal::HeadMoved { head } => error_with_head(alloc, why.text(), *head),
        Refusal::IdentityMismatch { place } => error_with_place(alloc, why.text(), *place),
        Refusal::IdentityTwice { place } => error_with_place(alloc, why.text(), *place),
        Refusal::DeleteUnknown { place } => error_with_place(alloc, why.text(), *place),
        Refusal::UnknownPin { place } => error_with_place(alloc, why.text(), *place),
        _ => error_doc(alloc, why.text()),
    }
}

/// The status of a refusal.
fn refusal_status(why: &Refusal) -> u16
    ensures value { result ≡ refusal_status why.now }
    ensures phrase { HasPhrase result }
{
    match why {
        Refusal::UnknownProject
        | Refusal::UnknownBranch
        | Refusal::UnknownTag
        | Refusal::UnknownCommit
        | Refusal::UnknownElement
        | Refusal::UnknownChange => 404,
        Refusal::HeadMoved { head: _ }
        | Refusal::DefaultBranch
        | Refusal::DeleteUnknown { place: _ }
        | Refusal::UnknownPin { place: _ } => 409,
        Refusal::MultiplePrevious
        | Refusal::IdentityMismatch { place: _ }
        | Refusal::IdentityTwice { place: _ } => 400,
    }
}

/// The document that tells why a body is none of its route.
fn body_doc(alloc: Global, why: &BodyError) -> Result<Doc, Memory>
    ensures doc { IfOk result (λ d. d ≡ body_doc why.now) }
    ensures sound { IfOk result (λ d. IsSound (document d)) }
{
    match why {
        BodyError::BadJson => error_doc(alloc, "bad-json"),
        BodyError::NotWhole => error_doc(alloc, "not-whole"),
        BodyError::TooDeep => error_doc(alloc, "too-deep"),
        BodyError::BadShape { key } => error_with_key(alloc, "bad-body", key),
    }
}

/// The response to a request with this status and document.
fn response(
    alloc: Global,
    request: &Request,
    moment: Moment,
    status: u16,
    doc: &Doc,
) -> Result<Response, Memory>
    requires { IsSound (document doc.now) }
    ensures { IfOk result (λ v. v ≡ response_with request.now moment status doc.now) }
{
    Ok(Response {
        status,
        moment,
        allow: None,
        close: request.close,
        no_body: is_head(request),
        body: Bytes::of(doc.write(alloc)?),
    })
}

/// The response that tells a reply. Its status has a phrase.
pub fn respond(
    alloc: Global,
    request: &Request,
    reply: Reply,
    moment: Moment,
) -> Result<Response, Memory>
    requires { IsSoundReply reply }
    ensures response { IfOk result (λ v. v ≡ reply_response request.now moment reply) }
    ensures phrase { IfOk result (λ v. HasPhrase v.status) }
{
    match reply {
        Reply::Made(doc) => response(alloc, request, moment, 201, &doc),
        Reply::Found(doc) => response(alloc, request, moment, 200, &doc),
        Reply::Page { members } => response(alloc, request, moment, 200, &Doc::List(members)),
        Reply::Refused(why) => {
            let doc = refusal_doc(alloc, &why)?;
            response(alloc, request, moment, refusal_status(&why), &doc)
        }
    }
}

/// The response that tells which methods the target takes (RFC 9110, section 15.5.6).
fn not_allowed(
    alloc: Global,
    request: &Request,
    allowed: &Text,
    moment: Moment,
) -> Result<Response, Memory>
    ensures { IfOk result (λ v. v ≡ not_allowed request.now moment allowed.now) }
{
    let doc = error_doc(alloc, "no-method")?;
    let response = response(alloc, request, moment, 405, &doc)?;
    Ok(Response {
        allow: Some(allowed.copy(alloc)?),
        ..response
    })
}

/// The response that tells why a request asks for no call. Its status has a phrase. Want of memory is told by a fixed response in
/// place of this one.
pub fn respond_error(
    alloc: Global,
    request: &Request,
    error: &RestError,
    moment: Moment,
) -> Result<Response, Memory>
    requires { error.now ≢ RestError.Memory }
    ensures response { IfOk result (λ v. v ≡ rest_response request.now moment error.now) }
    ensures phrase { IfOk result (λ v. HasPhrase v.status) }
{
    match error {
        RestError::NoRoute => {
            response(alloc, request, moment, 404, &error_doc(alloc, "no-route")?)
        }
        RestError::NoMethod { allowed } => not_allowed(alloc, request, allowed, moment),
        RestError::BadId { key } => {
            let doc = error_with_key(alloc, "bad-id", key)?;
            response(alloc, request, moment, 400, &doc)
        }
        RestError::BadParameter { key } => {
            let doc = error_with_key(alloc, "bad-parameter", key)?;
            response(alloc, request, moment, 400, &doc)
        }
        RestError::BadBody { why } => response(alloc, request, moment, 400, &body_doc(alloc, why)?),
        RestError::Memory => Err(Memory),
    }
}

/// The response with this status that tells an error of this name and ends the connection.
fn closing(alloc: Global, status: u16, name: &str, moment: Moment) -> Result<Response, Memory>
    ensures { IfOk result (λ v. v ≡ closing moment status name.now) }
{
    let doc = error_doc(alloc, name)?;
    Ok(Response {
        status,
        moment,
        allow: None,
        close: true,
        no_body: false,
        body: Bytes::of(doc.write(alloc)?),
    })
}

/// The response to a front that is no request. The connection ends after it. Its status has a phrase. Want of memory is told by a
/// fixed response in place of this one.
pub fn respond_wire(alloc: Global, error: WireError, moment: Moment) -> Result<Response, Memory>
    requires { error ≢ WireError.Memory }
    ensures response { IfOk result (λ v. v ≡ wire_response error moment) }
    ensures phrase { IfOk result (λ v. HasPhrase v.status) }
{
    match error {
        WireError::BadHead => closing(alloc, 400, "bad-head", moment),
        WireError::UnknownCoding => closing(alloc, 501, "unknown-coding", moment),
        WireError::Memory => Err(Memory),
    }
}
