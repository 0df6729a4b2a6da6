//! The payloads of changes, as documents.

ghost use Rattle.std.specs.Prelude.{◌≡◌, nat_le, IfOk};
ghost use Rattle.doc_value.specs.Document.{IsSound, IsProper, depth};
ghost use Rattle.doc_value.specs.Read.{reading};
ghost use Rattle.doc_value.specs.Seen.{document};
ghost use Rattle.api_records.specs.Storable.{payload_depth};
ghost use Rattle.entry_bytes.specs.Sound.{IsKept};
ghost use Rattle.entry_bytes.specs.Reading.{Gives, if_ok, if_payload, has_right_id, is_object, is_payload, payload_in};

use crate::error::DecodeError;
use doc_value::{Doc, DocError};
use std::alloc::Global;

/// The payload that has this text: a sound object of depth at most 97 whose `@id`, if there is one, is an id's text.
pub(crate) fn payload_of(alloc: Global, text: &[u8]) -> Result<Doc, DecodeError>
    ensures read { Gives (λ d. d) result (payload_in text.now) }
    ensures kept { IfOk result IsKept }
{
    let doc = read_text(alloc, text)?;
    checked(alloc, doc, text)
}

/// The document that the text is read as.
fn read_text(alloc: Global, text: &[u8]) -> Result<Doc, DecodeError>
    ensures read { Gives document result (if_ok (reading text.now)) }
    ensures sound { IfOk result (λ d. IsSound (document d)) }
    ensures proper { IfOk result (λ d. IsProper (document d)) }
{
    match Doc::read(alloc, text) {
        Ok(doc) => Ok(doc),
        Err(DocError::Memory) => Err(DecodeError::Memory),
        Err(_) => Err(DecodeError::NotAnEntry),
    }
}

/// The document, if it is a payload's and the text is what is written for it.
fn checked(alloc: Global, doc: Doc, text: &[u8]) -> Result<Doc, DecodeError>
    requires { IsSound (document doc) }
    ensures read { Gives (λ d. d) result (if_payload text.now (document doc)) }
    ensures same { IfOk result (λ d. d ≡ doc) }
{
    if !is_payload_of(&doc) {
        return Err(DecodeError::NotAnEntry);
    }
    let written = doc.write(alloc)?;
    if written.as_slice() != text {
        return Err(DecodeError::NotAnEntry);
    }
    Ok(doc)
}

fn is_payload_of(doc: &Doc) -> bool
    requires { IsSound (document doc.now) }
    ensures { result ≡ is_payload (document doc.now) }
{
    is_object_of(doc) && is_shallow_of(doc) && has_right_id_of(doc)
}

fn is_object_of(doc: &Doc) -> bool
    ensures { result ≡ is_object (document doc.now) }
{
    matches!(doc, Doc::Object(_))
}

fn is_shallow_of(doc: &Doc) -> bool
    requires { IsSound (document doc.now) }
    ensures { result ≡ nat_le (depth (document doc.now)) payload_depth }
{
    doc.is_within(97)
}

/// Whether the `@id`, if there is one, is an id's text.
fn has_right_id_of(doc: &Doc) -> bool
    ensures { result ≡ has_right_id (document doc.now) }
{
    doc.field("@id").is_none() || doc.as_reference().is_some()
}
