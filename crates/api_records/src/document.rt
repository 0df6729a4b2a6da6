//! Documents of a few keys.

ghost use Rattle.std.specs.Prelude.{◌≡◌, IfOk};
ghost use Rattle.doc_value.specs.Document.{text};
ghost use Rattle.doc_value.specs.Seen.{document};
ghost use Rattle.sysapi_base.specs.Id.{id_text};
ghost use Rattle.sysapi_base.specs.Moment.{moment_text};
ghost use Rattle.api_records.specs.Records.{reference_to, reference_or_null, identity_of, payload_or_null};

use doc_value::{Doc, Fields};
use std::alloc::Global;
use sysapi_base::{Id, Memory, Moment, Text};

/// The id's text as a document.
pub(crate) fn id_doc(alloc: Global, id: Id) -> Result<Doc, Memory>
    ensures { IfOk result (λ d. document d ≡ text (id_text id)) }
{
    let content = id.text();
    Ok(Doc::Text(Text::of(String::from_utf8_lossy(alloc, &content)?)))
}

/// The moment's text as a document.
pub(crate) fn moment_doc(alloc: Global, moment: Moment) -> Result<Doc, Memory>
    ensures { IfOk result (λ d. document d ≡ text (moment_text moment)) }
{
    let content = moment.text();
    Ok(Doc::Text(Text::of(String::from_utf8_lossy(alloc, &content)?)))
}

/// An object with the one key `@id`.
pub(crate) fn reference_doc(alloc: Global, id: Id) -> Result<Doc, Memory>
    ensures { IfOk result (λ d. document d ≡ reference_to id) }
{
    let mut fields = Fields::new(alloc);
    fields.insert(alloc, "@id", id_doc(alloc, id)?)?;
    Ok(Doc::Object(fields))
}

/// A reference to this id, an object with the one key `@id`, or null where there is no id.
pub fn optional_reference_doc(alloc: Global, id: Option<Id>) -> Result<Doc, Memory>
    ensures { IfOk result (λ d. document d ≡ reference_or_null id) }
{
    match id {
        Some(id) => reference_doc(alloc, id),
        None => Ok(Doc::Null),
    }
}

/// The identity of a datum.
pub(crate) fn identity_doc(alloc: Global, id: Id) -> Result<Doc, Memory>
    ensures { IfOk result (λ d. document d ≡ identity_of id) }
{
    let mut fields = Fields::new(alloc);
    fields.insert(alloc, "@id", id_doc(alloc, id)?)?;
    fields.insert(alloc, "@type", Doc::of_text(alloc, "DataIdentity")?)?;
    Ok(Doc::Object(fields))
}

/// A copy of the payload, or null where there is none.
pub(crate) fn payload_doc(alloc: Global, payload: &Option<Doc>) -> Result<Doc, Memory>
    ensures { IfOk result (λ d. document d ≡ payload_or_null payload.now) }
{
    match payload {
        Some(payload) => payload.copy(alloc),
        None => Ok(Doc::Null),
    }
}
