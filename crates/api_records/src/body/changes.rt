//! The changes of a body.

ghost use Rattle.std.specs.Prelude.{◌≡◌, ◌<◌, ◌^◌, length, codes, IfOk};
ghost use Rattle.doc_value.specs.Document.{field_at, members_of};
ghost use Rattle.doc_value.specs.Seen.{document, documents};
ghost use Rattle.api_records.specs.Bodies.{Shapes, and_then, right_id, payload_at, change_in, changes_in, all_objects, changes_or_none};

use crate::body::ShapeError;
use crate::body::parts::{bad_shape, reference_at_key};
use crate::command::{Change, Changes};
use doc_value::Doc;
use std::alloc::Global;
use sysapi_base::Id;

/// The changes at `change`, none where it is null or absent.
pub(crate) fn changes_at(alloc: Global, doc: &Doc) -> Result<Changes, ShapeError>
    ensures exact { Shapes result (changes_or_none (codes "change") (field_at (codes "change") (document doc.now))) }
    ensures few { IfOk result (λ changes. length changes < 2 ^ 32) }
{
    match doc.field("change") {
        None | Some(Doc::Null) => Ok(Changes::of(Vec::new(alloc))),
        Some(Doc::List(items)) => {
            let docs = items.as_slice();
            judge_objects(alloc, docs)?;
            // The place of each change is a number of 32 bits. No body holds more, so that no other answer is needed.
            if docs.len() >= 1 << 32 {
                return Err(ShapeError::Memory);
            }
            changes_of(alloc, docs)
        }
        Some(_) => Err(bad_shape(alloc, "change")?),
    }
}

// Each member of `change` has to be an object, before any of them is looked into.
fn judge_objects(alloc: Global, docs: &[Doc]) -> Result<(), ShapeError>
    ensures { Shapes result (all_objects (codes "change") (members_of (documents docs.now))) }
{
    for doc in docs {
        let Doc::Object(_) = doc else {
            return Err(bad_shape(alloc, "change")?);
        };
    }
    Ok(())
}

// The changes that the members of a list are.
fn changes_of(alloc: Global, docs: &[Doc]) -> Result<Changes, ShapeError>
    ensures exact { Shapes result (changes_in (members_of (documents docs.now))) }
    ensures as_many { IfOk result (λ changes. length changes ≡ length docs.now) }
{
    let mut changes = Vec::with_capacity(alloc, docs.len())?;
    for doc in docs {
        changes.push(change_of(alloc, doc)?)?;
    }
    Ok(Changes::of(changes))
}

// The change that a member is: its identity, then its payload.
fn change_of(alloc: Global, doc: &Doc) -> Result<Change, ShapeError>
    ensures { Shapes result (change_in (document doc.now)) }
{
    let identity = reference_at_key(alloc, doc, "identity")?;
    let payload = payload_of(alloc, doc)?;
    Ok(Change { identity, payload })
}

// A copy of the object at `payload`, none where it is null or absent.
fn payload_of(alloc: Global, doc: &Doc) -> Result<Option<Doc>, ShapeError>
    ensures { Shapes result (payload_at (field_at (codes "payload") (document doc.now))) }
{
    match doc.field("payload") {
        None | Some(Doc::Null) => Ok(None),
        Some(payload) => {
            let Doc::Object(_) = payload else {
                return Err(bad_shape(alloc, "payload")?);
            };
            judge_id(alloc, payload)?;
            Ok(Some(payload.copy(alloc)?))
        }
    }
}

// The `@id` of a payload has to be an id's text, if it is there.
fn judge_id(alloc: Global, payload: &Doc) -> Result<(), ShapeError>
    ensures { Shapes result (right_id (field_at (codes "@id") (document payload.now))) }
{
    match payload.field("@id") {
        None => Ok(()),
        Some(Doc::Text(text)) if Id::parse(text.as_str()).is_some() => Ok(()),
        Some(_) => Err(bad_shape(alloc, "@id")?),
    }
}
