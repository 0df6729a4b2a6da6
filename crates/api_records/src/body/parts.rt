//! Texts and references at the keys of a body.

ghost use Rattle.std.specs.Prelude.{◌≡◌, codes, IfOk};
ghost use Rattle.doc_value.specs.Document.{field_at, members_of};
ghost use Rattle.doc_value.specs.Reference.{reference};
ghost use Rattle.doc_value.specs.Seen.{document, documents};
ghost use Rattle.api_records.specs.declared.body.ShapeError.TheVariants.{BadShape};
ghost use Rattle.api_records.specs.Bodies.{Shapes, optional_text, reference_or_none, references_or_none, all_references, or_wrong, head_in, tagged_in};

use crate::body::ShapeError;
use doc_value::Doc;
use std::alloc::Global;
use sysapi_base::{Id, Ids, Memory, Text};

/// The error that tells this key.
pub(crate) fn bad_shape(alloc: Global, key: &str) -> Result<ShapeError, Memory>
    ensures { IfOk result (λ e. e ≡ BadShape key.now) }
{
    Ok(ShapeError::BadShape {
        key: Text::of(String::from_str(alloc, key)?),
    })
}

/// The text at a key, none where it is null or absent.
pub(crate) fn text_at(alloc: Global, doc: &Doc, key: &str) -> Result<Option<Text>, ShapeError>
    ensures { Shapes result (optional_text key.now (document doc.now)) }
{
    match doc.field(key) {
        None | Some(Doc::Null) => Ok(None),
        Some(Doc::Text(text)) => Ok(Some(text.copy(alloc)?)),
        Some(_) => Err(bad_shape(alloc, key)?),
    }
}

/// The id of the reference at a key, none where it is null or absent.
pub(crate) fn reference_at_key(
    alloc: Global,
    doc: &Doc,
    key: &str,
) -> Result<Option<Id>, ShapeError>
    ensures { Shapes result (reference_or_none key.now (field_at key.now (document doc.now))) }
{
    match doc.field(key) {
        None | Some(Doc::Null) => Ok(None),
        Some(found) => Ok(Some(reference_of(alloc, found, key)?)),
    }
}

/// The commit at which a branch begins: that of `head`, and where `head` is absent that of `referencedCommit`.
pub(crate) fn head_at(alloc: Global, doc: &Doc) -> Result<Option<Id>, ShapeError>
    ensures { Shapes result (head_in (field_at (codes "head") (document doc.now)) (field_at (codes "referencedCommit") (document doc.now))) }
{
    match doc.field("head") {
        None => reference_at_key(alloc, doc, "referencedCommit"),
        Some(_) => reference_at_key(alloc, doc, "head"),
    }
}

/// The commit of a tag: that of `taggedCommit`, and where this is absent that of `referencedCommit`.
pub(crate) fn tagged_at(alloc: Global, doc: &Doc) -> Result<Id, ShapeError>
    ensures { Shapes result (tagged_in (field_at (codes "taggedCommit") (document doc.now)) (field_at (codes "referencedCommit") (document doc.now))) }
{
    match (doc.field("taggedCommit"), doc.field("referencedCommit")) {
        (Some(found), _) => reference_of(alloc, found, "taggedCommit"),
        (None, Some(found)) => reference_of(alloc, found, "referencedCommit"),
        (None, None) => Err(bad_shape(alloc, "taggedCommit")?),
    }
}

/// The ids at `previousCommit`: of a reference or of a list of references, none where it is null or absent.
pub(crate) fn previous_at(alloc: Global, doc: &Doc) -> Result<Ids, ShapeError>
    ensures { Shapes result (references_or_none (codes "previousCommit") (field_at (codes "previousCommit") (document doc.now))) }
{
    match doc.field("previousCommit") {
        None | Some(Doc::Null) => Ok(Ids::of(Vec::new(alloc))),
        Some(Doc::List(items)) => references_of(alloc, items.as_slice(), "previousCommit"),
        Some(found) => {
            let mut ids = Vec::with_capacity(alloc, 1)?;
            ids.push(reference_of(alloc, found, "previousCommit")?)?;
            Ok(Ids::of(ids))
        }
    }
}

// The id that a reference at this key names.
fn reference_of(alloc: Global, found: &Doc, key: &str) -> Result<Id, ShapeError>
    ensures { Shapes result (or_wrong key.now (reference (document found.now))) }
{
    match found.as_reference() {
        Some(id) => Ok(id),
        None => Err(bad_shape(alloc, key)?),
    }
}

// The ids of the members of a list at this key.
fn references_of(alloc: Global, docs: &[Doc], key: &str) -> Result<Ids, ShapeError>
    ensures { Shapes result (all_references key.now (members_of (documents docs.now))) }
{
    let mut ids = Vec::with_capacity(alloc, docs.len())?;
    for doc in docs {
        ids.push(reference_of(alloc, doc, key)?)?;
    }
    Ok(Ids::of(ids))
}
