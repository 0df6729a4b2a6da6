ghost use Rattle.std.specs.Prelude.{◌≡◌, IfOk};
ghost use Rattle.doc_value.specs.Document.{IsSound};
ghost use Rattle.doc_value.specs.Seen.{document, documents, all_named};

use crate::doc::{Doc, Fields, Items};
use std::alloc::Global;
use std::collections::BTreeMap;
use sysapi_base::{Memory, Text};

impl Doc {
    /// An equal document, in memory of its own.
    pub fn copy(&self, alloc: Global) -> Result<Doc, Memory>
        ensures value { IfOk result (λ d. d ≡ self.now) }
        ensures sound { IsSound (document self.now) → IfOk result (λ d. IsSound (document d)) }
    {
        copy_of(alloc, self)
    }
}

#[cycle(copy_of)]
fn copy_of(alloc: Global, doc: &Doc) -> Result<Doc, Memory>
    ensures { IfOk result (λ d. d ≡ doc.now) }
{
    match doc {
        Doc::Null => Ok(Doc::Null),
        Doc::Bool(b) => Ok(Doc::Bool(*b)),
        Doc::Whole(n) => Ok(Doc::Whole(*n)),
        Doc::Text(text) => Ok(Doc::Text(Text::of(String::from_str(alloc, text.as_str())?))),
        Doc::List(items) => Ok(Doc::List(Items::of(copy_of_docs(alloc, &items.docs)?))),
        Doc::Object(fields) => Ok(Doc::Object(Fields::of(copy_of_fields(alloc, &fields.docs)?))),
    }
}

#[cycle(copy_of)]
fn copy_of_docs(alloc: Global, docs: &Vec<Doc>) -> Result<Vec<Doc>, Memory>
    ensures { IfOk result (λ v. documents v.items ≡ documents docs.now.items) }
{
    let mut copies = Vec::with_capacity(alloc, docs.len())?;
    for doc in docs {
        copies.push(copy_of(alloc, doc)?)?;
    }
    Ok(copies)
}

#[cycle(copy_of)]
fn copy_of_fields(
    alloc: Global,
    docs: &BTreeMap<String, Doc>,
) -> Result<BTreeMap<String, Doc>, Memory>
    ensures { IfOk result (λ m. all_named m.entries ≡ all_named docs.now.entries) }
{
    let mut copies = BTreeMap::new(alloc);
    for (name, doc) in docs.iter() {
        let key = String::from_str(alloc, name.as_str())?;
        drop(copies.insert(key, copy_of(alloc, doc)?)?);
    }
    Ok(copies)
}
