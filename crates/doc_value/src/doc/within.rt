ghost use Rattle.std.specs.Prelude.{◌≡◌, ◌≤◌, ◌↔◌, IsTrue};
ghost use Rattle.doc_value.specs.Document.{HasRange, depth, members_of, fields_of};
ghost use Rattle.doc_value.specs.Seen.{document, documents, all_named};
ghost use Rattle.doc_value.specs.Within.{is_in_range, is_within, are_within, fields_are_within};

use crate::doc::Doc;
use std::collections::BTreeMap;

impl Doc {
    /// Whether each whole number in the document is from -2^63 to 2^64 - 1 and its depth is at most `limit`. No more than `limit` + 1
    /// levels are looked at.
    pub fn is_within(&self, limit: u64) -> bool
        ensures { IsTrue result ↔ (HasRange (document self.now) × (depth (document self.now) ≤ limit)) }
    {
        is_doc_within(self, limit)
    }
}

#[cycle(within)]
fn is_doc_within(doc: &Doc, limit: u64) -> bool
    ensures { result ≡ is_within limit (document doc.now) }
{
    match doc {
        Doc::Whole(n) => is_whole_in_range(*n),
        Doc::List(items) => limit > 0 && are_docs_within(&items.docs, limit - 1),
        Doc::Object(fields) => limit > 0 && are_named_within(&fields.docs, limit - 1),
        Doc::Null | Doc::Bool(_) | Doc::Text(_) => true,
    }
}

#[cycle(within)]
fn are_docs_within(docs: &Vec<Doc>, limit: u64) -> bool
    ensures { result ≡ are_within limit (members_of (documents docs.now.items)) }
{
    for doc in docs {
        if !is_doc_within(doc, limit) {
            return false;
        }
    }
    true
}

#[cycle(within)]
fn are_named_within(docs: &BTreeMap<String, Doc>, limit: u64) -> bool
    ensures { result ≡ fields_are_within limit (fields_of (all_named docs.now.entries)) }
{
    for (_, doc) in docs.iter() {
        if !is_doc_within(doc, limit) {
            return false;
        }
    }
    true
}

fn is_whole_in_range(n: i128) -> bool
    ensures { result ≡ is_in_range n }
{
    i128::from(i64::MIN) <= n && n <= i128::from(u64::MAX)
}
