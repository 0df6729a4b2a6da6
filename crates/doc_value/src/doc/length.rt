ghost use Rattle.std.specs.Prelude.{◌≡◌, ◌-◌, ◌^◌, min, length, false};
ghost use Rattle.json.specs.Print.{escape_byte, quoted};
ghost use Rattle.serde_json.specs.Find.{of_integer};
ghost use Rattle.serde_json.specs.Written.{number_text, items_text, members_text};
ghost use Rattle.doc_value.specs.Document.{IsSound, IsInRange, HasRange, MembersHaveRange, FieldsHaveRange, members_of, fields_of};
ghost use Rattle.doc_value.specs.Seen.{document, documents, all_named};
ghost use Rattle.doc_value.specs.Data.{items_of, json_members_of, compact};
ghost use Rattle.doc_value.specs.Length.{plus};

use crate::doc::Doc;
use std::collections::BTreeMap;

impl Doc {
    /// How many bytes `write` gives: the length of the compact JSON text (RFC 8259), or 2^64 - 1 where the text is longer.
    pub fn written_len(&self) -> u64
        requires { IsSound (document self.now) }
        ensures { result ≡ min (length (compact (document self.now))) (2 ^ 64 - 1) }
    {
        len_of(self, 0)
    }
}

// `so_far` and the length of the document's text, at most 2^64 - 1. The count is passed down, so that one addition a part is enough.
#[cycle(len_of)]
fn len_of(doc: &Doc, so_far: u64) -> u64
    requires { HasRange (document doc.now) }
    ensures { result ≡ plus so_far (compact (document doc.now)) }
{
    match doc {
        Doc::Null => so_far.saturating_add(4),
        Doc::Bool(true) => so_far.saturating_add(4),
        Doc::Bool(false) => so_far.saturating_add(5),
        Doc::Whole(n) => len_of_whole(*n, so_far),
        Doc::Text(text) => len_of_text(text.as_str().as_bytes(), so_far),
        Doc::List(items) => len_of_docs(&items.docs, so_far.saturating_add(1)),
        Doc::Object(fields) => len_of_fields(&fields.docs, so_far.saturating_add(1)),
    }
}

// The same of the members of a list and its closing bracket.
#[cycle(len_of)]
fn len_of_docs(docs: &Vec<Doc>, so_far: u64) -> u64
    requires { MembersHaveRange (members_of (documents docs.now.items)) }
    ensures { result ≡ plus so_far (items_text false (items_of (members_of (documents docs.now.items)))) }
{
    let mut total = so_far;
    let mut later = false;
    for doc in docs {
        if later {
            total = total.saturating_add(1);
        }
        total = len_of(doc, total);
        later = true;
    }
    total.saturating_add(1)
}

// The same of the fields of an object and its closing brace.
#[cycle(len_of)]
fn len_of_fields(docs: &BTreeMap<String, Doc>, so_far: u64) -> u64
    requires { FieldsHaveRange (fields_of (all_named docs.now.entries)) }
    ensures { result ≡ plus so_far (members_text false (json_members_of (fields_of (all_named docs.now.entries)))) }
{
    let mut total = so_far;
    let mut later = false;
    for (name, doc) in docs.iter() {
        if later {
            total = total.saturating_add(1);
        }
        total = len_of_text(name.as_str().as_bytes(), total).saturating_add(1);
        total = len_of(doc, total);
        later = true;
    }
    total.saturating_add(1)
}

// The same of a text and its quotes.
fn len_of_text(bytes: &[u8], so_far: u64) -> u64
    ensures { result ≡ plus so_far (quoted bytes.now) }
{
    let mut total = so_far.saturating_add(1);
    for byte in bytes {
        total = total.saturating_add(len_of_byte(*byte));
    }
    total.saturating_add(1)
}

// The length of a byte within a text, escaped where it must be (RFC 8259, section 7).
#[tactic(auto, unfolding(json::specs::Print::escape_byte), using(std::proofs::lemmas::Bool::Decides::nat_tests))]
fn len_of_byte(byte: u8) -> u64
    ensures { result ≡ length (escape_byte byte) }
{
    if byte == b'"' || byte == b'\\' {
        2
    } else if byte >= 32 {
        1
    } else if byte == 8 || byte == 9 || byte == 10 || byte == 12 || byte == 13 {
        2
    } else {
        6
    }
}

fn len_of_whole(n: i128, so_far: u64) -> u64
    requires { IsInRange n }
    ensures { result ≡ plus so_far (number_text (of_integer n)) }
{
    let mut buffer = itoa::Buffer::new();
    let text = if n < 0 {
        buffer.format(n as i64)
    } else {
        buffer.format(n as u64)
    };
    so_far.saturating_add(text.len() as u64)
}
