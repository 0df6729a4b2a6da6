ghost use Rattle.std.specs.Prelude.{◌≡◌};

mod copy;
mod field;
mod length;
mod reference;
mod within;
mod write;

use std::alloc::Global;
use std::collections::BTreeMap;
use std::marker::Model;
use sysapi_base::{Memory, Text};
pub use write::reads_back;

/// A document: a JSON value (RFC 8259, section 3) whose numbers are whole. A sound one keeps two limits: each whole number is from
/// -2^63 to 2^64 - 1, and its depth is at most 100. A scalar has depth 0, an empty list or object has depth 1, and any other has
/// one more than its deepest member.
#[cycle(doc)]
#[derive(Drop)]
pub enum Doc {
    Null,
    Bool(bool),
    Whole(i128),
    Text(Text),
    List(Items),
    Object(Fields),
}

/// A list, seen as the list of its documents.
#[cycle(doc)]
#[derive(Drop)]
pub struct Items {
    docs: Vec<Doc>,
}

impl Model for Items {
    ghost use Rattle.std.specs.Prelude.{List};
    ghost use Rattle.std.specs.Coded.{coded_list};
    ghost use Rattle.doc_value.specs.Document.{Document, coded_document, members_of, members_depth};

    ghost Value = { List Document };

    ghost coded = { coded_list coded_document };

    ghost use Rattle.doc_value.specs.Seen.{documents};

    ghost view = { λ a. documents a.docs.items };

    ghost size = { λ ds. members_depth (members_of ds) };

    ghost use Rattle.doc_value.specs.Falls.{members_fall};

    ghost size_decreases = { λ a h. members_fall a.docs.items };
}

/// An object, seen as its fields in the order of their names, each name once.
#[cycle(doc)]
#[derive(Drop)]
pub struct Fields {
    docs: BTreeMap<String, Doc>,
}

impl Model for Fields {
    ghost use Rattle.std.specs.Prelude.{ℕ, List};
    ghost use Rattle.std.specs.Coded.{coded_list, coded_ℕ, coded×};
    ghost use Rattle.doc_value.specs.Document.{Document, coded_document, fields_of, fields_depth};

    ghost Value = { List (List ℕ × Document) };

    ghost coded = { coded_list (coded× (coded_list coded_ℕ) coded_document) };

    ghost use Rattle.doc_value.specs.Seen.{all_named};

    ghost view = { λ a. all_named a.docs.entries };

    ghost size = { λ es. fields_depth (fields_of es) };

    ghost use Rattle.doc_value.specs.Falls.{fields_fall};

    ghost size_decreases = { λ a h. fields_fall a.docs.entries };
}

impl Doc {
    ghost use Rattle.std.specs.Prelude.{IfOk};
    ghost use Rattle.doc_value.specs.Document.{IsSound, depth, text, text_or_null};
    ghost use Rattle.doc_value.specs.Seen.{document};

    /// The text as a document.
    pub fn of_text(alloc: Global, content: &str) -> Result<Doc, Memory>
        ensures value { IfOk result (λ d. document d ≡ text content.now) }
        ensures sound { IfOk result (λ d. IsSound (document d)) }
    {
        Ok(Doc::Text(Text::of(String::from_str(alloc, content)?)))
    }

    /// The text as a document, or null where there is none.
    pub fn of_text_or_null(alloc: Global, content: &Option<Text>) -> Result<Doc, Memory>
        ensures value { IfOk result (λ d. document d ≡ text_or_null content.now) }
        ensures sound { IfOk result (λ d. IsSound (document d)) }
        ensures scalar { IfOk result (λ d. depth (document d) ≡ 0) }
    {
        match content {
            Some(content) => Doc::of_text(alloc, content.as_str()),
            None => Ok(Doc::Null),
        }
    }
}

impl Items {
    ghost use Rattle.std.specs.Prelude.{◌<◌};
    ghost use Rattle.std.specs.List.{All};
    ghost use Rattle.doc_value.specs.Document.{IsSound, list, members_of, depth, max_depth};
    ghost use Rattle.doc_value.specs.Seen.{document, documents};

    /// The list of these documents.
    pub fn of(docs: Vec<Doc>) -> Items
        ensures value { result ≡ documents docs.items }
        // The list of sound documents is sound, where each is one level below the limit.
        ensures sound { All (λ d. IsSound (document d) × (depth (document d) < max_depth)) docs.items
            → IsSound (list (members_of result)) }
    {
        Items { docs }
    }

    /// The documents, lent.
    pub fn as_slice(&self) -> &[Doc]
        ensures value { documents result.now ≡ self.now }
        ensures sound { IsSound (list (members_of self.now)) → All (λ d. IsSound (document d)) result.now }
    {
        self.docs.as_slice()
    }
}

impl Fields {
    ghost use Rattle.std.specs.Prelude.{◌<◌, [], option_map, IfSome, OnOk, OnErr};
    ghost use Rattle.std.specs.Ordering.{nat_cmp};
    ghost use Rattle.std.specs.Cmp.Lexicographic.{slice_cmp};
    ghost use Rattle.std.specs.FinMap.{find, put};
    ghost use Rattle.doc_value.specs.Document.{IsSound, object, fields_of, depth, max_depth};
    ghost use Rattle.doc_value.specs.Seen.{document, all_named};

    /// The fields of a map.
    pub fn of(docs: BTreeMap<String, Doc>) -> Fields
        ensures { result ≡ all_named docs.entries }
    {
        Fields { docs }
    }

    /// No fields.
    pub fn new(alloc: Global) -> Fields
        ensures { result ≡ [] }
    {
        Fields {
            docs: BTreeMap::new(alloc),
        }
    }

    /// The document at a name. `None` where no field has it.
    pub fn get(&self, name: &str) -> Option<&Doc>
        ensures value { option_map (λ d. document d.now) result ≡ find (slice_cmp nat_cmp) name.now self.now }
        ensures sound { IsSound (object (fields_of self.now)) → IfSome result (λ d. IsSound (document d.now)) }
    {
        self.docs.get(name)
    }

    /// Sets the document at a name, in place of one that is there. After an error the fields are as they were.
    pub fn insert(&mut self, alloc: Global, name: &str, doc: Doc) -> Result<(), Memory>
        ensures ok { OnOk result (self.new ≡ put (slice_cmp nat_cmp) name.now (document doc) self.old) }
        ensures err { OnErr result (self.new ≡ self.old) }
        // The object of sound fields stays sound, where the document is one level below the limit.
        ensures sound { IsSound (object (fields_of self.old)) → IsSound (document doc) → depth (document doc) < max_depth
            → IsSound (object (fields_of self.new)) }
    {
        let name = String::from_str(alloc, name)?;
        drop(self.docs.insert(name, doc)?);
        Ok(())
    }
}
