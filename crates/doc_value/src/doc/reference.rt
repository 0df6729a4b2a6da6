ghost use Rattle.std.specs.Prelude.{◌≡◌, slice_get};
ghost use Rattle.doc_value.specs.Document.{members_of};
ghost use Rattle.doc_value.specs.Reference.{reference, references, references_among};
ghost use Rattle.doc_value.specs.Seen.{document, documents};

use crate::doc::Doc;
use sysapi_base::Id;

impl Doc {
    /// The id that a reference names: an object whose `@id` is an id's text. `None` where this is no reference.
    pub fn as_reference(&self) -> Option<Id>
        ensures { result ≡ reference (document self.now) }
    {
        match self.field("@id") {
            Some(Doc::Text(text)) => Id::parse(text.as_str()),
            _ => None,
        }
    }

    /// The id of the reference at `i` (from 0) among those of a list, where members that are no references are not counted. A
    /// document that is itself a reference counts as a list of it. `None` past the last.
    pub fn reference_at(&self, i: usize) -> Option<Id>
        ensures { result ≡ slice_get (references (document self.now)) i }
    {
        match self {
            Doc::List(items) => reference_among(&items.docs, i),
            Doc::Object(_) if i == 0 => self.as_reference(),
            _ => None,
        }
    }
}

// The same among the members of a list.
fn reference_among(docs: &Vec<Doc>, i: usize) -> Option<Id>
    ensures { result ≡ slice_get (references_among (members_of (documents docs.now.items))) i }
{
    let mut before = i;
    for doc in docs {
        if let Some(id) = doc.as_reference() {
            if before == 0 {
                return Some(id);
            }
            before -= 1;
        }
    }
    None
}
