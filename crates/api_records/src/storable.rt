ghost use Rattle.std.specs.Prelude.{◌≡◌, ◌<◌, ◌^◌, ◌↔◌, IsTrue, length};
ghost use Rattle.std.specs.List.{All};
ghost use Rattle.doc_value.specs.Seen.{document};
ghost use Rattle.api_records.specs.Storable.{IsObject, HasRightId, IsPayload, IsStored, HasRightParts, IsStorable};

use crate::command::{Change, Command};
use doc_value::Doc;

impl Command {
    /// Whether the command can be stored: each payload is an object whose whole numbers are in range, of depth at most 97, and whose
    /// `@id`, if it has one, is an id's text; there are fewer than 2^32 changes; and an entry with it has at most 2^27 bytes.
    pub fn is_storable(&self) -> bool
        ensures { IsTrue result ↔ IsStorable self.now }
    {
        self.has_right_parts() && self.is_short()
    }

    /// The same but for the length of its entry.
    pub fn has_right_parts(&self) -> bool
        ensures { IsTrue result ↔ HasRightParts self.now }
    {
        match self {
            Command::CreateCommit { changes, .. } => {
                let changes = changes.as_slice();
                changes.len() < 1 << 32 && have_right_payloads(changes)
            }
            _ => true,
        }
    }
}

fn have_right_payloads(changes: &[Change]) -> bool
    ensures { IsTrue result ↔ All (λ c. IsStored c.payload) changes.now }
{
    for change in changes {
        if !is_right_payload(&change.payload) {
            return false;
        }
    }
    true
}

fn is_right_payload(payload: &Option<Doc>) -> bool
    ensures { IsTrue result ↔ IsStored payload.now }
{
    match payload {
        Some(payload) => is_object(payload) && payload.is_within(97) && has_right_id(payload),
        None => true,
    }
}

fn is_object(doc: &Doc) -> bool
    ensures { IsTrue result ↔ IsObject (document doc.now) }
{
    matches!(doc, Doc::Object(_))
}

/// Whether the `@id`, if there is one, is an id's text.
fn has_right_id(doc: &Doc) -> bool
    ensures { IsTrue result ↔ HasRightId (document doc.now) }
{
    doc.field("@id").is_none() || doc.as_reference().is_some()
}
