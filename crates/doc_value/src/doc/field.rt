ghost use Rattle.std.specs.Prelude.{◌≡◌, option_map, IfSome};
ghost use Rattle.doc_value.specs.Document.{IsSound, field_at};
ghost use Rattle.doc_value.specs.Seen.{document};

use crate::doc::Doc;

impl Doc {
    /// The document at a name of an object. `None` where it has no such field, or where this is no object.
    pub fn field(&self, name: &str) -> Option<&Doc>
        ensures value { option_map (λ d. document d.now) result ≡ field_at name.now (document self.now) }
        ensures sound { IsSound (document self.now) → IfSome result (λ d. IsSound (document d.now)) }
    {
        match self {
            Doc::Object(fields) => fields.docs.get(name),
            _ => None,
        }
    }
}
