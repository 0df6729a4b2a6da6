use api_records::Refusal;
use doc_value::{Doc, Items};

/// The answer to a call.
#[derive(Drop)]
pub enum Reply {
    /// The record that a command made.
    Made(Doc),
    /// The record that was looked up, or that a command changed or, as it was before, ended.
    Found(Doc),
    /// The records of a list, in ascending order of their ids.
    Page { members: Items },
    /// Why there is no record.
    Refused(Refusal),
}
