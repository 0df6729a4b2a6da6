ghost use Rattle.std.specs.Prelude.{◌≡◌, ◌+◌, ◌-◌, ◌≤◌, ◌^◌, ◌↔◌, IsTrue, min, length, ◌∷◌, ◌++◌};
ghost use Rattle.std.specs.List.{All, flat_map};
ghost use Rattle.doc_value.specs.Length.{plus};
ghost use Rattle.api_records.specs.Storable.{HasRightParts, IsShort, IsStored};
ghost use Rattle.api_records.specs.Spelling.{optional, list_bytes, text_bytes, id_bytes, document_bytes, change_bytes, command_bytes};

use crate::command::{Change, Command};
use doc_value::Doc;
use sysapi_base::{Id, Text};

impl Command {
    /// The length in bytes of an entry with this command: 8 for its moment, and those of the command; or 2^64 - 1 where it is longer.
    pub fn encoded_len(&self) -> u64
        requires { HasRightParts self.now }
        ensures { result ≡ min (8 + length (command_bytes self.now)) (2 ^ 64 - 1) }
    {
        len_of_command(self, 8)
    }

    /// Whether an entry with this command has at most 2^27 bytes.
    pub fn is_short(&self) -> bool
        requires { HasRightParts self.now }
        ensures { IsTrue result ↔ IsShort self.now }
    {
        self.encoded_len() <= 134_217_728
    }
}

// `so_far` and the length of the part's bytes, at most 2^64 - 1; so in all functions below. The count is passed down, so that one
// addition a part is enough.
#[tactic(auto, using(crate::proofs::Lengths::lengths))]
fn len_of_command(command: &Command, so_far: u64) -> u64
    requires { HasRightParts command.now }
    ensures { result ≡ plus so_far (command_bytes command.now) }
{
    match command {
        Command::CreateProject { name, description } => {
            let total = len_of_optional_text(name, so_far.saturating_add(1));
            len_of_optional_text(description, total)
        }
        Command::UpdateProject {
            project: _,
            name,
            description,
            default_branch,
        } => {
            let total = len_of_optional_text(name, so_far.saturating_add(17));
            let total = len_of_optional_text(description, total);
            len_of_optional_id(default_branch, total)
        }
        Command::DeleteProject { project: _ } => so_far.saturating_add(17),
        Command::CreateCommit {
            project: _,
            branch,
            previous,
            description,
            changes,
        } => {
            let total = len_of_optional_id(branch, so_far.saturating_add(17));
            let total = len_of_ids(previous.as_slice(), total);
            let total = len_of_optional_text(description, total);
            len_of_changes(changes.as_slice(), total)
        }
        Command::CreateBranch {
            project: _,
            name,
            head,
        } => {
            let total = len_of_optional_text(name, so_far.saturating_add(17));
            len_of_optional_id(head, total)
        }
        Command::DeleteBranch {
            project: _,
            branch: _,
        } => so_far.saturating_add(33),
        Command::CreateTag {
            project: _,
            name,
            commit: _,
        } => len_of_optional_text(name, so_far.saturating_add(33)),
        Command::DeleteTag { project: _, tag: _ } => so_far.saturating_add(33),
    }
}

#[tactic(auto, using(crate::proofs::Lengths::lengths))]
fn len_of_optional_text(text: &Option<Text>, so_far: u64) -> u64
    ensures { result ≡ plus so_far (optional text_bytes text.now) }
{
    match text {
        Some(text) => so_far
            .saturating_add(5)
            .saturating_add(text.as_str().len() as u64),
        None => so_far.saturating_add(1),
    }
}

#[tactic(auto, using(crate::proofs::Lengths::lengths))]
fn len_of_optional_id(id: &Option<Id>, so_far: u64) -> u64
    ensures { result ≡ plus so_far (optional id_bytes id.now) }
{
    match id {
        Some(_) => so_far.saturating_add(17),
        None => so_far.saturating_add(1),
    }
}

#[tactic(auto, using(crate::proofs::Lengths::lengths))]
fn len_of_ids(ids: &[Id], so_far: u64) -> u64
    ensures { result ≡ plus so_far (list_bytes id_bytes ids.now) }
{
    so_far
        .saturating_add(4)
        .saturating_add((ids.len() as u64).saturating_mul(16))
}

#[tactic(auto, using(crate::proofs::Lengths::lengths))]
fn len_of_optional_document(doc: &Option<Doc>, so_far: u64) -> u64
    requires { IsStored doc.now }
    ensures { result ≡ plus so_far (optional document_bytes doc.now) }
{
    match doc {
        Some(doc) => so_far.saturating_add(5).saturating_add(doc.written_len()),
        None => so_far.saturating_add(1),
    }
}

#[tactic(auto, using(crate::proofs::Lengths::lengths))]
fn len_of_changes(changes: &[Change], so_far: u64) -> u64
    requires { All (λ c. IsStored c.payload) changes.now }
    ensures { result ≡ plus so_far (list_bytes change_bytes changes.now) }
{
    let mut total = so_far.saturating_add(4);
    for change in changes {
        total = len_of_change(change, total);
    }
    total
}

#[tactic(auto, using(crate::proofs::Lengths::lengths))]
fn len_of_change(change: &Change, so_far: u64) -> u64
    requires { IsStored change.now.payload }
    ensures { result ≡ plus so_far (change_bytes change.now) }
{
    let total = len_of_optional_id(&change.identity, so_far);
    len_of_optional_document(&change.payload, total)
}
