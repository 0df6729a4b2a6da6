//! Writers of changes and commands, each at the end of the bytes.

ghost use Rattle.std.specs.Prelude.{◌≡◌, ◌++◌, ◌∷◌, ◌<◌, ◌^◌, length, IfSome, OnOk, IsUtf8};
ghost use Rattle.std.specs.List.{All};
ghost use Rattle.doc_value.specs.Document.{IsProper};
ghost use Rattle.doc_value.specs.Seen.{document};
ghost use Rattle.api_records.specs.Storable.{HasRightParts, IsStored};
ghost use Rattle.api_records.specs.declared.command.Command.TheVariants.{CreateProject, UpdateProject, DeleteProject, CreateBranch, CreateTag};
ghost use Rattle.api_records.specs.Spelling.{optional, list_bytes, text_bytes, id_bytes, document_bytes, change_bytes, command_bytes};
ghost use Rattle.entry_bytes.specs.Sound.{IsId, HasProperIdentity, HasProperPayload, HasProperParts};

use super::parts::{put_id, put_ids, put_optional_id, put_optional_text, put_slice, put_u32};
use api_records::{Change, Command};
use doc_value::Doc;
use std::alloc::Global;
use sysapi_base::{Id, Ids, Memory, Text};

#[tactic(auto, using(api_records::proofs::Lengths::length_32))]
fn put_optional_document(out: &mut Vec<u8>, alloc: Global, doc: &Option<Doc>) -> Result<(), Memory>
    requires few { length (optional document_bytes doc.now) < 2 ^ 32 }
    requires stored { IsStored doc.now }
    ensures bytes { OnOk result (out.new.items ≡ out.old.items ++ optional document_bytes doc.now) }
    ensures proper { OnOk result (IfSome doc.now (λ d. IsProper (document d))) }
{
    match doc {
        Some(doc) => {
            out.push(1)?;
            let text = doc.write(alloc)?;
            put_slice(out, &text)
        }
        None => Ok(out.push(0)?),
    }
}

fn put_change(out: &mut Vec<u8>, alloc: Global, change: &Change) -> Result<(), Memory>
    requires few { length (change_bytes change.now) < 2 ^ 32 }
    requires stored { IsStored change.now.payload }
    ensures bytes { OnOk result (out.new.items ≡ out.old.items ++ change_bytes change.now) }
    ensures identity { OnOk result (HasProperIdentity change.now) }
    ensures payload { OnOk result (HasProperPayload change.now) }
{
    put_optional_id(out, &change.identity)?;
    put_optional_document(out, alloc, &change.payload)
}

/// A list of changes.
fn put_changes(out: &mut Vec<u8>, alloc: Global, changes: &[Change]) -> Result<(), Memory>
    requires few { length (list_bytes change_bytes changes.now) < 2 ^ 32 }
    requires stored { All (λ c. IsStored c.payload) changes.now }
    ensures bytes { OnOk result (out.new.items ≡ out.old.items ++ list_bytes change_bytes changes.now) }
    ensures identities { OnOk result (All HasProperIdentity changes.now) }
    ensures payloads { OnOk result (All HasProperPayload changes.now) }
{
    put_u32(out, changes.len() as u32)?;
    for change in changes {
        put_change(out, alloc, change)?;
    }
    Ok(())
}

/// A tag and the fields of the command.
pub(crate) fn put_command(out: &mut Vec<u8>, alloc: Global, command: &Command) -> Result<(), Memory>
    requires few { length (command_bytes command.now) < 2 ^ 32 }
    requires stored { HasRightParts command.now }
    ensures bytes { OnOk result (out.new.items ≡ out.old.items ++ command_bytes command.now) }
    ensures proper { OnOk result (HasProperParts command.now) }
{
    match command {
        Command::CreateProject { name, description } => put_create_project(out, name, description),
        Command::UpdateProject {
            project,
            name,
            description,
            default_branch,
        } => put_update_project(out, *project, name, description, default_branch),
        Command::DeleteProject { project } => put_delete_project(out, *project),
        Command::CreateCommit {
            project,
            branch,
            previous,
            description,
            changes,
        } => {
            put_commit_fields(out, *project, branch, previous, description)?;
            put_changes(out, alloc, changes.as_slice())
        }
        Command::CreateBranch {
            project,
            name,
            head,
        } => put_create_branch(out, *project, name, head),
        Command::DeleteBranch { project, branch } => put_two_ids(out, 6, *project, *branch),
        Command::CreateTag {
            project,
            name,
            commit,
        } => put_create_tag(out, *project, name, *commit),
        Command::DeleteTag { project, tag } => put_two_ids(out, 8, *project, *tag),
    }
}

fn put_create_project(
    out: &mut Vec<u8>,
    name: &Option<Text>,
    description: &Option<Text>,
) -> Result<(), Memory>
    requires { length (command_bytes (CreateProject name.now description.now)) < 2 ^ 32 }
    ensures bytes { OnOk result (out.new.items ≡ out.old.items ++ command_bytes (CreateProject name.now description.now)) }
    ensures proper { OnOk result (HasProperParts (CreateProject name.now description.now)) }
{
    out.push(1)?;
    put_optional_text(out, name)?;
    put_optional_text(out, description)
}

fn put_update_project(
    out: &mut Vec<u8>,
    project: Id,
    name: &Option<Text>,
    description: &Option<Text>,
    branch: &Option<Id>,
) -> Result<(), Memory>
    requires { length (command_bytes (UpdateProject project name.now description.now branch.now)) < 2 ^ 32 }
    ensures bytes { OnOk result (out.new.items ≡ out.old.items ++ command_bytes (UpdateProject project name.now description.now branch.now)) }
    ensures proper { OnOk result (HasProperParts (UpdateProject project name.now description.now branch.now)) }
{
    out.push(2)?;
    put_id(out, project)?;
    put_optional_text(out, name)?;
    put_optional_text(out, description)?;
    put_optional_id(out, branch)
}

fn put_delete_project(out: &mut Vec<u8>, project: Id) -> Result<(), Memory>
    ensures bytes { OnOk result (out.new.items ≡ out.old.items ++ command_bytes (DeleteProject project)) }
    ensures proper { OnOk result (HasProperParts (DeleteProject project)) }
{
    out.push(3)?;
    put_id(out, project)
}

/// The tag and all fields of a commit but its changes.
fn put_commit_fields(
    out: &mut Vec<u8>,
    project: Id,
    branch: &Option<Id>,
    previous: &Ids,
    description: &Option<Text>,
) -> Result<(), Memory>
    requires ids { length (list_bytes id_bytes previous.now) < 2 ^ 32 }
    requires text { length (optional text_bytes description.now) < 2 ^ 32 }
    ensures bytes { OnOk result (out.new.items ≡ out.old.items ++ 4 ∷ (id_bytes project ++ (optional id_bytes branch.now ++ (list_bytes id_bytes previous.now ++ optional text_bytes description.now)))) }
    ensures project { OnOk result (IsId project) }
    ensures branch { OnOk result (IfSome branch.now IsId) }
    ensures previous { OnOk result (All IsId previous.now) }
    ensures description { OnOk result (IfSome description.now IsUtf8) }
{
    out.push(4)?;
    put_id(out, project)?;
    put_optional_id(out, branch)?;
    put_ids(out, previous.as_slice())?;
    put_optional_text(out, description)
}

fn put_create_branch(
    out: &mut Vec<u8>,
    project: Id,
    name: &Option<Text>,
    head: &Option<Id>,
) -> Result<(), Memory>
    requires { length (command_bytes (CreateBranch project name.now head.now)) < 2 ^ 32 }
    ensures bytes { OnOk result (out.new.items ≡ out.old.items ++ command_bytes (CreateBranch project name.now head.now)) }
    ensures proper { OnOk result (HasProperParts (CreateBranch project name.now head.now)) }
{
    out.push(5)?;
    put_id(out, project)?;
    put_optional_text(out, name)?;
    put_optional_id(out, head)
}

fn put_create_tag(
    out: &mut Vec<u8>,
    project: Id,
    name: &Option<Text>,
    commit: Id,
) -> Result<(), Memory>
    requires { length (command_bytes (CreateTag project name.now commit)) < 2 ^ 32 }
    ensures bytes { OnOk result (out.new.items ≡ out.old.items ++ command_bytes (CreateTag project name.now commit)) }
    ensures proper { OnOk result (HasProperParts (CreateTag project name.now commit)) }
{
    out.push(7)?;
    put_id(out, project)?;
    put_optional_text(out, name)?;
    put_id(out, commit)
}

/// A tag, and the id of the project and of what belongs to it.
fn put_two_ids(out: &mut Vec<u8>, tag: u8, project: Id, other: Id) -> Result<(), Memory>
    ensures bytes { OnOk result (out.new.items ≡ out.old.items ++ tag ∷ (id_bytes project ++ id_bytes other)) }
    ensures project { OnOk result (IsId project) }
    ensures other { OnOk result (IsId other) }
{
    out.push(tag)?;
    put_id(out, project)?;
    put_id(out, other)
}
