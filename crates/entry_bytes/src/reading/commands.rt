//! Readers of changes and commands.

ghost use Rattle.std.specs.Prelude.{◌≡◌, IfOk, IfSome};
ghost use Rattle.std.specs.List.{All};
ghost use Rattle.entry_bytes.specs.Sound.{IsKept, HasKeptPayload, HasKeptPayloads};
ghost use Rattle.entry_bytes.specs.Reading.{Gives, optional_at, repeated_at, list_at, document_at, change_at, create_project_at, update_project_at, delete_project_at, create_commit_at, create_branch_at, delete_branch_at, create_tag_at, delete_tag_at, fields_at, command_at};

use super::parts::{
    optional_id, read_id, read_ids, read_optional_id, read_optional_text, read_slice, read_u32,
};
use super::payload::payload_of;
use crate::error::DecodeError;
use api_records::{Change, Changes, Command};
use doc_value::Doc;
use std::alloc::Global;
use sysapi_base::Id;

fn read_document(alloc: Global, bytes: &[u8]) -> Result<(Doc, &[u8]), DecodeError>
    ensures read { Gives (λ x. (x.0, x.1.now)) result (document_at bytes.now) }
    ensures kept { IfOk result (λ x. IsKept x.0) }
{
    let (text, rest) = read_slice(bytes)?;
    let doc = payload_of(alloc, text)?;
    Ok((doc, rest))
}

fn read_optional_document(alloc: Global, bytes: &[u8]) -> Result<(Option<Doc>, &[u8]), DecodeError>
    ensures read { Gives (λ x. (x.0, x.1.now)) result (optional_at document_at bytes.now) }
    ensures kept { IfOk result (λ x. IfSome x.0 IsKept) }
{
    match bytes {
        [0, rest @ ..] => Ok((None, rest)),
        [1, rest @ ..] => {
            let (doc, rest) = read_document(alloc, rest)?;
            Ok((Some(doc), rest))
        }
        _ => Err(DecodeError::NotAnEntry),
    }
}

fn read_change(alloc: Global, bytes: &[u8]) -> Result<(Change, &[u8]), DecodeError>
    ensures read { Gives (λ x. (x.0, x.1.now)) result (change_at bytes.now) }
    ensures kept { IfOk result (λ x. HasKeptPayload x.0) }
{
    let (identity, rest) = read_optional_id(bytes)?;
    let (payload, rest) = read_optional_document(alloc, rest)?;
    let identity = optional_id(identity);
    Ok((Change { identity, payload }, rest))
}

/// A list of changes.
fn read_changes(alloc: Global, bytes: &[u8]) -> Result<(Changes, &[u8]), DecodeError>
    ensures read { Gives (λ x. (x.0, x.1.now)) result (list_at change_at bytes.now) }
    ensures kept { IfOk result (λ x. All HasKeptPayload x.0) }
{
    let (count, rest) = read_u32(bytes)?;
    let (changes, rest) = read_members(alloc, count, rest)?;
    Ok((Changes::of(changes), rest))
}

/// So many changes.
fn read_members(
    alloc: Global,
    count: u32,
    bytes: &[u8],
) -> Result<(Vec<Change>, &[u8]), DecodeError>
    ensures read { Gives (λ x. (x.0.items, x.1.now)) result (repeated_at change_at count bytes.now) }
    ensures kept { IfOk result (λ x. All HasKeptPayload x.0.items) }
{
    let mut changes = Vec::new(alloc);
    let mut rest = bytes;
    for _ in 0..count {
        let (change, after) = read_change(alloc, rest)?;
        changes.push(change)?;
        rest = after;
    }
    Ok((changes, rest))
}

/// A tag and the fields of its command.
pub(crate) fn read_command(alloc: Global, bytes: &[u8]) -> Result<(Command, &[u8]), DecodeError>
    ensures read { Gives (λ x. (x.0, x.1.now)) result (command_at bytes.now) }
    ensures kept { IfOk result (λ x. HasKeptPayloads x.0) }
{
    match bytes {
        [] => Err(DecodeError::NotAnEntry),
        [tag, rest @ ..] => read_fields(alloc, *tag, rest),
    }
}

fn read_fields(alloc: Global, tag: u8, bytes: &[u8]) -> Result<(Command, &[u8]), DecodeError>
    ensures read { Gives (λ x. (x.0, x.1.now)) result (fields_at tag bytes.now) }
    ensures kept { IfOk result (λ x. HasKeptPayloads x.0) }
{
    match tag {
        1 => read_create_project(alloc, bytes),
        2 => read_update_project(alloc, bytes),
        3 => read_delete_project(bytes),
        4 => read_create_commit(alloc, bytes),
        5 => read_create_branch(alloc, bytes),
        6 => read_delete_branch(bytes),
        7 => read_create_tag(alloc, bytes),
        8 => read_delete_tag(bytes),
        _ => Err(DecodeError::NotAnEntry),
    }
}

fn read_create_project(alloc: Global, bytes: &[u8]) -> Result<(Command, &[u8]), DecodeError>
    ensures read { Gives (λ x. (x.0, x.1.now)) result (create_project_at bytes.now) }
    ensures kept { IfOk result (λ x. HasKeptPayloads x.0) }
{
    let (name, rest) = read_optional_text(alloc, bytes)?;
    let (description, rest) = read_optional_text(alloc, rest)?;
    Ok((Command::CreateProject { name, description }, rest))
}

fn read_update_project(alloc: Global, bytes: &[u8]) -> Result<(Command, &[u8]), DecodeError>
    ensures read { Gives (λ x. (x.0, x.1.now)) result (update_project_at bytes.now) }
    ensures kept { IfOk result (λ x. HasKeptPayloads x.0) }
{
    let (project, rest) = read_id(bytes)?;
    let (name, rest) = read_optional_text(alloc, rest)?;
    let (description, rest) = read_optional_text(alloc, rest)?;
    let (branch, rest) = read_optional_id(rest)?;
    let command = Command::UpdateProject {
        project: Id::from_u128(project),
        name,
        description,
        default_branch: optional_id(branch),
    };
    Ok((command, rest))
}

fn read_delete_project(bytes: &[u8]) -> Result<(Command, &[u8]), DecodeError>
    ensures read { Gives (λ x. (x.0, x.1.now)) result (delete_project_at bytes.now) }
    ensures kept { IfOk result (λ x. HasKeptPayloads x.0) }
{
    let (project, rest) = read_id(bytes)?;
    let project = Id::from_u128(project);
    Ok((Command::DeleteProject { project }, rest))
}

fn read_create_commit(alloc: Global, bytes: &[u8]) -> Result<(Command, &[u8]), DecodeError>
    ensures read { Gives (λ x. (x.0, x.1.now)) result (create_commit_at bytes.now) }
    ensures kept { IfOk result (λ x. HasKeptPayloads x.0) }
{
    let (project, rest) = read_id(bytes)?;
    let (branch, rest) = read_optional_id(rest)?;
    let (previous, rest) = read_ids(alloc, rest)?;
    let (description, rest) = read_optional_text(alloc, rest)?;
    let (changes, rest) = read_changes(alloc, rest)?;
    let command = Command::CreateCommit {
        project: Id::from_u128(project),
        branch: optional_id(branch),
        previous,
        description,
        changes,
    };
    Ok((command, rest))
}

fn read_create_branch(alloc: Global, bytes: &[u8]) -> Result<(Command, &[u8]), DecodeError>
    ensures read { Gives (λ x. (x.0, x.1.now)) result (create_branch_at bytes.now) }
    ensures kept { IfOk result (λ x. HasKeptPayloads x.0) }
{
    let (project, rest) = read_id(bytes)?;
    let (name, rest) = read_optional_text(alloc, rest)?;
    let (head, rest) = read_optional_id(rest)?;
    let command = Command::CreateBranch {
        project: Id::from_u128(project),
        name,
        head: optional_id(head),
    };
    Ok((command, rest))
}

fn read_delete_branch(bytes: &[u8]) -> Result<(Command, &[u8]), DecodeError>
    ensures read { Gives (λ x. (x.0, x.1.now)) result (delete_branch_at bytes.now) }
    ensures kept { IfOk result (λ x. HasKeptPayloads x.0) }
{
    let (project, rest) = read_id(bytes)?;
    let (branch, rest) = read_id(rest)?;
    let command = Command::DeleteBranch {
        project: Id::from_u128(project),
        branch: Id::from_u128(branch),
    };
    Ok((command, rest))
}

fn read_create_tag(alloc: Global, bytes: &[u8]) -> Result<(Command, &[u8]), DecodeError>
    ensures read { Gives (λ x. (x.0, x.1.now)) result (create_tag_at bytes.now) }
    ensures kept { IfOk result (λ x. HasKeptPayloads x.0) }
{
    let (project, rest) = read_id(bytes)?;
    let (name, rest) = read_optional_text(alloc, rest)?;
    let (commit, rest) = read_id(rest)?;
    let command = Command::CreateTag {
        project: Id::from_u128(project),
        name,
        commit: Id::from_u128(commit),
    };
    Ok((command, rest))
}

fn read_delete_tag(bytes: &[u8]) -> Result<(Command, &[u8]), DecodeError>
    ensures read { Gives (λ x. (x.0, x.1.now)) result (delete_tag_at bytes.now) }
    ensures kept { IfOk result (λ x. HasKeptPayloads x.0) }
{
    let (project, rest) = read_id(bytes)?;
    let (tag, rest) = read_id(rest)?;
    let command = Command::DeleteTag {
        project: Id::from_u128(project),
        tag: Id::from_u128(tag),
    };
    Ok((command, rest))
}
