//! The commands that bodies ask for.

ghost use Rattle.std.specs.Prelude.{◌<◌, ◌^◌, IfOk};
ghost use Rattle.doc_value.specs.Document.{IsSound};
ghost use Rattle.doc_value.specs.Seen.{document};
ghost use Rattle.api_records.specs.Bodies.{Shapes, HasIds, command_in, project_in, update_in, commit_in, branch_in, tag_in};
ghost use Rattle.api_records.specs.Storable.{HasRightParts, HasFew};

mod changes;
mod parts;

use crate::body::changes::changes_at;
use crate::body::parts::{bad_shape, head_at, previous_at, reference_at_key, tagged_at, text_at};
use crate::command::Command;
use doc_value::Doc;
use std::alloc::{AllocError, AllocFailed, Global};
use sysapi_base::{Id, Ids, Memory, Text};

/// The bodies that ask for commands.
#[derive(Clone, Copy, Debug, PartialEq, Eq)]
pub enum BodyKind {
    /// An object with `name` and `description`, which makes a project.
    Project,
    /// An object with `name`, `description` and `defaultBranch`, which updates a project.
    ProjectUpdate,
    /// An object with `change`, `description` and `previousCommit`.
    Commit,
    /// An object with `name` and `head`, or `referencedCommit` in its place.
    Branch,
    /// An object with `name` and `taggedCommit`, or `referencedCommit` in its place.
    Tag,
}

/// Why a body asks for no command.
#[derive(Debug, Drop)]
pub enum ShapeError {
    /// The value of this key is wrong, the first one in the order of the body's keys. The key is empty where the body is no object.
    BadShape { key: Text },
    /// No memory was found.
    Memory,
}

impl From<Memory> for ShapeError {
    ghost use Rattle.std.specs.Prelude.{◌≡◌};
    ghost use Rattle.api_records.specs.declared.body.ShapeError.TheVariants as shape;

    ghost from_gives = { λ _ e. e ≡ shape.Memory };

    fn from(_error: Memory) -> ShapeError {
        ShapeError::Memory
    }
}

impl From<AllocError> for ShapeError {
    ghost use Rattle.std.specs.Prelude.{◌≡◌};
    ghost use Rattle.api_records.specs.declared.body.ShapeError.TheVariants as shape;

    ghost from_gives = { λ _ e. e ≡ shape.Memory };

    fn from(_error: AllocError) -> ShapeError {
        ShapeError::Memory
    }
}

impl<T: Drop> From<AllocFailed<T>> for ShapeError {
    ghost use Rattle.std.specs.Prelude.{◌≡◌};
    ghost use Rattle.api_records.specs.declared.body.ShapeError.TheVariants as shape;

    ghost from_gives = { λ _ e. e ≡ shape.Memory };

    fn from(_failed: AllocFailed<T>) -> ShapeError {
        ShapeError::Memory
    }
}

impl Command {
    /// The command that a body of this kind asks for. `ids` are those of its route: none for a new project, and the project's for all
    /// others. `branch` is the branch that the request names, which commits alone use. Keys that the kind doesn't name are ignored.
    /// `BadShape` tells the first wrong key in the order of the kind's keys; within `change`, members that are no objects come first,
    /// and then member by member `identity`, `payload` and the `@id` of the payload. `Memory` comes where memory is wanting alone, or
    /// for 2^32 changes or more, which no body holds.
    pub fn from_body(
        alloc: Global,
        kind: BodyKind,
        doc: &Doc,
        ids: &Ids,
        branch: Option<Id>,
    ) -> Result<Command, ShapeError>
        requires ids { HasIds kind ids.now }
        requires sound { IsSound (document doc.now) }
        ensures exact { Shapes result (command_in kind ids.now branch (document doc.now)) }
        ensures right_parts { IfOk result HasRightParts }
    {
        let Doc::Object(_) = doc else {
            return Err(bad_shape(alloc, "")?);
        };
        match (kind, ids.as_slice().first()) {
            (BodyKind::Project, _) => project_of(alloc, doc),
            (BodyKind::ProjectUpdate, Some(project)) => update_of(alloc, *project, doc),
            (BodyKind::Commit, Some(project)) => commit_of(alloc, *project, branch, doc),
            (BodyKind::Branch, Some(project)) => branch_of(alloc, *project, doc),
            (BodyKind::Tag, Some(project)) => tag_of(alloc, *project, doc),
            (_, None) => Err(bad_shape(alloc, "")?),
        }
    }
}

// The command of a new project's body: `name`, then `description`.
fn project_of(alloc: Global, doc: &Doc) -> Result<Command, ShapeError>
    ensures exact { Shapes result (project_in (document doc.now)) }
    ensures right_parts { IfOk result HasRightParts }
{
    let name = text_at(alloc, doc, "name")?;
    let description = text_at(alloc, doc, "description")?;
    Ok(Command::CreateProject { name, description })
}

// The command of a project's update: `name`, then `description`, then `defaultBranch`.
fn update_of(alloc: Global, project: Id, doc: &Doc) -> Result<Command, ShapeError>
    ensures exact { Shapes result (update_in project (document doc.now)) }
    ensures right_parts { IfOk result HasRightParts }
{
    let name = text_at(alloc, doc, "name")?;
    let description = text_at(alloc, doc, "description")?;
    let default_branch = reference_at_key(alloc, doc, "defaultBranch")?;
    Ok(Command::UpdateProject {
        project,
        name,
        description,
        default_branch,
    })
}

// The command of a commit's body: `change`, then `description`, then `previousCommit`.
fn commit_of(
    alloc: Global,
    project: Id,
    branch: Option<Id>,
    doc: &Doc,
) -> Result<Command, ShapeError>
    ensures exact { Shapes result (commit_in project branch (document doc.now)) }
    ensures few { IfOk result HasFew }
{
    let changes = changes_at(alloc, doc)?;
    let description = text_at(alloc, doc, "description")?;
    let previous = previous_at(alloc, doc)?;
    Ok(Command::CreateCommit {
        project,
        branch,
        previous,
        description,
        changes,
    })
}

// The command of a branch's body: `name`, then the head.
fn branch_of(alloc: Global, project: Id, doc: &Doc) -> Result<Command, ShapeError>
    ensures exact { Shapes result (branch_in project (document doc.now)) }
    ensures right_parts { IfOk result HasRightParts }
{
    let name = text_at(alloc, doc, "name")?;
    let head = head_at(alloc, doc)?;
    Ok(Command::CreateBranch {
        project,
        name,
        head,
    })
}

// The command of a tag's body: `name`, then the commit.
fn tag_of(alloc: Global, project: Id, doc: &Doc) -> Result<Command, ShapeError>
    ensures exact { Shapes result (tag_in project (document doc.now)) }
    ensures right_parts { IfOk result HasRightParts }
{
    let name = text_at(alloc, doc, "name")?;
    let commit = tagged_at(alloc, doc)?;
    Ok(Command::CreateTag {
        project,
        name,
        commit,
    })
}
