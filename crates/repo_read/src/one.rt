//! Look-ups of one record.

ghost use Rattle.std.specs.Prelude.{◌≡◌, List, IfOk};
ghost use Rattle.entry_codec.specs.declared.entry.Entry.{Entry};
ghost use Rattle.entry_codec.specs.declared.call.ReadCall.TheVariants as call;
ghost use Rattle.entry_codec.specs.Replies.{IsSoundReply, reply_at};
ghost use Rattle.repo_state.specs.Stands.{StandsFor, repository_of};

use crate::record::{
    commit_record, element_of, project_branch, project_commit, project_tag, version_in,
};
use api_records::Refusal;
use entry_codec::Reply;
use repo_state::State;
use std::alloc::Global;
use sysapi_base::{Id, Memory};

/// The project with this id.
pub(crate) fn one_project(
    alloc: Global,
    view: &State,
    point: u64,
    project: Id,
) -> Result<Reply, Memory>
    ensures reply { (past : List Entry) → StandsFor view.now past → IfOk result (λ a. a ≡ reply_at (repository_of view.now) point past (call.OneProject project)) }
    ensures sound { IfOk result IsSoundReply }
{
    match view.project(project, point) {
        Some(project) => Ok(Reply::Found(project.to_doc(alloc)?)),
        None => Ok(Reply::Refused(Refusal::UnknownProject)),
    }
}

/// The project's branch with this id.
pub(crate) fn one_branch(
    alloc: Global,
    view: &State,
    point: u64,
    project: Id,
    id: Id,
) -> Result<Reply, Memory>
    ensures reply { (past : List Entry) → StandsFor view.now past → IfOk result (λ a. a ≡ reply_at (repository_of view.now) point past (call.OneBranch project id)) }
    ensures sound { IfOk result IsSoundReply }
{
    if view.project(project, point).is_none() {
        return Ok(Reply::Refused(Refusal::UnknownProject));
    }
    match project_branch(view, project, id, point) {
        Some(branch) => Ok(Reply::Found(branch.to_doc(alloc)?)),
        None => Ok(Reply::Refused(Refusal::UnknownBranch)),
    }
}

/// The project's tag with this id.
pub(crate) fn one_tag(
    alloc: Global,
    view: &State,
    point: u64,
    project: Id,
    id: Id,
) -> Result<Reply, Memory>
    ensures reply { (past : List Entry) → StandsFor view.now past → IfOk result (λ a. a ≡ reply_at (repository_of view.now) point past (call.OneTag project id)) }
    ensures sound { IfOk result IsSoundReply }
{
    if view.project(project, point).is_none() {
        return Ok(Reply::Refused(Refusal::UnknownProject));
    }
    match project_tag(view, project, id, point) {
        Some(tag) => Ok(Reply::Found(tag.to_doc(alloc)?)),
        None => Ok(Reply::Refused(Refusal::UnknownTag)),
    }
}

/// The project's commit with this id.
pub(crate) fn one_commit(
    alloc: Global,
    view: &State,
    point: u64,
    project: Id,
    commit: Id,
) -> Result<Reply, Memory>
    ensures reply { (past : List Entry) → StandsFor view.now past → IfOk result (λ a. a ≡ reply_at (repository_of view.now) point past (call.OneCommit project commit)) }
    ensures sound { IfOk result IsSoundReply }
{
    if view.project(project, point).is_none() {
        return Ok(Reply::Refused(Refusal::UnknownProject));
    }
    match commit_record(view, project, commit, point) {
        Some(record) => Ok(Reply::Found(record.to_doc(alloc)?)),
        None => Ok(Reply::Refused(Refusal::UnknownCommit)),
    }
}

/// The data version with this id of a commit of the project.
pub(crate) fn one_version(
    alloc: Global,
    view: &State,
    point: u64,
    project: Id,
    commit: Id,
    id: Id,
) -> Result<Reply, Memory>
    ensures reply { (past : List Entry) → StandsFor view.now past → IfOk result (λ a. a ≡ reply_at (repository_of view.now) point past (call.OneVersion project commit id)) }
    ensures sound { IfOk result IsSoundReply }
{
    if view.project(project, point).is_none() {
        return Ok(Reply::Refused(Refusal::UnknownProject));
    }
    let Some(made) = project_commit(view, project, commit, point) else {
        return Ok(Reply::Refused(Refusal::UnknownCommit));
    };
    match version_in(made.versions(), id) {
        Some(version) => Ok(Reply::Found(version.to_doc(alloc)?)),
        None => Ok(Reply::Refused(Refusal::UnknownChange)),
    }
}

/// The element with this id at a commit of the project.
pub(crate) fn one_element(
    alloc: Global,
    view: &State,
    point: u64,
    project: Id,
    commit: Id,
    id: Id,
) -> Result<Reply, Memory>
    ensures reply { (past : List Entry) → StandsFor view.now past → IfOk result (λ a. a ≡ reply_at (repository_of view.now) point past (call.OneElement project commit id)) }
    ensures sound { IfOk result IsSoundReply }
{
    if view.project(project, point).is_none() {
        return Ok(Reply::Refused(Refusal::UnknownProject));
    }
    let Some(made) = project_commit(view, project, commit, point) else {
        return Ok(Reply::Refused(Refusal::UnknownCommit));
    };
    match element_of(made, id) {
        Some(doc) => Ok(Reply::Found(doc.copy(alloc)?)),
        None => Ok(Reply::Refused(Refusal::UnknownElement)),
    }
}
