ghost use Rattle.std.specs.Prelude.{◌≡◌, List, IfOk};
ghost use Rattle.entry_codec.specs.declared.entry.Entry.{Entry};
ghost use Rattle.entry_codec.specs.Replies.{IsSoundReply, read_reply, reply_at};
ghost use Rattle.repo_state.specs.Stands.{StandsFor, repository_of};

use crate::list::{branches, commits, projects, tags, versions};
use crate::one::{one_branch, one_commit, one_element, one_project, one_tag, one_version};
use entry_codec::{ReadCall, Reply};
use repo_state::State;
use std::alloc::Global;
use sysapi_base::Memory;

/// The reply to a look-up at the front of a state. The only error is want of memory.
pub fn answer(alloc: Global, view: &State, call: &ReadCall) -> Result<Reply, Memory>
    ensures reply { (past : List Entry) → StandsFor view.now past → IfOk result (λ a. a ≡ read_reply (repository_of view.now) past call.now) }
    ensures sound { IfOk result IsSoundReply }
{
    answer_at(alloc, view, view.front(), call)
}

/// The reply to a look-up at a point, which is that at the front for each point from there on. What is told is copied once. The only
/// error is want of memory.
pub fn answer_at(alloc: Global, view: &State, point: u64, call: &ReadCall) -> Result<Reply, Memory>
    ensures reply { (past : List Entry) → StandsFor view.now past → IfOk result (λ a. a ≡ reply_at (repository_of view.now) point past call.now) }
    ensures sound { IfOk result IsSoundReply }
{
    match *call {
        ReadCall::Projects => projects(alloc, view, point),
        ReadCall::OneProject { project } => one_project(alloc, view, point, project),
        ReadCall::Branches { project } => branches(alloc, view, point, project),
        ReadCall::OneBranch { project, id } => one_branch(alloc, view, point, project, id),
        ReadCall::Tags { project } => tags(alloc, view, point, project),
        ReadCall::OneTag { project, id } => one_tag(alloc, view, point, project, id),
        ReadCall::Commits { project, branch } => commits(alloc, view, point, project, branch),
        ReadCall::OneCommit { project, commit } => one_commit(alloc, view, point, project, commit),
        ReadCall::Versions { project, commit } => versions(alloc, view, point, project, commit),
        ReadCall::OneVersion {
            project,
            commit,
            id,
        } => one_version(alloc, view, point, project, commit, id),
        ReadCall::OneElement {
            project,
            commit,
            id,
        } => one_element(alloc, view, point, project, commit, id),
    }
}
