//! Lists of records.

ghost use Rattle.std.specs.Prelude.{◌≡◌, List, map, IfOk};
ghost use Rattle.std.specs.List.{All};
ghost use Rattle.doc_value.specs.Seen.{documents};
ghost use Rattle.api_records.specs.Records.{version_doc};
ghost use Rattle.api_records.specs.Storable.{IsShallow};
ghost use Rattle.entry_codec.specs.declared.entry.Entry.{Entry};
ghost use Rattle.entry_codec.specs.declared.call.ReadCall.TheVariants as call;
ghost use Rattle.entry_codec.specs.declared.reply.Reply.TheVariants as reply;
ghost use Rattle.entry_codec.specs.Histories.{tables_at};
ghost use Rattle.entry_codec.specs.Replies.{IsSoundReply, reply_at, found};
ghost use Rattle.repo_state.specs.Stands.{StandsFor, repository_of};
ghost use Rattle.repo_read.specs.Listed.{AreListable, call_of};

use crate::listing::Listing;
use crate::record::{project_branch, project_commit};
use api_records::{Refusal, Version};
use doc_value::{Doc, Items};
use entry_codec::Reply;
use repo_state::State;
use std::alloc::Global;
use std::sync::Arc;
use sysapi_base::{Id, Memory};

/// The reply that tells these records.
fn page(docs: Vec<Doc>) -> Reply
    requires { AreListable docs.items }
    ensures page { result ≡ reply.Page (documents docs.items) }
    ensures sound { IsSoundReply result }
{
    Reply::Page {
        members: Items::of(docs),
    }
}

/// The reply that tells the records of a list.
fn told(alloc: Global, view: &State, point: u64, of: Listing) -> Result<Reply, Memory>
    ensures reply { (past : List Entry) → StandsFor view.now past → IfOk result (λ a. a ≡ found (repository_of view.now) (tables_at (repository_of view.now) point past) (call_of of)) }
    ensures sound { IfOk result IsSoundReply }
{
    Ok(page(of.docs(alloc, view, point)?))
}

/// All projects.
pub(crate) fn projects(alloc: Global, view: &State, point: u64) -> Result<Reply, Memory>
    ensures reply { (past : List Entry) → StandsFor view.now past → IfOk result (λ a. a ≡ reply_at (repository_of view.now) point past call.Projects) }
    ensures sound { IfOk result IsSoundReply }
{
    told(alloc, view, point, Listing::Projects)
}

/// All branches of the project.
pub(crate) fn branches(
    alloc: Global,
    view: &State,
    point: u64,
    project: Id,
) -> Result<Reply, Memory>
    ensures reply { (past : List Entry) → StandsFor view.now past → IfOk result (λ a. a ≡ reply_at (repository_of view.now) point past (call.Branches project)) }
    ensures sound { IfOk result IsSoundReply }
{
    if view.project(project, point).is_none() {
        return Ok(Reply::Refused(Refusal::UnknownProject));
    }
    told(alloc, view, point, Listing::Branches { project })
}

/// All tags of the project.
pub(crate) fn tags(alloc: Global, view: &State, point: u64, project: Id) -> Result<Reply, Memory>
    ensures reply { (past : List Entry) → StandsFor view.now past → IfOk result (λ a. a ≡ reply_at (repository_of view.now) point past (call.Tags project)) }
    ensures sound { IfOk result IsSoundReply }
{
    if view.project(project, point).is_none() {
        return Ok(Reply::Refused(Refusal::UnknownProject));
    }
    told(alloc, view, point, Listing::Tags { project })
}

/// The commits of the project, or of these alone those in the ancestry of a branch's head.
pub(crate) fn commits(
    alloc: Global,
    view: &State,
    point: u64,
    project: Id,
    branch: Option<Id>,
) -> Result<Reply, Memory>
    ensures reply { (past : List Entry) → StandsFor view.now past → IfOk result (λ a. a ≡ reply_at (repository_of view.now) point past (call.Commits project branch)) }
    ensures sound { IfOk result IsSoundReply }
{
    if view.project(project, point).is_none() {
        return Ok(Reply::Refused(Refusal::UnknownProject));
    }
    if let Some(id) = branch {
        if project_branch(view, project, id, point).is_none() {
            return Ok(Reply::Refused(Refusal::UnknownBranch));
        }
    }
    told(alloc, view, point, Listing::Commits { project, branch })
}

/// The documents of these data versions.
fn version_docs(alloc: Global, versions: &[Arc<Version>]) -> Result<Vec<Doc>, Memory>
    requires { All (λ v. IsShallow v.value.payload) versions.now }
    ensures docs { IfOk result (λ v. v.items ≡ map version_doc (map (λ v. v.value) versions.now)) }
    ensures listable { IfOk result (λ v. AreListable v.items) }
{
    let mut docs = Vec::with_capacity(alloc, versions.len())?;
    for version in versions {
        docs.push(version.to_doc(alloc)?)?;
    }
    Ok(docs)
}

/// The data versions of a commit of the project.
pub(crate) fn versions(
    alloc: Global,
    view: &State,
    point: u64,
    project: Id,
    commit: Id,
) -> Result<Reply, Memory>
    ensures reply { (past : List Entry) → StandsFor view.now past → IfOk result (λ a. a ≡ reply_at (repository_of view.now) point past (call.Versions project commit)) }
    ensures sound { IfOk result IsSoundReply }
{
    if view.project(project, point).is_none() {
        return Ok(Reply::Refused(Refusal::UnknownProject));
    }
    let Some(made) = project_commit(view, project, commit, point) else {
        return Ok(Reply::Refused(Refusal::UnknownCommit));
    };
    Ok(page(version_docs(alloc, made.versions())?))
}
