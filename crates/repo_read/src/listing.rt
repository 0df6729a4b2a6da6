//! The records of a list.

ghost use Rattle.std.specs.Prelude.{◌≡◌, ◌++◌, List, option_map, IfOk, OnOk, IfSome};
ghost use Rattle.std.specs.List.{filter_map};
ghost use Rattle.std.specs.Option.{option_to_list};
ghost use Rattle.api_records.specs.Records.{project_doc, branch_doc, tag_doc, commit_doc};
ghost use Rattle.entry_codec.specs.declared.entry.Entry.{Entry};
ghost use Rattle.entry_codec.specs.Histories.{tables_at, project_branch, project_tag, ancestry_at};
ghost use Rattle.entry_codec.specs.Replies.{commit_on, is_on, drawn};
ghost use Rattle.repo_state.specs.Stands.{StandsFor, repository_of};
ghost use Rattle.repo_state.specs.Lists.{ids_listed};
ghost use Rattle.repo_read.specs.Listed.{IsListable, AreListable, kind_of, project_of, doc_at};

use crate::record::{commit_record, project_branch, project_tag};
use api_records::Branch;
use doc_value::Doc;
use repo_state::{Kind, State};
use std::alloc::Global;
use sysapi_base::{Id, Memory};

/// The records of one list.
#[derive(Clone, Copy)]
pub(crate) enum Listing {
    /// All projects.
    Projects,
    /// All branches of a project.
    Branches { project: Id },
    /// All tags of a project.
    Tags { project: Id },
    /// The commits of a project, or of these alone those in the ancestry of a branch's head.
    Commits { project: Id, branch: Option<Id> },
}

/// Whether a commit is in the ancestry of the head of the branch, if one is given. Without a head none is.
fn is_on(view: &State, project: Id, branch: Option<Id>, commit: Id, point: u64) -> bool
    ensures { (past : List Entry) → StandsFor view.now past → result ≡ is_on (tables_at (repository_of view.now) point past) project branch commit }
{
    let Some(branch) = branch else { return true };
    match project_branch(view, project, branch, point) {
        Some(branch) => is_before(view, branch, commit, point),
        None => false,
    }
}

/// Whether a commit is in the ancestry of a branch's head. Without a head none is.
fn is_before(view: &State, branch: &Branch, commit: Id, point: u64) -> bool
    ensures { (past : List Entry) → StandsFor view.now past → result ≡ ancestry_at (tables_at (repository_of view.now) point past).ancestry branch.now.head commit }
{
    match branch.head {
        Some(head) => view.in_ancestry(commit, head, point),
        None => false,
    }
}

/// The document of the project with this id.
fn project_doc(alloc: Global, view: &State, id: Id, point: u64) -> Result<Option<Doc>, Memory>
    ensures doc { (past : List Entry) → StandsFor view.now past → IfOk result (λ d. d ≡ option_map project_doc ((tables_at (repository_of view.now) point past).project id)) }
    ensures listable { IfOk result (λ d. IfSome d IsListable) }
{
    match view.project(id, point) {
        Some(project) => Ok(Some(project.to_doc(alloc)?)),
        None => Ok(None),
    }
}

/// The document of the project's branch with this id.
fn branch_doc(
    alloc: Global,
    view: &State,
    project: Id,
    id: Id,
    point: u64,
) -> Result<Option<Doc>, Memory>
    ensures doc { (past : List Entry) → StandsFor view.now past → IfOk result (λ d. d ≡ option_map branch_doc (project_branch (tables_at (repository_of view.now) point past) project id)) }
    ensures listable { IfOk result (λ d. IfSome d IsListable) }
{
    match project_branch(view, project, id, point) {
        Some(branch) => Ok(Some(branch.to_doc(alloc)?)),
        None => Ok(None),
    }
}

/// The document of the project's tag with this id.
fn tag_doc(
    alloc: Global,
    view: &State,
    project: Id,
    id: Id,
    point: u64,
) -> Result<Option<Doc>, Memory>
    ensures doc { (past : List Entry) → StandsFor view.now past → IfOk result (λ d. d ≡ option_map tag_doc (project_tag (tables_at (repository_of view.now) point past) project id)) }
    ensures listable { IfOk result (λ d. IfSome d IsListable) }
{
    match project_tag(view, project, id, point) {
        Some(tag) => Ok(Some(tag.to_doc(alloc)?)),
        None => Ok(None),
    }
}

/// The document of the project's commit with this id, where it is on the branch, if one is given.
fn commit_doc(
    alloc: Global,
    view: &State,
    project: Id,
    branch: Option<Id>,
    id: Id,
    point: u64,
) -> Result<Option<Doc>, Memory>
    ensures doc { (past : List Entry) → StandsFor view.now past → IfOk result (λ d. d ≡ option_map commit_doc (commit_on (tables_at (repository_of view.now) point past) project branch id)) }
    ensures listable { IfOk result (λ d. IfSome d IsListable) }
{
    if !is_on(view, project, branch, id, point) {
        return Ok(None);
    }
    match commit_record(view, project, id, point) {
        Some(record) => Ok(Some(record.to_doc(alloc)?)),
        None => Ok(None),
    }
}

/// Adds the document, if there is one.
fn add(docs: &mut Vec<Doc>, doc: Option<Doc>) -> Result<(), Memory>
    ensures { OnOk result (docs.new.items ≡ docs.old.items ++ option_to_list doc) }
{
    match doc {
        Some(doc) => Ok(docs.push(doc)?),
        None => Ok(()),
    }
}

impl Listing {
    /// The ids of the project's records of this kind, ascending.
    fn ids(&self, alloc: Global, view: &State, point: u64) -> Result<Vec<Id>, Memory>
        ensures { (past : List Entry) → StandsFor view.now past → IfOk result (λ v. v.items ≡ ids_listed (repository_of view.now) (kind_of self.now) (project_of self.now) (tables_at (repository_of view.now) point past)) }
    {
        match *self {
            Listing::Projects => view.list(alloc, Kind::Projects, None, point),
            Listing::Branches { project } => {
                view.list(alloc, Kind::Branches, Some(project), point)
            }
            Listing::Tags { project } => view.list(alloc, Kind::Tags, Some(project), point),
            Listing::Commits { project, branch: _ } => {
                view.list(alloc, Kind::Commits, Some(project), point)
            }
        }
    }

    /// The document of the record with this id, where it is one of these at the point.
    fn doc_at(&self, alloc: Global, view: &State, id: Id, point: u64) -> Result<Option<Doc>, Memory>
        ensures doc { (past : List Entry) → StandsFor view.now past → IfOk result (λ d. d ≡ doc_at (tables_at (repository_of view.now) point past) self.now id) }
        ensures listable { IfOk result (λ d. IfSome d IsListable) }
    {
        match *self {
            Listing::Projects => project_doc(alloc, view, id, point),
            Listing::Branches { project } => branch_doc(alloc, view, project, id, point),
            Listing::Tags { project } => tag_doc(alloc, view, project, id, point),
            Listing::Commits { project, branch } => {
                commit_doc(alloc, view, project, branch, id, point)
            }
        }
    }

    /// The documents of those of the ids that have one, in their order.
    fn docs_of(
        &self,
        alloc: Global,
        view: &State,
        ids: &[Id],
        point: u64,
    ) -> Result<Vec<Doc>, Memory>
        ensures docs { (past : List Entry) → StandsFor view.now past → IfOk result (λ v. v.items ≡ filter_map (doc_at (tables_at (repository_of view.now) point past) self.now) ids.now) }
        ensures listable { IfOk result (λ v. AreListable v.items) }
    {
        let mut docs = Vec::new(alloc);
        for id in ids {
            add(&mut docs, self.doc_at(alloc, view, *id, point)?)?;
        }
        Ok(docs)
    }

    /// The documents of these records at the point, in ascending order of the records' ids.
    pub(crate) fn docs(&self, alloc: Global, view: &State, point: u64) -> Result<Vec<Doc>, Memory>
        ensures docs { (past : List Entry) → StandsFor view.now past → IfOk result (λ v. v.items ≡ filter_map (doc_at (tables_at (repository_of view.now) point past) self.now) (drawn (repository_of view.now) (tables_at (repository_of view.now) point past).next)) }
        ensures listable { IfOk result (λ v. AreListable v.items) }
    {
        let ids = self.ids(alloc, view, point)?;
        self.docs_of(alloc, view, ids.as_slice(), point)
    }
}
