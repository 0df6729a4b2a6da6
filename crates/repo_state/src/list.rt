//! Lists of records at the points up to a state's front.

ghost use Rattle.std.specs.Prelude.{◌≡◌, ℕ, List, None, Some, IfOk};
ghost use Rattle.std.specs.List.{filter};
ghost use Rattle.std.specs.List.Sorted.{IsStrictlySortedBy};
ghost use Rattle.std.specs.Ordering.{nat_cmp};
ghost use Rattle.api_records.specs.Sets.{has};
ghost use Rattle.entry_codec.specs.Histories.{tables_at};
ghost use Rattle.entry_codec.specs.declared.entry.Entry.{Entry};
ghost use Rattle.repo_state.specs.Stands.{StandsFor, repository_of};
ghost use Rattle.repo_state.specs.Lists.{is_listed, ids_listed, records_at};

use crate::state::State;
use std::alloc::Global;
use sysapi_base::{Id, Memory};

/// The kinds of records of which there are lists.
#[derive(Clone, Copy, Debug, PartialEq, Eq)]
pub enum Kind {
    Projects,
    Branches,
    Tags,
    Commits,
}

impl State {
    /// The ids of the records of a kind that are there at the point, ascending; where a project is given, of those of that project.
    /// The projects are listed whatever project is given.
    pub fn list(
        &self,
        alloc: Global,
        kind: Kind,
        project: Option<Id>,
        point: u64,
    ) -> Result<Vec<Id>, Memory>
        ensures { (past : List Entry) → StandsFor self.now past → IfOk result (λ v. v.items ≡ ids_listed (repository_of self.now) kind project (tables_at (repository_of self.now) point past)) }
    {
        let ids = self.all_of(alloc, kind, point)?;
        match project {
            Some(project) => self.those_of(alloc, kind, project, point, ids.as_slice()),
            None => Ok(ids),
        }
    }

    /// The ids of all records of a kind that are there at the point, ascending.
    fn all_of(&self, alloc: Global, kind: Kind, point: u64) -> Result<Vec<Id>, Memory>
        ensures ordered { IfOk result (λ v. IsStrictlySortedBy nat_cmp v.items) }
        ensures all { IfOk result (λ v. (q : ℕ) → has v.items q ≡ is_listed kind None (records_at self.now point) q) }
    {
        match kind {
            Kind::Projects => self.projects.list_at(alloc, point),
            Kind::Branches => self.branches.list_at(alloc, point),
            Kind::Tags => self.tags.list_at(alloc, point),
            Kind::Commits => self.commits.list_at(alloc, point),
        }
    }

    /// Those of the ids whose records of a kind are of the project.
    fn those_of(
        &self,
        alloc: Global,
        kind: Kind,
        project: Id,
        point: u64,
        ids: &[Id],
    ) -> Result<Vec<Id>, Memory>
        ensures { IfOk result (λ v. v.items ≡ filter (is_listed kind (Some project) (records_at self.now point)) ids.now) }
    {
        let mut listed = Vec::new(alloc);
        for id in ids {
            if self.is_of(kind, project, *id, point) {
                listed.push(*id)?;
            }
        }
        Ok(listed)
    }

    /// Whether a record of a kind is there at the point, and is one of the project. Projects are of no project, and are listed.
    fn is_of(&self, kind: Kind, project: Id, id: Id, point: u64) -> bool
        ensures { result ≡ is_listed kind (Some project) (records_at self.now point) id }
    {
        match kind {
            Kind::Projects => self.projects.at(id, point).is_some(),
            Kind::Branches => match self.branches.at(id, point) {
                Some(branch) => branch.project == project,
                None => false,
            },
            Kind::Tags => match self.tags.at(id, point) {
                Some(tag) => tag.project == project,
                None => false,
            },
            Kind::Commits => match self.commits.at(id, point) {
                Some(made) => made.commit.project == project,
                None => false,
            },
        }
    }
}
