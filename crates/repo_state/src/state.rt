ghost use Rattle.std.specs.Prelude.{◌≡◌, ◌<◌, ◌≤◌, ◌^◌, ℕ, length, IfOk};
ghost use Rattle.std.proofs.Props.{props};
ghost use Rattle.timeline.specs.Values.{value_at, changed, last_point};
ghost use Rattle.repo_state.specs.Numbered.{AreNumbered, IsNumbered-prop};

use crate::data::CommitData;
use crate::id_set::IdSet;
use api_records::{Branch, Project, Tag};
use commit_graph::Graph;
use pmap::PMap;
use std::alloc::Global;
use std::sync::Arc;
use sysapi_base::{Id, Memory};
use timeline::Timeline;

/// What the commands accepted so far have made, at each point of their history. Its copies share all of it, and a command makes a new
/// state and leaves the old one.
#[derive(Drop)]
pub struct State {
    pub(crate) repository: u64,
    pub(crate) front: u64,
    pub(crate) next: u64,
    pub(crate) projects: Timeline<Project>,
    pub(crate) branches: Timeline<Branch>,
    pub(crate) tags: Timeline<Tag>,
    pub(crate) commits: Timeline<CommitData>,
    pub(crate) graph: Graph,
    pub(crate) known: PMap<Id, IdSet>,
    ghost in_range: { repository < 2 ^ 48 },
    ghost projects_before: { last_point projects ≤ front },
    ghost branches_before: { last_point branches ≤ front },
    ghost tags_before: { last_point tags ≤ front },
    ghost commits_before: { last_point commits ≤ front },
    ghost numbered: { AreNumbered graph commits } by { Prim.hlevel (IsNumbered-prop, props) },
}

impl State {
    ghost use Rattle.std.specs.Prelude.{◌≡◌, ◌<◌, ◌≤◌, [], length, IfOk, OnOk};
    ghost use Rattle.repo_state.specs.Stands.{StandsFor, repository_of, front_of};
    ghost use Rattle.repo_state.specs.Shown.{IsNext, SetsProject, SetsBranch, SetsTag, AddsCommit};

    /// The state of a repository without entries.
    pub fn start(alloc: Global, repository: u64) -> State
        requires { repository < 2 ^ 48 }
        ensures number { repository_of result ≡ repository }
        ensures stands { StandsFor result [] }
    {
        State {
            repository,
            front: 0,
            next: 0,
            projects: Timeline::new(),
            branches: Timeline::new(),
            tags: Timeline::new(),
            commits: Timeline::new(),
            graph: Graph::new(),
            known: PMap::new(),
        }
    }

    /// The number of its repository.
    pub fn repository(&self) -> u64
        ensures value { result ≡ repository_of self.now }
        ensures bound { result < 2 ^ 48 }
    {
        self.repository
    }

    /// The number of entries that it stands for.
    pub fn front(&self) -> u64
        ensures { result ≡ front_of self.now }
    {
        self.front
    }

    /// An equal state, which shares all that this one has.
    pub fn share(&self) -> Result<State, Memory>
        ensures { IfOk result (λ s. s ≡ self.now) }
    {
        Ok(State {
            repository: self.repository,
            front: self.front,
            next: self.next,
            projects: self.projects.share()?,
            branches: self.branches.share()?,
            tags: self.tags.share()?,
            commits: self.commits.share()?,
            graph: self.graph.share()?,
            known: self.known.share()?,
        })
    }

    /// The state at the next point with this next serial, in which all else is as it was.
    pub(crate) fn at_next(&self, next: u64) -> Result<State, Memory>
        requires { self.now.front < 2 ^ 60 }
        ensures { IfOk result (λ s. IsNext self.now s next) }
    {
        Ok(State {
            repository: self.repository,
            front: self.front + 1,
            next,
            projects: self.projects.share()?,
            branches: self.branches.share()?,
            tags: self.tags.share()?,
            commits: self.commits.share()?,
            graph: self.graph.share()?,
            known: self.known.share()?,
        })
    }

    /// From the front on the project with this id is this one, or none.
    pub(crate) fn set_project(
        &mut self,
        alloc: Global,
        id: Id,
        project: Option<Project>,
    ) -> Result<(), Memory>
        ensures { OnOk result (SetsProject self.old self.new id project) }
    {
        self.projects = changed(alloc, &self.projects, id, self.front, project)?;
        Ok(())
    }

    /// From the front on the branch with this id is this one, or none.
    pub(crate) fn set_branch(
        &mut self,
        alloc: Global,
        id: Id,
        branch: Option<Branch>,
    ) -> Result<(), Memory>
        ensures { OnOk result (SetsBranch self.old self.new id branch) }
    {
        self.branches = changed(alloc, &self.branches, id, self.front, branch)?;
        Ok(())
    }

    /// From the front on the tag with this id is this one, or none.
    pub(crate) fn set_tag(&mut self, alloc: Global, id: Id, tag: Option<Tag>) -> Result<(), Memory>
        ensures { OnOk result (SetsTag self.old self.new id tag) }
    {
        self.tags = changed(alloc, &self.tags, id, self.front, tag)?;
        Ok(())
    }

    /// From the front on the commit is there, with its number in this graph, and these identities are known in its project.
    pub(crate) fn add_commit(
        &mut self,
        alloc: Global,
        made: CommitData,
        graph: Graph,
        identities: IdSet,
    ) -> Result<(), Memory>
        requires number { made.number < length graph }
        requires longer { length self.old.graph ≤ length graph }
        ensures { OnOk result (AddsCommit self.old self.new made graph identities) }
    {
        let id = made.record().id;
        let project = made.record().project;
        let identities = Arc::new(alloc, identities)?;
        let known = self.known.insert(alloc, project, identities)?;
        let commits = changed(alloc, &self.commits, id, self.front, Some(made))?;
        self.graph = graph;
        self.commits = commits;
        self.known = known;
        Ok(())
    }
}

/// The timeline in which the id has this value, or none, from the point on.
fn changed<T: Drop>(
    alloc: Global,
    timeline: &Timeline<T>,
    id: Id,
    point: u64,
    value: Option<T>,
) -> Result<Timeline<T>, Memory>
    requires { last_point timeline.now ≤ point }
    ensures values { IfOk result (λ t. (q m : ℕ) → value_at t q m ≡ changed (value_at timeline.now) id point value q m) }
    ensures last { IfOk result (λ t. last_point t ≡ point) }
{
    match value {
        Some(value) => timeline.set_at(alloc, id, point, Arc::new(alloc, value)?),
        None => timeline.end_at(alloc, id, point),
    }
}
