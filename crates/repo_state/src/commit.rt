//! Commits are made.

ghost use Rattle.std.specs.Prelude.{◌≡◌, ◌<◌, ◌≤◌, ◌^◌, ◌++◌, ◌∷◌, [], length, Some, IfOk, option_map};
ghost use Rattle.std.specs.List.{All};
ghost use Rattle.api_records.specs.Storable.{IsStored};
ghost use Rattle.entry_codec.specs.Histories.{with_head, own_at};
ghost use Rattle.entry_codec.specs.Replies.{IsSoundReply};
ghost use Rattle.repo_state.specs.Numbered.{IsNumbered};
ghost use Rattle.repo_state.specs.Stands.{own_shown};
ghost use Rattle.repo_state.specs.Shown.{shown, Judges, KeepsCommits, IsBehind, number_of, IsMade, IsCommitted};

use crate::accept::{AcceptError, Accepted};
use crate::check::commit_refusal;
use crate::data::CommitData;
use crate::id_set::IdSet;
use crate::number::{LAST_SERIAL, known_with, versions, with_identities};
use crate::own::own_values;
use crate::project::copy_optional;
use crate::state::State;
use api_records::{Branch, Change, Changes, Command, Commit, Refusal};
use commit_graph::{AddError, Graph};
use entry_codec::Reply;
use std::alloc::Global;
use sysapi_base::{Id, Ids, Memory, Moment, Text};

/// What a commit leaves: itself, the graph that it stands in, the identities known in its project, and the next serial.
#[derive(Drop)]
pub(crate) struct Made {
    pub(crate) data: CommitData,
    pub(crate) graph: Graph,
    pub(crate) identities: IdSet,
    pub(crate) next: u64,
}

/// The branch with another head.
fn with_head(alloc: Global, branch: &Branch, head: Id) -> Result<Branch, Memory>
    ensures { IfOk result (λ b. b ≡ with_head head branch.now) }
{
    Ok(Branch {
        id: branch.id,
        project: branch.project,
        name: copy_optional(alloc, &branch.name)?,
        head: Some(head),
        created: branch.created,
    })
}

/// The graph with one more commit behind `older`, and that commit's number.
fn grown(alloc: Global, graph: &Graph, older: Option<&CommitData>) -> Result<(Graph, u64), Memory>
    requires { IsNumbered graph.now (option_map (λ d. d.now) older) }
    ensures graph { IfOk result (λ g. g.0 ≡ graph.now ++ number_of (option_map (λ d. d.now) older.entry) ∷ []) }
    ensures number { IfOk result (λ g. g.1 ≡ length graph.now) }
{
    let previous = match older {
        Some(older) => Some(older.number),
        None => None,
    };
    match graph.add(alloc, previous) {
        Ok(grown) => Ok(grown),
        Err(AddError::UnknownPrevious) => unreachable!(),
        Err(AddError::Memory) => Err(Memory),
    }
}

impl State {
    /// How many commits there are. It tells what is kept of them.
    fn commit_count(&self) -> u64
        ensures count { result ≡ length self.now.graph }
        ensures keeps { KeepsCommits self.now }
    {
        // From the last point on each commit stays.
        let _last = self.commits.last();
        self.graph.len()
    }

    /// The commit at a head, if there is one.
    fn at_head(&self, head: Option<Id>) -> Option<&CommitData>
        ensures own_values { own_shown (option_map (λ d. d.now) result) ≡ own_at (shown self.now).own head }
        ensures ancestry { IsBehind self.now (option_map (λ d. d.now) result) head }
        ensures numbered { IsNumbered self.now.graph (option_map (λ d. d.now) result) }
    {
        match head {
            Some(id) => self.commits.at(id, self.front),
            None => None,
        }
    }

    /// The state with a new commit on a branch of its project, and the reply; or why it is refused. Without a branch the project's
    /// default one is meant.
    pub(crate) fn create_commit(
        &self,
        alloc: Global,
        moment: Moment,
        project: Id,
        branch: Option<Id>,
        previous: &Ids,
        description: &Option<Text>,
        changes: &Changes,
    ) -> Result<Accepted, AcceptError>
        requires front { self.now.front < 2 ^ 60 }
        requires stored { All (λ c. IsStored c.payload) changes.now }
        requires few { length changes.now < 2 ^ 32 }
        ensures judged { Judges self.now (record { moment = moment; command = Command.CreateCommit project branch previous.now description.now changes.now }) result }
        ensures sound { IfOk result (λ a. IsSoundReply a.reply) }
    {
        let Some(owner) = self.projects.at(project, self.front) else {
            return Err(AcceptError::Refused(Refusal::UnknownProject));
        };
        let branch_id = branch.unwrap_or(owner.default_branch);
        let Some(found) = self.project_branch(project, branch_id) else {
            return Err(AcceptError::Refused(Refusal::UnknownBranch));
        };
        let _count = self.commit_count();
        let older = self.at_head(found.head);
        if let Some(refusal) = commit_refusal(
            alloc,
            found.head,
            older,
            previous.as_slice(),
            changes.as_slice(),
        )? {
            return Err(AcceptError::Refused(refusal));
        }
        if self.next >= LAST_SERIAL {
            return Err(AcceptError::Memory);
        }
        let commit = Commit {
            id: Id::made(self.repository, self.next),
            project,
            description: copy_optional(alloc, description)?,
            previous: found.head,
            created: moment,
        };
        let made = self.make(alloc, commit, older, changes.as_slice())?;
        Ok(self.with_commit(alloc, made, branch_id, found)?)
    }

    /// A commit with what its changes store upon the commit before it.
    fn make(
        &self,
        alloc: Global,
        commit: Commit,
        older: Option<&CommitData>,
        changes: &[Change],
    ) -> Result<Made, Memory>
        requires next { self.now.next < 2 ^ 62 }
        requires stored { All (λ c. IsStored c.payload) changes.now }
        requires numbered { IsNumbered self.now.graph (option_map (λ d. d.now) older) }
        ensures { IfOk result (λ m. IsMade self.now commit (option_map (λ d. d.now) older.entry) changes.now m) }
    {
        let known = self.known.find(&commit.project);
        let named = known_with(alloc, known, changes)?;
        let drawn = versions(alloc, self.repository, &named, self.next + 1, changes)?;
        let identities = with_identities(alloc, known, drawn.made.as_slice())?;
        let own = own_values(alloc, older, drawn.made.as_slice())?;
        let (graph, number) = grown(alloc, &self.graph, older)?;
        Ok(Made {
            data: CommitData {
                commit,
                versions: drawn.made,
                own,
                number,
            },
            graph,
            identities,
            next: drawn.next,
        })
    }

    /// The state with a commit as the head of the branch with this id, and the reply.
    fn with_commit(
        &self,
        alloc: Global,
        made: Made,
        branch_id: Id,
        branch: &Branch,
    ) -> Result<Accepted, Memory>
        requires front { self.now.front < 2 ^ 60 }
        requires number { made.data.number < length made.graph }
        requires longer { length self.now.graph ≤ length made.graph }
        ensures committed { IfOk result (λ a. IsCommitted self.now made branch_id branch.now a) }
        ensures sound { IfOk result (λ a. IsSoundReply a.reply) }
    {
        let Made {
            data,
            graph,
            identities,
            next,
        } = made;
        let reply = data.record().to_doc(alloc)?;
        let branch = with_head(alloc, branch, data.record().id)?;
        let mut state = self.at_next(next)?;
        state.add_commit(alloc, data, graph, identities)?;
        state.set_branch(alloc, branch_id, Some(branch))?;
        Ok(Accepted {
            state,
            reply: Reply::Made(reply),
        })
    }
}
