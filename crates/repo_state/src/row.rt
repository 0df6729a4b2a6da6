//! The rows of refusals that speak of records.

ghost use Rattle.std.specs.Prelude.{◌≡◌, ◌≤◌, ℕ, Option, option_map};
ghost use Rattle.timeline.specs.Values.{value_at};
ghost use Rattle.entry_codec.specs.Histories.{owned, project_branch, project_tag, project_commit};
ghost use Rattle.entry_codec.specs.Refusals.{if_given, unknown_branch, unknown_commit};
ghost use Rattle.repo_state.specs.Stands.{commit_shown};
ghost use Rattle.repo_state.specs.Shown.{shown};

use crate::state::State;
use api_records::{Branch, Commit, Refusal, Tag};
use sysapi_base::Id;

impl State {
    /// The project's branch with this id. From the front on it stays.
    pub(crate) fn project_branch(&self, project: Id, id: Id) -> Option<&Branch>
        ensures value { option_map (λ b. b.now) result ≡ project_branch (shown self.now) project id }
        ensures stays { (m : ℕ) → self.now.front ≤ m → value_at self.now.branches id m ≡ value_at self.now.branches id self.now.front }
    {
        match self.branches.at(id, self.front) {
            Some(branch) if branch.project == project => Some(branch),
            _ => None,
        }
    }

    /// The project's tag with this id.
    pub(crate) fn project_tag(&self, project: Id, id: Id) -> Option<&Tag>
        ensures { option_map (λ t. t.now) result ≡ project_tag (shown self.now) project id }
    {
        match self.tags.at(id, self.front) {
            Some(tag) if tag.project == project => Some(tag),
            _ => None,
        }
    }

    /// The project's commit with this id.
    pub(crate) fn project_commit(&self, project: Id, id: Id) -> Option<&Commit>
        ensures { option_map (λ c. c.now) result ≡ project_commit (shown self.now) project id }
    {
        match self.commits.at(id, self.front) {
            Some(made) if made.commit.project == project => Some(&made.commit),
            _ => None,
        }
    }

    /// Why a branch that is given, if one is, is none of the project.
    pub(crate) fn unknown_default(&self, project: Id, branch: Option<Id>) -> Option<Refusal>
        ensures { result ≡ if_given (unknown_branch (shown self.now) project) branch }
    {
        let id = branch?;
        match self.project_branch(project, id) {
            Some(_) => None,
            None => Some(Refusal::UnknownBranch),
        }
    }

    /// Why a commit that is given, if one is, is none of the project.
    pub(crate) fn unknown_head(&self, project: Id, head: Option<Id>) -> Option<Refusal>
        ensures { result ≡ if_given (unknown_commit (shown self.now) project) head }
    {
        let id = head?;
        match self.project_commit(project, id) {
            Some(_) => None,
            None => Some(Refusal::UnknownCommit),
        }
    }
}
