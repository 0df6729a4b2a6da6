//! What a state shows at the points up to its front.

ghost use Rattle.std.specs.Prelude.{◌≡◌, List, option_map};
ghost use Rattle.entry_codec.specs.Histories.{tables_at};
ghost use Rattle.entry_codec.specs.declared.entry.Entry.{Entry};
ghost use Rattle.repo_state.specs.Stands.{StandsFor, repository_of, commit_shown, versions_shown, own_shown};

use crate::data::CommitData;
use crate::state::State;
use api_records::{Branch, Project, Tag};
use sysapi_base::Id;

impl State {
    /// The project with this id at the point.
    pub fn project(&self, id: Id, point: u64) -> Option<&Project>
        ensures { (past : List Entry) → StandsFor self.now past → option_map (λ p. p.now) result ≡ (tables_at (repository_of self.now) point past).project id }
    {
        self.projects.at(id, point)
    }

    /// The branch with this id at the point.
    pub fn branch(&self, id: Id, point: u64) -> Option<&Branch>
        ensures { (past : List Entry) → StandsFor self.now past → option_map (λ b. b.now) result ≡ (tables_at (repository_of self.now) point past).branch id }
    {
        self.branches.at(id, point)
    }

    /// The tag with this id at the point.
    pub fn tag(&self, id: Id, point: u64) -> Option<&Tag>
        ensures { (past : List Entry) → StandsFor self.now past → option_map (λ t. t.now) result ≡ (tables_at (repository_of self.now) point past).tag id }
    {
        self.tags.at(id, point)
    }

    /// The commit with this id, where it is there at the point, and what it stored.
    pub fn commit(&self, id: Id, point: u64) -> Option<&CommitData>
        ensures record_shown { (past : List Entry) → StandsFor self.now past → commit_shown (option_map (λ d. d.now) result) ≡ (tables_at (repository_of self.now) point past).commit id }
        ensures versions { (past : List Entry) → StandsFor self.now past → versions_shown (option_map (λ d. d.now) result) ≡ (tables_at (repository_of self.now) point past).versions id }
        ensures own_values { (past : List Entry) → StandsFor self.now past → own_shown (option_map (λ d. d.now) result) ≡ (tables_at (repository_of self.now) point past).own id }
    {
        self.commits.at(id, point)
    }

    /// Whether a commit is the other one or stands before it in its ancestry, as both are there at the point.
    pub fn in_ancestry(&self, id: Id, other: Id, point: u64) -> bool
        ensures { (past : List Entry) → StandsFor self.now past → result ≡ (tables_at (repository_of self.now) point past).ancestry other id }
    {
        match (self.commits.at(other, point), self.commits.at(id, point)) {
            (Some(later), Some(earlier)) => { self.graph.is_ancestor(earlier.number, later.number) }
            _ => false,
        }
    }
}
