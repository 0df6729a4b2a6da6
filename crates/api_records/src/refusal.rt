ghost use Rattle.std.specs.Prelude.{◌≡◌};
ghost use Rattle.api_records.specs.Refusals.{refusal_text};

use sysapi_base::Id;

/// Why a call is refused. Places of changes count from 0.
#[derive(Clone, Copy, Debug, PartialEq, Eq)]
pub enum Refusal {
    /// No project has this id.
    UnknownProject,
    /// No branch of the project has this id.
    UnknownBranch,
    /// No tag of the project has this id.
    UnknownTag,
    /// No commit of the project has this id.
    UnknownCommit,
    /// The commit is to follow another one than the branch's head, which is told.
    HeadMoved { head: Option<Id> },
    /// The branch is the project's default one, which can't be deleted.
    DefaultBranch,
    /// The commit is to follow several commits.
    MultiplePrevious,
    /// The identity of a change and its payload's `@id` differ.
    IdentityMismatch { place: u32 },
    /// An earlier change of the commit has the identity of this one.
    IdentityTwice { place: u32 },
    /// A change deletes a datum that isn't there.
    DeleteUnknown { place: u32 },
    /// A payload is the usage of another project, which can't be stored yet.
    UnknownPin { place: u32 },
    /// No element of the commit has this id.
    UnknownElement,
    /// No data version of the commit has this id.
    UnknownChange,
}

impl Refusal {
    /// The name by which a response tells it.
    pub fn text(&self) -> &'static str
        ensures { result.now ≡ refusal_text self.now }
    {
        match self {
            Refusal::UnknownProject => "unknown-project",
            Refusal::UnknownBranch => "unknown-branch",
            Refusal::UnknownTag => "unknown-tag",
            Refusal::UnknownCommit => "unknown-commit",
            Refusal::HeadMoved { head: _ } => "head-moved",
            Refusal::DefaultBranch => "default-branch",
            Refusal::MultiplePrevious => "multiple-previous",
            Refusal::IdentityMismatch { place: _ } => "identity-mismatch",
            Refusal::IdentityTwice { place: _ } => "identity-twice",
            Refusal::DeleteUnknown { place: _ } => "delete-unknown",
            Refusal::UnknownPin { place: _ } => "unknown-pin",
            Refusal::UnknownElement => "unknown-element",
            Refusal::UnknownChange => "unknown-change",
        }
    }
}
