use api_records::Command;
use sysapi_base::Id;

/// What a request asks for.
#[derive(Drop)]
pub enum Call {
    /// A change of the repository.
    Write(Command),
    /// A look-up.
    Read(ReadCall),
}

/// What is looked up.
#[derive(Clone, Copy, Debug)]
pub enum ReadCall {
    /// All projects.
    Projects,
    /// The project with this id.
    OneProject { project: Id },
    /// All branches of the project.
    Branches { project: Id },
    /// The project's branch with this id.
    OneBranch { project: Id, id: Id },
    /// All tags of the project.
    Tags { project: Id },
    /// The project's tag with this id.
    OneTag { project: Id, id: Id },
    /// The commits of the project, or of these alone those in the ancestry of a branch's head.
    Commits { project: Id, branch: Option<Id> },
    /// The project's commit with this id.
    OneCommit { project: Id, commit: Id },
    /// The data versions of a commit of the project.
    Versions { project: Id, commit: Id },
    /// The data version with this id of a commit of the project.
    OneVersion { project: Id, commit: Id, id: Id },
    /// The element with this id at a commit of the project.
    OneElement { project: Id, commit: Id, id: Id },
}
