ghost use Rattle.std.specs.Prelude.{◌≡◌};

use doc_value::Doc;
use std::marker::Model;
use sysapi_base::{Id, Ids, Text};

/// What a commit does to one datum (Systems Modeling API 1.0, DataVersion).
#[derive(Drop)]
pub struct Change {
    /// Which datum. Without one it is that of the payload's `@id`, and else a new one.
    pub identity: Option<Id>,
    /// What the datum is from now on, an object. Without one it is deleted.
    pub payload: Option<Doc>,
}

/// Changes, seen as their list.
#[derive(Drop)]
pub struct Changes {
    changes: Vec<Change>,
}

impl Model for Changes {
    ghost use Rattle.std.specs.Prelude.{List};
    ghost use Rattle.std.specs.Coded.{codes};
    ghost use Rattle.doc_value.specs.Document.{coded_document};
    ghost use Rattle.api_records.specs.declared.command.Change.{Change};

    ghost Value = { List Change };

    ghost coded = { Prim.hlevel (codes, coded_document) };

    ghost view = { λ a. a.changes.items };
}

impl Changes {
    /// The changes of a vector.
    pub fn of(changes: Vec<Change>) -> Changes
        ensures { result ≡ changes.items }
    {
        Changes { changes }
    }

    /// The changes, lent.
    pub fn as_slice(&self) -> &[Change]
        ensures { result.now ≡ self.now }
    {
        self.changes.as_slice()
    }
}

/// What changes the repository.
#[derive(Drop)]
pub enum Command {
    /// Makes a project and its default branch.
    CreateProject {
        /// What its maker calls it.
        name: Option<Text>,
        /// What its maker says of it.
        description: Option<Text>,
    },
    /// Replaces a project's name and description and, where one is given, its default branch.
    UpdateProject {
        project: Id,
        /// What it is called from now on.
        name: Option<Text>,
        /// What is said of it from now on.
        description: Option<Text>,
        /// The branch that is its default one from now on. Without one it keeps the old one.
        default_branch: Option<Id>,
    },
    /// Ends a project. Its commits stay.
    DeleteProject {
        project: Id,
    },
    /// Makes a commit on a branch of the project, whose head it becomes.
    CreateCommit {
        project: Id,
        /// The branch. Without one it is the project's default branch.
        branch: Option<Id>,
        /// The commits that it is to follow: none, or the branch's head.
        previous: Ids,
        /// What its maker says of it.
        description: Option<Text>,
        /// What it does to the data, in order.
        changes: Changes,
    },
    /// Makes a branch of the project.
    CreateBranch {
        project: Id,
        /// What its maker calls it.
        name: Option<Text>,
        /// The commit at which it begins, if there is one.
        head: Option<Id>,
    },
    /// Ends a branch. Its commits stay.
    DeleteBranch {
        project: Id,
        branch: Id,
    },
    /// Makes a tag of the project.
    CreateTag {
        project: Id,
        /// What its maker calls it.
        name: Option<Text>,
        /// The commit that it refers to.
        commit: Id,
    },
    /// Ends a tag. Its commit stays.
    DeleteTag {
        project: Id,
        tag: Id,
    },
}
