ghost use Rattle.std.specs.Prelude.{◌≡◌, ◌≤◌, IfOk};
ghost use Rattle.doc_value.specs.Document.{IsSound, depth};
ghost use Rattle.doc_value.specs.Seen.{document};
ghost use Rattle.api_records.specs.Records.{project_doc, branch_doc, tag_doc, commit_doc, version_doc, record_depth};
ghost use Rattle.api_records.specs.Storable.{IsShallow};

use crate::document::{
    id_doc, identity_doc, moment_doc, optional_reference_doc, payload_doc, reference_doc,
};
use doc_value::{Doc, Fields};
use std::alloc::Global;
use sysapi_base::{Id, Memory, Moment, Text};

/// A project (Systems Modeling API 1.0, Project).
#[derive(Drop)]
pub struct Project {
    pub id: Id,
    /// What its maker calls it.
    pub name: Option<Text>,
    /// What its maker says of it.
    pub description: Option<Text>,
    /// The branch that is meant where none is named: the one that was made with it, until an update names another.
    pub default_branch: Id,
    /// The moment of the command that made it.
    pub created: Moment,
}

impl Project {
    /// The project's document, its keys in the order of their bytes.
    pub fn to_doc(&self, alloc: Global) -> Result<Doc, Memory>
        ensures doc { IfOk result (λ d. d ≡ project_doc self.now) }
        ensures sound { IfOk result (λ d. IsSound (document d)) }
        ensures shallow { IfOk result (λ d. depth (document d) ≤ record_depth) }
    {
        let mut fields = Fields::new(alloc);
        fields.insert(alloc, "@id", id_doc(alloc, self.id)?)?;
        fields.insert(alloc, "@type", Doc::of_text(alloc, "Project")?)?;
        fields.insert(alloc, "created", moment_doc(alloc, self.created)?)?;
        fields.insert(
            alloc,
            "defaultBranch",
            reference_doc(alloc, self.default_branch)?,
        )?;
        fields.insert(
            alloc,
            "description",
            Doc::of_text_or_null(alloc, &self.description)?,
        )?;
        fields.insert(alloc, "name", Doc::of_text_or_null(alloc, &self.name)?)?;
        Ok(Doc::Object(fields))
    }
}

/// A branch (Systems Modeling API 1.0, Branch).
#[derive(Drop)]
pub struct Branch {
    pub id: Id,
    pub project: Id,
    /// What its maker calls it. A default branch has no name.
    pub name: Option<Text>,
    /// The last commit on it, or else the one at which it began, if there is one.
    pub head: Option<Id>,
    /// The moment of the command that made it.
    pub created: Moment,
}

impl Branch {
    /// The branch's document, its keys in the order of their bytes.
    pub fn to_doc(&self, alloc: Global) -> Result<Doc, Memory>
        ensures doc { IfOk result (λ d. d ≡ branch_doc self.now) }
        ensures sound { IfOk result (λ d. IsSound (document d)) }
        ensures shallow { IfOk result (λ d. depth (document d) ≤ record_depth) }
    {
        let mut fields = Fields::new(alloc);
        fields.insert(alloc, "@id", id_doc(alloc, self.id)?)?;
        fields.insert(alloc, "@type", Doc::of_text(alloc, "Branch")?)?;
        fields.insert(alloc, "created", moment_doc(alloc, self.created)?)?;
        fields.insert(alloc, "head", optional_reference_doc(alloc, self.head)?)?;
        fields.insert(alloc, "name", Doc::of_text_or_null(alloc, &self.name)?)?;
        fields.insert(alloc, "owningProject", reference_doc(alloc, self.project)?)?;
        fields.insert(
            alloc,
            "referencedCommit",
            optional_reference_doc(alloc, self.head)?,
        )?;
        Ok(Doc::Object(fields))
    }
}

/// A tag (Systems Modeling API 1.0, Tag).
#[derive(Drop)]
pub struct Tag {
    pub id: Id,
    pub project: Id,
    /// What its maker calls it.
    pub name: Option<Text>,
    /// The commit that it refers to.
    pub commit: Id,
    /// The moment of the command that made it.
    pub created: Moment,
}

impl Tag {
    /// The tag's document, its keys in the order of their bytes.
    pub fn to_doc(&self, alloc: Global) -> Result<Doc, Memory>
        ensures doc { IfOk result (λ d. d ≡ tag_doc self.now) }
        ensures sound { IfOk result (λ d. IsSound (document d)) }
        ensures shallow { IfOk result (λ d. depth (document d) ≤ record_depth) }
    {
        let mut fields = Fields::new(alloc);
        fields.insert(alloc, "@id", id_doc(alloc, self.id)?)?;
        fields.insert(alloc, "@type", Doc::of_text(alloc, "Tag")?)?;
        fields.insert(alloc, "created", moment_doc(alloc, self.created)?)?;
        fields.insert(alloc, "name", Doc::of_text_or_null(alloc, &self.name)?)?;
        fields.insert(alloc, "owningProject", reference_doc(alloc, self.project)?)?;
        fields.insert(
            alloc,
            "referencedCommit",
            reference_doc(alloc, self.commit)?,
        )?;
        fields.insert(alloc, "taggedCommit", reference_doc(alloc, self.commit)?)?;
        Ok(Doc::Object(fields))
    }
}

/// A commit (Systems Modeling API 1.0, Commit).
#[derive(Drop)]
pub struct Commit {
    pub id: Id,
    pub project: Id,
    /// What its maker says of it.
    pub description: Option<Text>,
    /// The head that it met.
    pub previous: Option<Id>,
    /// The moment of the command that made it.
    pub created: Moment,
}

impl Commit {
    /// The commit's document, its keys in the order of their bytes.
    pub fn to_doc(&self, alloc: Global) -> Result<Doc, Memory>
        ensures doc { IfOk result (λ d. d ≡ commit_doc self.now) }
        ensures sound { IfOk result (λ d. IsSound (document d)) }
        ensures shallow { IfOk result (λ d. depth (document d) ≤ record_depth) }
    {
        let mut fields = Fields::new(alloc);
        fields.insert(alloc, "@id", id_doc(alloc, self.id)?)?;
        fields.insert(alloc, "@type", Doc::of_text(alloc, "Commit")?)?;
        fields.insert(alloc, "created", moment_doc(alloc, self.created)?)?;
        fields.insert(
            alloc,
            "description",
            Doc::of_text_or_null(alloc, &self.description)?,
        )?;
        fields.insert(alloc, "owningProject", reference_doc(alloc, self.project)?)?;
        fields.insert(
            alloc,
            "previousCommit",
            optional_reference_doc(alloc, self.previous)?,
        )?;
        Ok(Doc::Object(fields))
    }
}

/// What a commit has for one datum (Systems Modeling API 1.0, DataVersion).
#[derive(Drop)]
pub struct Version {
    pub id: Id,
    /// Which datum.
    pub identity: Id,
    /// What the datum is from this commit on, as it is stored. None where it was deleted.
    pub payload: Option<Doc>,
}

impl Version {
    /// The data version's document, its keys in the order of their bytes.
    pub fn to_doc(&self, alloc: Global) -> Result<Doc, Memory>
        requires { IsShallow self.now.payload }
        ensures doc { IfOk result (λ d. d ≡ version_doc self.now) }
        ensures sound { IfOk result (λ d. IsSound (document d)) }
        ensures shallow { IfOk result (λ d. depth (document d) ≤ record_depth) }
    {
        let mut fields = Fields::new(alloc);
        fields.insert(alloc, "@id", id_doc(alloc, self.id)?)?;
        fields.insert(alloc, "@type", Doc::of_text(alloc, "DataVersion")?)?;
        fields.insert(alloc, "identity", identity_doc(alloc, self.identity)?)?;
        fields.insert(alloc, "payload", payload_doc(alloc, &self.payload)?)?;
        Ok(Doc::Object(fields))
    }
}
