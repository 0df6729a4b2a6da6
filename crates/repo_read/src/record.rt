//! Records of a project at a point, and elements.

ghost use Rattle.std.specs.Prelude.{◌≡◌, ◌==◌, List, IfSome, option_map, option_and_then};
ghost use Rattle.std.specs.List.{find};
ghost use Rattle.doc_value.specs.Document.{IsSound};
ghost use Rattle.doc_value.specs.Seen.{document};
ghost use Rattle.entry_codec.specs.declared.entry.Entry.{Entry};
ghost use Rattle.entry_codec.specs.Histories.{tables_at, project_branch, project_tag, project_commit};
ghost use Rattle.entry_codec.specs.Replies.{is_element, if_element};
ghost use Rattle.repo_state.specs.Stands.{StandsFor, repository_of, commit_shown, versions_of, own_of};

use api_records::{Branch, Commit, Tag, Version};
use doc_value::Doc;
use repo_state::{CommitData, State};
use std::sync::Arc;
use sysapi_base::Id;

/// The project's branch with this id at the point.
pub(crate) fn project_branch(view: &State, project: Id, id: Id, point: u64) -> Option<&Branch>
    ensures { (past : List Entry) → StandsFor view.now past → option_map (λ b. b.now) result ≡ project_branch (tables_at (repository_of view.now) point past) project id }
{
    match view.branch(id, point) {
        Some(branch) if branch.project == project => Some(branch),
        _ => None,
    }
}

/// The project's tag with this id at the point.
pub(crate) fn project_tag(view: &State, project: Id, id: Id, point: u64) -> Option<&Tag>
    ensures { (past : List Entry) → StandsFor view.now past → option_map (λ t. t.now) result ≡ project_tag (tables_at (repository_of view.now) point past) project id }
{
    match view.tag(id, point) {
        Some(tag) if tag.project == project => Some(tag),
        _ => None,
    }
}

/// The project's commit with this id at the point, and what it stored.
pub(crate) fn project_commit(view: &State, project: Id, id: Id, point: u64) -> Option<&CommitData>
    ensures commit { (past : List Entry) → StandsFor view.now past → commit_shown (option_map (λ d. d.now) result) ≡ project_commit (tables_at (repository_of view.now) point past) project id }
    ensures versions { (past : List Entry) → StandsFor view.now past → IfSome result (λ d. versions_of d.now ≡ (tables_at (repository_of view.now) point past).versions id) }
    ensures own_values { (past : List Entry) → StandsFor view.now past → IfSome result (λ d. own_of d.now ≡ (tables_at (repository_of view.now) point past).own id) }
{
    match view.commit(id, point) {
        Some(made) if made.record().project == project => Some(made),
        _ => None,
    }
}

/// The record of the project's commit with this id at the point.
pub(crate) fn commit_record(view: &State, project: Id, id: Id, point: u64) -> Option<&Commit>
    ensures { (past : List Entry) → StandsFor view.now past → option_map (λ c. c.now) result ≡ project_commit (tables_at (repository_of view.now) point past) project id }
{
    match project_commit(view, project, id, point) {
        Some(made) => Some(made.record()),
        None => None,
    }
}

/// Whether a datum is an element, by its `@type`.
fn is_element(doc: &Doc) -> bool
    ensures { result ≡ is_element doc.now }
{
    match doc.field("@type") {
        Some(Doc::Text(text)) => {
            let kind = text.as_str();
            !(kind == "ProjectUsage" || kind == "ExternalData" || kind == "ExternalRelationship")
        }
        _ => true,
    }
}

/// The element with this id at a commit.
pub(crate) fn element_of(made: &CommitData, id: Id) -> Option<&Doc>
    ensures element { option_map (λ d. d.now) result ≡ option_and_then if_element (own_of made.now id) }
    ensures sound { IfSome result (λ d. IsSound (document d.now)) }
{
    match made.own(id) {
        Some(doc) if is_element(doc) => Some(doc),
        _ => None,
    }
}

/// The data version with this id among these.
pub(crate) fn version_in(versions: &[Arc<Version>], id: Id) -> Option<&Arc<Version>>
    ensures { option_map (λ v. v.now) result ≡ find (λ v. v.value.id == id) versions.now }
{
    versions.iter().find(|version| version.id == id)
}
