//! The rows of refusals that speak of a commit's references and changes.

ghost use Rattle.std.specs.Prelude.{◌≡◌, false, ◌∷◌, [], ◌<◌, ◌^◌, length, IfOk, IfSome, option_map, position};
ghost use Rattle.api_records.specs.Changes.{named, payload_id};
ghost use Rattle.entry_codec.specs.Refusals.{first, multiple, moved, is_mismatch, twice, deletes_unknown, is_usage, change_rows};
ghost use Rattle.repo_state.specs.Stands.{own_shown};

use crate::data::CommitData;
use crate::id_set::IdSet;
use api_records::{Change, Refusal};
use doc_value::Doc;
use std::alloc::Global;
use sysapi_base::{Id, Memory};

/// The id that a payload's `@id` names.
fn payload_id(payload: &Option<Doc>) -> Option<Id>
    ensures { result ≡ payload_id payload.now }
{
    match payload {
        Some(doc) => doc.as_reference(),
        None => None,
    }
}

/// The identity that a change names.
pub(crate) fn named(change: &Change) -> Option<Id>
    ensures { result ≡ named change.now }
{
    match change.identity {
        Some(id) => Some(id),
        None => payload_id(&change.payload),
    }
}

/// Whether the given identity and the payload's `@id` differ.
fn is_mismatch(change: &Change) -> bool
    ensures { result ≡ is_mismatch change.now }
{
    match (change.identity, payload_id(&change.payload)) {
        (Some(given), Some(id)) => given != id,
        _ => false,
    }
}

/// The place of the first change with the identity of an earlier one.
fn twice(alloc: Global, changes: &[Change]) -> Result<Option<usize>, Memory>
    ensures place { IfOk result (λ o. o ≡ twice 0 (λ x. false) changes.now) }
    ensures within { IfOk result (λ o. IfSome o (λ k. k < length changes.now)) }
{
    let mut earlier = IdSet::new();
    for (place, change) in changes.iter().enumerate() {
        if let Some(id) = named(change) {
            if earlier.contains(id) {
                return Ok(Some(place));
            }
            earlier.add(alloc, id)?;
        }
    }
    Ok(None)
}

/// The value of a datum at a commit, if there is a commit.
fn own_at<'a>(commit: Option<&'a CommitData>, id: Id) -> Option<&'a Doc>
    ensures { option_map (λ d. d.now) result ≡ own_shown (option_map (λ c. c.now) commit.entry) id }
{
    match commit {
        Some(commit) => commit.own(id),
        None => None,
    }
}

/// Whether a change deletes what isn't there.
fn deletes_unknown(commit: Option<&CommitData>, change: &Change) -> bool
    ensures { result ≡ deletes_unknown (own_shown (option_map (λ c. c.now) commit.entry)) (named change.now) change.now.payload }
{
    if change.payload.is_some() {
        return false;
    }
    match named(change) {
        Some(id) => own_at(commit, id).is_none(),
        None => true,
    }
}

/// Whether a change stores a usage of another project.
fn is_usage(change: &Change) -> bool
    ensures { result ≡ is_usage change.now.payload }
{
    let Some(doc) = &change.payload else {
        return false;
    };
    match doc.field("@type") {
        Some(Doc::Text(text)) => text.as_str() == "ProjectUsage",
        _ => false,
    }
}

/// The place of the first change whose payload is of another datum.
fn place_of_mismatch(changes: &[Change]) -> Option<usize>
    ensures place { result ≡ position is_mismatch changes.now }
    ensures within { IfSome result (λ k. k < length changes.now) }
{
    changes.iter().position(|c| is_mismatch(c))
}

/// The place of the first change that deletes what isn't there.
fn place_of_lost(commit: Option<&CommitData>, changes: &[Change]) -> Option<usize>
    ensures place { result ≡ position (λ c. deletes_unknown (own_shown (option_map (λ d. d.now) commit.entry)) (named c) c.payload) changes.now }
    ensures within { IfSome result (λ k. k < length changes.now) }
{
    changes.iter().position(|c| deletes_unknown(commit, c))
}

/// The place of the first change that stores a usage.
fn place_of_usage(changes: &[Change]) -> Option<usize>
    ensures place { result ≡ position (λ c. is_usage c.payload) changes.now }
    ensures within { IfSome result (λ k. k < length changes.now) }
{
    changes.iter().position(|c| is_usage(c))
}

/// Why the references to previous commits are refused.
fn previous_refusal(head: Option<Id>, previous: &[Id]) -> Option<Refusal>
    ensures { result ≡ first (multiple previous.now ∷ moved head previous.now ∷ []) }
{
    match previous {
        [] => None,
        [id] => {
            if head == Some(*id) {
                None
            } else {
                Some(Refusal::HeadMoved { head })
            }
        }
        _ => Some(Refusal::MultiplePrevious),
    }
}

/// Why the changes are refused at the values of the commit that is the head.
fn changes_refusal(
    alloc: Global,
    commit: Option<&CommitData>,
    changes: &[Change],
) -> Result<Option<Refusal>, Memory>
    requires { length changes.now < 2 ^ 32 }
    ensures { IfOk result (λ f. f ≡ first (change_rows (own_shown (option_map (λ c. c.now) commit.entry)) changes.now)) }
{
    if let Some(place) = place_of_mismatch(changes) {
        return Ok(Some(Refusal::IdentityMismatch {
            place: place as u32,
        }));
    }
    if let Some(place) = twice(alloc, changes)? {
        return Ok(Some(Refusal::IdentityTwice {
            place: place as u32,
        }));
    }
    if let Some(place) = place_of_lost(commit, changes) {
        return Ok(Some(Refusal::DeleteUnknown {
            place: place as u32,
        }));
    }
    if let Some(place) = place_of_usage(changes) {
        return Ok(Some(Refusal::UnknownPin {
            place: place as u32,
        }));
    }
    Ok(None)
}

/// Why a commit on a branch is refused, where `older` is the commit at the branch's head.
pub(crate) fn commit_refusal(
    alloc: Global,
    head: Option<Id>,
    older: Option<&CommitData>,
    previous: &[Id],
    changes: &[Change],
) -> Result<Option<Refusal>, Memory>
    requires { length changes.now < 2 ^ 32 }
    ensures { IfOk result (λ f. f ≡ first (multiple previous.now ∷ moved head previous.now ∷ change_rows (own_shown (option_map (λ c. c.now) older.entry)) changes.now)) }
{
    if let Some(refusal) = previous_refusal(head, previous) {
        return Ok(Some(refusal));
    }
    changes_refusal(alloc, older, changes)
}
