//! The serials that changes draw, and the data versions that they make.

ghost use Rattle.std.specs.Prelude.{◌≡◌, ◌<◌, ◌-◌, ◌^◌, map, IfOk, option_map};
ghost use Rattle.std.specs.List.{All};
ghost use Rattle.doc_value.specs.Seen.{document};
ghost use Rattle.api_records.specs.Sets.{has};
ghost use Rattle.api_records.specs.Changes.{named, with_id, free_from, identity_at, serial_behind, version, versions, last_serial, known_with};
ghost use Rattle.api_records.specs.Storable.{IsPayload, IsStored};
ghost use Rattle.entry_codec.specs.Histories.{with_identities};
ghost use Rattle.repo_state.specs.Payloads.{AllStored};
ghost use Rattle.repo_state.specs.Stands.{known_shown};

use crate::check::named;
use crate::id_set::IdSet;
use api_records::{Change, Version};
use doc_value::Doc;
use std::alloc::Global;
use std::sync::Arc;
use sysapi_base::{Id, Memory, Text};

/// Serials stay below this one, with room for those of the last command. Want of memory is answered in place of it.
pub(crate) const LAST_SERIAL: u64 = 0x3fff_ffff_ffff_0000;

/// What serials were drawn for, and the next serial behind them.
#[derive(Drop)]
pub(crate) struct Drawn<T> {
    pub(crate) made: T,
    pub(crate) next: u64,
}

/// The least serial from one on whose id is unknown.
fn free_serial(repository: u64, known: &IdSet, from: u64) -> Result<u64, Memory>
    requires { repository < 2 ^ 48 }
    ensures least { IfOk result (λ n. n ≡ free_from repository (has known.now) from) }
    ensures bound { IfOk result (λ n. n < 2 ^ 62 - 1) }
{
    for n in from..LAST_SERIAL {
        if !known.contains(Id::made(repository, n)) {
            return Ok(n);
        }
    }
    Err(Memory)
}

/// The identity of a change whose data version has the serial `next`.
fn identity(
    repository: u64,
    known: &IdSet,
    next: u64,
    named: Option<Id>,
) -> Result<Drawn<Id>, Memory>
    requires repository { repository < 2 ^ 48 }
    requires next { next < 2 ^ 62 }
    ensures identity { IfOk result (λ d. d.made ≡ identity_at repository (has known.now) next named) }
    ensures next { IfOk result (λ d. d.next ≡ serial_behind repository (has known.now) next named) }
{
    match named {
        Some(id) => Ok(Drawn {
            made: id,
            next: next + 1,
        }),
        None => {
            let serial = free_serial(repository, known, next + 1)?;
            Ok(Drawn {
                made: Id::made(repository, serial),
                next: serial + 1,
            })
        }
    }
}

/// A payload with its `@id` set to its identity's text.
fn with_id(alloc: Global, payload: &Doc, id: Id) -> Result<Doc, Memory>
    requires { IsPayload (document payload.now) }
    ensures value { IfOk result (λ d. d ≡ with_id id payload.now) }
    ensures payload { IfOk result (λ d. IsPayload (document d)) }
{
    match payload.copy(alloc)? {
        Doc::Object(fields) => {
            let mut fields = fields;
            let content = id.text();
            let text = Text::of(String::from_utf8_lossy(alloc, &content)?);
            fields.insert(alloc, "@id", Doc::Text(text))?;
            Ok(Doc::Object(fields))
        }
        other => Ok(other),
    }
}

/// The same of a payload that may be absent.
fn stored(alloc: Global, payload: &Option<Doc>, id: Id) -> Result<Option<Doc>, Memory>
    requires { IsStored payload.now }
    ensures value { IfOk result (λ p. p ≡ option_map (with_id id) payload.now) }
    ensures payload { IfOk result (λ p. IsStored p) }
{
    match payload {
        Some(payload) => Ok(Some(with_id(alloc, payload, id)?)),
        None => Ok(None),
    }
}

/// The data version of a change.
fn version(
    alloc: Global,
    repository: u64,
    known: &IdSet,
    next: u64,
    change: &Change,
) -> Result<Drawn<Version>, Memory>
    requires repository { repository < 2 ^ 48 }
    requires storable { IsStored change.now.payload }
    ensures version { IfOk result (λ d. d.made ≡ version repository (has known.now) next change.now) }
    ensures next { IfOk result (λ d. d.next ≡ serial_behind repository (has known.now) next (named change.now)) }
    ensures stored { IfOk result (λ d. IsStored d.made.payload) }
{
    if next >= LAST_SERIAL {
        return Err(Memory);
    }
    let identity = identity(repository, known, next, named(change))?;
    let version = Version {
        id: Id::made(repository, next),
        identity: identity.made,
        payload: stored(alloc, &change.payload, identity.made)?,
    };
    Ok(Drawn {
        made: version,
        next: identity.next,
    })
}

/// The data versions of changes, where the first has the serial `from`.
pub(crate) fn versions(
    alloc: Global,
    repository: u64,
    known: &IdSet,
    from: u64,
    changes: &[Change],
) -> Result<Drawn<Vec<Arc<Version>>>, Memory>
    requires repository { repository < 2 ^ 48 }
    requires storable { All (λ c. IsStored c.payload) changes.now }
    ensures versions { IfOk result (λ d. map (λ v. v.value) d.made.items ≡ versions repository (has known.now) from changes.now) }
    ensures next { IfOk result (λ d. d.next ≡ last_serial repository (has known.now) from changes.now) }
    ensures stored { IfOk result (λ d. AllStored d.made.items) }
{
    let mut made = Vec::with_capacity(alloc, changes.len())?;
    let mut next = from;
    for change in changes {
        let drawn = version(alloc, repository, known, next, change)?;
        made.push(Arc::new(alloc, drawn.made)?)?;
        next = drawn.next;
    }
    Ok(Drawn { made, next })
}

/// The identities that are known in a project, in a set of their own.
fn known_in(known: Option<&IdSet>) -> Result<IdSet, Memory>
    ensures { IfOk result (λ s. has s ≡ known_shown (option_map (λ k. k.now) known.entry)) }
{
    match known {
        Some(known) => known.share(),
        None => Ok(IdSet::new()),
    }
}

/// The identities that are known in a project, and those that the changes name.
pub(crate) fn known_with(
    alloc: Global,
    known: Option<&IdSet>,
    changes: &[Change],
) -> Result<IdSet, Memory>
    ensures { IfOk result (λ s. has s ≡ known_with (known_shown (option_map (λ k. k.now) known.entry)) changes.now) }
{
    let mut set = known_in(known)?;
    for change in changes {
        if let Some(id) = named(change) {
            set.add(alloc, id)?;
        }
    }
    Ok(set)
}

/// The identities that are known in a project, and those of the versions.
pub(crate) fn with_identities(
    alloc: Global,
    known: Option<&IdSet>,
    versions: &[Arc<Version>],
) -> Result<IdSet, Memory>
    ensures { IfOk result (λ s. has s ≡ with_identities (known_shown (option_map (λ k. k.now) known.entry)) (map (λ v. v.value) versions.now)) }
{
    let mut set = known_in(known)?;
    for version in versions {
        set.add(alloc, version.identity)?;
    }
    Ok(set)
}
