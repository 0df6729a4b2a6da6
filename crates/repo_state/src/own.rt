//! The values of data at a commit.

ghost use Rattle.std.specs.Prelude.{◌≡◌, ℕ, ◌==◌, if◌then◌else◌, map, IfOk, option_map, option_and_then};
ghost use Rattle.std.specs.Ordering.{nat_cmp};
ghost use Rattle.std.specs.FinMap.{find};
ghost use Rattle.api_records.specs.Storable.{IsStored};
ghost use Rattle.entry_codec.specs.Histories.{own_in};
ghost use Rattle.repo_state.specs.Payloads.{AreStored, AllStored};
ghost use Rattle.repo_state.specs.Stands.{own_shown};

use crate::data::CommitData;
use api_records::Version;
use pmap::PMap;
use std::alloc::Global;
use std::sync::Arc;
use sysapi_base::{Id, Memory};

/// The versions at a commit, none where there is no commit.
fn own_of(older: Option<&CommitData>) -> Result<PMap<Id, Version>, Memory>
    ensures value { IfOk result (λ own. (x : ℕ) → option_and_then (λ v. v.payload) (find nat_cmp x own) ≡ own_shown (option_map (λ d. d.now) older.entry) x) }
    ensures stored { IfOk result AreStored }
{
    match older {
        Some(older) => older.own.share(),
        None => Ok(PMap::new()),
    }
}

/// The versions in which this one stands for its datum. One without a payload takes the older one out.
fn store(
    alloc: Global,
    own: &PMap<Id, Version>,
    version: &Arc<Version>,
) -> Result<PMap<Id, Version>, Memory>
    requires version { IsStored version.now.value.payload }
    requires own { AreStored own.now }
    ensures value { IfOk result (λ new. (x : ℕ) → option_and_then (λ v. v.payload) (find nat_cmp x new) ≡ (if version.now.value.identity == x then version.now.value.payload else option_and_then (λ v. v.payload) (find nat_cmp x own.now))) }
    ensures stored { IfOk result AreStored }
{
    if version.payload.is_some() {
        own.insert(alloc, version.identity, Arc::try_clone(version)?)
    } else {
        own.remove(alloc, &version.identity)
    }
}

/// The versions at a commit that stores these, where `older` is the commit before it.
pub(crate) fn own_values(
    alloc: Global,
    older: Option<&CommitData>,
    versions: &[Arc<Version>],
) -> Result<PMap<Id, Version>, Memory>
    requires { AllStored versions.now }
    ensures value { IfOk result (λ own. (x : ℕ) → option_and_then (λ v. v.payload) (find nat_cmp x own) ≡ own_in (map (λ v. v.value) versions.now) x (own_shown (option_map (λ d. d.now) older.entry) x)) }
    ensures stored { IfOk result AreStored }
{
    let mut own = own_of(older)?;
    for version in versions {
        own = store(alloc, &own, version)?;
    }
    Ok(own)
}
