ghost use Rattle.std.proofs.Props.{props};
ghost use Rattle.repo_state.specs.Payloads.{AreStored, AllStored, IsStored-prop, HasRange-prop, IsObject-prop};

use api_records::{Commit, Version};
use doc_value::Doc;
use pmap::PMap;
use std::sync::Arc;
use sysapi_base::Id;

/// A commit, the data versions that it stored, the version of each datum at it, and its number in the graph of commits.
#[derive(Drop)]
pub struct CommitData {
    pub(crate) commit: Commit,
    pub(crate) versions: Vec<Arc<Version>>,
    pub(crate) own: PMap<Id, Version>,
    pub(crate) number: u64,
    ghost stored: { AllStored versions.items } by { Prim.hlevel (IsStored-prop, IsObject-prop, HasRange-prop, props) },
    ghost payloads: { AreStored own } by { Prim.hlevel (IsStored-prop, IsObject-prop, HasRange-prop, props) },
}

impl CommitData {
    ghost use Rattle.std.specs.Prelude.{◌≡◌, map, option_map, IfSome};
    ghost use Rattle.std.specs.List.{All};
    ghost use Rattle.doc_value.specs.Document.{IsSound};
    ghost use Rattle.doc_value.specs.Seen.{document};
    ghost use Rattle.api_records.specs.Storable.{IsShallow};
    ghost use Rattle.repo_state.specs.Stands.{commit_of, versions_of, own_of};

    /// The commit's record.
    pub fn record(&self) -> &Commit
        ensures { result.now ≡ commit_of self.now }
    {
        &self.commit
    }

    /// The data versions that the commit stored, ascending, one for each change in their order.
    pub fn versions(&self) -> &[Arc<Version>]
        ensures value { map (λ v. v.value) result.now ≡ versions_of self.now }
        ensures shallow { All (λ v. IsShallow v.value.payload) result.now }
    {
        self.versions.as_slice()
    }

    /// The value of the datum with this identity at the commit, as it is stored.
    pub fn own(&self, id: Id) -> Option<&Doc>
        ensures value { option_map (λ d. d.now) result ≡ own_of self.now id }
        ensures sound { IfSome result (λ d. IsSound (document d.now)) }
    {
        match self.own.find(&id) {
            Some(version) => version.payload.as_ref(),
            None => None,
        }
    }
}
