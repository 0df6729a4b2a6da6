//! Sets of ids.

ghost use Rattle.std.specs.Prelude.{◌≡◌, [], IfOk, OnOk};
ghost use Rattle.api_records.specs.Sets.{has, added};

use pmap::PMap;
use std::alloc::Global;
use std::marker::Model;
use std::sync::Arc;
use sysapi_base::{Id, Memory};

/// A set of ids, seen as their list. Its copies share all of it.
#[derive(Drop)]
pub(crate) struct IdSet {
    ids: PMap<Id, ()>,
}

impl Model for IdSet {
    ghost use Rattle.std.specs.Prelude.{ℕ, List, map};

    ghost Value = { List ℕ };

    ghost view = { λ a. map (λ e. e.0) a.ids };
}

impl IdSet {
    /// No ids.
    pub(crate) fn new() -> IdSet
        ensures { result ≡ [] }
    {
        IdSet { ids: PMap::new() }
    }

    /// An equal set.
    pub(crate) fn share(&self) -> Result<IdSet, Memory>
        ensures { IfOk result (λ s. s ≡ self.now) }
    {
        Ok(IdSet {
            ids: self.ids.share()?,
        })
    }

    /// Whether an id is in it.
    pub(crate) fn contains(&self, id: Id) -> bool
        ensures { result ≡ has self.now id }
    {
        self.ids.find(&id).is_some()
    }

    /// Adds an id. Where it is in the set, nothing changes.
    pub(crate) fn add(&mut self, alloc: Global, id: Id) -> Result<(), Memory>
        ensures { OnOk result (has self.new ≡ added id (has self.old)) }
    {
        if self.contains(id) {
            return Ok(());
        }
        let ids = self.ids.insert(alloc, id, Arc::new(alloc, ())?)?;
        self.ids = ids;
        Ok(())
    }
}
