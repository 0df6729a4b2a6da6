ghost use Rattle.std.specs.Prelude.{◌≡◌, ◌≤◌, [], ◌∷◌, ◌++◌, All, IfOk, map, is_some, option_map};
ghost use Rattle.std.specs.Ordering.{nat_cmp};
ghost use Rattle.std.specs.FinMap.{find, put};
ghost use Rattle.std.specs.List.Sorted.{IsStrictlySortedBy};
ghost use Rattle.timeline.specs.Values.{IsListAt, changes_of, value_in};

use crate::history::History;
use pmap::PMap;
use std::alloc::Global;
use std::marker::Model;
use std::sync::Arc;
use sysapi_base::{Id, Memory};

/// The histories of ids, seen as their list in the ids' order.
#[derive(Drop)]
pub struct Histories<T> {
    by_id: PMap<Id, History<T>>,
}

impl<T> Model for Histories<T> {
    ghost use Rattle.std.specs.Prelude.{ℕ, List, Option, IsTrue};
    ghost use Rattle.std.specs.Coded.{coded_list, coded×, coded_ℕ, coded_option};
    ghost use Rattle.std.specs.Ordering.{nat_cmp};
    ghost use Rattle.std.specs.FinMap.{is_sorted};

    ghost Value = { List (ℕ × List (ℕ × Option T)) };

    ghost coded = { coded_list (coded× coded_ℕ (coded_list (coded× coded_ℕ (coded_option T.code)))) };

    ghost view = { λ a. a.by_id };

    ghost invariant = { λ a. IsTrue (is_sorted nat_cmp a.by_id) };
}

impl<T: Drop> Histories<T> {
    /// No histories. It takes no memory.
    pub fn new() -> Histories<T>
        ensures { result ≡ [] }
    {
        Histories { by_id: PMap::new() }
    }

    /// The same histories, of one owner more.
    pub fn share(&self) -> Result<Histories<T>, Memory>
        ensures { IfOk result (λ h. h ≡ self.now) }
    {
        Ok(Histories {
            by_id: self.by_id.share()?,
        })
    }

    /// The history of an id.
    pub fn find(&self, id: Id) -> Option<&History<T>>
        ensures { option_map (λ h. h.now) result ≡ find nat_cmp id self.now }
    {
        self.by_id.find(&id)
    }

    /// The history of an id, and one more change in it.
    pub fn longer(
        &self,
        alloc: Global,
        id: Id,
        from: u64,
        value: Option<Arc<T>>,
    ) -> Result<History<T>, Memory>
        requires { All (λ c. c.0 ≤ from) (changes_of self.now id) }
        ensures { IfOk result
            (λ h. h ≡ changes_of self.now id ++ (from, option_map (λ a. a.value) value) ∷ []) }
    {
        match self.find(id) {
            Some(history) => history.with(alloc, from, value),
            None => History::new().with(alloc, from, value),
        }
    }

    /// The histories with this one at the id. It copies the path to the id, and shares all else.
    pub fn with(&self, alloc: Global, id: Id, history: History<T>) -> Result<Histories<T>, Memory>
        ensures { IfOk result (λ h. h ≡ put nat_cmp id history self.now) }
    {
        let history = Arc::new(alloc, history)?;
        Ok(Histories {
            by_id: self.by_id.insert(alloc, id, history)?,
        })
    }

    /// The ids whose last change at or before the point says a value.
    pub fn ids_at(&self, alloc: Global, n: u64) -> Result<Vec<Id>, Memory>
        ensures { IfOk result (λ v. IsListAt (value_in self.now) n v.items) }
    {
        let mut ids = self.ids(alloc)?;
        ids.retain(|id| self.says_at(*id, n));
        Ok(ids)
    }

    // All ids, ascending.
    fn ids(&self, alloc: Global) -> Result<Vec<Id>, Memory>
        ensures all { IfOk result (λ v. v.items ≡ map (λ h. h.0) self.now) }
        ensures rise { IfOk result (λ v. IsStrictlySortedBy nat_cmp v.items) }
    {
        self.by_id
            .range_after(alloc, None, self.by_id.len() as usize)
    }

    // Whether the last change of the id at or before the point says a value.
    fn says_at(&self, id: Id, n: u64) -> bool
        ensures { result ≡ is_some (value_in self.now id n) }
    {
        self.find(id).and_then(|history| history.at(n)).is_some()
    }
}
