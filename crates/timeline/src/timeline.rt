ghost use Rattle.std.specs.Prelude.{◌≡◌, ℕ, ◌≤◌, IfOk, Some, None, option_map};
ghost use Rattle.timeline.specs.Values.{value_at, last_point, changed, IsListAt};

use crate::histories::Histories;
use std::alloc::Global;
use std::marker::Model;
use std::sync::Arc;
use sysapi_base::{Id, Memory};

/// Values by id over the points 0, 1, 2 and so on. A value holds from the point at which it was set up to the next change of
/// its id. A change makes a new timeline and leaves the one before as it was. It copies the path to its id and the last chunk of
/// the id's changes, and shares all else.
#[derive(Drop)]
pub struct Timeline<T> {
    histories: Histories<T>,
    last: u64,
}

impl<T> Model for Timeline<T> {
    ghost use Rattle.timeline.specs.Values.{Changes, changes_code};

    ghost Value = { Changes T };

    ghost coded = { changes_code T.code };

    ghost use Rattle.timeline.specs.Seen.{AreUpTo};

    ghost view = { λ a. record { by_id = a.histories; last = a.last } };

    ghost invariant = { λ a. AreUpTo a.last a.histories };
}

impl<T: Drop> Timeline<T> {
    /// No value at any point. It takes no memory.
    #[tactic(auto, unfolding(crate::specs::Values::value_at))]
    pub fn new() -> Timeline<T>
        ensures values { (q m : ℕ) → value_at result q m ≡ None }
        ensures last { last_point result ≡ 0 }
    {
        Timeline {
            histories: Histories::new(),
            last: 0,
        }
    }

    /// An equal timeline. It copies no content, and fails only where no further owner can be counted.
    pub fn share(&self) -> Result<Timeline<T>, Memory>
        ensures { IfOk result (λ t. t ≡ self.now) }
    {
        Ok(Timeline {
            histories: self.histories.share()?,
            last: self.last,
        })
    }

    /// The last point used, 0 where none is. From it on every value stays.
    pub fn last(&self) -> u64
        ensures value { result ≡ last_point self.now }
        ensures stays { (q n m : ℕ) → last_point self.now ≤ n → n ≤ m → value_at self.now q m ≡ value_at self.now q n }
    {
        self.last
    }

    /// The timeline in which the id has this value from the point on.
    #[tactic(auto, unfolding(crate::specs::Values::value_at))]
    pub fn set_at(
        &self,
        alloc: Global,
        id: Id,
        n: u64,
        value: Arc<T>,
    ) -> Result<Timeline<T>, Memory>
        requires { last_point self.now ≤ n }
        ensures values { IfOk result (λ t. (q m : ℕ)
            → value_at t q m ≡ changed (value_at self.now) id n (Some value.value) q m) }
        ensures last { IfOk result (λ t. last_point t ≡ n) }
    {
        self.change(alloc, id, n, Some(value))
    }

    /// The timeline in which the id has no value from the point on.
    #[tactic(auto, unfolding(crate::specs::Values::value_at))]
    pub fn end_at(&self, alloc: Global, id: Id, n: u64) -> Result<Timeline<T>, Memory>
        requires { last_point self.now ≤ n }
        ensures values { IfOk result (λ t. (q m : ℕ)
            → value_at t q m ≡ changed (value_at self.now) id n None q m) }
        ensures last { IfOk result (λ t. last_point t ≡ n) }
    {
        self.change(alloc, id, n, None)
    }

    /// The id's value at the point. It looks the id up, and searches its own changes by halves. From the last point on a value stays.
    #[tactic(auto, unfolding(crate::specs::Values::value_at))]
    pub fn at(&self, id: Id, n: u64) -> Option<&T>
        ensures value { option_map (λ v. v.now) result ≡ value_at self.now id n }
        ensures stays { (m : ℕ) → last_point self.now ≤ n → n ≤ m → value_at self.now id m ≡ value_at self.now id n }
    {
        self.histories.find(id)?.at(n)
    }

    /// The ids that have a value at the point, ascending.
    #[tactic(auto, unfolding(crate::specs::Values::value_at))]
    pub fn list_at(&self, alloc: Global, n: u64) -> Result<Vec<Id>, Memory>
        ensures { IfOk result (λ v. IsListAt (value_at self.now) n v.items) }
    {
        self.histories.ids_at(alloc, n)
    }

    // The timeline in which the id has this value, or none, from the point on.
    #[tactic(auto, unfolding(crate::specs::Values::value_at))]
    fn change(
        &self,
        alloc: Global,
        id: Id,
        n: u64,
        value: Option<Arc<T>>,
    ) -> Result<Timeline<T>, Memory>
        requires { last_point self.now ≤ n }
        ensures values { IfOk result (λ t. (q m : ℕ)
            → value_at t q m ≡ changed (value_at self.now) id n (option_map (λ v. v.value) value) q m) }
        ensures last { IfOk result (λ t. last_point t ≡ n) }
    {
        let history = self.histories.longer(alloc, id, n, value)?;
        Ok(Timeline {
            histories: self.histories.with(alloc, id, history)?,
            last: n,
        })
    }
}
