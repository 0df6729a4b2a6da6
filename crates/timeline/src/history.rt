ghost use Rattle.std.specs.Prelude.{◌≡◌, ◌≤◌, ◌<◌, [], ◌∷◌, ◌++◌, All, IfOk, None, false, nat_le, length, option_map, option_and_then, slice_get};
ghost use Rattle.std.specs.Option.{option_map_or};
ghost use Rattle.std.specs.List.Sorted.{IsNonDecreasingBy, IsPartitionPoint};
ghost use Rattle.timeline.specs.Values.{last_said};
ghost use Rattle.timeline.specs.Seen.{seen};

use pmap::PList;
use std::alloc::Global;
use std::marker::Model;
use std::sync::Arc;
use sysapi_base::Memory;

/// From its point on the value, or none.
#[derive(Drop)]
struct Entry<T> {
    from: u64,
    value: Option<Arc<T>>,
}

/// The changes of one id, oldest first, seen as their points and values. Each has a number, from 0 on. One more change makes a
/// new history and leaves the one before as it was; both share the changes that they have in common.
#[derive(Drop)]
pub struct History<T> {
    entries: PList<Entry<T>>,
}

impl<T> Model for History<T> {
    ghost use Rattle.std.specs.Prelude.{ℕ, List, Option};
    ghost use Rattle.std.specs.Coded.{coded_list, coded×, coded_ℕ, coded_option};

    ghost Value = { List (ℕ × Option T) };

    ghost coded = { coded_list (coded× coded_ℕ (coded_option T.code)) };

    ghost use Rattle.timeline.specs.Seen.{said, IsInOrder};

    ghost view = { λ a. said a.entries };

    ghost invariant = { λ a. IsInOrder a.entries };
}

impl<T: Drop> History<T> {
    /// No changes. It takes no memory.
    pub fn new() -> History<T>
        ensures { result ≡ [] }
    {
        History {
            entries: PList::new(),
        }
    }

    /// What the last change at or before the point says. It searches the changes by halves.
    pub fn at(&self, n: u64) -> Option<&T>
        ensures { option_map (λ v. v.now) result ≡ last_said self.now n None }
    {
        self.value_of(self.past(n).checked_sub(1)?)
    }

    /// These changes and one more. It copies the last chunk of them by its pointers, and shares all else.
    pub fn with(
        &self,
        alloc: Global,
        from: u64,
        value: Option<Arc<T>>,
    ) -> Result<History<T>, Memory>
        requires { All (λ c. c.0 ≤ from) self.now }
        ensures { IfOk result (λ h. h ≡ self.now ++ (from, option_map (λ a. a.value) value) ∷ []) }
    {
        let entry = Arc::new(alloc, Entry { from, value })?;
        Ok(History {
            entries: self.entries.push(alloc, entry)?,
        })
    }

    // How many changes there are.
    fn len(&self) -> u64
        ensures value { result ≡ length self.now }
        ensures rises { IsNonDecreasingBy (λ c. c.0) self.now }
    {
        self.entries.len()
    }

    // How many changes are at or before the point.
    fn past(&self, n: u64) -> u64
        ensures bound { result ≤ length self.now }
        ensures point { IsPartitionPoint (λ c. c.0 ≤ n) (λ c. n < c.0) self.now result }
    {
        let (mut low, mut high) = (0, self.len());
        while low < high {
            let middle = low + (high - low) / 2;
            if self.is_past(middle, n) {
                low = middle + 1;
            } else {
                high = middle;
            }
        }
        low
    }

    // Whether the change of this number is at or before the point. No where there is no such change.
    fn is_past(&self, number: u64, n: u64) -> bool
        ensures { result ≡ option_map_or (λ c. nat_le c.0 n) (slice_get self.now number) false }
    {
        self.entry(number).is_some_and(|entry| entry.from <= n)
    }

    // What the change of this number says. `None` where there is no such change.
    fn value_of(&self, number: u64) -> Option<&T>
        ensures { option_map (λ v. v.now) result ≡ option_and_then (λ c. c.1) (slice_get self.now number) }
    {
        match &self.entry(number)?.value {
            Some(value) => Some(value),
            None => None,
        }
    }

    // The change of this number.
    fn entry(&self, number: u64) -> Option<&Entry<T>>
        ensures { option_map (λ e. seen e.now) result ≡ slice_get self.now number }
    {
        self.entries.get(number)
    }
}
