ghost use Rattle.std.specs.Prelude.{◌≡◌, ◌+◌, ◌*◌, ◌<◌, ◌≤◌, ◌^◌, [], ◌∷◌, ◌++◌, length, All};

use crate::fault::RecordError;
use crate::keeper::Keeper;
use std::alloc::Global;
use std::mem;
use sysapi_base::{Failed, FailingCalls, Memory};

/// A keeper in memory, whose calls fail where they are told to. There is never a doubt, and it tells nothing of crashes.
#[derive(Debug, Drop)]
pub struct MemoryKeeper {
    alloc: Global,
    repository: u64,
    room: u64,
    used: u64,
    records: Vec<Vec<u8>>,
    ready: Vec<u8>,
    failing: FailingCalls,
    ghost number: { repository < 2 ^ 48 },
    ghost most: { room ≤ 2 ^ 36 },
    ghost few: { 5 * length records.items + 17 ≤ used },
    ghost small: { used ≤ 17 + (2 ^ 27 + 5) * length records.items },
    ghost low: { used ≤ 2 ^ 36 + 17 },
    ghost short: { All (λ v. length v.items ≤ 2 ^ 27) records.items },
}

impl MemoryKeeper {
    ghost use Rattle.std.specs.Prelude.{◌≡◌, ◌≤◌, ◌<◌, ◌^◌, ℕ, List, [], Some};
    ghost use Rattle.sysapi_base.specs.Failing.{failing_at};
    ghost use Rattle.journal_disk.specs.MemoryKeeper.{keeper_figures, keeper_records};

    /// An empty keeper of this repository, which never fails. The repository's number is below 2^48, and the room at most 2^36.
    pub fn new(alloc: Global, repository: u64, room: u64) -> MemoryKeeper
        requires number { repository < 2 ^ 48 }
        requires most { room ≤ 2 ^ 36 }
        ensures records { keeper_records result ≡ Some [] }
        ensures repository { (keeper_figures result).repository ≡ repository }
        ensures used { (keeper_figures result).used ≡ 17 }
        ensures room { (keeper_figures result).room ≡ room }
        ensures failing { result.failing ≡ failing_at [] }
    {
        MemoryKeeper {
            alloc,
            repository,
            room,
            used: 17,
            records: Vec::new(alloc),
            ready: Vec::new(alloc),
            failing: FailingCalls::none(alloc),
        }
    }

    /// The same keeper, whose calls of `append` and `record` of these numbers fail, counted from 0 from here on.
    pub fn failing(self, calls: Vec<u64>) -> MemoryKeeper
        ensures { result ≡ record self { failing = failing_at calls.items } }
    {
        MemoryKeeper {
            alloc: self.alloc,
            repository: self.repository,
            room: self.room,
            used: self.used,
            records: self.records,
            ready: self.ready,
            failing: FailingCalls::at(calls),
        }
    }
}

impl Keeper for MemoryKeeper {
    ghost use Rattle.std.specs.Prelude.{ℕ, ◌+◌, ◌≡◌, [], None, refl};
    ghost use Rattle.journal_disk.specs.MemoryKeeper.{keeper_figures, keeper_records};

    ghost figures = { keeper_figures };

    ghost costs = { λ n. n + 5 };

    ghost places = { λ k i. i };

    ghost records = { keeper_records };

    ghost reading = { λ k. None };

    ghost doubted = { λ k. None };

    ghost images = { λ k image. ⊥ };

    ghost moment = { λ k. 0 };

    ghost images_since = { λ k t image. ⊥ };

    ghost faults = { λ k. k.failing.failed };

    ghost IsSteady = { λ k. k.failing.left ≡ [] };

    ghost no_doubt = { λ k is. refl };

    ghost counts_now = { λ k t image le left. left };

    ghost only_now = { λ k image left. left };

    fn repository(&self) -> u64 {
        self.repository
    }

    fn count(&self) -> u64 {
        self.records.len() as u64
    }

    fn has_doubt(&self) -> bool {
        false
    }

    fn used(&self) -> u64 {
        self.used
    }

    fn room(&self) -> u64 {
        self.room
    }

    fn place(&self, i: u64) -> u64 {
        i
    }

    fn record(&mut self, alloc: Global, i: u64) -> Result<Vec<u8>, RecordError> {
        if self.failing.meets() {
            return Err(RecordError::Fault);
        }
        Ok(self.records[i as usize].to_vec(alloc)?)
    }

    fn cost(&self, len: u32) -> u64 {
        len as u64 + 5
    }

    fn reserve(&mut self, len: u32) -> Result<(), Memory> {
        self.ready.reserve(len as usize)?;
        self.records.reserve(1)?;
        Ok(())
    }

    fn append(&mut self, bytes: &[u8]) -> Result<(), Failed> {
        if self.failing.meets() {
            return Err(Failed);
        }
        let mut text = mem::replace(&mut self.ready, Vec::new(self.alloc));
        text.clear();
        let _ = text.extend_from_slice(bytes);
        let _ = self.records.push(text);
        self.used += bytes.len() as u64 + 5;
        Ok(())
    }

    fn settle(&mut self) -> Result<(), Failed> {
        Ok(())
    }
}
