ghost use Rattle.std.specs.Prelude.{◌≡◌, [], ◌∷◌};
ghost use Rattle.sysapi_base.specs.Outside.{Grows, HasNone};
ghost use Rattle.sysapi_base.specs.InMemory.{reading, clock_readings};

use crate::clock::Clock;
use crate::moment::Moment;
use std::marker::Model;

/// A clock that goes on by a step at each reading. It keeps their count alone, and tells them until the count has its last
/// value.
#[derive(Debug, Drop)]
pub struct MemoryClock {
    first: Moment,
    step: u64,
    count: u64,
}

impl Model for MemoryClock {
    ghost use Rattle.sysapi_base.specs.InMemory.{Ticking};

    ghost Value = { Ticking };

    ghost view = { λ a. record { first = a.first; step = a.step; count = a.count } };
}

impl MemoryClock {
    /// A clock whose first reading is this moment, and each other so many milliseconds after the one before, at most the last
    /// moment.
    pub fn new(first: Moment, step: u64) -> MemoryClock
        ensures { result ≡ record { first = first; step = step; count = 0 } }
    {
        MemoryClock {
            first,
            step,
            count: 0,
        }
    }
}

impl Clock for MemoryClock {
    ghost use Rattle.sysapi_base.specs.InMemory.{clock_readings};

    ghost readings = { clock_readings };

    fn now(&mut self) -> Moment
        ensures readings { Grows (clock_readings self.old) (clock_readings self.new) (result ∷ []) }
        ensures value { result ≡ reading self.old.first self.old.step self.old.count }
    {
        let gone = self.count.saturating_mul(self.step);
        let reading = Moment::at_most(self.first.millis().saturating_add(gone));
        self.count = self.count.saturating_add(1);
        reading
    }

    fn twin(&self) -> MemoryClock
        ensures none { HasNone (clock_readings result) }
        ensures same { result ≡ record self.now { count = 0 } }
    {
        MemoryClock::new(self.first, self.step)
    }
}
