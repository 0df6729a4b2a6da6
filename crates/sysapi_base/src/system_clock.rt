ghost use Rattle.std.specs.Prelude.{◌≡◌};
ghost use Rattle.sysapi_base.specs.Outside.{HasNone};
ghost use Rattle.sysapi_base.specs.Streams.{clock_readings, runtime_of};

use crate::clock::Clock;
use crate::moment::{END, Moment};
use std::rt;

/// The system's clock, in milliseconds. It tells no readings. A time after the last moment is read as that moment, and a clock
/// that can't be read, or that stands before 1970, as moment 0.
#[derive(Drop)]
pub struct SystemClock<R> {
    rt: R,
}

impl<R> SystemClock<R> {
    ghost use Rattle.std.specs.Prelude.{◌≡◌};
    ghost use Rattle.sysapi_base.specs.Streams.{runtime_of};

    /// The clock of this runtime.
    pub fn new(rt: R) -> SystemClock<R>
        ensures { runtime_of result ≡ rt }
    {
        SystemClock { rt }
    }
}

impl<R: rt::Clock + Copy> Clock for SystemClock<R> {
    ghost use Rattle.sysapi_base.specs.Streams.{clock_readings};

    ghost readings = { clock_readings };

    fn now(&mut self) -> Moment {
        match self.rt.since_1970() {
            Ok(time) => Moment::at_most(time.as_millis().min(END as u128) as u64),
            Err(_) => Moment::at_most(0),
        }
    }

    fn twin(&self) -> SystemClock<R>
        ensures none { HasNone (clock_readings result) }
        ensures same { runtime_of result ≡ runtime_of self.now }
    {
        SystemClock::new(self.rt)
    }
}
