ghost use Rattle.std.specs.Prelude.{◌≡◌, ℕ, List, [], ◌∷◌, Option};
ghost use Rattle.sysapi_base.specs.Outside.{Grows, HasNone};

use crate::moment::Moment;

/// What tells the time. It never fails.
pub trait Clock {
    /// Its readings in order, where they are told, each as its milliseconds since 1970.
    ghost readings: { Self → Option (List ℕ) };

    /// The next reading.
    fn now(&mut self) -> Moment
        ensures { Grows (readings self.old) (readings self.new) (result ∷ []) };

    /// A clock of the same kind, with no readings yet.
    fn twin(&self) -> Self
        ensures { HasNone (readings result) };
}
