ghost use Rattle.std.specs.Prelude.{◌≤◌, ℕ, List, Option, length, IfOk};
ghost use Rattle.sysapi_base.specs.Outside.{Passes, TakesSome, Writes};

use crate::error::Failed;

/// Where bytes go.
pub trait Sink {
    /// The bytes taken, where they are told.
    ghost taken: { Self → Option (List ℕ) };

    /// How often a call has failed.
    ghost faults: { Self → ℕ };

    /// No call will fail from here on.
    ghost IsSteady: { Self → Type 0 };

    /// Takes bytes from the front of the slice, and answers how many: at least one where there is one.
    /// After `Failed` no byte was taken.
    fn write(&mut self, from: &[u8]) -> Result<usize, Failed>
        ensures bound { IfOk result (λ n. n ≤ length from.now) }
        ensures some { TakesSome from.now result }
        ensures bytes { Writes (taken self.old) (taken self.new) result from.now }
        ensures passes { Passes faults IsSteady self.old self.new result };
}
