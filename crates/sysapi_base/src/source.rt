ghost use Rattle.std.specs.Prelude.{◌≤◌, ℕ, List, Option, length, IfOk};
ghost use Rattle.std.specs.Io.KnownBytes.{ReadConsumes};
ghost use Rattle.sysapi_base.specs.Outside.{Passes};

use crate::error::Failed;

/// Where bytes come from.
pub trait Source {
    /// The bytes that reads will give from here on, where they are told.
    ghost left: { Self → Option (List ℕ) };

    /// How often a call has failed.
    ghost faults: { Self → ℕ };

    /// No call will fail from here on.
    ghost IsSteady: { Self → Type 0 };

    /// Moves the next bytes into the slice, and answers how many. It is 0 for a slice that isn't empty only at the end.
    /// After `Failed` no byte was moved.
    fn read(&mut self, into: &mut [u8]) -> Result<usize, Failed>
        ensures bound { IfOk result (λ n. n ≤ length into.new) }
        ensures bytes { ReadConsumes (left self.old) (left self.new) result into.new }
        ensures passes { Passes faults IsSteady self.old self.new result };
}
