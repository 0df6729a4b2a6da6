//! Laws of what commands draw. Each is the contract of a function that does nothing.

ghost use Rattle.std.specs.Prelude.{◌≡◌, ◌<◌, ◌^◌, ℕ, Bool};
ghost use Rattle.api_records.specs.Changes.{free_from, IsLeast};

/// A serial that is drawn for an identity is the least one whose id is unknown.
pub fn draws_the_least()
    ensures { (r : ℕ) (known : ℕ → Bool) (n : ℕ) → n < 2 ^ 62 → free_from r known n < 2 ^ 62 → IsLeast r known n (free_from r known n) }
{}
