ghost use Rattle.std.specs.Prelude.{◌≡◌, ℕ, ◌≤◌, List, Option};
ghost use Rattle.timeline.specs.Values.{IsListAt};
ghost use Rattle.timeline.specs.Later.{Change, after, AreAfter};

/// Changes from later points on leave the values and the lists at a point, and at each one before it, as they were.
pub fn is_stable<T>()
    ensures values { (values : ℕ → ℕ → Option T) (later : List (Change T)) (n : ℕ) → AreAfter n later
        → (q m : ℕ) → m ≤ n → after values later q m ≡ values q m }
    ensures lists { (values : ℕ → ℕ → Option T) (later : List (Change T)) (n : ℕ) → AreAfter n later
        → (m : ℕ) → m ≤ n → (ids now : List ℕ) → IsListAt values m ids → IsListAt (after values later) m now → now ≡ ids }
{}
