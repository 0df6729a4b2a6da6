//! The device calls of a journal: text behind what is known, and a gate opened or closed. Each is a write and a sync.

ghost use Rattle.std.specs.Prelude.{◌≡◌, ◌≤◌, ℕ, List, [], ◌∷◌, ◌++◌, length, OnOk, IsOk, IsErr};
ghost use Rattle.sysapi_base.specs.Outside.{Rises};
ghost use Rattle.journal_disk.specs.Disk.{Tells, LeavesOnly};
ghost use Rattle.journal_disk.specs.Format.{Begins, Gated};

use crate::disk::Disk;
use sysapi_base::Failed;

/// Writes a gate over the one at a place, and syncs. At each moment what stands before and behind it stays.
pub(crate) fn set_gate<D: Disk>(disk: &mut D, place: u64, gate: u8) -> Result<(), Failed>
    ensures ok { OnOk result ((front : List ℕ) (behind : List ℕ) → place ≡ length front
        → ((c : List ℕ) → D.images disk.old c → Gated front behind c)
        → (c : List ℕ) → D.images disk.new c → Begins (front ++ gate ∷ behind) c) }
    ensures any_moment { (front : List ℕ) (behind : List ℕ) → place ≡ length front
        → ((c : List ℕ) → D.images disk.old c → Gated front behind c)
        → LeavesOnly D.moment D.images_since disk.old disk.new (Gated front behind) }
    ensures tells { Tells (D.reading disk.old) (D.reading disk.new) }
    ensures later { D.faults disk.old ≤ D.faults disk.new }
    ensures failed { IsErr result → Rises (D.faults disk.old) (D.faults disk.new) }
    ensures succeeds { D.IsSteady disk.old → IsOk result }
    ensures steady { D.IsSteady disk.old → D.IsSteady disk.new × (D.faults disk.new ≡ D.faults disk.old) }
{
    disk.write_at(place, &[gate])?;
    disk.sync()
}

/// Writes text at a place, and syncs. At each moment what stands before it stays.
pub(crate) fn put_text<D: Disk>(disk: &mut D, place: u64, text: &[u8]) -> Result<(), Failed>
    ensures ok { OnOk result ((front : List ℕ) → place ≡ length front
        → ((c : List ℕ) → D.images disk.old c → Begins front c)
        → (c : List ℕ) → D.images disk.new c → Begins (front ++ text.now) c) }
    ensures any_moment { (front : List ℕ) → place ≡ length front
        → ((c : List ℕ) → D.images disk.old c → Begins front c)
        → LeavesOnly D.moment D.images_since disk.old disk.new (Begins front) }
    ensures tells { Tells (D.reading disk.old) (D.reading disk.new) }
    ensures later { D.faults disk.old ≤ D.faults disk.new }
    ensures failed { IsErr result → Rises (D.faults disk.old) (D.faults disk.new) }
    ensures succeeds { D.IsSteady disk.old → IsOk result }
    ensures steady { D.IsSteady disk.old → D.IsSteady disk.new × (D.faults disk.new ≡ D.faults disk.old) }
{
    disk.write_at(place, text)?;
    disk.sync()
}
