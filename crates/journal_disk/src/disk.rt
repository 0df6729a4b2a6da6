ghost use Rattle.std.specs.Prelude.{◌≡◌, ◌≤◌, ℕ, List, length, Option, Some, IfOk, OnOk};
ghost use Rattle.sysapi_base.specs.Outside.{Passes};
ghost use Rattle.journal_disk.specs.Disk.{Torn, Cut, Follows, Keeps, Tells, Writes, Cuts, Durable, Reads, GoesOn, Stays};

use sysapi_base::Failed;

/// A disk: what a read gives, and what a crash may leave.
///
/// Between two syncs each written range, and all past the least end since the last sync, may hold any bytes after a crash, and the
/// disk may end anywhere from that end on. Other bytes stay. After a sync that is done a crash leaves what a read gives. A write
/// that failed counts as written. A disk may tell nothing of its content, as a real file; then nothing is said of its images.
///
/// No image is forgotten: while the reading is told, what a crash at some moment since an earlier one may have left only grows.
pub trait Disk {
    /// What a read gives, where it is told.
    ghost reading: { Self → Option (List ℕ) };

    /// What a crash now may leave.
    ghost images: { Self → List ℕ → Type 0 };

    /// The moment, as a number that never falls.
    ghost moment: { Self → ℕ };

    /// What a crash at some moment from that one on may have left. While the reading is told, no call takes an image away.
    ghost images_since: { Self → ℕ → List ℕ → Type 0 };

    /// How often a call has failed.
    ghost faults: { Self → ℕ };

    /// No call will fail from here on.
    ghost IsSteady: { Self → Type 0 };

    /// The length in bytes.
    fn len(&mut self) -> Result<u64, Failed>
        ensures len { (b : List ℕ) → reading self.old ≡ Some b → IfOk result (λ n. n ≡ length b) }
        ensures same { reading self.new ≡ reading self.old }
        ensures stays { Stays moment images_since images self.old self.new }
        ensures passes { Passes faults IsSteady self.old self.new result };

    /// Moves bytes from a place on into the slice, and answers how many: none only at the end or for an empty slice.
    fn read(&mut self, at: u64, into: &mut [u8]) -> Result<usize, Failed>
        ensures bound { IfOk result (λ n. n ≤ length into.new) }
        ensures bytes { (b : List ℕ) → reading self.old ≡ Some b → IfOk result (λ n. Reads at n b into.new) }
        ensures same { reading self.new ≡ reading self.old }
        ensures stays { Stays moment images_since images self.old self.new }
        ensures passes { Passes faults IsSteady self.old self.new result };

    /// Writes over what is there, and past the end. Until the next sync a crash may leave any bytes in the range.
    fn write_at(&mut self, at: u64, from: &[u8]) -> Result<(), Failed>
        ensures tells { Tells (reading self.old) (reading self.new) }
        ensures written { OnOk result (Writes at from.now (reading self.old) (reading self.new)) }
        ensures crash { Follows (Torn at (length from.now)) (images self.old) (images self.new) }
        ensures goes_on { GoesOn reading moment images_since images self.old self.new }
        ensures passes { Passes faults IsSteady self.old self.new result };

    /// Cuts the disk to a length. Until the next sync a crash may leave anything from there on.
    fn cut(&mut self, len: u64) -> Result<(), Failed>
        ensures tells { Tells (reading self.old) (reading self.new) }
        ensures cut { OnOk result (Cuts len (reading self.old) (reading self.new)) }
        ensures crash { Follows (Cut len) (images self.old) (images self.new) }
        ensures goes_on { GoesOn reading moment images_since images self.old self.new }
        ensures passes { Passes faults IsSteady self.old self.new result };

    /// At `Ok` a crash leaves what a read gives. The reading stays either way.
    fn sync(&mut self) -> Result<(), Failed>
        ensures durable { OnOk result (Durable (reading self.new) (images self.new)) }
        ensures keeps { Keeps (reading self.old) (reading self.new) }
        ensures crash { (c : List ℕ) → images self.new c → images self.old c }
        ensures goes_on { GoesOn reading moment images_since images self.old self.new }
        ensures passes { Passes faults IsSteady self.old self.new result };

    /// The disk as it reads is one of its images.
    ghost reads_as_image: { (disk : Self) (b : List ℕ) → reading disk ≡ Some b → images disk b };

    /// This moment is one of those since an earlier one.
    ghost counts_now: { (disk : Self) (t : ℕ) (c : List ℕ) → t ≤ moment disk → images disk c → images_since disk t c };

    /// Since this moment there is no other.
    ghost only_now: { (disk : Self) (c : List ℕ) → images_since disk (moment disk) c → images disk c };
}
