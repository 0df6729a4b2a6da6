ghost use Rattle.std.specs.Prelude.{◌≡◌, ◌+◌, ◌*◌, ◌<◌, ◌≤◌, ◌^◌, ℕ, false, List, [], ◌∷◌, length, Option, Some, None, OnOk, OnErr, IfOk, slice_index_or, IfSome, if◌then◌else◌, is_ok, ◌++◌};
ghost use Rattle.sysapi_base.specs.Outside.{Passes, Grows};
ghost use Rattle.journal_disk.specs.Disk.{LeavesOnly};
ghost use Rattle.journal_disk.specs.Faults.{Counts};
ghost use Rattle.journal_disk.specs.Keeper.{Figures, SameFigures, OneMore, NoMore, SettledTo, KeepsPlaces, IsOldOrMore, IsKeptWith};

use crate::fault::RecordError;
use std::alloc::Global;
use sysapi_base::{Failed, Memory};

/// A keeper of records, each a list of bytes: what every layer above a journal knows of it.
///
/// It tells its figures always, and its records where it can. It may tell what a crash may leave of it, as a list of records or as
/// none where that isn't sound.
pub trait Keeper {
    /// What every keeper tells.
    ghost figures: { Self → Figures };

    /// How much `used` grows by a record of a length. It never changes.
    ghost costs: { ℕ → ℕ };

    /// The number by which each record is named in a report.
    ghost places: { Self → ℕ → ℕ };

    /// The kept records, where they are told.
    ghost records: { Self → Option (List (List ℕ)) };

    /// The bytes behind the records, where they are told.
    ghost reading: { Self → Option (List ℕ) };

    /// The record in doubt, where there is one and it is told.
    ghost doubted: { Self → Option (List ℕ) };

    /// What a crash now may leave.
    ghost images: { Self → Option (List (List ℕ)) → Type 0 };

    /// The moment, as a number that never falls.
    ghost moment: { Self → ℕ };

    /// What a crash at some moment from that one on may have left.
    ghost images_since: { Self → ℕ → Option (List (List ℕ)) → Type 0 };

    /// How often a call has failed.
    ghost faults: { Self → ℕ };

    /// No call will fail from here on.
    ghost IsSteady: { Self → Type 0 };

    /// The repository's number.
    fn repository(&self) -> u64
        ensures value { result ≡ (figures self.now).repository }
        ensures bound { result < 2 ^ 48 };

    /// How many records are kept.
    fn count(&self) -> u64
        ensures value { result ≡ (figures self.now).count }
        ensures told { (kept : List (List ℕ)) → records self.now ≡ Some kept → result ≡ length kept }
        ensures below { result < (figures self.now).used }
        ensures bound { result < 2 ^ 36 };

    /// Whether a record is in doubt. Each image is sound, and has the kept records, or these and the one in doubt.
    fn has_doubt(&self) -> bool
        ensures value { result ≡ (figures self.now).doubt }
        ensures sound { (kept : List (List ℕ)) → records self.now ≡ Some kept
            → (image : Option (List (List ℕ))) → images self.now image → IsKeptWith kept (doubted self.now) image };

    /// How many bytes are used. A record in doubt doesn't count.
    fn used(&self) -> u64
        ensures value { result ≡ (figures self.now).used }
        ensures least { 17 ≤ result }
        ensures most { result ≤ 64 + (2 ^ 27 + 64) * (figures self.now).count };

    /// How many bytes may be used.
    fn room(&self) -> u64
        ensures value { result ≡ (figures self.now).room }
        ensures most { result ≤ 2 ^ 36 };

    /// The number by which a record is named in a report.
    fn place(&self, i: u64) -> u64
        requires { i < (figures self.now).count }
        ensures value { result ≡ places self.now i }
        ensures bound { result < 2 ^ 37 };

    /// A record, where it is told, and at most 2^27 bytes in any case. `Fault` comes only where a call failed. All stays.
    fn record(&mut self, alloc: Global, i: u64) -> Result<Vec<u8>, RecordError>
        requires { i < (figures self.old).count }
        ensures value { (kept : List (List ℕ)) → records self.old ≡ Some kept → IfOk result (λ v. v.items ≡ slice_index_or kept i []) }
        ensures size { IfOk result (λ v. length v.items ≤ 2 ^ 27) }
        ensures figures { figures self.new ≡ figures self.old }
        ensures places { KeepsPlaces (figures self.old).count (places self.old) (places self.new) }
        ensures records { records self.new ≡ records self.old }
        ensures reading { reading self.new ≡ reading self.old }
        ensures doubted { doubted self.new ≡ doubted self.old }
        ensures any_moment { LeavesOnly moment images_since self.old self.new (images self.old) }
        ensures counts { Counts faults IsSteady RecordError.Fault self.old self.new result };

    /// How much `used` grows by a record of this length, at most 2^27 bytes.
    fn cost(&self, len: u32) -> u64
        requires { len ≤ 2 ^ 27 }
        ensures value { result ≡ costs len }
        ensures most { result ≤ len + 64 };

    /// Makes the spare at least this length. All else stays.
    fn reserve(&mut self, len: u32) -> Result<(), Memory>
        requires { len ≤ 2 ^ 27 }
        ensures spare { OnOk result (len ≤ (figures self.new).spare) }
        ensures same { SameFigures (figures self.old) (figures self.new) }
        ensures places { KeepsPlaces (figures self.old).count (places self.old) (places self.new) }
        ensures records { records self.new ≡ records self.old }
        ensures reading { reading self.new ≡ reading self.old }
        ensures doubted { doubted self.new ≡ doubted self.old }
        ensures any_moment { LeavesOnly moment images_since self.old self.new (images self.old) }
        ensures no_fault { faults self.new ≡ faults self.old }
        ensures steady { IsSteady self.old → IsSteady self.new };

    /// Keeps one record more, of at least one byte and at most 2^27. After `Failed` it isn't kept, and may be in doubt. It takes no
    /// memory. At each moment a crash leaves the old records, or these and the new one.
    fn append(&mut self, bytes: &[u8]) -> Result<(), Failed>
        requires no_doubt { (figures self.old).doubt ≡ false }
        requires some { 0 < length bytes.now }
        requires size { length bytes.now ≤ 2 ^ 27 }
        requires spare { length bytes.now ≤ (figures self.old).spare }
        requires room { (figures self.old).used + costs (length bytes.now) ≤ (figures self.old).room }
        ensures records { Grows (records self.old) (records self.new) (if is_ok result then bytes.now ∷ [] else []) }
        ensures more { OnOk result (OneMore (costs (length bytes.now)) (figures self.old) (figures self.new)) }
        ensures no_more { OnErr result (NoMore (figures self.old) (figures self.new)) }
        ensures places { KeepsPlaces (figures self.old).count (places self.old) (places self.new) }
        ensures doubted { OnErr result (IfSome (doubted self.new) (λ r. r ≡ bytes.now)) }
        ensures any_moment { (kept : List (List ℕ)) → records self.old ≡ Some kept
            → LeavesOnly moment images_since self.old self.new (IsOldOrMore kept bytes.now) }
        ensures kept { OnOk result ((kept : List (List ℕ)) → records self.old ≡ Some kept
            → (image : Option (List (List ℕ))) → images self.new image → image ≡ Some (kept ++ bytes.now ∷ [])) }
        ensures passes { Passes faults IsSteady self.old self.new result };

    /// Leaves no doubt. After `Failed` the doubt stays. All else stays either way. It takes no memory. At each moment a crash leaves
    /// the kept records, or these and the one in doubt, and after `Ok` the kept ones.
    fn settle(&mut self) -> Result<(), Failed>
        ensures records { Grows (records self.old) (records self.new) [] }
        ensures same { SettledTo result (figures self.old) (figures self.new) }
        ensures places { KeepsPlaces (figures self.old).count (places self.old) (places self.new) }
        ensures doubted { IfSome (doubted self.new) (λ r. doubted self.old ≡ Some r) }
        ensures any_moment { (kept : List (List ℕ)) → records self.old ≡ Some kept
            → LeavesOnly moment images_since self.old self.new (IsKeptWith kept (doubted self.old)) }
        ensures kept { OnOk result ((kept : List (List ℕ)) → records self.old ≡ Some kept
            → (image : Option (List (List ℕ))) → images self.new image → image ≡ Some kept) }
        ensures passes { Passes faults IsSteady self.old self.new result };

    /// Without a doubt there is no record in doubt.
    ghost no_doubt: { (keeper : Self) → (figures keeper).doubt ≡ false → doubted keeper ≡ None };

    /// This moment is one of those since an earlier one.
    ghost counts_now: { (keeper : Self) (t : ℕ) (image : Option (List (List ℕ))) → t ≤ moment keeper → images keeper image → images_since keeper t image };

    /// Since this moment there is no other.
    ghost only_now: { (keeper : Self) (image : Option (List (List ℕ))) → images_since keeper (moment keeper) image → images keeper image };
}
