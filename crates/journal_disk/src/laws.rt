//! Bytes are a journal's in one way alone.

ghost use Rattle.std.specs.Prelude.{◌≡◌, ℕ, List, [], ◌∷◌};
ghost use Rattle.journal_disk.specs.Format.{HasRecords, used_by, places_from};
ghost use Rattle.journal_disk.specs.Example.{entry, journal, with_byte};
ghost use Rattle.journal_disk.specs.Opening.{IsDamagedAt, IsOtherVersion};

/// Sound bytes have one list of records, and one repository.
pub fn read_once()
    ensures records { (n m : ℕ) (a b : List (List ℕ)) (bytes : List ℕ) → HasRecords n a bytes → HasRecords m b bytes → a ≡ b }
    ensures repository { (n m : ℕ) (a b : List (List ℕ)) (bytes : List ℕ) → HasRecords n a bytes → HasRecords m b bytes → n ≡ m }
{}

/// No bytes are sound and damaged, or sound and another version's, or damaged and another version's, and they are damaged at one place
/// at most, and of one version. So what `Journal::open` answers of its bytes comes exactly where they are so.
pub fn judged_once()
    ensures sound { (n place : ℕ) (rs : List (List ℕ)) (bytes : List ℕ) → HasRecords n rs bytes → IsDamagedAt place bytes → ⊥ }
    ensures version { (n version : ℕ) (rs : List (List ℕ)) (bytes : List ℕ) → HasRecords n rs bytes → IsOtherVersion version bytes → ⊥ }
    ensures damaged { (place version : ℕ) (bytes : List ℕ) → IsDamagedAt place bytes → IsOtherVersion version bytes → ⊥ }
    ensures place { (p q : ℕ) (bytes : List ℕ) → IsDamagedAt p bytes → IsDamagedAt q bytes → p ≡ q }
    ensures one_version { (v w : ℕ) (bytes : List ℕ) → IsOtherVersion v bytes → IsOtherVersion w bytes → v ≡ w }
{}

/// The 38 bytes of a journal with one record of 16 bytes, of repository 1: that record is read, 38 bytes are used, and its gate stands
/// at 16. With byte 7 set to 9 it is another version's, with byte 14 set to 1 it is damaged at 0, and with byte 20 set to 17, so that
/// the record is one longer, it is damaged at 16.
pub fn first_journal()
    ensures records { HasRecords 1 (entry ∷ []) journal }
    ensures used { used_by (entry ∷ []) ≡ 38 }
    ensures places { places_from 16 (entry ∷ []) ≡ 16 ∷ [] }
    ensures version { IsOtherVersion 9 (with_byte 7 9) }
    ensures head { IsDamagedAt 0 (with_byte 14 1) }
    ensures gate { IsDamagedAt 16 (with_byte 20 17) }
{}
