//! A disk that is read in pieces, each once.

ghost use Rattle.std.specs.Prelude.{◌≡◌, ◌+◌, ◌-◌, ◌<◌, ◌≤◌, ◌^◌, List, ℕ, length, take, drop, Some, IfOk, OnOk, IsOk, IsErr, IsTrue, slice_index_or};
ghost use Rattle.sysapi_base.specs.Outside.{Rises};
ghost use Rattle.journal_disk.specs.Reading.{IsFilled, IsPiece};

use crate::disk::Disk;
use crate::reading::read_all;
use sysapi_base::Failed;

const SIZE: usize = 4096;

/// The bytes of a disk from a place on, as far as they were read.
#[derive(Drop)]
pub(crate) struct Piece {
    pub(crate) from: u64,
    pub(crate) len: usize,
    pub(crate) bytes: [u8; SIZE],
}

impl Piece {
    ghost use Rattle.std.specs.Prelude.{◌≡◌, ◌+◌, ◌≤◌, IsTrue, take, drop};

    /// Nothing yet.
    pub(crate) fn new() -> Piece
        ensures { result.len ≡ 0 }
    {
        Piece {
            from: 0,
            len: 0,
            bytes: [0; SIZE],
        }
    }

    // Whether so many bytes from a place on are here.
    fn has(&self, at: u64, len: usize) -> bool
        ensures { IsTrue result → (self.now.from ≤ at) × (at + len ≤ self.now.from + self.now.len) }
    {
        at >= self.from
            && at - self.from <= self.len as u64
            && len as u64 <= self.len as u64 - (at - self.from)
    }
}

/// As `read_all`, from the piece where it has the bytes. Else the piece that begins there is read first.
pub(crate) fn look<D: Disk>(
    disk: &mut D,
    piece: &mut Piece,
    at: u64,
    into: &mut [u8],
) -> Result<bool, Failed>
    requires fits { at + length into.old < 2 ^ 63 }
    requires holds { IsPiece (D.reading disk.old) piece.old.from piece.old.len piece.old.bytes }
    ensures holds { OnOk result (IsPiece (D.reading disk.new) piece.new.from piece.new.len piece.new.bytes) }
    ensures bytes { (b : List ℕ) → D.reading disk.old ≡ Some b → IfOk result (IsFilled at b into.new) }
    ensures fits { (i : ℕ) → slice_index_or into.new i 0 < 256 }
    ensures same { D.reading disk.new ≡ D.reading disk.old }
    ensures crash { (c : List ℕ) → D.images disk.new c → D.images disk.old c }
    ensures moment { D.moment disk.new ≡ D.moment disk.old }
    ensures moments { (t : ℕ) (c : List ℕ) → D.images_since disk.new t c → D.images_since disk.old t c }
    ensures later { D.faults disk.old ≤ D.faults disk.new }
    ensures failed { IsErr result → Rises (D.faults disk.old) (D.faults disk.new) }
    ensures succeeds { D.IsSteady disk.old → IsOk result }
    ensures steady { D.IsSteady disk.old → D.IsSteady disk.new × (D.faults disk.new ≡ D.faults disk.old) }
{
    if piece.has(at, into.len()) {
        copy(piece, at, into);
        return Ok(true);
    }
    refill(disk, piece, at)?;
    if piece.has(at, into.len()) {
        copy(piece, at, into);
        return Ok(true);
    }
    read_all(disk, at, into)
}

// The bytes that are here.
fn copy(piece: &Piece, at: u64, into: &mut [u8])
    requires from { piece.now.from ≤ at }
    requires within { at + length into.old ≤ piece.now.from + piece.now.len }
    requires size { piece.now.len ≤ length piece.now.bytes }
    ensures items { into.new ≡ take (length into.old) (drop (at - piece.now.from) piece.now.bytes) }
    ensures fits { (i : ℕ) → slice_index_or into.new i 0 < 256 }
{
    let start = (at - piece.from) as usize;
    let end = start + into.len();
    into.copy_from_slice(&piece.bytes[start..end]);
}

// One read of the disk from a place on.
fn refill<D: Disk>(disk: &mut D, piece: &mut Piece, at: u64) -> Result<(), Failed>
    ensures holds { OnOk result (IsPiece (D.reading disk.new) piece.new.from piece.new.len piece.new.bytes) }
    ensures same { D.reading disk.new ≡ D.reading disk.old }
    ensures crash { (c : List ℕ) → D.images disk.new c → D.images disk.old c }
    ensures moment { D.moment disk.new ≡ D.moment disk.old }
    ensures moments { (t : ℕ) (c : List ℕ) → D.images_since disk.new t c → D.images_since disk.old t c }
    ensures later { D.faults disk.old ≤ D.faults disk.new }
    ensures failed { IsErr result → Rises (D.faults disk.old) (D.faults disk.new) }
    ensures succeeds { D.IsSteady disk.old → IsOk result }
    ensures steady { D.IsSteady disk.old → D.IsSteady disk.new × (D.faults disk.new ≡ D.faults disk.old) }
{
    let n = disk.read(at, &mut piece.bytes)?;
    piece.from = at;
    piece.len = n;
    Ok(())
}
