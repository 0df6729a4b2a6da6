//! What stands on a disk that is opened. Nothing is written.

ghost use Rattle.std.specs.Prelude.{◌≡◌, ◌↔◌, ◌+◌, ◌<◌, ◌≤◌, ◌^◌, List, [], ◌∷◌, ◌++◌, ℕ, length, Some, IfOk, IfErr, IfSome, OnOk, IsOk, IsErr, IsErrOf, IsTrue};
ghost use Rattle.sysapi_base.specs.Outside.{Rises};
ghost use Rattle.journal_disk.specs.Opening.{IsFaultOf, IsHead};
ghost use Rattle.journal_disk.specs.Reading.{IsPiece};
ghost use Rattle.journal_disk.specs.Finding.{NextIs, IsFound, number_in};
ghost use Rattle.journal_disk.specs.Format.{Begins, header};

use crate::disk::Disk;
use crate::fault::JournalFault;
use crate::piece::{Piece, look};
use crate::reading::read_all;
use crate::text::{OPEN, TEXT, VERSION};
use std::alloc::Global;
use sysapi_base::Failed;

// No record is longer.
const LONGEST: u32 = 1 << 27;

// No gate is opened from this place on.
const LIMIT: u64 = 1 << 36;

/// The length of the record behind the gate at a place, and the gate after it. `None` where it is too long or doesn't fit.
fn next_record<D: Disk>(
    disk: &mut D,
    piece: &mut Piece,
    place: u64,
) -> Result<Option<(u64, u8)>, Failed>
    requires low { place < 2 ^ 37 }
    requires holds { IsPiece (D.reading disk.old) piece.old.from piece.old.len piece.old.bytes }
    ensures holds { OnOk result (IsPiece (D.reading disk.new) piece.new.from piece.new.len piece.new.bytes) }
    ensures next { (b : List ℕ) → D.reading disk.old ≡ Some b → IfOk result (NextIs place b) }
    ensures short { IfOk result (λ next. IfSome next (λ n. n.0 ≤ 2 ^ 27)) }
    ensures same { D.reading disk.new ≡ D.reading disk.old }
    ensures crash { (c : List ℕ) → D.images disk.new c → D.images disk.old c }
    ensures moment { D.moment disk.new ≡ D.moment disk.old }
    ensures moments { (t : ℕ) (c : List ℕ) → D.images_since disk.new t c → D.images_since disk.old t c }
    ensures later { D.faults disk.old ≤ D.faults disk.new }
    ensures failed { IsErr result → Rises (D.faults disk.old) (D.faults disk.new) }
    ensures succeeds { D.IsSteady disk.old → IsOk result }
    ensures steady { D.IsSteady disk.old → D.IsSteady disk.new × (D.faults disk.new ≡ D.faults disk.old) }
{
    let mut size = [0; 4];
    if !look(disk, piece, place + 1, &mut size)? {
        return Ok(None);
    }
    let len = u32::from_be_bytes(size);
    if len > LONGEST {
        return Ok(None);
    }
    let mut gate = [0; 1];
    if !look(disk, piece, place + 5 + len as u64, &mut gate)? {
        return Ok(None);
    }
    Ok(Some((len as u64, gate[0])))
}

/// The repository's number and the first gate.
fn read_head<D: Disk>(disk: &mut D) -> Result<(u64, u8), JournalFault>
    ensures head { (b : List ℕ) → D.reading disk.old ≡ Some b → IfOk result (λ h. Begins (header h.0 ++ h.1 ∷ []) b) }
    ensures number { IfOk result (λ h. h.0 < 2 ^ 48) }
    ensures why { IfErr result (IsFaultOf (D.reading disk.old)) }
    ensures same { D.reading disk.new ≡ D.reading disk.old }
    ensures crash { (c : List ℕ) → D.images disk.new c → D.images disk.old c }
    ensures moment { D.moment disk.new ≡ D.moment disk.old }
    ensures moments { (t : ℕ) (c : List ℕ) → D.images_since disk.new t c → D.images_since disk.old t c }
    ensures later { D.faults disk.old ≤ D.faults disk.new }
    ensures failed { IsErrOf result JournalFault.Fault → Rises (D.faults disk.old) (D.faults disk.new) }
    ensures no_fault { D.IsSteady disk.old → IsErrOf result JournalFault.Fault → ⊥ }
    ensures steady { D.IsSteady disk.old → D.IsSteady disk.new × (D.faults disk.new ≡ D.faults disk.old) }
{
    let mut head = [0; 17];
    let Ok(whole) = read_all(disk, 0, &mut head) else {
        return Err(JournalFault::Fault);
    };
    if !whole {
        return Err(JournalFault::Damaged { place: 0 });
    }
    if !is_head(&head) {
        return Err(JournalFault::Damaged { place: 0 });
    }
    let version = head[7];
    if version != VERSION {
        return Err(JournalFault::OtherVersion { version });
    }
    Ok((number_of(&head), head[16]))
}

fn is_head(head: &[u8; 17]) -> bool
    ensures { IsTrue result ↔ IsHead head.now }
{
    head[..7] == TEXT[..] && head[14] == 0 && head[15] == 0
}

#[tactic(auto, unfolding(crate::specs::Finding::number_in))]
fn number_of(head: &[u8; 17]) -> u64
    ensures bound { result < 2 ^ 48 }
    ensures value { result ≡ number_in head.now }
{
    u64::from_be_bytes([
        0, 0, head[8], head[9], head[10], head[11], head[12], head[13],
    ])
}

/// What stands on a disk.
#[derive(Drop)]
pub(crate) struct Found {
    pub(crate) repository: u64,
    pub(crate) used: u64,
    pub(crate) places: Vec<u64>,
}

/// Goes from gate to gate, and keeps the places of those that are open.
pub(crate) fn find<D: Disk>(alloc: Global, disk: &mut D) -> Result<Found, JournalFault>
    ensures found { IfOk result (λ f. IsFound (D.reading disk.old) f.repository f.used f.places.items) }
    ensures why { IfErr result (IsFaultOf (D.reading disk.old)) }
    ensures same { D.reading disk.new ≡ D.reading disk.old }
    ensures crash { (c : List ℕ) → D.images disk.new c → D.images disk.old c }
    ensures moment { D.moment disk.new ≡ D.moment disk.old }
    ensures moments { (t : ℕ) (c : List ℕ) → D.images_since disk.new t c → D.images_since disk.old t c }
    ensures later { D.faults disk.old ≤ D.faults disk.new }
    ensures failed { IsErrOf result JournalFault.Fault → Rises (D.faults disk.old) (D.faults disk.new) }
    ensures no_fault { D.IsSteady disk.old → IsErrOf result JournalFault.Fault → ⊥ }
    ensures steady { D.IsSteady disk.old → D.IsSteady disk.new × (D.faults disk.new ≡ D.faults disk.old) }
{
    let (repository, first) = read_head(disk)?;
    let mut places = Vec::new(alloc);
    let mut piece = Piece::new();
    let mut place = 16;
    let mut gate = first;
    'records: while gate == OPEN {
        if place >= LIMIT {
            return Err(JournalFault::Damaged { place });
        }
        let Some((len, next)) = next_record(disk, &mut piece, place)? else {
            return Err(JournalFault::Damaged { place });
        };
        places.push(place)?;
        place += 5 + len;
        gate = next;
    }
    Ok(Found {
        repository,
        used: place + 1,
        places,
    })
}
