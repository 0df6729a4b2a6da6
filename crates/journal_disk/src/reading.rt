//! Reading a disk without changing it.

ghost use Rattle.std.specs.Prelude.{◌≡◌, ◌+◌, ◌<◌, ◌≤◌, ◌^◌, List, ℕ, length, take, drop, Some, IfOk, IsOk, IsErr, IsErrOf, slice_index_or};
ghost use Rattle.sysapi_base.specs.Outside.{Rises};
ghost use Rattle.journal_disk.specs.Reading.{IsFilled};

use crate::disk::Disk;
use crate::fault::RecordError;
use std::alloc::Global;
use sysapi_base::Failed;

/// Fills the slice with the bytes from a place on, and answers whether there are so many.
pub(crate) fn read_all<D: Disk>(disk: &mut D, at: u64, into: &mut [u8]) -> Result<bool, Failed>
    requires { at + length into.old < 2 ^ 63 }
    ensures bytes { (b : List ℕ) → D.reading disk.old ≡ Some b → IfOk result (IsFilled at b into.new) }
    ensures fits { (i : ℕ) → slice_index_or into.new i 0 < 256 }
    ensures same { D.reading disk.new ≡ D.reading disk.old }
    ensures crash { (c : List ℕ) → D.images disk.new c → D.images disk.old c }
    ensures moment { D.moment disk.new ≡ D.moment disk.old }
    ensures moments { (t : ℕ) (c : List ℕ) → D.images_since disk.new t c → D.images_since disk.old t c }
    ensures later { D.faults disk.old ≤ D.faults disk.new }
    ensures failed { IsErr result → Rises (D.faults disk.old) (D.faults disk.new) }
    ensures succeeds { D.IsSteady disk.old → IsOk result }
    ensures steady { D.IsSteady disk.old → D.IsSteady disk.new × (D.faults disk.new ≡ D.faults disk.old) }
{
    let mut filled = 0;
    while filled < into.len() {
        let n = disk.read(at + filled as u64, &mut into[filled..])?;
        if n == 0 {
            return Ok(false);
        }
        filled += n;
    }
    Ok(true)
}

/// So many bytes from a place on. A disk that doesn't tell its bytes, and has fewer there, counts as one for which no memory is found.
pub(crate) fn read_bytes<D: Disk>(
    alloc: Global,
    disk: &mut D,
    at: u64,
    len: usize,
) -> Result<Vec<u8>, RecordError>
    requires { at + len < 2 ^ 63 }
    ensures value { (b : List ℕ) → D.reading disk.old ≡ Some b → IfOk result (λ v. v.items ≡ take len (drop at b)) }
    ensures size { IfOk result (λ v. length v.items ≡ len) }
    ensures same { D.reading disk.new ≡ D.reading disk.old }
    ensures crash { (c : List ℕ) → D.images disk.new c → D.images disk.old c }
    ensures moment { D.moment disk.new ≡ D.moment disk.old }
    ensures moments { (t : ℕ) (c : List ℕ) → D.images_since disk.new t c → D.images_since disk.old t c }
    ensures later { D.faults disk.old ≤ D.faults disk.new }
    ensures failed { IsErrOf result RecordError.Fault → Rises (D.faults disk.old) (D.faults disk.new) }
    ensures no_fault { D.IsSteady disk.old → IsErrOf result RecordError.Fault → ⊥ }
    ensures steady { D.IsSteady disk.old → D.IsSteady disk.new × (D.faults disk.new ≡ D.faults disk.old) }
{
    let mut bytes = vec![in alloc; 0; len]?;
    let Ok(whole) = read_all(disk, at, &mut bytes) else {
        return Err(RecordError::Fault);
    };
    if !whole {
        return Err(RecordError::Memory);
    }
    Ok(bytes)
}
