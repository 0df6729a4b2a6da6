//! How a journal comes to be: made on a disk, or opened from one.

ghost use Rattle.std.specs.Prelude.{◌≡◌, ◌<◌, ◌≤◌, ◌^◌, ℕ, false, List, [], ◌∷◌, ◌++◌, length, Some, IfOk, IfErr, OnOk, IsOk, IsErr};
ghost use Rattle.sysapi_base.specs.Outside.{Rises};
ghost use Rattle.journal_disk.specs.Disk.{Keeps, Tells, LeavesOnly};
ghost use Rattle.journal_disk.specs.Format.{Begins, header, HasRecords};

use super::Journal;
use crate::disk::Disk;
use crate::fault::{JournalFault, JournalOpen};
use crate::gate::put_text;
use crate::opening::find;
use crate::text::empty_text;
use std::alloc::Global;
use sysapi_base::Failed;

impl<D: Disk> Journal<D> {
    ghost use Rattle.journal_disk.specs.Opening.{IsFaultOf};
    ghost use Rattle.journal_disk.specs.Journal.{told};
    ghost use Rattle.journal_disk.specs.Opened.{OnDisk, OpensBy};

    /// Makes an empty journal, whatever stood on the disk. The repository's number is below 2^48, and the room from 17 to 2^36 bytes.
    /// `Fault` comes only where a call of the disk failed, and no other error comes. A crash within this call leaves a disk of which
    /// nothing is said. At `Ok` the bytes are sound and have no record, where the disk tells them. It tells none where it told none
    /// before.
    pub fn create(
        alloc: Global,
        disk: D,
        repository: u64,
        room: u64,
    ) -> Result<Journal<D>, JournalOpen<D>>
        requires number { repository < 2 ^ 48 }
        requires least { 17 ≤ room }
        requires most { room ≤ 2 ^ 36 }
        ensures repository { IfOk result (λ j. j.repository ≡ repository) }
        ensures room { IfOk result (λ j. j.room ≡ room) }
        ensures used { IfOk result (λ j. j.used ≡ 17) }
        ensures places { IfOk result (λ j. j.places ≡ []) }
        ensures doubt { IfOk result (λ j. j.doubt ≡ false) }
        ensures images { IfOk result (λ j. (c : List ℕ) → D.images j.disk c → HasRecords repository [] c) }
        ensures tells { IfOk result (λ j. (b : List ℕ) → D.reading j.disk ≡ Some b → (told D.reading j ≡ Some []) × (17 ≤ length b)) }
        ensures records { IfOk result (λ j. (b : List ℕ) → D.reading j.disk ≡ Some b
            → (kept : List (List ℕ)) × (told D.reading j ≡ Some kept) × HasRecords j.repository kept b) }
        ensures told { OnDisk result (λ new. Tells (D.reading disk) (D.reading new)) }
        ensures why { IfErr result (λ e. e.why ≡ JournalFault.Fault) }
        ensures opens { OpensBy D.faults D.IsSteady disk result }
    {
        let mut disk = disk;
        if write_empty(&mut disk, repository).is_err() {
            let why = JournalFault::Fault;
            return Err(JournalOpen { disk, why });
        }
        Ok(Journal {
            disk,
            repository,
            room,
            used: 17,
            places: Vec::new(alloc),
            buffer: Vec::new(alloc),
            has_doubt: false,
        })
    }

    /// Opens a journal, with a room of at most 2^36 bytes. It begins with a sync, and writes nothing: the disk reads as before on every
    /// answer. At `Ok` the records are those of its bytes, which are sound and of version 1, and so are those of each image. `Damaged`
    /// and `OtherVersion` come exactly where the bytes are so, and `Fault` only where a call of the disk failed. A room below what is
    /// used is no fault.
    pub fn open(alloc: Global, disk: D, room: u64) -> Result<Journal<D>, JournalOpen<D>>
        requires { room ≤ 2 ^ 36 }
        ensures room { IfOk result (λ j. j.room ≡ room) }
        ensures doubt { IfOk result (λ j. j.doubt ≡ false) }
        ensures records { IfOk result (λ j. (b : List ℕ) → D.reading j.disk ≡ Some b
            → (kept : List (List ℕ)) × (told D.reading j ≡ Some kept) × HasRecords j.repository kept b) }
        ensures images { IfOk result (λ j. (c : List ℕ) → D.images j.disk c → D.reading j.disk ≡ Some c) }
        ensures why { IfErr result (λ e. IsFaultOf (D.reading e.disk) e.why) }
        ensures same { OnDisk result (λ new. Keeps (D.reading disk) (D.reading new)) }
        ensures any_moment { OnDisk result (λ new. LeavesOnly D.moment D.images_since disk new (D.images disk)) }
        ensures opens { OpensBy D.faults D.IsSteady disk result }
    {
        let mut disk = disk;
        if disk.sync().is_err() {
            let why = JournalFault::Fault;
            return Err(JournalOpen { disk, why });
        }
        match find(alloc, &mut disk) {
            Err(why) => Err(JournalOpen { disk, why }),
            Ok(found) => Ok(Journal {
                disk,
                repository: found.repository,
                room,
                used: found.used,
                places: found.places,
                buffer: Vec::new(alloc),
                has_doubt: false,
            }),
        }
    }
}

// Cuts the disk to nothing, and writes and syncs the bytes of an empty journal.
fn write_empty<D: Disk>(disk: &mut D, repository: u64) -> Result<(), Failed>
    ensures ok { OnOk result ((c : List ℕ) → D.images disk.new c → Begins (header repository ++ 0 ∷ []) c) }
    ensures tells { Tells (D.reading disk.old) (D.reading disk.new) }
    ensures later { D.faults disk.old ≤ D.faults disk.new }
    ensures failed { IsErr result → Rises (D.faults disk.old) (D.faults disk.new) }
    ensures succeeds { D.IsSteady disk.old → IsOk result }
    ensures steady { D.IsSteady disk.old → D.IsSteady disk.new × (D.faults disk.new ≡ D.faults disk.old) }
{
    disk.cut(0)?;
    put_text(disk, 0, &empty_text(repository))
}
