//! A journal and a keeper in memory after the same calls.

use super::{Kept, has_record, keep, place_of, record_of};
use crate::{Disk, Journal, JournalFault, Keeper, MemoryDisk, MemoryKeeper, VolatileDisk};
use std::alloc::Global;
use std::test::Fail;
use sysapi_base::{Failed, Memory};

// An entry of 16 bytes, and the journal of repository 1 that has it alone.
const ENTRY: [u8; 16] = [
    0, 0, 0, 0xdc, 0x6a, 0xcf, 0xac, 0, 1, 1, 0, 0, 0, 1, 0x50, 0,
];

const BYTES: [u8; 38] = [
    0x53, 0x59, 0x53, 0x41, 0x50, 0x49, 0x4a, 1, 0, 0, 0, 0, 0, 1, 0, 0, 1, 0, 0, 0, 0x10, 0, 0, 0,
    0xdc, 0x6a, 0xcf, 0xac, 0, 1, 1, 0, 0, 0, 1, 0x50, 0, 0,
];

// The count, what is used, and whether the first record is the entry.
fn told<K: Keeper>(alloc: Global, keeper: &mut K) -> (u64, u64, bool) {
    let is_entry = has_record(alloc, keeper, 0, &ENTRY);
    (keeper.count(), keeper.used(), is_entry)
}

// Why a journal of these bytes isn't opened.
fn fault_of(alloc: Global, bytes: Vec<u8>) -> Result<Option<JournalFault>, Memory> {
    match Journal::open(alloc, MemoryDisk::of(alloc, bytes)?, 1000) {
        Ok(_) => Ok(None),
        Err(opened) => Ok(Some(opened.why)),
    }
}

#[test]
fn a_journal_of_one_entry(rt: HostRuntime) -> Result<(), Fail> {
    let alloc = rt.alloc();
    let Ok(mut journal) = Journal::create(alloc, MemoryDisk::new(alloc), 1, 1000) else {
        return Err(Fail::from("it is created"));
    };
    assert_eq!(rt; told(alloc, &mut journal), (0, 17, false));
    assert_eq!(rt; keep(&mut journal, &ENTRY)?, Kept::Done);
    assert_eq!(rt; told(alloc, &mut journal), (1, 38, true));
    let disk = journal.into_disk();
    assert_eq!(rt; disk.bytes(), Some(BYTES.as_slice()));
    let Ok(mut again) = Journal::open(alloc, disk, 1000) else {
        return Err(Fail::from("it is opened"));
    };
    assert_eq!(rt; told(alloc, &mut again), (1, 38, true));
    assert_eq!(rt;
        (again.repository(), again.room(), again.has_doubt()),
        (1, 1000, false)
    );
    assert_eq!(rt; place_of(&again, 0), Some(16));
    Ok(())
}

#[test]
fn a_journal_that_lives_with_its_program(rt: HostRuntime) -> Result<(), Fail> {
    let alloc = rt.alloc();
    let Ok(mut journal) = Journal::create(alloc, VolatileDisk::new(alloc), 1, 1000) else {
        return Err(Fail::from("it is created"));
    };
    assert_eq!(rt; keep(&mut journal, &ENTRY)?, Kept::Done);
    assert_eq!(rt; told(alloc, &mut journal), (1, 38, true));
    let Ok(mut again) = Journal::open(alloc, journal.into_disk(), 1000) else {
        return Err(Fail::from("it is opened"));
    };
    assert_eq!(rt; told(alloc, &mut again), (1, 38, true));
    let mut disk = again.into_disk();
    assert_eq!(rt; disk.cut(2), Ok(()));
    assert_eq!(rt; disk.write_at(4, &[7]), Ok(()));
    assert_eq!(rt; disk.len(), Ok(5));
    let mut bytes = [1; 6];
    assert_eq!(rt; disk.read(0, &mut bytes), Ok(5));
    assert_eq!(rt; bytes, [0x53, 0x59, 0, 0, 7, 1]);
    Ok(())
}

#[test]
fn a_keeper_in_memory_of_one_entry(rt: HostRuntime) -> Result<(), Fail> {
    let alloc = rt.alloc();
    let mut keeper = MemoryKeeper::new(alloc, 1, 1000);
    assert_eq!(rt; told(alloc, &mut keeper), (0, 17, false));
    assert_eq!(rt; keep(&mut keeper, &ENTRY)?, Kept::Done);
    assert_eq!(rt; told(alloc, &mut keeper), (1, 38, true));
    assert_eq!(rt; (keeper.repository(), place_of(&keeper, 0)), (1, Some(0)));
    Ok(())
}

#[test]
fn a_keeper_in_memory_fails_where_it_is_told_to(rt: HostRuntime) -> Result<(), Fail> {
    let alloc = rt.alloc();
    let calls = [0, 2].to_vec(alloc)?;
    let mut keeper = MemoryKeeper::new(alloc, 1, 1000).failing(calls);
    assert_eq!(rt; keep(&mut keeper, &ENTRY)?, Kept::Failed);
    assert_eq!(rt; keep(&mut keeper, &ENTRY)?, Kept::Done);
    assert_eq!(rt; record_of(alloc, &mut keeper, 0), None);
    assert_eq!(rt; told(alloc, &mut keeper), (1, 38, true));
    assert_eq!(rt; keeper.settle(), Ok::<(), Failed>(()));
    Ok(())
}

#[test]
fn a_record_is_kept_where_it_fits_to_the_byte(rt: HostRuntime) -> Result<(), Fail> {
    let alloc = rt.alloc();
    for (room, want) in [(38, Kept::Done), (37, Kept::Full)] {
        let Ok(mut journal) = Journal::create(alloc, MemoryDisk::new(alloc), 1, room) else {
            return Err(Fail::from("it is created"));
        };
        assert_eq!(rt; keep(&mut journal, &ENTRY)?, want);
    }
    Ok(())
}

#[test]
fn a_journal_with_a_wrong_header(rt: HostRuntime) -> Result<(), Fail> {
    let alloc = rt.alloc();
    let damaged = Some(JournalFault::Damaged { place: 0 });
    assert_eq!(rt; fault_of(alloc, BYTES[..16].to_vec(alloc)?)?, damaged);
    let mut bytes = BYTES;
    bytes[7] = 9;
    let other = Some(JournalFault::OtherVersion { version: 9 });
    assert_eq!(rt; fault_of(alloc, bytes.to_vec(alloc)?)?, other);
    Ok(())
}

#[test]
fn a_disk_that_fails_is_given_back(rt: HostRuntime) -> Result<(), Fail> {
    let alloc = rt.alloc();
    // A sync, the header, and all behind it in one piece.
    for call in 0..3 {
        let disk = MemoryDisk::of(alloc, BYTES.to_vec(alloc)?)?.failing([call].to_vec(alloc)?);
        let Err(opened) = Journal::open(alloc, disk, 1000) else {
            return Err(Fail::from("it fails"));
        };
        assert_eq!(rt; opened.why, JournalFault::Fault);
        assert_eq!(rt; opened.disk.bytes(), Some(BYTES.as_slice()));
    }
    Ok(())
}
