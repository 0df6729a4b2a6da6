//! Every prefix of a journal, and every change of one byte.

use crate::{Journal, JournalFault, MemoryDisk};
use std::alloc::Global;
use std::test::Fail;
use sysapi_base::Memory;

// Three records of 1, 2 and 3 bytes: 17, and 6, 7 and 8.
const BYTES: [u8; 38] = [
    0x53, 0x59, 0x53, 0x41, 0x50, 0x49, 0x4a, 1, 0, 0, 0, 0, 0, 1, 0, 0, 1, 0, 0, 0, 1, 1, 1, 0, 0,
    0, 2, 1, 1, 1, 0, 0, 0, 3, 1, 0, 1, 0,
];

/// What bytes are as a journal's: sound with a count of records, or a fault.
#[derive(Clone, Copy, Debug, PartialEq, Eq)]
enum Judged {
    Sound { count: u64 },
    Faulty { why: JournalFault },
}

fn opened(alloc: Global, bytes: &[u8]) -> Result<Judged, Memory> {
    match Journal::open(alloc, MemoryDisk::of(alloc, bytes.to_vec(alloc)?)?, 1000) {
        Ok(journal) => Ok(Judged::Sound {
            count: journal.count(),
        }),
        Err(opened) => Ok(Judged::Faulty { why: opened.why }),
    }
}

fn damaged(place: usize) -> Judged {
    let why = JournalFault::Damaged {
        place: place as u64,
    };
    Judged::Faulty { why }
}

// The same by the format's words.
fn judge(bytes: &[u8]) -> Judged {
    if bytes.len() < 17 || bytes[..7] != b"SYSAPIJ"[..] || bytes[14] != 0 || bytes[15] != 0 {
        return damaged(0);
    }
    if bytes[7] != 1 {
        let why = JournalFault::OtherVersion { version: bytes[7] };
        return Judged::Faulty { why };
    }
    let mut place = 16usize;
    for count in 0..99 {
        if bytes.get(place) != Some(&1) {
            return Judged::Sound { count };
        }
        let Some(size) = length_behind(bytes, place) else {
            return damaged(place);
        };
        let next = place.saturating_add(5).saturating_add(size);
        if size > 1 << 27 || next >= bytes.len() {
            return damaged(place);
        }
        place = next;
    }
    damaged(place)
}

fn length_behind(bytes: &[u8], gate: usize) -> Option<usize> {
    let mut size = 0usize;
    for i in 1..5 {
        let byte = bytes.get(gate.saturating_add(i))?;
        size = size.saturating_mul(256).saturating_add(*byte as usize);
    }
    Some(size)
}

#[test]
fn a_whole_journal_has_three_records(rt: HostRuntime) -> Result<(), Fail> {
    assert_eq!(rt; opened(rt.alloc(), &BYTES)?, Judged::Sound { count: 3 });
    Ok(())
}

#[test]
fn each_prefix_is_judged_by_the_format(rt: HostRuntime) -> Result<(), Fail> {
    for len in 0..BYTES.len() {
        let want = judge(&BYTES[..len]);
        assert_eq!(rt; opened(rt.alloc(), &BYTES[..len])?, want);
    }
    // The gates stand at 16, 22, 29 and 37: each shorter disk ends within a record that a gate opens.
    assert_eq!(rt; judge(&BYTES[..16]), damaged(0));
    assert_eq!(rt; judge(&BYTES[..22]), damaged(16));
    assert_eq!(rt; judge(&BYTES[..29]), damaged(22));
    assert_eq!(rt; judge(&BYTES[..37]), damaged(29));
    Ok(())
}

#[test]
fn each_change_of_a_byte_is_judged_by_the_format(rt: HostRuntime) -> Result<(), Fail> {
    for place in 0..BYTES.len() {
        for byte in 0..=255 {
            let mut bytes = BYTES;
            bytes[place] = byte;
            assert_eq!(rt; opened(rt.alloc(), &bytes)?, judge(&bytes));
        }
    }
    Ok(())
}
