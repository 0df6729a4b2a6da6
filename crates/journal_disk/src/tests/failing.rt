//! Each device call of an append fails in turn.

use super::{Kept, image_counts, keep};
use crate::{Journal, MemoryDisk};
use std::alloc::Global;
use std::test::Fail;
use sysapi_base::Memory;

const FIRST: [u8; 2] = [7, 7];

const SECOND: [u8; 1] = [8];

const THIRD: [u8; 3] = [1, 0, 1];

// The device calls of `create` and of two appends.
const BEFORE: u64 = 3 + 4 + 4;

/// What three commands answer over a journal with two records, and how many records the images have after each.
#[derive(Clone, Copy, Debug, PartialEq, Eq)]
struct Seen {
    answers: [Kept; 3],
    images: [[Option<u64>; 4]; 3],
}

// Writes the third record until it is kept, at most three times.
fn commands(alloc: Global, calls: &[u64]) -> Result<Option<Seen>, Memory> {
    let mut failing = Vec::new(alloc);
    for call in calls {
        failing.push(BEFORE + (*call).min(99) - 1)?;
    }
    let disk = MemoryDisk::new(alloc).failing(failing);
    let Ok(mut journal) = Journal::create(alloc, disk, 1, 1000) else {
        return Ok(None);
    };
    let one = keep(&mut journal, &FIRST)?;
    let two = keep(&mut journal, &SECOND)?;
    if one != Kept::Done || two != Kept::Done {
        return Ok(None);
    }
    let mut answers = [Kept::Done; 3];
    let mut images = [[None; 4]; 3];
    let mut is_kept = false;
    for i in 0..3 {
        if !is_kept {
            answers[i] = keep(&mut journal, &THIRD)?;
            is_kept = answers[i] == Kept::Done;
        }
        images[i] = image_counts(alloc, journal.disk(), &FIRST, &SECOND)?;
    }
    Ok(Some(Seen { answers, images }))
}

const TWO: [Option<u64>; 4] = [Some(2), Some(2), Some(2), Some(2)];

const THREE: [Option<u64>; 4] = [Some(3), Some(3), Some(3), Some(3)];

fn then(answers: [Kept; 3], images: [[Option<u64>; 4]; 3]) -> Option<Seen> {
    Some(Seen { answers, images })
}

#[test]
fn a_record_whose_bytes_fail_is_in_no_image(rt: HostRuntime) -> Result<(), Fail> {
    let alloc = rt.alloc();
    let want = then([Kept::Failed, Kept::Done, Kept::Done], [TWO, THREE, THREE]);
    assert_eq!(rt; commands(alloc, &[1])?, want);
    assert_eq!(rt; commands(alloc, &[2])?, want);
    Ok(())
}

#[test]
fn a_record_whose_gate_fails_is_in_doubt(rt: HostRuntime) -> Result<(), Fail> {
    let alloc = rt.alloc();
    // The gate's write failed: a read gives it closed, and a crash may leave any byte.
    let failed = [Some(2), Some(2), Some(3), Some(2)];
    let want = then(
        [Kept::Failed, Kept::Done, Kept::Done],
        [failed, THREE, THREE],
    );
    assert_eq!(rt; commands(alloc, &[3])?, want);
    // Its sync failed: a read gives it open.
    let open = [Some(3), Some(2), Some(3), Some(2)];
    let want = then([Kept::Failed, Kept::Done, Kept::Done], [open, THREE, THREE]);
    assert_eq!(rt; commands(alloc, &[4])?, want);
    Ok(())
}

#[test]
fn a_doubt_stays_until_it_is_settled(rt: HostRuntime) -> Result<(), Fail> {
    let alloc = rt.alloc();
    let open = [Some(3), Some(2), Some(3), Some(2)];
    let want = then(
        [Kept::Failed, Kept::Failed, Kept::Done],
        [open, open, THREE],
    );
    assert_eq!(rt; commands(alloc, &[4, 5])?, want);
    let closed = [Some(2), Some(2), Some(3), Some(2)];
    let want = then(
        [Kept::Failed, Kept::Failed, Kept::Done],
        [open, closed, THREE],
    );
    assert_eq!(rt; commands(alloc, &[4, 6])?, want);
    Ok(())
}

#[test]
fn a_record_is_kept_where_no_call_fails(rt: HostRuntime) -> Result<(), Fail> {
    let alloc = rt.alloc();
    let want = then([Kept::Done, Kept::Done, Kept::Done], [THREE, THREE, THREE]);
    assert_eq!(rt; commands(alloc, &[])?, want);
    Ok(())
}
