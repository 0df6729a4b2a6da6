//! What the program keeps on a disk, and what it tells of that.

ghost use Rattle.std.specs.Prelude.{◌≤◌, ◌^◌};

use super::{CREATED, FOUND, GET, NOW, POST, PROJECT, Ran, joined, rows};
use crate::{run_offline, serve_alone};
use journal_disk::{Journal, MemoryDisk};
use shared_repo::Repo;
use std::alloc::Global;
use std::test::Fail;
use sysapi_base::{MemoryClock, MemorySink, MemorySource, Moment};

/// The journal of the first project.
const JOURNAL: [u8; 38] = [
    0x53, 0x59, 0x53, 0x41, 0x50, 0x49, 0x4a, 0x01, 0, 0, 0, 0, 0, 1, 0, 0, 1, 0, 0, 0, 16, 0, 0,
    0, 0xdc, 0x6a, 0xcf, 0xac, 0, 1, 1, 0, 0, 0, 1, 0x50, 0, 0,
];

const SUMMARY: &[u8] = b"version 1\nrepository 1\nentries 1\nbytes 38\n";

const FULL: &str = r#"{"@type":"Error","error":"full"}"#;

const DEVICE: &str = r#"{"@type":"Error","error":"device"}"#;

/// What the program did over a disk, and what a read of the disk gives then.
#[derive(Drop)]
struct After {
    ran: Ran,
    disk: MemoryDisk,
    bytes: Vec<u8>,
}

/// Runs the program on the one word over the disk.
fn over(alloc: Global, word: &str, input: &[u8], disk: MemoryDisk) -> Result<After, Fail> {
    let mut words = Vec::new(alloc);
    words.push(String::from_str(alloc, word)?)?;
    let mut source = MemorySource::new(alloc, Vec::from_slice(alloc, input)?);
    let mut sink = MemorySink::new(alloc);
    let mut complaints = MemorySink::new(alloc);
    let mut clock = MemoryClock::new(Moment::at_most(NOW), 0);
    let ran = run_offline(
        alloc,
        &words,
        &mut source,
        &mut sink,
        &mut complaints,
        disk,
        &mut clock,
    );
    let disk = ran.kept.ok_or("the disk is given back")?;
    let bytes = Vec::from_slice(alloc, disk.bytes().ok_or("the disk tells")?)?;
    let ran = Ran {
        status: ran.status,
        output: Vec::from_slice(alloc, sink.bytes().ok_or("the sink tells")?)?,
        complaints: Vec::from_slice(alloc, complaints.bytes().ok_or("the complaints tell")?)?,
    };
    Ok(After { ran, disk, bytes })
}

fn disk_of(alloc: Global, bytes: &[u8]) -> Result<MemoryDisk, Fail> {
    Ok(MemoryDisk::of(alloc, Vec::from_slice(alloc, bytes)?)?)
}

/// An empty disk, of which this call fails, counted from 0.
fn failing_at(alloc: Global, call: u64) -> Result<MemoryDisk, Fail> {
    let mut calls = Vec::new(alloc);
    calls.push(call)?;
    Ok(MemoryDisk::new(alloc).failing(calls))
}

#[test]
fn check_summary(rt: HostRuntime) -> Result<(), Fail> {
    let alloc = rt.alloc();
    let served = over(alloc, "once", POST, MemoryDisk::new(alloc))?;
    assert_eq!(rt; served.ran.status, 0);
    assert_eq!(rt; served.bytes.as_slice(), JOURNAL.as_slice());
    let checked = over(alloc, "check", POST, served.disk)?;
    assert_eq!(rt; checked.ran.output.as_slice(), SUMMARY);
    assert_eq!(rt; checked.ran.status, 0);
    assert!(rt; checked.ran.complaints.is_empty());
    assert_eq!(rt; checked.bytes.as_slice(), JOURNAL.as_slice());
    Ok(())
}

#[test]
fn check_of_other_bytes(rt: HostRuntime) -> Result<(), Fail> {
    let alloc = rt.alloc();
    let mut tag = JOURNAL;
    tag[29] = 0x7f;
    let mut version = JOURNAL;
    version[7] = 9;
    let rows: [(&[u8], u8, &str); 4] = [
        (&tag, 4, "sysapi: damaged at 16\n"),
        (&version, 5, "sysapi: journal version 9\n"),
        (&JOURNAL[..16], 4, "sysapi: damaged at 0\n"),
        (&[], 4, "sysapi: damaged at 0\n"),
    ];
    for (bytes, status, complaint) in &rows {
        let checked = over(alloc, "check", b"", disk_of(alloc, bytes)?)?;
        assert_eq!(rt; checked.ran.status, *status);
        assert_eq!(rt; checked.ran.complaints.as_slice(), complaint.as_bytes());
        assert!(rt; checked.ran.output.is_empty());
        assert_eq!(rt; checked.bytes.as_slice(), *bytes);
    }
    Ok(())
}

#[test]
fn once_of_damaged_bytes(rt: HostRuntime) -> Result<(), Fail> {
    let alloc = rt.alloc();
    let mut bytes = JOURNAL;
    bytes[29] = 0x7f;
    let served = over(alloc, "once", POST, disk_of(alloc, &bytes)?)?;
    assert_eq!(rt; served.ran.status, 4);
    assert_eq!(rt;
        served.ran.complaints.as_slice(),
        b"sysapi: damaged at 16\n".as_slice()
    );
    assert!(rt; served.ran.output.is_empty());
    assert_eq!(rt; served.bytes.as_slice(), bytes.as_slice());
    Ok(())
}

#[test]
fn once_twice_over_one_disk(rt: HostRuntime) -> Result<(), Fail> {
    let alloc = rt.alloc();
    let first = over(alloc, "once", POST, MemoryDisk::new(alloc))?;
    let second = over(alloc, "once", GET, first.disk)?;
    let found = joined(alloc, &[FOUND, PROJECT])?;
    assert_eq!(rt; second.ran.output.as_slice(), found.as_slice());
    assert_eq!(rt; second.ran.status, 0);
    assert_eq!(rt; second.bytes.as_slice(), JOURNAL.as_slice());
    Ok(())
}

/// The length, and then the three calls that make a journal, or the sync and the first read of one that is opened.
#[test]
fn disk_that_fails(rt: HostRuntime) -> Result<(), Fail> {
    let alloc = rt.alloc();
    for call in 0..4 {
        let served = over(alloc, "once", POST, failing_at(alloc, call)?)?;
        assert_eq!(rt; served.ran.status, 1);
        assert_eq!(rt;
            served.ran.complaints.as_slice(),
            b"sysapi: device fault\n".as_slice()
        );
        assert!(rt; served.ran.output.is_empty());
    }
    for call in 0..3 {
        let mut calls = Vec::new(alloc);
        calls.push(call)?;
        let disk = disk_of(alloc, &JOURNAL)?.failing(calls);
        let checked = over(alloc, "check", b"", disk)?;
        assert_eq!(rt; checked.ran.status, 1);
        assert_eq!(rt;
            checked.ran.complaints.as_slice(),
            b"sysapi: device fault\n".as_slice()
        );
        assert!(rt; checked.ran.output.is_empty());
    }
    Ok(())
}

/// The first project, posted twice.
fn posted_twice(alloc: Global, disk: MemoryDisk) -> Result<After, Fail> {
    over(alloc, "once", &joined(alloc, &[POST, POST])?, disk)
}

/// The first project is posted, where each device call of its append fails in turn, and posted again.
#[test]
fn failing_append(rt: HostRuntime) -> Result<(), Fail> {
    let alloc = rt.alloc();
    let mut expected = rows::response(alloc, "500 Internal Server Error", DEVICE)?;
    expected.extend_from_slice(CREATED)?;
    expected.extend_from_slice(PROJECT)?;
    for call in 4..8 {
        let served = posted_twice(alloc, failing_at(alloc, call)?)?;
        assert_eq!(rt; served.ran.output.as_slice(), expected.as_slice());
        assert_eq!(rt; served.ran.status, 0);
        let checked = over(alloc, "check", b"", served.disk)?;
        assert_eq!(rt; checked.ran.output.as_slice(), SUMMARY);
    }
    Ok(())
}

/// What answers the first project over an empty journal of this room.
fn posted_in(alloc: Global, room: u64) -> Result<Vec<u8>, Fail>
    requires least { 17 ≤ room }
    requires most { room ≤ 2 ^ 36 }
{
    let journal = Journal::create(alloc, MemoryDisk::new(alloc), 1, room)?;
    let mut repo = Repo::open(alloc, journal)?;
    let mut source = MemorySource::new(alloc, Vec::from_slice(alloc, POST)?);
    let mut sink = MemorySink::new(alloc);
    let mut clock = MemoryClock::new(Moment::at_most(NOW), 0);
    let _ = serve_alone(alloc, &mut repo, &mut source, &mut sink, &mut clock);
    Ok(Vec::from_slice(alloc, sink.bytes().ok_or("the sink tells")?)?)
}

#[test]
fn rooms_of_38_and_37(rt: HostRuntime) -> Result<(), Fail> {
    let alloc = rt.alloc();
    let created = joined(alloc, &[CREATED, PROJECT])?;
    assert_eq!(rt; posted_in(alloc, 38)?.as_slice(), created.as_slice());
    let full = rows::response(alloc, "507 Insufficient Storage", FULL)?;
    assert_eq!(rt; posted_in(alloc, 37)?.as_slice(), full.as_slice());
    Ok(())
}

/// Each write of the summary fails in turn.
#[test]
fn write_fault_in_a_summary(rt: HostRuntime) -> Result<(), Fail> {
    let alloc = rt.alloc();
    let mut words = Vec::new(alloc);
    words.push(String::from_str(alloc, "check")?)?;
    for call in 0..7 {
        let mut calls = Vec::new(alloc);
        calls.push(call)?;
        let mut sink = MemorySink::failing(alloc, calls);
        let mut complaints = MemorySink::new(alloc);
        let ran = run_offline(
            alloc,
            &words,
            &mut MemorySource::new(alloc, Vec::new(alloc)),
            &mut sink,
            &mut complaints,
            disk_of(alloc, &JOURNAL)?,
            &mut MemoryClock::new(Moment::at_most(NOW), 0),
        );
        assert_eq!(rt; ran.status, 1);
        assert_eq!(rt;
            complaints.bytes().ok_or("the complaints tell")?,
            b"sysapi: write fault\n".as_slice()
        );
        let sent = sink.bytes().ok_or("the sink tells")?;
        assert!(rt; SUMMARY.starts_with(sent) && sent.len() < SUMMARY.len());
    }
    Ok(())
}
