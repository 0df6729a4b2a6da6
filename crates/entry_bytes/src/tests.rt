use crate::{DecodeError, decode, encode};
use api_records::Command;
use entry_codec::Entry;
use std::alloc::Global;
use std::test::Fail;
use sysapi_base::{Moment, Text};

// The year 2000 begins, and a project `P` is made.
const PROJECT: [u8; 16] = [0, 0, 0, 220, 106, 207, 172, 0, 1, 1, 0, 0, 0, 1, 80, 0];

fn text(alloc: Global, content: &str) -> Result<Option<Text>, Fail> {
    Ok(Some(Text::of(String::from_str(alloc, content)?)))
}

fn is_no_entry(alloc: Global, bytes: &[u8]) -> bool {
    matches!(decode(alloc, bytes), Err(DecodeError::NotAnEntry))
}

#[test]
fn a_project(rt: HostRuntime) -> Result<(), Fail> {
    let alloc = rt.alloc();
    let entry = Entry {
        moment: Moment::at_most(946_684_800_000),
        command: Command::CreateProject {
            name: text(alloc, "P")?,
            description: None,
        },
    };
    assert_eq!(rt; entry.command.encoded_len(), 16);
    assert_eq!(rt; encode(alloc, &entry)?.as_slice(), PROJECT.as_slice());
    let read = decode(alloc, &PROJECT)?;
    assert_eq!(rt; encode(alloc, &read)?.as_slice(), PROJECT.as_slice());
    let mut longer = Vec::from_slice(alloc, &PROJECT)?;
    longer.push(0)?;
    assert!(rt; is_no_entry(alloc, &longer));
    assert!(rt; is_no_entry(alloc, &PROJECT[..15]));
    Ok(())
}

// The bytes of a commit with all optional parts, up to the payload of its first change, and those behind it.
const FRONT: [u8; 94] = [
    0, 0, 0, 0, 0, 0, 0, 1, 4, 0, 0, 0, 0, 0, 0, 0, 0, 0, 0, 0, 0, 0, 0, 0, 1, 1, 0, 0, 0, 0, 0, 0,
    0, 0, 0, 0, 0, 0, 0, 0, 0, 2, 0, 0, 0, 1, 0, 0, 0, 0, 0, 0, 0, 0, 0, 0, 0, 0, 0, 0, 0, 3, 1, 0,
    0, 0, 1, 100, 0, 0, 0, 2, 1, 0, 0, 0, 0, 0, 0, 0, 0, 0, 0, 0, 0, 0, 0, 0, 4, 1, 0, 0, 0, 13,
];

const BEHIND: [u8; 2] = [0, 0];

fn commit(alloc: Global, payload: &str) -> Result<Vec<u8>, Fail> {
    let mut bytes = Vec::from_slice(alloc, &FRONT)?;
    bytes.extend_from_slice(payload.as_bytes())?;
    bytes.extend_from_slice(&BEHIND)?;
    Ok(bytes)
}

#[test]
fn a_commit(rt: HostRuntime) -> Result<(), Fail> {
    let alloc = rt.alloc();
    let bytes = commit(alloc, "{\"a\":2,\"b\":1}")?;
    let entry = decode(alloc, &bytes)?;
    match &entry.command {
        Command::CreateCommit {
            project,
            previous,
            changes,
            ..
        } => {
            assert_eq!(rt; project.number(), 1);
            assert_eq!(rt; previous.as_slice().len(), 1);
            assert_eq!(rt; changes.as_slice().len(), 2);
        }
        _ => return Err("the bytes are a commit's".into()),
    }
    Ok(())
}

#[test]
fn a_commit_again(rt: HostRuntime) -> Result<(), Fail> {
    let alloc = rt.alloc();
    let bytes = commit(alloc, "{\"a\":2,\"b\":1}")?;
    let entry = decode(alloc, &bytes)?;
    assert_eq!(rt; entry.command.encoded_len(), 109);
    assert_eq!(rt; encode(alloc, &entry)?.as_slice(), bytes.as_slice());
    Ok(())
}

#[test]
fn payloads_that_are_none(rt: HostRuntime) -> Result<(), Fail> {
    let alloc = rt.alloc();
    let unordered = commit(alloc, "{\"b\":1,\"a\":2}")?;
    assert!(rt; is_no_entry(alloc, &unordered));
    let no_object = commit(alloc, "[1,2,3,4,5,6]")?;
    assert!(rt; is_no_entry(alloc, &no_object));
    let no_id = commit(alloc, "{\"@id\":\"123\"}")?;
    assert!(rt; is_no_entry(alloc, &no_id));
    Ok(())
}
