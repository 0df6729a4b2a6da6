//! A source and a sink that share a flag: each response is written before the next read.

ghost use Rattle.std.specs.Prelude.{◌≤◌, length};

use super::{CREATED, FOUND, GET, NOW, POST, PROJECT, joined};
use crate::{Outcome, REPOSITORY, ROOM, Served, serve_alone};
use journal_disk::MemoryKeeper;
use shared_repo::Repo;
use std::alloc::Global;
use std::sync::atomic::{AtomicBool, Ordering};
use std::test::Fail;
use sysapi_base::{Clock, Failed, MemoryClock, MemorySink, Moment, Sink, Source};

/// A source of two requests, which gives its end in place of the second one until the flag is set. It tells no bytes.
#[derive(Drop)]
struct TwoRequests<'a> {
    first: &'a [u8],
    second: &'a [u8],
    flag: &'a AtomicBool,
}

/// Moves the front of the bytes into the slice, as much as it has room for.
fn give(bytes: &mut &[u8], into: &mut [u8]) -> usize
    ensures { result ≤ length into.new }
{
    let whole = *bytes;
    let n = into.len().min(whole.len());
    into[..n].copy_from_slice(&whole[..n]);
    *bytes = &whole[n..];
    n
}

impl Source for TwoRequests<'_> {
    ghost use Rattle.std.specs.Prelude.{None, ⊤};

    ghost left = { λ _. None };

    ghost faults = { λ _. 0 };

    ghost IsSteady = { λ _. ⊤ };

    fn read(&mut self, into: &mut [u8]) -> Result<usize, Failed> {
        if !self.first.is_empty() {
            return Ok(give(&mut self.first, into));
        }
        if !self.flag.load(Ordering::SeqCst) {
            return Ok(0);
        }
        Ok(give(&mut self.second, into))
    }
}

/// A sink that sets the flag once it has taken so many bytes.
#[derive(Drop)]
struct Flagging<'a> {
    taken: MemorySink,
    due: usize,
    flag: &'a AtomicBool,
}

impl Sink for Flagging<'_> {
    ghost use Rattle.sysapi_base.specs.InMemory.{sink_taken, sink_faults, IsSinkSteady};

    ghost taken = { λ s. sink_taken s.taken };

    ghost faults = { λ s. sink_faults s.taken };

    ghost IsSteady = { λ s. IsSinkSteady s.taken };

    fn write(&mut self, from: &[u8]) -> Result<usize, Failed> {
        let n = self.taken.write(from)?;
        if self
            .taken
            .bytes()
            .is_some_and(|taken| taken.len() >= self.due)
        {
            self.flag.store(true, Ordering::SeqCst);
        }
        Ok(n)
    }
}

/// What the session does where the second request waits for so many bytes, and the bytes written.
fn served(alloc: Global, due: usize) -> Result<(Served, Vec<u8>), Fail> {
    let flag = AtomicBool::new(false);
    let mut source = TwoRequests {
        first: POST,
        second: GET,
        flag: &flag,
    };
    let mut sink = Flagging {
        taken: MemorySink::new(alloc).in_pieces(100),
        due,
        flag: &flag,
    };
    let mut clock = MemoryClock::new(Moment::at_most(NOW), 0);
    let keeper = MemoryKeeper::new(alloc, REPOSITORY, ROOM);
    let Ok(mut repo) = Repo::open(alloc, keeper) else {
        return Err(Fail::from("an empty keeper is opened"));
    };
    let served = serve_alone(alloc, &mut repo, &mut source, &mut sink, &mut clock);
    let taken = sink.taken.bytes().ok_or("the sink tells")?;
    Ok((served, Vec::from_slice(alloc, taken)?))
}

/// A session that read on before the first response stands whole would find the end.
#[test]
fn the_next_read_comes_behind_the_response(rt: HostRuntime) -> Result<(), Fail> {
    let alloc = rt.alloc();
    let (served, taken) = served(alloc, CREATED.len() + PROJECT.len())?;
    assert_eq!(rt; served.outcome, Outcome::Ended);
    assert_eq!(rt; served.answered, 2);
    let both = joined(alloc, &[CREATED, PROJECT, FOUND, PROJECT])?;
    assert_eq!(rt; taken.as_slice(), both.as_slice());
    Ok(())
}

/// Where the flag waits for one byte more, the second request is not read.
#[test]
fn the_end_stands_in_place_of_the_second_request(rt: HostRuntime) -> Result<(), Fail> {
    let alloc = rt.alloc();
    let (served, taken) = served(alloc, CREATED.len() + PROJECT.len() + 1)?;
    assert_eq!(rt; served.outcome, Outcome::Ended);
    assert_eq!(rt; served.answered, 1);
    let first = joined(alloc, &[CREATED, PROJECT])?;
    assert_eq!(rt; taken.as_slice(), first.as_slice());
    Ok(())
}
