use crate::{Clock, END, Failed, Sink, Source, StreamSink, StreamSource, SystemClock};
use std::io::{Cursor, ErrorKind, Read, Write};
use std::test::Fail;
use std::time::Duration;
use std::{io, rt};

// A reader or writer of which the calls are interrupted, go well, are answered by 0 and fail, in this order over and over.
#[derive(Drop)]
struct Moody {
    calls: u8,
}

impl Moody {
    fn next(&mut self) -> u8 {
        self.calls = self.calls.wrapping_add(1);
        self.calls % 4
    }
}

impl Read for Moody {
    fn read(&mut self, buf: &mut [u8]) -> io::Result<usize> {
        match self.next() {
            1 => Err(io::Error::new(ErrorKind::Interrupted, "interrupted")),
            2 => {
                buf.fill(9);
                Ok(buf.len())
            }
            3 => Ok(0),
            _ => Err(io::Error::new(ErrorKind::Other, "broken")),
        }
    }
}

impl Write for Moody {
    fn write(&mut self, buf: &[u8]) -> io::Result<usize> {
        match self.next() {
            1 => Err(io::Error::new(ErrorKind::Interrupted, "interrupted")),
            2 => Ok(buf.len().min(1)),
            3 => Ok(0),
            _ => Err(io::Error::new(ErrorKind::Other, "broken")),
        }
    }

    fn flush(&mut self) -> io::Result<()> {
        Ok(())
    }
}

#[test]
fn a_source_reads_again_after_an_interruption(rt: HostRuntime) {
    let mut source = StreamSource::new(Moody { calls: 0 });
    let mut into = [0u8; 2];
    assert_eq!(rt; source.read(&mut into), Ok(2));
    assert_eq!(rt; into, [9, 9]);
    assert_eq!(rt; source.read(&mut into), Ok(0));
    assert_eq!(rt; source.read(&mut into), Err(Failed));
    assert_eq!(rt; source.read(&mut into), Ok(2));
}

#[test]
fn a_sink_takes_no_nothing(rt: HostRuntime) {
    let mut sink = StreamSink::new(Moody { calls: 0 });
    assert_eq!(rt; sink.write(&[1, 2]), Ok(1));
    assert_eq!(rt; sink.write(&[1, 2]), Err(Failed));
    assert_eq!(rt; sink.write(&[1, 2]), Err(Failed));
    assert_eq!(rt; sink.write(&[]), Ok(0));
    assert_eq!(rt; sink.write(&[]), Ok(0));
}

// One type for writers of two kinds, as for standard output and standard error.
#[test]
fn boxed_writers_have_one_type(rt: HostRuntime) -> Result<(), Fail> {
    let alloc = rt.alloc();
    let well: Box<dyn Write + Drop> = Box::new(alloc, Cursor::new([0u8; 4].to_vec(alloc)?))?;
    let moody: Box<dyn Write + Drop> = Box::new(alloc, Moody { calls: 3 })?;
    let mut sinks = [StreamSink::new(well), StreamSink::new(moody)];
    let mut answers = [Ok(0), Ok(0)];
    for (answer, sink) in answers.iter_mut().zip(sinks.iter_mut()) {
        *answer = sink.write(&[1, 2, 3]);
    }
    assert_eq!(rt; answers, [Ok(3), Err(Failed)]);
    Ok(())
}

#[derive(Clone, Copy)]
struct Stopped {
    at: Option<Duration>,
}

impl rt::Clock for Stopped {
    fn monotonic(&self) -> io::Result<Duration> {
        self.since_1970()
    }

    fn since_1970(&self) -> io::Result<Duration> {
        match self.at {
            Some(at) => Ok(at),
            None => Err(io::Error::new(ErrorKind::Other, "no clock")),
        }
    }
}

#[test]
fn a_clock_stays_in_range(rt: HostRuntime) {
    for (at, want) in [
        (Some(Duration::from_millis(END - 1)), END - 1),
        (Some(Duration::from_millis(END)), END - 1),
        (Some(Duration::from_secs(u64::MAX)), END - 1),
        (Some(Duration::from_nanos(1_999_999)), 1),
        (None, 0),
    ] {
        let mut clock = SystemClock::new(Stopped { at });
        assert_eq!(rt; clock.now().millis(), want);
        assert_eq!(rt; clock.twin().now().millis(), want);
    }
}

// The day on which this was written, which a working clock is past.
#[test]
fn the_system_has_a_clock(rt: HostRuntime) {
    let mut clock = SystemClock::new(rt);
    assert!(rt; clock.now().millis() > 1_700_000_000_000);
}
