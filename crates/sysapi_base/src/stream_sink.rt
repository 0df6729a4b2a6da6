ghost use Rattle.std.specs.Prelude.{◌≡◌, ◌≤◌, length, IfOk};
ghost use Rattle.std.specs.Io.KnownBytes.{Keeps, WriteAppends};
ghost use Rattle.sysapi_base.specs.Outside.{Passes, TakesSome, Writes};
ghost use Rattle.sysapi_base.specs.Streams.{sink_taken, sink_faults, IsSinkSteady, writer_of, PassesOn};

use crate::error::Failed;
use crate::sink::Sink;
use std::io::{ErrorKind, Write};

/// A sink over a writer of std, which it flushes after each write. It tells no bytes. Each error of the writer is a fault, but
/// one that says that the call was interrupted, after which it is called again; and so is a write that takes nothing of a piece
/// that isn't empty. Where the flush fails, what was written may have arrived or not.
#[derive(Drop)]
pub struct StreamSink<W> {
    writer: W,
    faults: u64,
}

impl<W> StreamSink<W> {
    ghost use Rattle.std.specs.Prelude.{◌≡◌};
    ghost use Rattle.sysapi_base.specs.Streams.{writer_of, sink_faults};

    /// A sink over this writer, with no faults yet.
    pub fn new(writer: W) -> StreamSink<W>
        ensures writer { writer_of result ≡ writer }
        ensures faults { sink_faults result ≡ 0 }
    {
        StreamSink { writer, faults: 0 }
    }
}

impl<W: Write> Sink for StreamSink<W> {
    ghost use Rattle.sysapi_base.specs.Streams.{sink_taken, sink_faults, IsSinkSteady};

    ghost taken = { sink_taken };

    ghost faults = { sink_faults };

    ghost IsSteady = { IsSinkSteady };

    fn write(&mut self, from: &[u8]) -> Result<usize, Failed>
        ensures bound { IfOk result (λ n. n ≤ length from.now) }
        ensures some { TakesSome from.now result }
        ensures bytes { Writes (sink_taken self.old) (sink_taken self.new) result from.now }
        ensures passes { Passes sink_faults IsSinkSteady self.old self.new result }
        ensures passes_on { PassesOn (W.contents (writer_of self.old)) (W.contents (writer_of self.new)) result from.now }
    {
        let result = write_through(&mut self.writer, from);
        if result.is_err() {
            self.faults = self.faults.saturating_add(1);
        }
        result
    }
}

// One write and one flush.
fn write_through<W: Write>(writer: &mut W, from: &[u8]) -> Result<usize, Failed>
    ensures bound { IfOk result (λ n. n ≤ length from.now) }
    ensures some { TakesSome from.now result }
    ensures passes_on { PassesOn (W.contents writer.old) (W.contents writer.new) result from.now }
{
    let n = write_some(writer, from)?;
    flush(writer)?;
    Ok(n)
}

// One write, tried again where it was interrupted.
fn write_some<W: Write>(writer: &mut W, from: &[u8]) -> Result<usize, Failed>
    ensures bound { IfOk result (λ n. n ≤ length from.now) }
    ensures some { TakesSome from.now result }
    ensures bytes { WriteAppends (W.contents writer.old) (W.contents writer.new) result from.now }
{
    for _ in 0..u64::MAX {
        match writer.write(from) {
            Ok(0) if !from.is_empty() => return Err(Failed),
            Ok(n) => return Ok(n),
            Err(error) => {
                if error.kind() != ErrorKind::Interrupted {
                    return Err(Failed);
                }
            }
        }
    }
    Err(Failed)
}

// One flush, tried again where it was interrupted.
fn flush<W: Write>(writer: &mut W) -> Result<(), Failed>
    ensures { Keeps (W.contents writer.old) (W.contents writer.new) }
{
    for _ in 0..u64::MAX {
        match writer.flush() {
            Ok(()) => return Ok(()),
            Err(error) => {
                if error.kind() != ErrorKind::Interrupted {
                    return Err(Failed);
                }
            }
        }
    }
    Err(Failed)
}
