ghost use Rattle.std.specs.Prelude.{◌≡◌, ◌≤◌, length, IfOk};
ghost use Rattle.std.specs.Io.KnownBytes.{ReadConsumes};

use crate::error::Failed;
use crate::source::Source;
use std::io::{ErrorKind, Read};

/// A source over a reader of std. It tells what the reader tells: the bytes of a slice, and none of a file or a socket. Each
/// error of the reader is a fault, but one that says that the call was interrupted, after which it reads again.
#[derive(Drop)]
pub struct StreamSource<R> {
    reader: R,
    faults: u64,
}

impl<R> StreamSource<R> {
    ghost use Rattle.std.specs.Prelude.{◌≡◌};
    ghost use Rattle.sysapi_base.specs.Streams.{reader_of, source_faults};

    /// A source over this reader, with no faults yet.
    pub fn new(reader: R) -> StreamSource<R>
        ensures reader { reader_of result ≡ reader }
        ensures faults { source_faults result ≡ 0 }
    {
        StreamSource { reader, faults: 0 }
    }
}

impl<R: Read> Source for StreamSource<R> {
    ghost use Rattle.sysapi_base.specs.Streams.{reader_of, source_faults, IsSourceSteady};

    ghost left = { λ source. R.remaining (reader_of source) };

    ghost faults = { source_faults };

    ghost IsSteady = { IsSourceSteady };

    fn read(&mut self, into: &mut [u8]) -> Result<usize, Failed> {
        let result = read_through(&mut self.reader, into);
        if result.is_err() {
            self.faults = self.faults.saturating_add(1);
        }
        result
    }
}

// One read, tried again where it was interrupted.
fn read_through<R: Read>(reader: &mut R, into: &mut [u8]) -> Result<usize, Failed>
    ensures bound { IfOk result (λ n. n ≤ length into.new) }
    ensures bytes { ReadConsumes (R.remaining reader.old) (R.remaining reader.new) result into.new }
{
    for _ in 0..u64::MAX {
        match reader.read(into) {
            Ok(n) => return Ok(n),
            Err(error) => {
                if error.kind() != ErrorKind::Interrupted {
                    return Err(Failed);
                }
            }
        }
    }
    Err(Failed)
}
