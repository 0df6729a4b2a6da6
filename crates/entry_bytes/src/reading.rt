ghost use Rattle.std.specs.Prelude.{◌≡◌, IfOk, IfErr};
ghost use Rattle.entry_bytes.specs.Spelling.{entry_bytes};
ghost use Rattle.entry_bytes.specs.Sound.{IsEntry, IsProperEntry, HasKeptPayloads};
ghost use Rattle.entry_bytes.specs.Reading.{Gives, entry_at, entry_in, Explains};

mod commands;
mod parts;
mod payload;

use self::commands::read_command;
use self::parts::read_u64;
use crate::error::DecodeError;
use entry_codec::Entry;
use std::alloc::Global;
use sysapi_base::Moment;

/// The entry that the bytes are. `NotAnEntry` says that no entry that can be stored has these bytes.
pub fn decode(alloc: Global, bytes: &[u8]) -> Result<Entry, DecodeError>
    ensures found { IfOk result (λ e. entry_bytes e ≡ bytes.now) }
    ensures sound { IfOk result IsEntry }
    ensures proper { IfOk result IsProperEntry }
    ensures none { IfErr result (Explains bytes.now) }
{
    read_whole(alloc, bytes)
}

fn read_whole(alloc: Global, bytes: &[u8]) -> Result<Entry, DecodeError>
    ensures read { Gives (λ e. e) result (entry_in bytes.now) }
    ensures kept { IfOk result (λ e. HasKeptPayloads e.command) }
{
    if bytes.len() > 134_217_728 {
        return Err(DecodeError::NotAnEntry);
    }
    let (entry, rest) = read_entry(alloc, bytes)?;
    if !rest.is_empty() {
        return Err(DecodeError::NotAnEntry);
    }
    Ok(entry)
}

fn read_entry(alloc: Global, bytes: &[u8]) -> Result<(Entry, &[u8]), DecodeError>
    ensures read { Gives (λ x. (x.0, x.1.now)) result (entry_at bytes.now) }
    ensures kept { IfOk result (λ x. HasKeptPayloads x.0.command) }
{
    let (millis, rest) = read_u64(bytes)?;
    let Some(moment) = Moment::from_millis(millis) else {
        return Err(DecodeError::NotAnEntry);
    };
    let (command, rest) = read_command(alloc, rest)?;
    Ok((Entry { moment, command }, rest))
}
