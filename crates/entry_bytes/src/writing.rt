ghost use Rattle.std.specs.Prelude.{◌≡◌, IfOk, OnOk};
ghost use Rattle.entry_bytes.specs.Spelling.{entry_bytes};
ghost use Rattle.api_records.specs.Storable.{IsStorable};
ghost use Rattle.entry_bytes.specs.Sound.{IsProperEntry};

mod commands;
mod parts;

use self::commands::put_command;
use self::parts::put_u64;
use api_records::Command;
use entry_codec::Entry;
use std::alloc::Global;
use sysapi_base::{Memory, Moment};

/// The bytes of an entry, in memory that is taken once. There are at most 2^27, since its command can be stored.
pub fn encode(alloc: Global, entry: &Entry) -> Result<Vec<u8>, Memory>
    requires { IsStorable entry.now.command }
    ensures bytes { IfOk result (λ b. b.items ≡ entry_bytes entry.now) }
    ensures proper { OnOk result (IsProperEntry entry.now) }
{
    encode_command(alloc, entry.moment, &entry.command)
}

/// The bytes of the entry of a command that is accepted at this moment, as `encode` gives them.
pub fn encode_command(alloc: Global, moment: Moment, command: &Command) -> Result<Vec<u8>, Memory>
    requires { IsStorable command.now }
    ensures bytes { IfOk result (λ b. b.items ≡ entry_bytes (record { moment = moment; command = command.now })) }
    ensures proper { OnOk result (IsProperEntry (record { moment = moment; command = command.now })) }
{
    let mut out = Vec::with_capacity(alloc, command.encoded_len() as usize)?;
    put_u64(&mut out, moment.millis())?;
    put_command(&mut out, alloc, command)?;
    Ok(out)
}
