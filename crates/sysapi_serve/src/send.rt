//! Texts on their way to the sink.

ghost use Rattle.std.specs.Prelude.{◌++◌, decimal};
ghost use Rattle.sysapi_base.specs.Outside.{Passes};
ghost use Rattle.sysapi_serve.specs.Parts.{Sends};

use itoa::Buffer;
use sysapi_base::{Failed, Sink};

/// Writes all of the text, or the part of it before a fault.
pub(crate) fn send<K: Sink>(sink: &mut K, text: &[u8]) -> Result<(), Failed>
    ensures sent { Sends (K.taken sink.old) (K.taken sink.new) text.now result }
    ensures passes { Passes K.faults K.IsSteady sink.old sink.new result }
{
    let mut at = 0;
    while at < text.len() {
        at += sink.write(&text[at..])?;
    }
    Ok(())
}

/// Writes a text and a number behind it, in decimal digits, or a part of that before a fault. It takes no memory.
pub(crate) fn send_numbered<K: Sink>(sink: &mut K, front: &str, number: u64) -> Result<(), Failed>
    ensures sent { Sends (K.taken sink.old) (K.taken sink.new) (front.now ++ decimal number) result }
    ensures passes { Passes K.faults K.IsSteady sink.old sink.new result }
{
    send(sink, front.as_bytes())?;
    let mut digits = Buffer::new();
    send(sink, digits.format(number).as_bytes())
}
