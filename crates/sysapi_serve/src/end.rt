//! How the program ends: its status, and what it complains of.

ghost use Rattle.std.specs.Prelude.{◌≡◌, ◌++◌, Some, codes, decimal};
ghost use Rattle.sysapi_serve.specs.Offline.{Complains, complaint_of, status_of, stop_complaint, stop_status, summary_complaint, summary_status};
ghost use Rattle.sysapi_serve.specs.Parts.{Sends};
ghost use Rattle.sysapi_base.specs.Outside.{Passes};

use crate::outcome::Outcome;
use crate::send::{send, send_numbered};
use journal_disk::{JournalFault, JournalOpen, Ran};
use sysapi_base::{Failed, Sink};

/// The status of the program by the session's outcome.
pub(crate) fn status(outcome: Outcome) -> u8
    ensures { result ≡ status_of outcome }
{
    match outcome {
        Outcome::Ended | Outcome::Closed => 0,
        Outcome::ReadFault | Outcome::WriteFault => 1,
        Outcome::Memory => 3,
        Outcome::Refused(_) | Outcome::CutShort | Outcome::Spent => 6,
    }
}

/// What the program complains of, by the session's outcome.
pub(crate) fn complaint(outcome: Outcome) -> &'static str
    ensures { result.now ≡ complaint_of outcome }
{
    match outcome {
        Outcome::Ended | Outcome::Closed => "",
        Outcome::Refused(_) => "sysapi: request refused\n",
        Outcome::CutShort => "sysapi: input cut short\n",
        Outcome::ReadFault => "sysapi: read fault\n",
        Outcome::WriteFault => "sysapi: write fault\n",
        Outcome::Spent => "sysapi: input too long\n",
        Outcome::Memory => "sysapi: out of memory\n",
    }
}

/// The status of the program by how its summary was written.
pub(crate) fn written_status(sent: Result<(), Failed>) -> u8
    ensures { result ≡ summary_status sent }
{
    match sent {
        Ok(()) => 0,
        Err(Failed) => 1,
    }
}

/// What the program complains of, by how its summary was written.
pub(crate) fn written_complaint(sent: Result<(), Failed>) -> &'static str
    ensures { result.now ≡ summary_complaint sent }
{
    match sent {
        Ok(()) => "",
        Err(Failed) => "sysapi: write fault\n",
    }
}

/// The status of the program where it opened no journal.
fn stopped_status(why: JournalFault) -> u8
    ensures { result ≡ stop_status why }
{
    match why {
        JournalFault::Fault => 1,
        JournalFault::Memory => 3,
        JournalFault::Damaged { place: _ } => 4,
        JournalFault::OtherVersion { version: _ } => 5,
    }
}

/// Writes a complaint. A fault of that sink is ignored.
pub(crate) fn complain<K: Sink>(complaints: &mut K, text: &str)
    ensures { Complains K.taken K.faults K.IsSteady complaints.old complaints.new text.now }
{
    let _ = send(complaints, text.as_bytes());
}

/// Writes a line that ends in a number. A fault of that sink is ignored.
fn complain_of_number<K: Sink>(complaints: &mut K, front: &str, number: u64)
    ensures { Complains K.taken K.faults K.IsSteady complaints.old complaints.new (front.now ++ (decimal number ++ codes "\n")) }
{
    let _ = send_line(complaints, front, number);
}

fn send_line<K: Sink>(sink: &mut K, front: &str, number: u64) -> Result<(), Failed>
    ensures sent { Sends (K.taken sink.old) (K.taken sink.new) (front.now ++ (decimal number ++ codes "\n")) result }
    ensures passes { Passes K.faults K.IsSteady sink.old sink.new result }
{
    send_numbered(sink, front, number)?;
    send(sink, b"\n")
}

/// Complains of what kept a journal from being opened.
fn complain_of_stop<K: Sink>(complaints: &mut K, why: JournalFault)
    ensures { Complains K.taken K.faults K.IsSteady complaints.old complaints.new (stop_complaint why) }
{
    match why {
        JournalFault::Fault => complain(complaints, "sysapi: device fault\n"),
        JournalFault::Memory => complain(complaints, "sysapi: out of memory\n"),
        JournalFault::Damaged { place } => {
            complain_of_number(complaints, "sysapi: damaged at ", place);
        }
        JournalFault::OtherVersion { version } => {
            complain_of_number(complaints, "sysapi: journal version ", version as u64);
        }
    }
}

/// Ends where no repository was opened over the disk, which is given back.
pub(crate) fn stop<K: Sink, D>(complaints: &mut K, unopened: JournalOpen<D>) -> Ran<D>
    ensures status { result.status ≡ stop_status unopened.why }
    ensures kept { result.kept ≡ Some unopened.disk }
    ensures complains { Complains K.taken K.faults K.IsSteady complaints.old complaints.new (stop_complaint unopened.why) }
{
    let JournalOpen { disk, why } = unopened;
    complain_of_stop(complaints, why);
    Ran {
        status: stopped_status(why),
        kept: Some(disk),
    }
}
