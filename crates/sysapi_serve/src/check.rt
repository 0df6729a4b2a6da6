//! A summary of the journal on a disk.

ghost use Rattle.std.specs.Prelude.{◌≡◌, ◌⊎◌, Some, Result, ⊤};
ghost use Rattle.sysapi_base.specs.Outside.{Passes};
ghost use Rattle.sysapi_base.specs.declared.error.Failed.{Failed as Fails};
ghost use Rattle.journal_disk.specs.declared.fault.JournalFault.{JournalFault as Stop};
ghost use Rattle.sysapi_serve.specs.Offline.{Complains, IsCauseIn, IsHindered, IsSummed, stop_complaint, stop_status, summary, summary_complaint, summary_status};
ghost use Rattle.sysapi_serve.specs.Parts.{Sends};

use crate::begin::reopen;
use crate::end::{complain, stop, written_complaint, written_status};
use crate::send::{send, send_numbered};
use journal_disk::{Disk, Ran};
use std::alloc::Global;
use sysapi_base::{Failed, Sink};

/// Writes a summary of the journal on the disk, on which nothing is written.
pub(crate) fn check<K: Sink, D: Disk>(
    alloc: Global,
    sink: &mut K,
    complaints: &mut K,
    disk: D,
) -> Ran<D>
    ensures { (new : D) × (result.kept ≡ Some new) × (
        ((why : Stop) × IsHindered D.reading D.faults D.IsSteady IsCauseIn disk new why
        × (result.status ≡ stop_status why) × Complains K.taken K.faults K.IsSteady complaints.old complaints.new (stop_complaint why)
        × (sink.new ≡ sink.old))
        ⊎ ((sent : Result ⊤ Fails) × IsSummed D.reading D.faults D.IsSteady disk new (K.taken sink.old) (K.taken sink.new) sent
        × (result.status ≡ summary_status sent) × Complains K.taken K.faults K.IsSteady complaints.old complaints.new (summary_complaint sent)
        × Passes K.faults K.IsSteady sink.old sink.new sent)) }
{
    match reopen(alloc, disk) {
        Ok(repo) => {
            let journal = repo.into_keeper();
            let sent = send_summary(sink, journal.repository(), journal.count(), journal.used());
            complain(complaints, written_complaint(sent));
            Ran {
                status: written_status(sent),
                kept: Some(journal.into_disk()),
            }
        }
        Err(unopened) => stop(complaints, unopened),
    }
}

/// Writes the four lines of a summary.
fn send_summary<K: Sink>(sink: &mut K, repository: u64, count: u64, used: u64) -> Result<(), Failed>
    ensures sent { Sends (K.taken sink.old) (K.taken sink.new) (summary repository count used) result }
    ensures passes { Passes K.faults K.IsSteady sink.old sink.new result }
{
    send_numbered(sink, "version 1\nrepository ", repository)?;
    send_numbered(sink, "\nentries ", count)?;
    send_numbered(sink, "\nbytes ", used)?;
    send(sink, b"\n")
}
