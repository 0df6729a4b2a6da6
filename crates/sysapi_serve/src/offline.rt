//! The program's one call, over any source, sinks, disk and clock.

ghost use Rattle.std.specs.Prelude.{◌≡◌, ◌↔◌, ◌⊎◌, ⊤, Some, IsSome, Result, map, string_bytes};
ghost use Rattle.std.specs.Io.KnownBytes.{IsAtEnd};
ghost use Rattle.sysapi_base.specs.Outside.{Passes};
ghost use Rattle.sysapi_base.specs.declared.error.Failed.{Failed as Fails};
ghost use Rattle.journal_disk.specs.declared.fault.JournalFault.{JournalFault as Stop};
ghost use Rattle.sysapi_serve.specs.declared.outcome.Served.{Served as Session};
ghost use Rattle.sysapi_serve.specs.Offline.{IsOnce, IsCheck, IsInLanguage, IsServedOver, IsHindered, HindersOnce, IsCauseIn, IsSummed, Complains, bad_words, complaint_of, status_of, stop_complaint, stop_status, summary_status, summary_complaint};
ghost use Rattle.sysapi_serve.specs.Parts.{read_result, write_result};

use crate::begin::begin;
use crate::check::check;
use crate::end::{complain, complaint, status, stop};
use crate::outcome::Outcome;
use crate::session::serve_alone;
use crate::words::{Asked, asked_by};
use journal_disk::{Disk, Ran};
use std::alloc::Global;
use sysapi_base::{Clock, Sink, Source};

/// The number of a repository for which no other is given.
pub const REPOSITORY: u64 = 1;

/// How many bytes a journal may use, where no other number is given.
pub const ROOM: u64 = 1_073_741_824;

/// The status of the program where its words are not the language.
const BAD_WORDS: u8 = 2;

/// Does what the words say over the disk, and answers the program's status with the disk. `once` serves the source to the sink, by a
/// repository over the journal on the disk, which is made where the disk is empty. `check` writes a summary of the journal. Any other
/// words are refused with status 2: nothing is read or written but the complaint.
pub fn run_offline<S: Source, K: Sink, D: Disk, C: Clock>(
    alloc: Global,
    words: &[String],
    source: &mut S,
    sink: &mut K,
    complaints: &mut K,
    disk: D,
    clock: &mut C,
) -> Ran<D>
    ensures words { (result.status ≡ 2) ↔ ¬ (IsInLanguage (map (λ w. string_bytes w) words.now)) }
    ensures kept { IsSome result.kept }
    ensures idle { ¬ (IsInLanguage (map (λ w. string_bytes w) words.now)) → (source.new ≡ source.old) × (sink.new ≡ sink.old) × (clock.new ≡ clock.old)
        × (result.kept ≡ Some disk) × Complains K.taken K.faults K.IsSteady complaints.old complaints.new bad_words }
    ensures once { IsOnce (map (λ w. string_bytes w) words.now) → (new : D) × (result.kept ≡ Some new) × (
        ((why : Stop) × IsHindered D.reading D.faults D.IsSteady HindersOnce disk new why
        × (result.status ≡ stop_status why) × Complains K.taken K.faults K.IsSteady complaints.old complaints.new (stop_complaint why)
        × (source.new ≡ source.old) × (sink.new ≡ sink.old) × (clock.new ≡ clock.old))
        ⊎ ((served : Session)
        × IsServedOver D.reading D.images D.faults D.IsSteady disk new (S.left source.old) (S.left source.new) (K.taken sink.old) (K.taken sink.new)
        (C.readings clock.old) (C.readings clock.new) served
        × (result.status ≡ status_of served.outcome) × Complains K.taken K.faults K.IsSteady complaints.old complaints.new (complaint_of served.outcome)
        × ((served.outcome ≡ Outcome.Ended) ⊎ (served.outcome ≡ Outcome.CutShort) → IsAtEnd (S.left source.new))
        × Passes S.faults S.IsSteady source.old source.new (read_result served.outcome)
        × Passes K.faults K.IsSteady sink.old sink.new (write_result served.outcome))) }
    ensures check { IsCheck (map (λ w. string_bytes w) words.now) → (new : D) × (result.kept ≡ Some new) × (source.new ≡ source.old) × (clock.new ≡ clock.old) × (
        ((why : Stop) × IsHindered D.reading D.faults D.IsSteady IsCauseIn disk new why
        × (result.status ≡ stop_status why) × Complains K.taken K.faults K.IsSteady complaints.old complaints.new (stop_complaint why)
        × (sink.new ≡ sink.old))
        ⊎ ((sent : Result ⊤ Fails) × IsSummed D.reading D.faults D.IsSteady disk new (K.taken sink.old) (K.taken sink.new) sent
        × (result.status ≡ summary_status sent) × Complains K.taken K.faults K.IsSteady complaints.old complaints.new (summary_complaint sent)
        × Passes K.faults K.IsSteady sink.old sink.new sent)) }
{
    match asked_by(words) {
        Some(Asked::Once) => once(alloc, source, sink, complaints, disk, clock),
        Some(Asked::Check) => check(alloc, sink, complaints, disk),
        None => {
            complain(complaints, "sysapi: bad words\n");
            Ran {
                status: BAD_WORDS,
                kept: Some(disk),
            }
        }
    }
}

/// Serves the source to the sink, by a repository over the journal on the disk.
fn once<S: Source, K: Sink, D: Disk, C: Clock>(
    alloc: Global,
    source: &mut S,
    sink: &mut K,
    complaints: &mut K,
    disk: D,
    clock: &mut C,
) -> Ran<D>
    ensures { (new : D) × (result.kept ≡ Some new) × (
        ((why : Stop) × IsHindered D.reading D.faults D.IsSteady HindersOnce disk new why
        × (result.status ≡ stop_status why) × Complains K.taken K.faults K.IsSteady complaints.old complaints.new (stop_complaint why)
        × (source.new ≡ source.old) × (sink.new ≡ sink.old) × (clock.new ≡ clock.old))
        ⊎ ((served : Session)
        × IsServedOver D.reading D.images D.faults D.IsSteady disk new (S.left source.old) (S.left source.new) (K.taken sink.old) (K.taken sink.new)
        (C.readings clock.old) (C.readings clock.new) served
        × (result.status ≡ status_of served.outcome) × Complains K.taken K.faults K.IsSteady complaints.old complaints.new (complaint_of served.outcome)
        × ((served.outcome ≡ Outcome.Ended) ⊎ (served.outcome ≡ Outcome.CutShort) → IsAtEnd (S.left source.new))
        × Passes S.faults S.IsSteady source.old source.new (read_result served.outcome)
        × Passes K.faults K.IsSteady sink.old sink.new (write_result served.outcome))) }
{
    match begin(alloc, disk) {
        Ok(repo) => {
            let mut repo = repo;
            let served = serve_alone(alloc, &mut repo, source, sink, clock);
            complain(complaints, complaint(served.outcome));
            Ran {
                status: status(served.outcome),
                kept: Some(repo.into_keeper().into_disk()),
            }
        }
        Err(unopened) => stop(complaints, unopened),
    }
}
