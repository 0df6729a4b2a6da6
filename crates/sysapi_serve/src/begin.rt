//! How a repository is opened over a disk.

ghost use Rattle.std.specs.Prelude.{◌≡◌, false, IfOk, IfErr};
ghost use Rattle.journal_disk.specs.Disk.{Keeps};
ghost use Rattle.shared_repo.specs.Stored.{opened};
ghost use Rattle.sysapi_serve.specs.Offline.{BeginsWith, HindersOnce, IsCauseIn, IsHindered, IsHistoryOf};
ghost use Rattle.sysapi_serve.specs.Begin.{IsOver, IsNotOver, IsBegun, IsOfLength, causes};

use crate::offline::{REPOSITORY, ROOM};
use journal_disk::{Disk, Journal, JournalFault, JournalOpen, OpenFault};
use shared_repo::{Repo, RepoOpen};
use std::alloc::Global;
use sysapi_base::Failed;

/// The repository with which a session begins: over the journal on the disk, or over an empty one, which is made on a disk of length
/// 0. Else the disk is given back.
pub(crate) fn begin<D: Disk>(alloc: Global, disk: D) -> Result<Repo<Journal<D>>, JournalOpen<D>>
    ensures begun { IfOk result (λ repo. IsBegun D.reading D.faults D.IsSteady BeginsWith disk (opened repo)) }
    ensures hindered { IfErr result (λ e. IsHindered D.reading D.faults D.IsSteady HindersOnce disk e.disk e.why) }
{
    let mut disk = disk;
    match disk.len() {
        Ok(0) => create_in(alloc, disk),
        Ok(_) => open_on(alloc, disk),
        Err(Failed) => Err(JournalOpen {
            disk,
            why: JournalFault::Fault,
        }),
    }
}

/// The repository over the journal on the disk, which is only read. Else the disk is given back.
pub(crate) fn reopen<D: Disk>(alloc: Global, disk: D) -> Result<Repo<Journal<D>>, JournalOpen<D>>
    ensures begun { IfOk result (λ repo. IsBegun D.reading D.faults D.IsSteady IsHistoryOf disk (opened repo)) }
    ensures same { IfOk result (λ repo. Keeps (D.reading disk) (D.reading repo.keeper.disk)) }
    ensures hindered { IfErr result (λ e. IsHindered D.reading D.faults D.IsSteady IsCauseIn disk e.disk e.why) }
{
    let mut disk = disk;
    match disk.len() {
        Ok(0) => Err(JournalOpen {
            disk,
            why: JournalFault::Damaged { place: 0 },
        }),
        Ok(_) => open_on(alloc, disk),
        Err(Failed) => Err(JournalOpen {
            disk,
            why: JournalFault::Fault,
        }),
    }
}

/// The repository over an empty journal, which is made on a disk of length 0.
fn create_in<D: Disk>(alloc: Global, disk: D) -> Result<Repo<Journal<D>>, JournalOpen<D>>
    requires { IsOfLength (D.reading disk) 0 }
    ensures begun { IfOk result (λ repo. IsBegun D.reading D.faults D.IsSteady BeginsWith disk (opened repo)) }
    ensures hindered { IfErr result (λ e. IsHindered D.reading D.faults D.IsSteady HindersOnce disk e.disk e.why) }
{
    let journal = Journal::create(alloc, disk, REPOSITORY, ROOM)?;
    over(alloc, journal)
}

/// The repository over the journal on a disk.
fn open_on<D: Disk>(alloc: Global, disk: D) -> Result<Repo<Journal<D>>, JournalOpen<D>>
    ensures begun { IfOk result (λ repo. IsBegun D.reading D.faults D.IsSteady IsHistoryOf disk (opened repo)) }
    ensures same { IfOk result (λ repo. Keeps (D.reading disk) (D.reading repo.keeper.disk)) }
    ensures hindered { IfErr result (λ e. IsHindered D.reading D.faults D.IsSteady IsCauseIn disk e.disk e.why) }
{
    let journal = Journal::open(alloc, disk, ROOM)?;
    over(alloc, journal)
}

/// The repository over a journal, which is only read. Else its disk is given back.
fn over<D: Disk>(alloc: Global, journal: Journal<D>) -> Result<Repo<Journal<D>>, JournalOpen<D>>
    requires { journal.doubt ≡ false }
    ensures over { IfOk result (λ repo. IsOver D.reading D.faults D.IsSteady journal (opened repo)) }
    ensures not_over { IfErr result (λ e. IsNotOver D.reading D.faults D.IsSteady journal e.disk e.why) }
{
    match Repo::open(alloc, journal) {
        Ok(repo) => Ok(repo),
        Err(RepoOpen { keeper, why }) => Err(JournalOpen {
            disk: keeper.into_disk(),
            why: cause(why),
        }),
    }
}

/// Why no journal is opened where no repository is opened over it.
fn cause(why: OpenFault) -> JournalFault
    ensures { result ≡ causes why }
{
    match why {
        OpenFault::Fault => JournalFault::Fault,
        OpenFault::Damaged { place } => JournalFault::Damaged { place },
        OpenFault::Memory => JournalFault::Memory,
    }
}
