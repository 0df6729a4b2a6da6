//! Why a journal isn't opened, or a record isn't read.

ghost use Rattle.std.specs.Prelude.{◌≡◌};
ghost use Rattle.journal_disk.specs.declared.fault.JournalFault.TheVariants as JournalFaults;
ghost use Rattle.journal_disk.specs.declared.fault.RecordError.TheVariants as RecordErrors;

use std::alloc::{AllocError, AllocFailed};
use sysapi_base::Failed;

/// Why a journal isn't opened or created.
#[derive(Clone, Copy, Debug, PartialEq, Eq)]
pub enum JournalFault {
    /// A call of the disk failed.
    Fault,
    /// The bytes are no journal's: there is no header, and the place is 0, or an open gate stands at the place 2^36 or above, or
    /// behind it stands a length above 2^27, or a record that doesn't fit the disk with the gate after it. The place is then that
    /// gate's.
    Damaged { place: u64 },
    /// The header is another version's.
    OtherVersion { version: u8 },
    /// No memory was found.
    Memory,
}

impl From<Failed> for JournalFault {
    ghost from_gives = { λ _ e. e ≡ JournalFaults.Fault };

    fn from(_failed: Failed) -> JournalFault {
        JournalFault::Fault
    }
}

impl<T: Drop> From<AllocFailed<T>> for JournalFault {
    ghost from_gives = { λ _ e. e ≡ JournalFaults.Memory };

    fn from(_failed: AllocFailed<T>) -> JournalFault {
        JournalFault::Memory
    }
}

/// The disk of a journal that wasn't opened or created, and why.
#[derive(Debug, Drop)]
pub struct JournalOpen<D> {
    pub disk: D,
    pub why: JournalFault,
}

/// Why a repository isn't opened over a keeper.
#[derive(Clone, Copy, Debug, PartialEq, Eq)]
pub enum OpenFault {
    /// A record wasn't read.
    Fault,
    /// The record at this place is no entry that is acceptable there.
    Damaged { place: u64 },
    /// No memory was found.
    Memory,
}

/// How a program ended over something that it was handed.
#[derive(Debug, Drop)]
pub struct Ran<T> {
    /// The status with which it ends.
    pub status: u8,
    /// What it was handed, which is given back. `None` where no memory was found to take it out of what it was in.
    pub kept: Option<T>,
}

/// Why a record isn't read.
#[derive(Clone, Copy, Debug, PartialEq, Eq)]
pub enum RecordError {
    /// A call of the disk failed.
    Fault,
    /// No memory was found.
    Memory,
}

impl From<AllocError> for RecordError {
    ghost from_gives = { λ _ e. e ≡ RecordErrors.Memory };

    fn from(_error: AllocError) -> RecordError {
        RecordError::Memory
    }
}
