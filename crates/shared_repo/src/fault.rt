//! What a command answers, and why a repository isn't opened.

ghost use Rattle.std.specs.Prelude.{◌≡◌};
ghost use Rattle.shared_repo.specs.declared.fault.WriteError.TheVariants as WriteErrors;

use api_records::Refusal;
use entry_codec::Reply;
use journal_disk::OpenFault;
use sysapi_base::Failed;

/// The keeper over which no repository was opened, and why.
#[derive(Debug, Drop)]
pub struct RepoOpen<Q> {
    pub keeper: Q,
    pub why: OpenFault,
}

/// A command that was accepted, and whose entry is kept.
#[derive(Drop)]
pub struct Written {
    /// The record that the command made, or changed, or, as it was before, ended.
    pub reply: Reply,
    /// The place of its entry in the history, counted from 0.
    pub place: u64,
}

/// Why a command isn't accepted.
#[derive(Debug, Drop)]
pub enum WriteError {
    /// It is refused at the point, which is the number of entries accepted before.
    Refused { refusal: Refusal, point: u64 },
    /// A call of the keeper failed.
    Fault,
    /// With its record `needed` bytes would be used, which is above the room.
    Full { needed: u64, room: u64 },
    /// No memory was found.
    Memory,
}

impl From<Failed> for WriteError {
    ghost from_gives = { λ _ e. e ≡ WriteErrors.Fault };

    fn from(_failed: Failed) -> WriteError {
        WriteError::Fault
    }
}

impl From<sysapi_base::Memory> for WriteError {
    ghost from_gives = { λ _ e. e ≡ WriteErrors.Memory };

    fn from(_error: sysapi_base::Memory) -> WriteError {
        WriteError::Memory
    }
}
