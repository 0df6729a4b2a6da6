//! The state of a repository whose entries are known.

ghost use Rattle.std.specs.Prelude.{◌≡◌, ◌<◌, ◌^◌, length};
ghost use Rattle.std.specs.List.{All};
ghost use Rattle.api_records.specs.Storable.{IsStorable};
ghost use Rattle.repo_state.specs.Opening.{Opens};

use crate::accept::AcceptError;
use crate::state::State;
use entry_codec::Entry;
use std::alloc::Global;

/// Why a list of entries makes no state.
#[derive(Debug, Drop)]
pub enum StateOpen {
    /// The entry at this place, counted from 0, is refused where it stands; the ones before it are not.
    NotAcceptable { place: u64 },
    /// No memory was found.
    Memory,
}

impl From<sysapi_base::Memory> for StateOpen {
    ghost use Rattle.std.specs.Prelude.{◌≡◌};
    ghost use Rattle.repo_state.specs.declared.open.StateOpen.TheVariants as error;

    ghost from_gives = { λ _ e. e ≡ error.Memory };

    fn from(_error: sysapi_base::Memory) -> StateOpen {
        StateOpen::Memory
    }
}

impl State {
    /// The state of a repository with these entries, the oldest first; or the place of the first one that is refused where it stands.
    pub fn open(alloc: Global, repository: u64, history: &[Entry]) -> Result<State, StateOpen>
        requires number { repository < 2 ^ 48 }
        requires storable { All (λ e. IsStorable e.command) history.now }
        requires few { length history.now < 2 ^ 36 }
        ensures opens { Opens repository history.now result }
    {
        let mut state = State::start(alloc, repository);
        for (index, entry) in history.iter().enumerate() {
            let place = index as u64;
            match state.accept(alloc, entry.moment, &entry.command) {
                Ok(accepted) => state = accepted.state,
                Err(AcceptError::Refused(_)) => return Err(StateOpen::NotAcceptable { place }),
                Err(AcceptError::Memory) => return Err(StateOpen::Memory),
            }
        }
        Ok(state)
    }
}
