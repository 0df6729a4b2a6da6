use std::alloc::{AllocError, AllocFailed};
use sysapi_base::Memory;

/// Why bytes were not read as an entry.
#[derive(Clone, Copy, Debug, PartialEq, Eq)]
pub enum DecodeError {
    /// No entry that can be stored has these bytes.
    NotAnEntry,
    /// No memory was found.
    Memory,
}

impl From<Memory> for DecodeError {
    ghost use Rattle.std.specs.Prelude.{◌≡◌};
    ghost use Rattle.entry_bytes.specs.declared.error.DecodeError.TheVariants.{Memory};

    ghost from_gives = { λ _ e. e ≡ Memory };

    fn from(_error: Memory) -> DecodeError {
        DecodeError::Memory
    }
}

impl From<AllocError> for DecodeError {
    ghost use Rattle.std.specs.Prelude.{◌≡◌};
    ghost use Rattle.entry_bytes.specs.declared.error.DecodeError.TheVariants.{Memory};

    ghost from_gives = { λ _ e. e ≡ Memory };

    fn from(_error: AllocError) -> DecodeError {
        DecodeError::Memory
    }
}

impl<T: Drop> From<AllocFailed<T>> for DecodeError {
    ghost use Rattle.std.specs.Prelude.{◌≡◌};
    ghost use Rattle.entry_bytes.specs.declared.error.DecodeError.TheVariants.{Memory};

    ghost from_gives = { λ _ e. e ≡ Memory };

    fn from(_failed: AllocFailed<T>) -> DecodeError {
        DecodeError::Memory
    }
}
