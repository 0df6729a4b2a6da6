use std::alloc::{AllocError, AllocFailed};
use sysapi_base::{Memory, Text};

/// Why a body is no document of its route.
#[derive(Debug, Drop)]
pub enum BodyError {
    /// The bytes are no JSON text (RFC 8259) in UTF-8.
    BadJson,
    /// A number in it isn't whole, or out of range.
    NotWhole,
    /// Its lists and objects nest too deep.
    TooDeep,
    /// The value of this key is the first wrong one. The key is empty where the body is no object.
    BadShape { key: Text },
}

/// Why a request asks for no call.
#[derive(Debug, Drop)]
pub enum RestError {
    /// The path has no route.
    NoRoute,
    /// The route takes other methods than this one, joined by `, `.
    NoMethod { allowed: Text },
    /// The part of the path with this name is the first that is no id's text.
    BadId { key: Text },
    /// The parameter of this name occurs twice, or isn't an id's text.
    BadParameter { key: Text },
    /// The body asks for no command.
    BadBody { why: BodyError },
    /// No memory was found, or the command's entry would be too long to be kept.
    Memory,
}

impl From<Memory> for RestError {
    ghost use Rattle.std.specs.Prelude.{◌≡◌};
    ghost use Rattle.api_rest.specs.declared.error.RestError.TheVariants as rest;

    ghost from_gives = { λ _ e. e ≡ rest.Memory };

    fn from(_error: Memory) -> RestError {
        RestError::Memory
    }
}

impl From<AllocError> for RestError {
    ghost use Rattle.std.specs.Prelude.{◌≡◌};
    ghost use Rattle.api_rest.specs.declared.error.RestError.TheVariants as rest;

    ghost from_gives = { λ _ e. e ≡ rest.Memory };

    fn from(_error: AllocError) -> RestError {
        RestError::Memory
    }
}

impl<T: Drop> From<AllocFailed<T>> for RestError {
    ghost use Rattle.std.specs.Prelude.{◌≡◌};
    ghost use Rattle.api_rest.specs.declared.error.RestError.TheVariants as rest;

    ghost from_gives = { λ _ e. e ≡ rest.Memory };

    fn from(_failed: AllocFailed<T>) -> RestError {
        RestError::Memory
    }
}
