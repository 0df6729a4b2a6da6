ghost use Rattle.std.specs.Prelude.{◌≡◌};
ghost use Rattle.http_wire.specs.declared.error.WireError.TheVariants.{Memory};

use std::alloc::AllocError;

/// Why no request could be taken from the front.
#[derive(Clone, Copy, Debug, PartialEq, Eq)]
pub enum WireError {
    /// No head of a request begins like this (RFC 9112, sections 2 to 5).
    BadHead,
    /// A form of request that isn't built.
    UnknownCoding,
    /// No memory was found.
    Memory,
}

impl From<AllocError> for WireError {
    ghost from_gives = { λ _ e. e ≡ Memory };

    fn from(_error: AllocError) -> WireError {
        WireError::Memory
    }
}
