use std::alloc::{AllocError, AllocFailed};

/// Why bytes are no document. Of several causes the first in the order NotUtf8, Syntax, TooDeep, NotWhole is told.
#[derive(Clone, Copy, Debug, PartialEq, Eq)]
pub enum DocError {
    /// They are UTF-8 and no JSON text (RFC 8259, section 2). It is also said of lists and objects that nest deeper than 127, and
    /// of a number that no 64-bit float is near to (RFC 8259, section 6).
    Syntax,
    /// They are not UTF-8 (RFC 3629), in which JSON is exchanged (RFC 8259, section 8.1).
    NotUtf8,
    /// A number has a fraction or an exponent, is `-0`, or lies outside -2^63 to 2^64 - 1.
    NotWhole,
    /// Lists and objects nest deeper than 100.
    TooDeep,
    /// No memory was found.
    Memory,
}

impl From<AllocError> for DocError {
    ghost use Rattle.std.specs.Prelude.{◌≡◌};
    ghost use Rattle.doc_value.specs.declared.error.DocError.TheVariants.{Memory};

    ghost from_gives = { λ _ e. e ≡ Memory };

    fn from(_error: AllocError) -> DocError {
        DocError::Memory
    }
}

impl<T: Drop> From<AllocFailed<T>> for DocError {
    ghost use Rattle.std.specs.Prelude.{◌≡◌};
    ghost use Rattle.doc_value.specs.declared.error.DocError.TheVariants.{Memory};

    ghost from_gives = { λ _ e. e ≡ Memory };

    fn from(_failed: AllocFailed<T>) -> DocError {
        DocError::Memory
    }
}
