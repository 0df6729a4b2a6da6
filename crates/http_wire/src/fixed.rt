ghost use Rattle.std.specs.Prelude.{◌≡◌, ◌+◌, ◌≤◌, ◌++◌, [], length, decimal};

use itoa::Buffer;
use std::marker::Model;

/// How many bytes a `Fixed` holds at most: more than any head with one of the fixed bodies has.
pub(crate) const ROOM: usize = 256;

/// A response's text that takes no memory, seen as the list of its bytes.
#[derive(Debug, Drop)]
pub struct Fixed {
    bytes: [u8; ROOM],
    length: usize,
}

impl Model for Fixed {
    ghost use Rattle.std.specs.Prelude.{ℕ, List, ◌≤◌, take};
    ghost use Rattle.http_wire.specs.declared.fixed.TheConstants.{ROOM};

    ghost Value = { List ℕ };

    ghost view = { λ f. take f.length f.bytes };

    ghost invariant = { λ f. f.length ≤ ROOM };
}

impl Fixed {
    /// No bytes.
    pub(crate) fn new() -> Fixed
        ensures { result ≡ [] }
    {
        Fixed {
            bytes: [0; ROOM],
            length: 0,
        }
    }

    /// The bytes, lent.
    pub fn as_slice(&self) -> &[u8]
        ensures { result.now ≡ self.now }
    {
        &self.bytes[..self.length]
    }

    /// Adds the bytes at the end.
    pub(crate) fn put(&mut self, piece: &[u8])
        requires { length self.old + length piece.now ≤ ROOM }
        ensures text { self.new ≡ self.old ++ piece.now }
        ensures size { length self.new ≡ length self.old + length piece.now }
    {
        let end = self.length + piece.len();
        self.bytes[self.length..end].copy_from_slice(piece);
        self.length = end;
    }

    /// Adds the number in decimal digits.
    pub(crate) fn put_number(&mut self, n: u64)
        requires { length self.old + 20 ≤ ROOM }
        ensures text { self.new ≡ self.old ++ decimal n }
        ensures size { length self.new ≤ length self.old + 20 }
    {
        let mut digits = Buffer::new();
        self.put(digits.format(n).as_bytes());
    }
}
