//! The bytes of a journal: a record's text, in a buffer that has room for it, and the header's.

ghost use Rattle.std.specs.Prelude.{◌≡◌, ◌+◌, ◌≤◌, ◌^◌, [], ◌∷◌, ◌++◌, length, vec_capacity, IsTrue};
ghost use Rattle.journal_disk.specs.Format.{body, header};

/// The version that is read and written.
pub(crate) const VERSION: u8 = 1;

/// The header's text.
pub(crate) const TEXT: [u8; 7] = *b"SYSAPIJ";

/// A gate that is open.
pub(crate) const OPEN: u8 = 1;

/// A gate that is closed, as it is written.
pub(crate) const CLOSED: u8 = 0;

/// A record's length, its bytes and a closed gate. It takes no memory.
#[tactic(auto, unfolding(crate::specs::Format::body))]
pub(crate) fn fill(buffer: &mut Vec<u8>, bytes: &[u8])
    requires room { length bytes.now + 5 ≤ vec_capacity buffer.old }
    requires size { length bytes.now ≤ 2 ^ 27 }
    ensures items { buffer.new.items ≡ body bytes.now ++ 0 ∷ [] }
    ensures capacity { vec_capacity buffer.old ≤ vec_capacity buffer.new }
{
    buffer.clear();
    let len = bytes.len() as u32;
    let _ = buffer.extend_from_slice(&len.to_be_bytes());
    let _ = buffer.extend_from_slice(bytes);
    let _ = buffer.push(CLOSED);
}

/// Room for this many bytes in all.
pub(crate) fn make_room(buffer: &mut Vec<u8>, len: usize) -> bool
    ensures capacity { vec_capacity buffer.old ≤ vec_capacity buffer.new }
    ensures room { IsTrue result → len ≤ vec_capacity buffer.new }
{
    buffer.clear();
    buffer.reserve(len).is_ok()
}

/// The bytes of an empty journal.
#[tactic(auto, unfolding(crate::specs::Format::header_of))]
pub(crate) fn empty_text(repository: u64) -> [u8; 17]
    ensures { result ≡ header repository ++ 0 ∷ [] }
{
    let n = repository.to_be_bytes();
    [
        b'S', b'Y', b'S', b'A', b'P', b'I', b'J', VERSION, n[2], n[3], n[4], n[5], n[6], n[7], 0,
        0, CLOSED,
    ]
}
