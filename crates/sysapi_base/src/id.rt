ghost use Rattle.std.specs.Prelude.{IsUtf8, ◌≡◌, ℕ, ◌^◌, ◌<◌, Some};
ghost use Rattle.sysapi_base.specs.Id.{id_of, id_text, made_id};

use std::marker::Model;
use uuid::Uuid;

// The version 8 and the variant 10 at their places in an id (RFC 9562, section 5.8).
const KIND: u128 = 8 << 76 | 2 << 62;

/// The identifier of a record, seen as its 128-bit number (RFC 9562).
#[derive(Clone, Copy, Debug, PartialEq, Eq, PartialOrd, Ord, Hash)]
pub struct Id {
    number: u128,
}

impl Model for Id {
    ghost use Rattle.std.specs.Prelude.{ℕ};

    ghost Value = { ℕ };

    ghost view = { λ a. a.number };

    ghost inverse = { λ n. record { number = n } };
}

impl Id {
    /// The id with this number.
    pub fn from_u128(n: u128) -> Id
        ensures { result ≡ n }
    {
        Id { number: n }
    }

    /// The id that a server makes of a serial: its repository's number, version 8, variant 10 and the serial (RFC 9562,
    /// section 5.8).
    pub fn made(repository: u64, serial: u64) -> Id
        requires repository { repository < 2 ^ 48 }
        requires serial { serial < 2 ^ 62 }
        ensures { result ≡ made_id repository serial }
    {
        Id {
            number: ((repository as u128) << 80) + KIND + serial as u128,
        }
    }

    /// The id's number.
    pub fn number(&self) -> u128
        ensures { result ≡ self.now }
    {
        self.number
    }

    /// The id's text: 8-4-4-4-12 hexadecimal digits in lower case with hyphens (RFC 9562, section 4).
    pub fn text(&self) -> [u8; 36]
        ensures text { result ≡ id_text self.now }
        ensures reads { id_of (id_text self.now) ≡ Some self.now }
        ensures utf8 { IsUtf8 result }
    {
        let mut buffer = [0u8; 36];
        let text = Uuid::from_u128(self.number)
            .hyphenated()
            .encode_lower(&mut buffer);
        let mut out = [0u8; 36];
        out.copy_from_slice(text.as_bytes());
        out
    }

    /// The id whose text this is, with digits in either case. `None` where it is no id's text.
    pub fn parse(text: &str) -> Option<Id>
        ensures { result ≡ id_of text.now }
    {
        Id::parse_ascii(text.as_bytes())
    }

    /// The same of bytes.
    pub fn parse_ascii(text: &[u8]) -> Option<Id>
        ensures { result ≡ id_of text.now }
    {
        if text.len() != 36 {
            return None;
        }
        match Uuid::try_parse_ascii(text) {
            Ok(uuid) => Some(Id {
                number: uuid.as_u128(),
            }),
            Err(_) => None,
        }
    }
}

/// The text of each id is read as that id.
pub fn keeps_ids()
    ensures { (n : ℕ) → n < 2 ^ 128 → id_of (id_text n) ≡ Some n }
{}

/// Ids that are made are equal only where their serials are, and their repositories.
pub fn distinct_ids()
    ensures serials { (repository serial other : ℕ) → made_id repository serial ≡ made_id repository other → serial ≡ other }
    ensures repositories { (one other serial next : ℕ) → serial < 2 ^ 62 → next < 2 ^ 62 → made_id one serial ≡ made_id other next → one ≡ other }
{}
