ghost use Rattle.std.specs.Prelude.{IsUtf8, ◌≡◌, ◌<◌, ◌↔◌, ◌-◌, ℕ, min, IsSome, IfSome};
ghost use Rattle.sysapi_base.specs.Moment.{moment_text};

mod text;

use self::text::{date_text, time_text};
use std::marker::Model;

/// The first millisecond of the year 10000, counted from 1970.
pub const END: u64 = 253_402_300_800_000;

/// A moment from 1970 to 9999, seen as its milliseconds since 1970.
#[derive(Clone, Copy, Debug, PartialEq, Eq)]
pub struct Moment {
    millis: u64,
}

impl Model for Moment {
    ghost use Rattle.std.specs.Prelude.{◌<◌, ℕ};
    ghost use Rattle.sysapi_base.specs.declared.moment.TheConstants.{END};

    ghost Value = { ℕ };

    ghost view = { λ m. m.millis };

    ghost invariant = { λ m. m.millis < END };

    ghost inverse = { λ n. record { millis = n } };
}

impl Moment {
    /// The moment so many milliseconds after the start of 1970. `None` from the year 10000 on.
    pub fn from_millis(n: u64) -> Option<Moment>
        ensures valid { IsSome result ↔ (n < END) }
        ensures value { IfSome result (λ m. m ≡ n) }
    {
        if n < END {
            Some(Moment { millis: n })
        } else {
            None
        }
    }

    /// The moment so many milliseconds after the start of 1970, or the last one where that is later.
    pub fn at_most(n: u64) -> Moment
        ensures { result ≡ min n (END - 1) }
    {
        Moment {
            millis: n.min(END - 1),
        }
    }

    /// The milliseconds since the start of 1970.
    pub fn millis(&self) -> u64
        ensures value { result ≡ self.now }
        ensures bound { result < END }
    {
        self.millis
    }

    /// The moment's text, as `2000-01-01T00:00:00.000Z` (RFC 3339).
    pub fn text(&self) -> [u8; 24]
        ensures text { result ≡ moment_text self.now }
        ensures utf8 { IsUtf8 result }
    {
        written(self.millis)
    }
}

/// The text of the moment so many milliseconds after the start of 1970.
fn written(millis: u64) -> [u8; 24]
    requires { millis < END }
    ensures { result ≡ moment_text millis }
{
    let mut text = [b'T'; 24];
    text[..10].copy_from_slice(&date_text(millis / 86_400_000));
    text[11..23].copy_from_slice(&time_text(millis));
    text[23] = b'Z';
    text
}
