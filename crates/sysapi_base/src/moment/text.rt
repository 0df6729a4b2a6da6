//! The digits of a moment's text.

ghost use Rattle.std.specs.Prelude.{◌≡◌, ◌+◌, ◌≤◌, ◌%◌, ◌<◌};
ghost use Rattle.sysapi_base.specs.Calendar.{date_of};
ghost use Rattle.sysapi_base.specs.Moment.{date_text, time_text};
ghost use Rattle.sysapi_base.specs.Civil.{IsSameDate};

use jiff_core::civil::Date;

// The day before the year 10000.
const LAST_DAY: u64 = 2_932_896;

// As 2000-01-01, of the days since 1970.
pub(crate) fn date_text(days: u64) -> [u8; 10]
    requires { days ≤ LAST_DAY }
    ensures { result ≡ date_text (date_of days) }
{
    let date = civil_date(days);
    let year = date.year as u64;
    let month = date.month as u64;
    let day = date.day as u64;
    [
        digit(year / 1000),
        digit(year / 100),
        digit(year / 10),
        digit(year),
        b'-',
        digit(month / 10),
        digit(month),
        b'-',
        digit(day / 10),
        digit(day),
    ]
}

// As 00:00:00.000, of the milliseconds since 1970.
pub(crate) fn time_text(millis: u64) -> [u8; 12]
    ensures { result ≡ time_text millis }
{
    let hour = millis / 3_600_000 % 24;
    let minute = millis / 60_000 % 60;
    let second = millis / 1000 % 60;
    [
        digit(hour / 10),
        digit(hour),
        b':',
        digit(minute / 10),
        digit(minute),
        b':',
        digit(second / 10),
        digit(second),
        b'.',
        digit(millis / 100),
        digit(millis / 10),
        digit(millis),
    ]
}

fn civil_date(days: u64) -> Date
    requires { days ≤ LAST_DAY }
    ensures { IsSameDate result (date_of days) }
{
    match Date::from_unix_epoch_day(days as i64) {
        Ok(date) => date,
        Err(_) => unreachable!(),
    }
}

// The last decimal digit, in ASCII.
fn digit(n: u64) -> u8
    ensures { result ≡ 48 + n % 10 }
{
    b'0' + (n % 10) as u8
}
