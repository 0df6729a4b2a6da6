ghost use Rattle.std.specs.Prelude.{◌≡◌};
ghost use Rattle.http_wire.specs.Dates.{http_date};

use httpdate::HttpDate;
use sysapi_base::Moment;

/// The moment as IMF-fixdate (RFC 9110, section 5.6.7). A `Moment` lies before the year 10000, so `Err` is not reached.
pub(crate) fn http_date(moment: Moment) -> [u8; 29]
    ensures { result ≡ http_date moment }
{
    match HttpDate::from_unix_secs(moment.millis() / 1000) {
        Ok(date) => date.to_bytes(),
        Err(_) => [0; 29],
    }
}
