ghost use Rattle.std.specs.Prelude.{◌≡◌, ◌≤◌, Some, length};
ghost use Rattle.http_wire.specs.Responses.{HasPhrase, phrase};

use http::StatusCode;

/// The phrase of a status. Neither of the empty texts is reached.
pub(crate) fn phrase(status: u16) -> &'static str
    requires { HasPhrase status }
    ensures text { phrase status ≡ Some result.now }
    ensures short { length result.now ≤ 31 }
{
    match StatusCode::from_u16(status) {
        Ok(code) => code.canonical_reason().unwrap_or(""),
        Err(_) => "",
    }
}
