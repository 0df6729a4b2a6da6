ghost use Rattle.std.specs.Prelude.{◌≡◌, ◌≤◌, [], length, IfOk, if◌then◌else◌};
ghost use Rattle.http_wire.specs.Responses.{HasPhrase, IsFixedStatus, fixed_body, fixed_text, response_text};

use crate::fixed::Fixed;
use crate::lines::{allow_size, ending, opening, put_allow};
use std::alloc::Global;
use sysapi_base::{Bytes, Memory, Moment, Text};

#[cfg(test)]
mod tests;

/// A response whose body is JSON.
#[derive(Debug, Drop)]
pub struct Response {
    /// The status (RFC 9110, section 15).
    pub status: u16,
    /// When the response was made.
    pub moment: Moment,
    /// The methods that the target takes, joined by `, `, told by a response of status 405 (RFC 9110, section 10.2.1).
    pub allow: Option<Text>,
    /// Whether the connection ends after it.
    pub close: bool,
    /// Whether the body is not sent, as in the response to HEAD. The head tells its length all the same.
    pub no_body: bool,
    /// The body.
    pub body: Bytes,
}

/// The bytes of a response (RFC 9112, sections 2.1 and 4). The status is one that has a phrase: 200, 201, 400, 403, 404, 405, 409,
/// 413, 431, 500, 501, 503 or 507. The only error is want of memory.
pub fn write_response(alloc: Global, response: &Response) -> Result<Vec<u8>, Memory>
    requires { HasPhrase response.now.status }
    ensures { IfOk result (λ text. text.items ≡ response_text response.now) }
{
    let body = response.body.as_slice();
    let opening = opening(response.status, response.moment, body.len());
    let opening = opening.as_slice();
    let ending = ending(response.close);
    let sent = sent(response.no_body, body);
    // The sum of two long texts may pass the largest number, and no vector has so much room.
    let size = (opening.len() + ending.len())
        .saturating_add(allow_size(&response.allow))
        .saturating_add(sent.len());
    let mut text = Vec::with_capacity(alloc, size)?;
    text.extend_from_slice(opening)?;
    put_allow(&mut text, &response.allow)?;
    text.extend_from_slice(ending)?;
    text.extend_from_slice(sent)?;
    Ok(text)
}

/// The response that tells a failure, made without memory: 500 where the keeper failed, 503 where no memory was found, and 507 where
/// the keeper is full. The status is one of these.
pub fn fixed_response(status: u16, moment: Moment, close: bool, no_body: bool) -> Fixed
    requires { IsFixedStatus status }
    ensures { result ≡ fixed_text status moment close no_body }
{
    let body = fixed_body(status);
    let mut text = opening(status, moment, body.len());
    text.put(ending(close));
    text.put(sent(no_body, body));
    text
}

fn fixed_body(status: u16) -> &'static [u8]
    requires { IsFixedStatus status }
    ensures text { result.now ≡ fixed_body status }
    ensures size { length result.now ≤ 34 }
{
    match status {
        500 => br#"{"@type":"Error","error":"device"}"#,
        503 => br#"{"@type":"Error","error":"memory"}"#,
        _ => br#"{"@type":"Error","error":"full"}"#,
    }
}

fn sent(no_body: bool, body: &[u8]) -> &[u8]
    ensures text { result.now ≡ (if no_body then [] else body.now) }
    ensures size { length result.now ≤ length body.now }
{
    if no_body { b"" } else { body }
}
