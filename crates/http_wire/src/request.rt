use sysapi_base::{Bytes, Text};

/// A whole request.
#[derive(Debug, Drop)]
pub struct Request {
    /// As it was sent, upper and lower case kept.
    pub method: Text,
    /// The request target as it was sent (RFC 9112, section 3.2).
    pub target: Text,
    /// Whether it is HTTP/1.0. No such request is built yet, so this is false.
    pub old: bool,
    /// The text of the host's URL. Not built yet, so this is None.
    pub host: Option<Text>,
    /// Whether the connection is to end with this request. Not built yet, so this is false.
    pub close: bool,
    /// Empty where the head has no Content-Length.
    pub body: Bytes,
}
