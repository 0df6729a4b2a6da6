//! HTTP/1.1 requests from a stream of bytes, and the bytes of responses (RFC 9112).
#![tactic(auto)]

mod date;
mod error;
mod feed;
mod fields;
mod fixed;
mod front;
mod head;
mod laws;
mod lines;
mod request;
mod response;
mod status;

pub use error::WireError;
pub use feed::Feed;
pub use fields::BODY_MOST;
pub use fixed::Fixed;
pub use head::{FIELDS_MOST, HEAD_MOST};
pub use laws::{any_cut, front_stays, nothing_yet, one_front, one_reading, same_error};
pub use request::Request;
pub use response::{Response, fixed_response, write_response};

#[cfg(test)]
mod feed_tests;
