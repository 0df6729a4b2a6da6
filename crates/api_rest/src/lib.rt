//! From requests to calls, and from replies to responses: the binding of the repository to HTTP (Systems Modeling API 1.0, REST/HTTP
//! binding).
#![tactic(auto)]

mod asked;
mod error;
mod operation;
mod parameter;
mod response;
mod routes;
mod routing;
mod target;

pub use error::{BodyError, RestError};
pub use response::{is_head, respond, respond_error, respond_wire};
pub use routes::{Route, Routes};
pub use routing::route;
