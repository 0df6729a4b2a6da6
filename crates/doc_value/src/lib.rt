//! Documents: JSON (RFC 8259) whose numbers are whole, as values that are read, looked into, built and written.
#![tactic(auto)]

mod doc;
mod error;
mod read;

pub use doc::{Doc, Fields, Items, reads_back};
pub use error::DocError;

#[cfg(test)]
mod tests;
