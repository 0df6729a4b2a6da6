//! Commits by number, each with at most one earlier previous.
#![tactic(auto)]

mod error;
mod graph;
mod stable;

pub use error::AddError;
pub use graph::Graph;
pub use stable::is_stable;

#[cfg(test)]
mod tests;
