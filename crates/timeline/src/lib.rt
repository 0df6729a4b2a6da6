//! Values by id, each with the points from which and up to which it holds.
#![tactic(auto)]

mod histories;
mod history;
mod stable;
mod timeline;

pub use stable::is_stable;
pub use timeline::Timeline;

#[cfg(test)]
mod tests;
