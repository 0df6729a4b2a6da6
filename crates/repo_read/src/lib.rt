//! Replies to look-ups.
#![tactic(auto)]

mod list;
mod listing;
mod one;
mod reading;
mod record;

pub use reading::{answer, answer_at};

#[cfg(test)]
mod tests;
