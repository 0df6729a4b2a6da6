//! One session over a source and a sink: each request is answered by the repository before the next is read.
#![tactic(auto)]

mod begin;
mod check;
mod end;
mod laws;
mod offline;
mod outcome;
mod send;
mod session;
mod turn;
mod words;

pub use laws::{all_are_judged, is_complete, points_never_go_back};
pub use offline::{REPOSITORY, ROOM, run_offline};
pub use outcome::{Outcome, Served};
pub use session::{BYTES_MOST, PIECE, serve_alone};

#[cfg(test)]
mod tests;
