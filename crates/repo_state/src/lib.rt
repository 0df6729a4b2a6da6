//! The state of a repository, and what commands make of it.
#![tactic(auto)]

mod accept;
mod branch;
mod check;
mod commit;
mod data;
mod id_set;
mod list;
mod number;
mod open;
mod own;
mod project;
mod read;
mod row;
mod state;
mod tag;

pub use accept::{AcceptError, Accepted};
pub use data::CommitData;
pub use list::Kind;
pub use open::StateOpen;
pub use state::State;
