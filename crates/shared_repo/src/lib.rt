//! A repository over a keeper of records: its state, and the history of accepted commands that the keeper holds, each as the bytes of
//! its entry.
#![tactic(auto)]

mod calls;
mod commit;
mod fault;
mod laws;
mod load;
mod repo;

pub use fault::{RepoOpen, WriteError, Written};
pub use laws::{never_damaged, spelled_once};
pub use repo::Repo;

#[cfg(test)]
mod tests;
