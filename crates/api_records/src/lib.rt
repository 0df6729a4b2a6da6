//! Commands and the records that they make (Systems Modeling API 1.0), with the bodies that ask for the ones and the documents that
//! tell the others.
#![tactic(auto)]

mod body;
mod command;
mod document;
mod laws;
mod length;
mod record;
mod refusal;
mod storable;

pub use body::{BodyKind, ShapeError};
pub use command::{Change, Changes, Command};
pub use document::optional_reference_doc;
pub use laws::draws_the_least;
pub use record::{Branch, Commit, Project, Tag, Version};
pub use refusal::Refusal;

#[cfg(test)]
mod tests;
