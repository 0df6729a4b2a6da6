//! Entries as bytes.
//!
//! Numbers are big-endian. A text is its length in four bytes and its UTF-8 bytes. Of what is optional 00 says that it is not there,
//! and 01 stands before it. A list is the number of its members in four bytes and the members. A document is the text that `Doc::write`
//! gives for it, written as a text is. An id is 16 bytes.
//!
//! An entry is its moment, in milliseconds since 1970 in eight bytes, a tag of one byte and the fields of its command. Nothing follows.
//! An entry has at most 2^27 bytes, and its command is one that can be stored.
//!
//! | tag | command | fields |
//! |---|---|---|
//! | 01 | `CreateProject` | optional name, optional description |
//! | 02 | `UpdateProject` | id of the project, optional name, optional description, optional id of the default branch |
//! | 03 | `DeleteProject` | id of the project |
//! | 04 | `CreateCommit` | id of the project, optional id of the branch, list of the ids of previous commits, optional description, list of changes, each an optional identity and an optional payload |
//! | 05 | `CreateBranch` | id of the project, optional name, optional id of the head |
//! | 06 | `DeleteBranch` | id of the project, id of the branch |
//! | 07 | `CreateTag` | id of the project, optional name, id of the commit |
//! | 08 | `DeleteTag` | id of the project, id of the tag |
#![tactic(auto)]

mod error;
mod laws;
mod reading;
mod writing;

pub use error::DecodeError;
pub use laws::one_spelling;
pub use reading::decode;
pub use writing::{encode, encode_command};

#[cfg(test)]
mod tests;
