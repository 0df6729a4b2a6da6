//! Entries, the calls that ask for them or for what they tell, and the replies to these. The definitions of what a history of entries
//! means stand here.
#![tactic(auto)]

mod call;
mod entry;
mod laws;
mod reply;

pub use call::{Call, ReadCall};
pub use entry::Entry;
pub use laws::commits_stay;
pub use reply::Reply;
