use api_records::Command;
use sysapi_base::Moment;

/// An accepted command and the moment of its request.
#[derive(Drop)]
pub struct Entry {
    /// When it was judged.
    pub moment: Moment,
    /// What was asked.
    pub command: Command,
}
