use http_wire::WireError;

/// How a session ended.
#[derive(Clone, Copy, Debug, PartialEq, Eq)]
pub enum Outcome {
    /// The source ended between two requests.
    Ended,
    /// The last request asked to close the connection, and was answered.
    Closed,
    /// What stood at the front was no request, and was answered so.
    Refused(WireError),
    /// The source ended inside a request.
    CutShort,
    /// The source failed.
    ReadFault,
    /// The sink failed.
    WriteFault,
    /// So many bytes were read that no more are.
    Spent,
    /// No memory was found for the bytes of a request, or for the response to an error.
    Memory,
}

/// What a session did.
#[derive(Clone, Copy, Debug, PartialEq, Eq)]
pub struct Served {
    pub outcome: Outcome,
    /// How many requests were answered, their responses written whole.
    pub answered: u64,
}
