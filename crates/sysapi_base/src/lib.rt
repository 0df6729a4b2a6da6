//! What every layer shares: ids, moments, texts, and the traits of the outside with their objects in memory.
#![tactic(auto)]

mod clock;
mod error;
mod failing;
mod id;
mod memory_clock;
mod memory_sink;
mod memory_source;
mod moment;
mod sink;
mod source;
mod stream_sink;
mod stream_source;
mod system_clock;
mod text;

pub use clock::Clock;
pub use error::{Failed, Memory};
pub use failing::FailingCalls;
pub use id::{Id, distinct_ids, keeps_ids};
pub use memory_clock::MemoryClock;
pub use memory_sink::MemorySink;
pub use memory_source::MemorySource;
pub use moment::{END, Moment};
pub use sink::Sink;
pub use source::Source;
pub use stream_sink::StreamSink;
pub use stream_source::StreamSource;
pub use system_clock::SystemClock;
pub use text::{Bytes, Ids, Text};

#[cfg(test)]
mod tests;
