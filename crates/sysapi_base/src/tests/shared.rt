use crate::*;
use std::test::Fail;

// Takes what threads may share and what may be dropped.
fn shared<T: Send + Sync + Drop>(_value: T) {}

#[test]
fn all_may_be_shared(rt: HostRuntime) -> Result<(), Fail> {
    let alloc = rt.alloc();
    shared(Id::from_u128(0));
    shared(Moment::at_most(0));
    shared(Text::of(String::new(alloc)));
    shared(Bytes::of(Vec::new(alloc)));
    shared((Failed, Memory));
    shared(FailingCalls::none(alloc));
    shared(MemorySource::new(alloc, Vec::new(alloc)));
    shared(MemorySink::new(alloc));
    shared(MemoryClock::new(Moment::at_most(0), 1));
    shared(StreamSource::new(0));
    shared(StreamSink::new(0));
    shared(SystemClock::new(rt));
    Ok(())
}
