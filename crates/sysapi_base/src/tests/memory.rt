use crate::{Clock, END, Failed, MemoryClock, MemorySink, MemorySource, Moment, Sink, Source};
use std::test::Fail;

#[test]
fn a_source_fails_in_mid_stream_and_goes_on(rt: HostRuntime) -> Result<(), Fail> {
    let bytes = [1, 2, 3, 4, 5].to_vec(rt.alloc())?;
    let calls = [1].to_vec(rt.alloc())?;
    let mut source = MemorySource::failing(bytes, calls).in_pieces(2);
    let mut into = [0u8; 4];
    assert_eq!(rt; source.read(&mut into), Ok(2));
    assert_eq!(rt; into, [1, 2, 0, 0]);
    assert_eq!(rt; source.read(&mut into), Err(Failed));
    assert_eq!(rt; into, [1, 2, 0, 0]);
    assert_eq!(rt; source.read(&mut into), Ok(2));
    assert_eq!(rt; into, [3, 4, 0, 0]);
    assert_eq!(rt; source.read(&mut into), Ok(1));
    assert_eq!(rt; into, [5, 4, 0, 0]);
    assert_eq!(rt; source.read(&mut into), Ok(0));
    Ok(())
}

#[test]
fn a_sink_fails_in_mid_stream_and_goes_on(rt: HostRuntime) -> Result<(), Fail> {
    let calls = [0, 2].to_vec(rt.alloc())?;
    let mut sink = MemorySink::failing(rt.alloc(), calls).in_pieces(3);
    assert_eq!(rt; sink.write(&[1, 2, 3, 4]), Err(Failed));
    assert_eq!(rt; sink.write(&[1, 2, 3, 4]), Ok(3));
    assert_eq!(rt; sink.write(&[4]), Err(Failed));
    assert_eq!(rt; sink.write(&[4]), Ok(1));
    assert_eq!(rt; sink.bytes(), Some([1, 2, 3, 4].as_slice()));
    Ok(())
}

#[test]
fn objects_that_never_fail(rt: HostRuntime) -> Result<(), Fail> {
    let mut source = MemorySource::new(rt.alloc(), [7, 8].to_vec(rt.alloc())?);
    let mut into = [0u8; 3];
    assert_eq!(rt; source.read(&mut into), Ok(2));
    let mut sink = MemorySink::new(rt.alloc());
    assert_eq!(rt; sink.write(&into[..2]), Ok(2));
    assert_eq!(rt; sink.bytes(), Some([7, 8].as_slice()));
    Ok(())
}

#[test]
fn a_clock_stops_at_the_last_moment(rt: HostRuntime) -> Result<(), Fail> {
    let first = Moment::from_millis(END - 4).ok_or("the moment is in range")?;
    let mut clock = MemoryClock::new(first, 2);
    for want in [END - 4, END - 2, END - 1, END - 1] {
        assert_eq!(rt; clock.now().millis(), want);
    }
    let mut twin = clock.twin();
    assert_eq!(rt; twin.now().millis(), END - 4);
    assert_eq!(rt; clock.now().millis(), END - 1);
    Ok(())
}
