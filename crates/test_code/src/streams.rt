//! Sources and sinks in memory whose calls of chosen numbers fail, and readers and writers of std.
use dap_base::{Failed, MemorySink, MemorySource, ReadSource, Sink, Source, WriteSink};
use std::test::Fail;

#[test]
fn listed_calls_of_a_source_fail_and_move_nothing(rt: HostRuntime) -> Result<(), Fail> {
    let mut source = MemorySource::new(rt.alloc(), b"abc", &[2])?;
    let mut buf = [0u8; 2];
    assert_eq!(rt; source.take(&mut buf), Ok(2));
    assert_eq!(rt; source.take(&mut buf), Err(Failed));
    assert_eq!(rt; source.take(&mut buf), Ok(1));
    assert_eq!(rt; buf, *b"cb");
    assert_eq!(rt; source.take(&mut buf), Ok(0));
    Ok(())
}

#[test]
fn listed_calls_of_a_sink_fail_and_append_nothing(rt: HostRuntime) -> Result<(), Fail> {
    let mut sink = MemorySink::new(rt.alloc(), &[1])?;
    assert_eq!(rt; sink.put(b"lost"), Err(Failed));
    assert_eq!(rt; sink.put(b"kept"), Ok(()));
    assert_eq!(rt; sink.bytes(), b"kept".as_slice());
    Ok(())
}

#[test]
fn std_readers_and_writers_are_adapted(rt: HostRuntime) -> Result<(), Fail> {
    let mut source = ReadSource::new(b"xyz".as_slice());
    let mut buf = [0u8; 2];
    assert_eq!(rt; source.take(&mut buf), Ok(2));
    assert_eq!(rt; buf, *b"xy");
    let mut room = [0u8; 3];
    let mut sink = WriteSink::new(room.as_mut_slice());
    assert_eq!(rt; sink.put(b"ab"), Ok(()));
    // A slice takes nothing once it is full.
    assert_eq!(rt; sink.put(b"cd"), Err(Failed));
    Ok(())
}
