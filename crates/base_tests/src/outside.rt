//! The outside in memory, with ample memory: each call once, and calls that fail by number.
use bb_outside::mem_shelf::MemShelf;
use bb_outside::mem_sink::MemSink;
use bb_outside::mem_source::MemSource;
use bb_outside::{Shelf, ShelfFailed, Sink, SinkFailed, Source, SourceFailed};
use std::test::Fail;

#[test]
fn source_fails_at_its_second_call(rt: HostRuntime) -> Result<(), Fail> {
    let mut source = MemSource::new(rt.alloc(), b"AB", &[1])?;
    assert_eq!(rt; source.take(), Ok(Some(65)));
    assert_eq!(rt; source.take(), Err(SourceFailed));
    assert_eq!(rt; source.take(), Ok(Some(66)));
    assert_eq!(rt; source.take(), Ok(None));
    Ok(())
}

#[test]
fn sink_takes_what_has_room(rt: HostRuntime) -> Result<(), Fail> {
    let mut sink = MemSink::new(rt.alloc(), 3, &[1])?;
    assert_eq!(rt; sink.put(b"AB"), Ok(2));
    assert_eq!(rt; sink.put(b"C"), Err(SinkFailed));
    assert_eq!(rt; sink.put(b"DE"), Ok(1));
    assert_eq!(rt; sink.put(b""), Ok(0));
    assert_eq!(rt; sink.put(b"E"), Err(SinkFailed));
    assert_eq!(rt; sink.bytes(), b"ABD".as_slice());
    Ok(())
}

#[test]
fn shelf_fails_at_two_calls(rt: HostRuntime) -> Result<(), Fail> {
    let mut shelf = MemShelf::new(rt.alloc(), &[1, 4])?;
    shelf.add("f", b"abcdef")?;
    let mut piece = [0u8; 4];
    assert_eq!(rt; shelf.read("f", 4, &mut piece), Ok(Some(2)));
    assert_eq!(rt; shelf.read("f", 0, &mut piece), Err(ShelfFailed::Fault));
    assert_eq!(rt; shelf.read("g", 0, &mut piece), Ok(None));
    assert_eq!(rt; shelf.write("g", b"xy"), Ok(()));
    assert_eq!(rt; shelf.write("g", b"z"), Err(ShelfFailed::Fault));
    assert_eq!(rt; shelf.read("g", 0, &mut piece), Ok(Some(2)));
    assert_eq!(rt; piece, *b"xy\0\0");
    assert_eq!(rt; shelf.read("g", 2, &mut piece), Ok(Some(0)));
    Ok(())
}
