use buddy_heap::heap::{Heap, NotABlock};
use std::test::Fail;

// What comes of giving back what begins there.
fn given(heap: &mut Heap, at: u32) -> Option<u8> {
    match heap.give(at) {
        Ok(e) => Some(e),
        Err(NotABlock { at: _ }) => None,
    }
}

#[test]
fn takes_the_least_places(rt: HostRuntime) -> Result<(), Fail> {
    let mut heap = Heap::new(rt.alloc())?;
    assert_eq!(rt; heap.take(24), Some(0x100_0000));
    assert_eq!(rt; heap.take(4), None);
    assert_eq!(rt; given(&mut heap, 0x100_0000), Some(24));
    assert_eq!(rt; heap.take(4), Some(0x100_0000));
    assert_eq!(rt; heap.take(5), Some(0x100_0020));
    assert_eq!(rt; heap.take(4), Some(0x100_0010));
    assert_eq!(rt; given(&mut heap, 0x100_0010), Some(4));
    assert_eq!(rt; given(&mut heap, 0x100_0010), None);
    Ok(())
}

#[test]
fn takes_each_size_again(rt: HostRuntime) -> Result<(), Fail> {
    let mut heap = Heap::new(rt.alloc())?;
    for e in 4..25 {
        assert_eq!(rt; heap.take(e), Some(0x100_0000));
        assert_eq!(rt; given(&mut heap, 0x100_0008), None);
        assert_eq!(rt; given(&mut heap, 0x100_0000), Some(e));
        assert_eq!(rt; heap.take(e), Some(0x100_0000));
        assert_eq!(rt; given(&mut heap, 0x100_0000), Some(e));
    }
    Ok(())
}
