//! Out of memory. These tests pass whichever allocation is refused.
use std::alloc::AllocError;
use tag_layout::Layout;
use tag_search::PlainPort;

#[test]
fn want_of_memory_is_told(rt: HostRuntime) {
    let Ok(layout) = Layout::new(10_240, None) else {
        unreachable!()
    };
    match PlainPort::open(rt.alloc(), layout) {
        Ok(port) => assert!(rt; !port.taken(10_239)),
        Err(fault) => assert!(rt; fault == AllocError),
    }
}
