//! Out of memory. These tests also pass when each allocation in turn is made to fail.
use wake_book::{Book, BookFault, Groups};

#[test]
fn a_refused_allocation_is_told_as_memory(rt: HostRuntime) {
    if let Err(fault) = Book::open(rt.alloc(), 8, 64, 1) {
        assert!(rt; fault == BookFault::Memory);
    }
    if let Err(fault) = Groups::open(rt.alloc(), 64) {
        assert!(rt; fault == BookFault::Memory);
    }
}
