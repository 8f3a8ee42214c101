//! Out of memory. These tests also pass when each allocation in turn is made to fail.
use crate::tests::totals::{tags, totals};
use std::test::Fail;
use tag_pool::{OpenFault, Pool, ResizeCause};

#[test]
fn want_of_memory_is_told(rt: HostRuntime) -> Result<(), Fail> {
    let (pool, hands) = match Pool::open(rt.alloc(), tags(8, 3, 2), 0u64) {
        Ok(opened) => opened,
        Err(fault) => {
            assert_eq!(rt; fault, OpenFault::Memory);
            return Ok(());
        }
    };
    let Ok(sums) = Pool::gather(pool, hands) else {
        return Err(Fail::new("a hand is missing"));
    };
    assert_eq!(rt; sums, totals(0, 0, 0, 0));
    Ok(())
}

#[test]
fn a_resize_without_memory_hands_all_back(rt: HostRuntime) -> Result<(), Fail> {
    let Ok((pool, hands)) = Pool::open(rt.alloc(), tags(8, 3, 2), 0u64) else {
        return Ok(());
    };
    let (pool, hands) = match Pool::resize(rt.alloc(), pool, hands, 100) {
        Ok(resized) => resized,
        Err(fault) => {
            assert_eq!(rt; (fault.cause, fault.hands.len()), (ResizeCause::Memory, 2));
            (fault.pool, fault.hands)
        }
    };
    let Ok(sums) = Pool::gather(pool, hands) else {
        return Err(Fail::new("a hand is missing"));
    };
    assert_eq!(rt; sums, totals(0, 0, 0, 0));
    Ok(())
}
