//! A map as it opens.
use std::alloc::Global;
use std::test::Fail;
use tag_core::Map;
use tag_core::OpenFault::{self, CallerCount, LifeTooLong, SlotCount};
use tag_layout::Layout;

/// Opens a map with this many slots, and returns how many callers it has.
fn opened(
    alloc: Global,
    depth: u32,
    callers: u32,
    life: u64,
    slots: usize,
) -> Result<Result<usize, OpenFault>, Fail> {
    let layout = Layout::new(depth, None)?;
    let slots = vec![in alloc; 7u64; slots]?;
    match Map::open(alloc, layout, callers, life, slots) {
        Ok((map, all)) => {
            if map.layout() != layout {
                return Err(Fail::new("another layout"));
            }
            Ok(Ok(all.len()))
        }
        Err(fault) => Ok(Err(fault)),
    }
}

#[test]
fn a_map_opens_as_asked_or_is_refused_for_its_first_fault(rt: HostRuntime) -> Result<(), Fail> {
    for (depth, callers, life, slots, answer) in [
        (0, 1, 16, 0, Ok(1)),
        (4, 2, 16, 4, Ok(2)),
        (10_240, 64, 16, 10_240, Ok(64)),
        (8, 0, 281_474_976_710_657, 7, Err(CallerCount)),
        (8, 65, 281_474_976_710_656, 8, Err(CallerCount)),
        (8, 64, 281_474_976_710_657, 7, Err(LifeTooLong)),
        (8, 1, 281_474_976_710_656, 7, Err(SlotCount)),
        (8, 1, 281_474_976_710_656, 9, Err(SlotCount)),
    ] {
        let opened = opened(rt.alloc(), depth, callers, life, slots)?;
        assert_eq!(rt; (callers, slots, opened), (callers, slots, answer));
    }
    Ok(())
}
