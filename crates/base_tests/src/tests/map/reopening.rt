//! Want of memory for a next map. Run with each allocation refused in turn, this test still passes.
use std::alloc::Global;
use std::test::Fail;
use tag_core::{Map, Settled};
use tag_layout::Layout;

/// Eight tags whose three callers have come together, or none for want of memory.
fn eight_tags(alloc: Global) -> Result<Option<Settled<u64>>, Fail> {
    let layout = Layout::new(8, None)?;
    let Ok(slots) = vec![in alloc; 0u64; 8] else {
        return Ok(None);
    };
    let Ok((map, callers)) = Map::open(alloc, layout, 3, 16, slots) else {
        return Ok(None);
    };
    match map.settle(callers) {
        Ok(settled) => Ok(Some(settled)),
        Err(_) => Err(Fail::new("a caller is missing")),
    }
}

/// Goes on with a map of this layout, at the second try if the first is refused, and returns how many tags and callers
/// it has.
fn reopened(
    alloc: Global,
    settled: Settled<u64>,
    layout: Layout,
    slots: Vec<u64>,
) -> Result<(u32, usize), Fail> {
    let depth = layout.depth() as usize;
    if settled.held() != 0 || settled.posted() != 0 || slots.len() != depth {
        return Err(Fail::new("a tag is held or posted, or has no slot"));
    }
    let (settled, slots) = match settled.reopen(alloc, layout, slots) {
        Ok((map, callers)) => return Ok((map.layout().depth(), callers.len())),
        Err(all) => all,
    };
    if slots.len() != depth {
        return Err(Fail::new("the slots were not handed back"));
    }
    match settled.reopen(alloc, layout, slots) {
        Ok((map, callers)) => Ok((map.layout().depth(), callers.len())),
        Err(_) => Err(Fail::new("refused twice")),
    }
}

#[test]
fn a_reopening_without_memory_hands_all_back(rt: HostRuntime) -> Result<(), Fail> {
    let Some(settled) = eight_tags(rt.alloc())? else {
        return Ok(());
    };
    let Ok(slots) = vec![in rt.alloc(); 0u64; 3] else {
        return Ok(());
    };
    let found = reopened(rt.alloc(), settled, Layout::new(3, None)?, slots)?;
    assert_eq!(rt; found, (3, 3));
    Ok(())
}
