//! Want of memory. Run with each allocation refused in turn, this test still passes.
use crate::tests::totals::totals;
use std::test::Fail;
use tag_core::{Map, OpenFault};
use tag_layout::Layout;

#[test]
fn want_of_memory_is_told(rt: HostRuntime) -> Result<(), Fail> {
    let layout = Layout::new(8, None)?;
    let Ok(slots) = vec![in rt.alloc(); 0u64; 8] else {
        return Ok(());
    };
    let (map, callers) = match Map::open(rt.alloc(), layout, 3, 16, slots) {
        Ok(opened) => opened,
        Err(fault) => {
            assert!(rt; fault == OpenFault::Memory);
            return Ok(());
        }
    };
    let Ok(closed) = map.gather(callers) else {
        return Err(Fail::new("a caller is missing"));
    };
    assert!(rt; closed.totals == totals(0, 0, 0, 0));
    Ok(())
}
