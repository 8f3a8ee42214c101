//! Clients of a map.
ghost use Rattle.std.specs.Prelude.{◌≡◌, ◌<◌, All, IfSome};
ghost use Rattle.tag_core.specs.Callers.{IsCallerOf, layout_of};

use std::alloc::Global;
use tag_core::{Caller, Map};
use tag_layout::Layout;
use tag_model::Totals;

/// Takes a tag that was posted, exchanges its value, reads it, and posts the tag again or gives it back. Returns the
/// value read, or `None` if the tag was not posted.
pub fn serve_from_map(
    map: &Map<u64>,
    caller: &mut Caller<u64>,
    tag: u32,
    value: u64,
    again: bool,
) -> Option<u64>
    requires caller { IsCallerOf map.now caller.old }
    requires within { tag < (layout_of map.now).depth }
    ensures caller { IsCallerOf map.now caller.new }
    ensures value { IfSome result (λ found. found ≡ value) }
{
    if !map.take(caller, tag) {
        return None;
    }
    map.slot(caller, tag, value);
    let found = map.read(caller, tag);
    if again {
        map.post(caller, tag, 0);
    } else {
        map.put(caller, tag);
    }
    Some(found)
}

/// Opens a map, settles it, and gathers its callers. `None` if memory runs out.
pub fn open_and_end_map(alloc: Global, layout: Layout) -> Option<Totals> {
    let slots = vec![in alloc; 0u64; layout.depth() as usize].ok()?;
    let (map, callers) = Map::open(alloc, layout, 2, 1000, slots).ok()?;
    let settled = map.settle(callers).ok()?;
    let (map, callers) = settled.back();
    let closed = map.gather(callers).ok()?;
    Some(closed.totals)
}
