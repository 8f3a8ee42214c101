//! The tags of a shared map, each thread as a caller of it.
ghost use Rattle.std.specs.Prelude.{All};
ghost use Rattle.tag_core.specs.Callers.{IsCallerOf, Holds};

use crate::allocator::TagAllocator;
use crate::measure::Failed;
use std::alloc::Global;
use tag_core::{Caller, Map, Spent};
use tag_layout::Layout;
use tag_model::Totals;
use tag_search::{Hint, on_map};

/// Tags that one caller may win.
const LIFE: u64 = 1 << 48;

impl TagAllocator for Map<u64> {
    type Hand = Caller<u64>;

    ghost is_own = { IsCallerOf };

    ghost holds = { Holds };

    fn open(
        alloc: Global,
        depth: u32,
        threads: u32,
    ) -> Result<(Map<u64>, Vec<Caller<u64>>), Failed> {
        let layout = Layout::new(depth, None)?;
        let slots = vec![in alloc; 0u64; depth as usize]?;
        Ok(Map::open(alloc, layout, threads, LIFE, slots)?)
    }

    fn gather(self, callers: Vec<Caller<u64>>) -> Result<Totals, Failed>
        requires { All (IsCallerOf self) callers.items }
    {
        match Map::gather(self, callers) {
            Ok(closed) => Ok(closed.totals),
            Err(_) => Err(Failed::Missing),
        }
    }

    /// A caller is told at each get where it begins.
    fn place(&self, _caller: &mut Caller<u64>) {}

    #[inline]
    fn get(&self, caller: &mut Caller<u64>, hint: &mut Hint) -> Result<Option<u32>, Spent> {
        Ok(on_map::get(self, caller, hint)?.answer)
    }

    #[inline]
    fn touch(&self, caller: &mut Caller<u64>, tag: u32, value: u32) {
        self.slot(caller, tag, u64::from(value));
    }

    #[inline]
    fn clear(&self, caller: &mut Caller<u64>, hint: &mut Hint, tag: u32) {
        on_map::put(self, caller, hint, tag);
    }

    #[inline]
    fn test_and_clear(&self, caller: &mut Caller<u64>, hint: &mut Hint, tag: u32) {
        if tag < self.layout().depth() && caller.holds(tag) {
            on_map::put(self, caller, hint, tag);
        }
    }

    #[inline]
    fn post(&self, caller: &mut Caller<u64>, tag: u32) {
        Map::post(self, caller, tag, 0);
    }

    #[inline]
    fn take(&self, caller: &mut Caller<u64>, tag: u32) -> bool {
        tag < self.layout().depth() && Map::take(self, caller, tag)
    }
}
