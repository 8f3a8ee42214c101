//! Moves callers to the next map.
ghost use Rattle.std.specs.Prelude.{◌≡◌, All, IfOk, IfErr, length, map};
ghost use Rattle.step_ledger.specs.Gather.{HasAll};
ghost use Rattle.tag_core.specs.Callers.{IsCallerOf, AreUnchanged, record_of};
ghost use Rattle.tag_core.specs.Gathering.{numbers_of};
ghost use Rattle.tag_pool.specs.Resizing.{MoveOn};
ghost use Rattle.tag_pool.specs.Using.{NoneInUse};

use std::alloc::Global;
use tag_core::{Caller, Map};
use tag_layout::Layout;

/// Moves all callers to a new map of this layout, or returns them to their own map if memory runs out.
pub(crate) fn next_map<R: Copy>(
    alloc: Global,
    tags: Map<R>,
    callers: Vec<Caller<R>>,
    layout: Layout,
    slots: Vec<R>,
) -> Result<(Map<R>, Vec<Caller<R>>), (Map<R>, Vec<Caller<R>>)>
    requires own { All (IsCallerOf tags) callers.items }
    requires every { HasAll (numbers_of callers.items) tags.shape.callers }
    requires unused { NoneInUse (map record_of callers.items) }
    requires slots { length slots.items ≡ layout.depth }
    ensures ok { IfOk result (λ p. MoveOn layout tags callers.items p.0 p.1.items) }
    ensures err { IfErr result (λ p. (p.0 ≡ tags) × AreUnchanged callers.items p.1.items × All (IsCallerOf p.0) p.1.items) }
{
    let Ok(settled) = tags.settle(callers) else {
        unreachable!()
    };
    match settled.reopen(alloc, layout, slots) {
        Ok(reopened) => Ok(reopened),
        Err((settled, _)) => Err(settled.back()),
    }
}
