//! Moves the hands to the next map, or hands them back if memory runs out.
ghost use Rattle.std.specs.Prelude.{◌≡◌, All, IfOk, IfErr, length, map};
ghost use Rattle.step_ledger.specs.Gather.{HasAll};
ghost use Rattle.tag_core.specs.Callers.{IsCallerOf, record_of};
ghost use Rattle.tag_core.specs.Callers as core;
ghost use Rattle.tag_core.specs.Gathering as tags;
ghost use Rattle.tag_pool.specs.Gathering.{numbers_of, records_of};
ghost use Rattle.tag_pool.specs.Hands.{IsHandOf, hands_of, reserved_of};
ghost use Rattle.tag_pool.specs.Resizing.{IsResized, HasRange, MoveOn, KeepsRest, layout_at};
ghost use Rattle.tag_pool.specs.Using.{AreUnchanged, NoneInUse};
ghost use Rattle.tag_pool.specs.declared.kind.Kind.TheVariants.{Ordinary};

use crate::hand::Hand;
use crate::pool::Pool;
use crate::resizes::next_map::next_map;
use crate::resizes::shells::{Buffers, part, unite};
use crate::resizes::{PoolResizeFault, ResizeCause};
use std::alloc::Global;
use tag_core::Caller;
use tag_layout::Layout;

impl<R: Copy> Pool<R> {
    /// Moves all hands to a new map of this layout, that of the ordinary tags of this total. Everything that can fail, except
    /// opening the map itself, comes before the hands are taken apart.
    pub(crate) fn reopen(
        self,
        alloc: Global,
        layout: Layout,
        total: u32,
        hands: Vec<Hand<R>>,
    ) -> Result<(Pool<R>, Vec<Hand<R>>), PoolResizeFault<R>>
        requires own { All (IsHandOf self) hands.items }
        requires every { HasAll (numbers_of hands.items) (hands_of self) }
        requires unused { NoneInUse (records_of hands.items Ordinary) }
        requires layout { layout ≡ layout_at self total }
        requires range { HasRange total (reserved_of self) }
        ensures ok { IfOk result (λ p. IsResized self hands.items total p.0 p.1.items) }
        ensures cause { IfErr result (λ fault. fault.cause ≡ ResizeCause.Memory) }
        ensures err { IfErr result (λ fault. (fault.pool ≡ self) × AreUnchanged hands.items fault.hands.items) }
        ensures own { IfErr result (λ fault. All (IsHandOf fault.pool) fault.hands.items) }
    {
        let cause = ResizeCause::Memory;
        let Ok(buffers) = Buffers::open(alloc, hands.len(), layout.depth(), self.fill) else {
            return Err(PoolResizeFault {
                cause,
                pool: self,
                hands,
            });
        };
        let Buffers {
            callers,
            shells,
            hands: room,
            slots,
        } = buffers;
        let (callers, shells) = part(hands, callers, shells);
        match self.go_on(alloc, callers, layout, total, slots) {
            Ok((pool, callers)) => Ok((pool, unite(callers, shells, room))),
            Err((pool, callers)) => Err(PoolResizeFault {
                cause,
                pool,
                hands: unite(callers, shells, room),
            }),
        }
    }

    /// Returns the pool with a new ordinary map and its callers on it, or the pool as it was.
    fn go_on(
        self,
        alloc: Global,
        callers: Vec<Caller<R>>,
        layout: Layout,
        total: u32,
        slots: Vec<R>,
    ) -> Result<(Pool<R>, Vec<Caller<R>>), (Pool<R>, Vec<Caller<R>>)>
        requires own { All (IsCallerOf self.ordinary) callers.items }
        requires every { HasAll (tags.numbers_of callers.items) (hands_of self) }
        requires unused { NoneInUse (map record_of callers.items) }
        requires layout { layout ≡ layout_at self total }
        requires range { HasRange total (reserved_of self) }
        requires slots { length slots.items ≡ layout.depth }
        ensures ok { IfOk result (λ p. MoveOn layout self.ordinary callers.items p.0.ordinary p.1.items) }
        ensures rest { IfOk result (λ p. KeepsRest self total p.0) }
        ensures err { IfErr result (λ p. (p.0 ≡ self) × core.AreUnchanged callers.items p.1.items) }
        ensures own { IfErr result (λ p. All (IsCallerOf p.0.ordinary) p.1.items) }
    {
        match next_map(alloc, self.ordinary, callers, layout, slots) {
            Ok((ordinary, callers)) => {
                let pool = Pool {
                    reserved: self.reserved,
                    ordinary,
                    reserved_count: self.reserved_count,
                    total,
                    shallowest: self.shallowest,
                    fill: self.fill,
                };
                Ok((pool, callers))
            }
            Err((ordinary, callers)) => {
                let pool = Pool {
                    reserved: self.reserved,
                    ordinary,
                    reserved_count: self.reserved_count,
                    total: self.total,
                    shallowest: self.shallowest,
                    fill: self.fill,
                };
                Err((pool, callers))
            }
        }
    }
}
