//! A pool whose callers are hands, caches, or caches beside bare hands.
ghost use Rattle.std.specs.Prelude.{All, IfOk, IfErr, IsTrue};
ghost use Rattle.std.specs.Coded.{codes};
ghost use Rattle.tag_tests.specs.Shared.{IsOwn, HoldsTag};

pub(crate) mod by_cache;
pub(crate) mod by_hand;
pub(crate) mod callers;
pub(crate) mod naps;
pub(crate) mod parts;
pub(crate) mod stages;

use crate::caller::Caller;
use crate::tests::allocator::TagAllocator;
use crate::tests::answers::{Answer, answered, woken};
use crate::tests::calls::Call;
use crate::tests::shared::callers::hands_of;
use crate::tests::shared::parts::Shared;
use std::alloc::Global;
use std::sync::Wait;
use tag_pool::{GatherCause, Numbered, Pool, ResizeCause, Totals};

impl TagAllocator for Shared {
    type Caller = Caller;

    ghost is_own = { λ shared. IsOwn shared.pool };

    ghost is_fact = { λ shared caller. Prim.hlevel codes };

    ghost holds = { HoldsTag };

    fn number(caller: &Caller) -> u32 {
        match caller {
            Caller::Bare(hand) => Numbered::number(hand),
            Caller::Cached(cache) => Numbered::number(cache),
        }
    }

    fn act<W: Wait>(&self, rt: &W, caller: &mut Caller, call: Call) -> Answer {
        match caller {
            Caller::Bare(hand) => by_hand::act(rt, &self.pool, hand, call),
            Caller::Cached(cache) => by_cache::act(rt, &self.pool, cache, call),
        }
    }

    fn clear_batch(&self, caller: &mut Caller, tags: &[u32]) -> Answer {
        match caller {
            Caller::Bare(hand) => answered(self.pool.clear_batch(hand, tags).map(woken)),
            Caller::Cached(cache) => answered(cache.clear_batch(&self.pool, tags).map(woken)),
        }
    }

    fn has(&self, caller: &mut Caller, tag: u32) -> bool {
        match caller {
            Caller::Bare(hand) => by_hand::has(&self.pool, hand, tag),
            Caller::Cached(cache) => by_cache::has(&self.pool, cache, tag),
        }
    }

    fn meet(&self, first: &mut Caller, second: &mut Caller) {
        match (first, second) {
            (Caller::Bare(first), Caller::Bare(second)) => self.pool.meet(first, second),
            (Caller::Cached(first), Caller::Cached(second)) => first.meet(second, &self.pool),
            (Caller::Bare(first), Caller::Cached(second)) => second.meet_hand(first, &self.pool),
            (Caller::Cached(first), Caller::Bare(second)) => first.meet_hand(second, &self.pool),
        }
    }

    fn apart(&self, first: &mut Caller, second: &mut Caller, tag: u32) {
        match (first, second) {
            (Caller::Bare(first), Caller::Bare(second)) => {
                by_hand::part(&self.pool, first, second, tag);
            }
            (Caller::Cached(first), Caller::Cached(second)) => {
                first.apart(second, &self.pool, tag);
            }
            (Caller::Bare(first), Caller::Cached(second)) => second.meet_hand(first, &self.pool),
            (Caller::Cached(first), Caller::Bare(second)) => first.meet_hand(second, &self.pool),
        }
    }

    fn gather(self, callers: Vec<Caller>) -> Result<Totals, (GatherCause, Shared, Vec<Caller>)>
        requires { All (IsOwn self.pool) callers.items }
        ensures own { IfErr result (λ back. All (IsOwn back.1.pool) back.2.items) }
        ensures others { IfErr result (λ back. (c : _) → IsOwn self.pool c → IsOwn back.1.pool c) }
    {
        let alloc = self.alloc;
        let Ok(hands) = hands_of(alloc, &self.pool, callers) else {
            return Err((GatherCause::Missing(0), self, Vec::new(alloc)));
        };
        let (pool, terms) = self.into_parts();
        match Pool::gather(pool, hands) {
            Ok(totals) => Ok(totals),
            Err(fault) => {
                let (shared, callers) = Shared::of(alloc, fault.pool, fault.hands, terms);
                Err((fault.cause, shared, callers))
            }
        }
    }

    fn resize(
        self,
        alloc: Global,
        callers: Vec<Caller>,
        depth: u32,
    ) -> Result<(Shared, Vec<Caller>), (ResizeCause, Shared, Vec<Caller>)>
        requires { All (IsOwn self.pool) callers.items }
        ensures ok { IfOk result (λ next. All (IsOwn next.0.pool) next.1.items) }
        ensures own { IfErr result (λ back. All (IsOwn back.1.pool) back.2.items) }
        ensures others { IfErr result (λ back. (c : _) → IsOwn self.pool c → IsOwn back.1.pool c) }
    {
        let Ok(hands) = hands_of(alloc, &self.pool, callers) else {
            return Err((ResizeCause::Memory, self, Vec::new(alloc)));
        };
        let (pool, terms) = self.into_parts();
        match Pool::resize(alloc, pool, hands, depth) {
            Ok((pool, hands)) => Ok(Shared::of(alloc, pool, hands, terms)),
            Err(fault) => {
                let (shared, callers) = Shared::of(alloc, fault.pool, fault.hands, terms);
                Err((fault.cause, shared, callers))
            }
        }
    }
}
