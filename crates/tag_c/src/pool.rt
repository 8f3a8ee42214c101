//! Opens and closes the tags of a pool, and gives out its hands.
ghost use Rattle.std.specs.Prelude.{◌≡◌, [], All, IfOk, IfErr, IfSome, IfNone, OnErr};
ghost use Rattle.std.specs.Arc.{arc_value};
ghost use Rattle.tag_pool.specs.Hands.{IsHandOf};
ghost use Rattle.refusals.specs.Refusals.{RefusesOrRunsOut};
ghost use Rattle.tag_pool.specs.Refusals.{open_checks};
ghost use Rattle.tag_c.specs.Pools.{Opens, LacksHand, Gathers, HasHands};

use crate::cached::{CacheTerms, CachedMember};
use crate::member::Member;
use crate::object::Kind;
use crate::pool_state::PoolState;
use crate::status::Status;
use std::alloc::Global;
use std::sync::Arc;
use tag_cache::Cache;
use tag_pool::{Hand, OpenFault, Options, Pool, Totals};

/// An open pool, with the hands that did not join since it was opened or resized.
#[derive(Drop)]
pub struct OpenPool {
    pub shared: Arc<PoolState, Global>,
    /// The hand that joins next is the last.
    pub spare: Vec<Hand<u64>>,
    ghost own: { All (IsHandOf (arc_value shared).tags) spare.items },
}

impl OpenPool {
    ghost use Rattle.tag_c.specs.Joins.{JoinsAs, Takes};

    /// Opens a pool whose tags are all free and whose slots are all 0. Until the first hand leaves, its hands join in the
    /// order of their numbers.
    pub(crate) fn open(
        alloc: Global,
        options: Options,
        cache: CacheTerms,
    ) -> Result<OpenPool, OpenFault>
        ensures ok { IfOk result (λ pool. Opens options (arc_value pool.shared).tags pool.spare.items) }
        ensures cache { IfOk result (λ pool. (arc_value pool.shared).cache ≡ cache) }
        ensures refusals { RefusesOrRunsOut (open_checks options) OpenFault.Memory result }
    {
        let (tags, hands) = Pool::open(alloc, options, 0)?;
        let Ok(cells) = Vec::with_capacity(alloc, hands.len()) else {
            tags.discard();
            return Err(OpenFault::Memory);
        };
        let shared = PoolState::with_cells(
            tags,
            options.depth,
            options.reserved,
            cache,
            hands.as_slice(),
            cells,
        );
        let mut spare = hands;
        spare.reverse();
        match Arc::new(alloc, shared) {
            Ok(shared) => Ok(OpenPool { shared, spare }),
            Err(_) => Err(OpenFault::Memory),
        }
    }

    /// Takes out a hand that left, or else the last spare one.
    fn next_hand(&mut self) -> Option<Hand<u64>>
        ensures own { IfSome result (IsHandOf (arc_value self.old.shared).tags) }
        ensures takes { IfSome result (λ hand. Takes self.old hand self.new) }
        ensures none { IfNone result ((self.old.spare.items ≡ []) × (self.new ≡ self.old)) }
    {
        if let Some(hand) = self.shared.take_hand() {
            return Some(hand);
        }
        if self.spare.is_empty() {
            return None;
        }
        self.spare.pop()
    }

    /// Takes out a hand that no thread has, and gives it a cache if the pool's hands keep tags. If `placed`, its next gets
    /// begin in its own part of the tags, and otherwise where its last get left off. Fails if all hands are out, or if the
    /// pool cannot be shared once more.
    pub(crate) fn join(&mut self, placed: bool) -> Result<Kind, Status>
        ensures ok { IfOk result (JoinsAs placed self.old self.new) }
        ensures why { IfErr result (LacksHand self.old.spare.items) }
        ensures err { OnErr result (self.new ≡ self.old) }
    {
        let Ok(shared) = Arc::try_clone(&self.shared) else {
            return Err(Status::NotOpened(OpenFault::Memory));
        };
        let Some(mut hand) = self.next_hand() else {
            return Err(Status::NoHand);
        };
        if placed {
            shared.tags.place(&mut hand);
        }
        if shared.cache.most == 0 {
            return Ok(Kind::Member(Member { shared, hand }));
        }
        let cache = Cache::with_keeping(hand, shared.cache.most, shared.cache.keeping);
        Ok(Kind::Cached(CachedMember { shared, cache }))
    }

    /// Returns whether all hands are back.
    pub(crate) fn has_all_hands(&self) -> bool {
        Arc::strong_count(&self.shared) == 1
    }

    /// Closes the pool if all its hands are back, and otherwise returns it. `Ok(None)` means that a hand was missing
    /// from the cells. That is not expected, but it is not ruled out by a proof.
    pub(crate) fn close(self) -> Result<Option<Totals>, OpenPool>
        ensures ok { IfOk result (λ totals. IfSome totals (Gathers (arc_value self.shared).tags self.spare.items)) }
        ensures lost { IfOk result (λ totals. IfNone totals (¬ (HasHands (arc_value self.shared).tags self.spare.items))) }
        ensures err { IfErr result (λ back. back ≡ self) }
    {
        let OpenPool { shared, spare } = self;
        match Arc::try_unwrap(shared) {
            Ok(shared) => Ok(shared.gather(spare)),
            Err(shared) => Err(OpenPool { shared, spare }),
        }
    }
}
