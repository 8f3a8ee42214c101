//! A hand that a thread of the C program has, with a cache of tags that it keeps for its next gets.
ghost use Rattle.std.specs.Prelude.{◌≡◌};
ghost use Rattle.std.specs.Arc.{arc_value};
ghost use Rattle.tag_cache.specs.Caches.{IsCacheOf};
ghost use Rattle.tag_cache.specs.Holding.{IsLeftWith};

use crate::member::Member;
use crate::pool_state::PoolState;
use std::alloc::Global;
use std::sync::Arc;
use tag_cache::{Cache, Keeping};

/// How many tags each hand of a pool may keep, and when.
#[derive(Clone, Copy, Debug, PartialEq, Eq)]
pub struct CacheTerms {
    /// At most `MAX_CACHE`. 0 means that the hands have no cache.
    pub most: u32,
    pub keeping: Keeping,
}

/// A hand outside its cell, with its cache, and the pool that it belongs to. Its calls are out of line, so that those of a
/// hand without a cache stay as short as if there were no other, but for a get of a kept tag and a clear that keeps its
/// tag, which are whole in line.
#[derive(Drop)]
pub struct CachedMember {
    pub shared: Arc<PoolState, Global>,
    pub cache: Cache<u64>,
    ghost own: { IsCacheOf (arc_value shared).tags cache },
}

impl CachedMember {
    /// Gives all kept tags back, and returns the hand without its cache.
    pub(crate) fn into_member(self) -> Member
        ensures shared { result.shared ≡ self.shared }
        ensures left { IsLeftWith self.cache result.hand }
    {
        let CachedMember { shared, cache } = self;
        let (hand, _) = cache.into_hand_quietly(&shared.tags);
        Member { shared, hand }
    }
}
