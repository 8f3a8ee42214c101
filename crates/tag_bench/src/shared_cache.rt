//! The ordinary tags of a pool, each thread with a cache of its own.
ghost use Rattle.std.specs.Prelude.{All};
ghost use Rattle.tag_cache.specs.Caches.{IsCacheOf, Holds};

use crate::allocator::TagAllocator;
use crate::measure::Failed;
use std::alloc::Global;
use tag_cache::Cache;
use tag_core::Spent;
use tag_pool::{Options, Pool, Totals};
use tag_search::Hint;

/// The most tags that a thread keeps.
const MOST: u32 = 8;

/// Tags that threads use through caches.
#[derive(Drop)]
pub(crate) struct Cached {
    pub(crate) pool: Pool<u64>,
}

impl TagAllocator for Cached {
    type Hand = Cache<u64>;

    ghost is_own = { λ cached cache. IsCacheOf cached.pool cache };

    ghost holds = { Holds };

    fn open(alloc: Global, depth: u32, threads: u32) -> Result<(Cached, Vec<Cache<u64>>), Failed> {
        let options = Options::new(depth, threads);
        let (pool, mut hands) = Pool::open(alloc, options, 0)?;
        let mut caches = Vec::with_capacity(alloc, hands.len())?;
        while let Some(hand) = hands.pop() {
            caches.push_reserved(Cache::new(hand, MOST));
        }
        Ok((Cached { pool }, caches))
    }

    /// What the users of the caches got and gave back: most of it is not in the totals of the pool.
    fn gather(self, caches: Vec<Cache<u64>>) -> Result<Totals, Failed>
        requires { All (λ cache. IsCacheOf self.pool cache) caches.items }
    {
        let Cached { pool } = self;
        let mut totals = Totals {
            got: 0,
            back: 0,
            held: 0,
            posted: 0,
        };
        for cache in caches {
            totals.got = totals.got.saturating_add(cache.handed_out());
            totals.back = totals.back.saturating_add(cache.taken_back());
            let (hand, _) = cache.into_hand(&pool);
            drop(hand);
        }
        pool.discard();
        Ok(totals)
    }

    fn place(&self, cache: &mut Cache<u64>) {
        cache.place(&self.pool);
    }

    #[inline]
    fn get(&self, cache: &mut Cache<u64>, _hint: &mut Hint) -> Result<Option<u32>, Spent> {
        let Ok(got) = cache.get(&self.pool) else {
            return Err(Spent);
        };
        Ok(got.answer)
    }

    #[inline]
    fn touch(&self, cache: &mut Cache<u64>, tag: u32, value: u32) {
        let Ok(_) = cache.write(&self.pool, tag, u64::from(value)) else {
            unreachable!()
        };
    }

    #[inline]
    fn clear(&self, cache: &mut Cache<u64>, _hint: &mut Hint, tag: u32) {
        let Ok(_) = cache.clear(&self.pool, tag) else {
            unreachable!()
        };
    }

    #[inline]
    fn test_and_clear(&self, cache: &mut Cache<u64>, _hint: &mut Hint, tag: u32) {
        let _ = cache.clear(&self.pool, tag);
    }

    #[inline]
    fn post(&self, cache: &mut Cache<u64>, tag: u32) {
        let Ok(_) = cache.post(&self.pool, tag) else {
            unreachable!()
        };
    }

    #[inline]
    fn take(&self, cache: &mut Cache<u64>, tag: u32) -> bool {
        let Ok(()) = cache.take(&self.pool, tag) else {
            return false;
        };
        true
    }
}
