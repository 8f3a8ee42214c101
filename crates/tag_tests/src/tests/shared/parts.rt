//! A pool, and on what terms its callers have caches.
ghost use Rattle.std.specs.Prelude.{◌≡◌, All};
ghost use Rattle.tag_pool.specs.Hands.{IsHandOf};
ghost use Rattle.tag_tests.specs.Shared.{IsOwn};

use crate::caller::Caller;
use crate::tests::shared::callers::Terms;
use std::alloc::Global;
use tag_pool::{Hand, Pool};

/// A pool whose callers are hands or caches.
pub(crate) struct Shared {
    pub(crate) pool: Pool<u64>,
    pub(crate) terms: Terms,
    pub(crate) alloc: Global,
}

impl Drop for Shared {
    fn drop(self) {
        let Shared {
            pool,
            terms: _terms,
            alloc: _alloc,
        } = self;
        pool.discard();
    }
}

impl Shared {
    /// The pool, and the callers with these hands, or none if there is no memory.
    pub(crate) fn of(
        alloc: Global,
        pool: Pool<u64>,
        hands: Vec<Hand<u64>>,
        terms: Terms,
    ) -> (Shared, Vec<Caller>)
        requires { All (IsHandOf pool) hands.items }
        ensures pool { result.0.pool ≡ pool }
        ensures own { All (IsOwn result.0.pool) result.1.items }
    {
        let callers = match terms.callers(alloc, &pool, hands) {
            Ok(callers) => callers,
            Err(_) => Vec::new(alloc),
        };
        (Shared { pool, terms, alloc }, callers)
    }

    pub(crate) fn into_parts(self) -> (Pool<u64>, Terms)
        ensures { result.0 ≡ self.pool }
    {
        let Shared {
            pool,
            terms,
            alloc: _alloc,
        } = self;
        (pool, terms)
    }
}
