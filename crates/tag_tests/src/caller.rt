//! What the tests act through. It stands outside of them, since their definitions, which every check reads, name it.

use tag_cache::Cache;
use tag_pool::Hand;

/// A caller of a pool.
#[derive(Drop)]
pub(crate) enum Caller {
    Bare(Hand<u64>),
    Cached(Cache<u64>),
}
