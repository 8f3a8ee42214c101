//! Gets of several tags through a cache, which take none of the kept ones.
use crate::tests::pool::excerpts::next_hand;
use std::test::Fail;
use tag_cache::Cache;
use tag_pool::{Options, Pool, TagFault};

#[test]
fn several_tags_are_won_beside_a_kept_one(rt: HostRuntime) -> Result<(), Fail> {
    let (pool, mut hands) = Pool::open(rt.alloc(), Options::new(4, 1), 0u64)?;
    let mut cache = Cache::new(next_hand(&pool, &mut hands)?, 4);
    let mut tags = [0u32; 4];
    assert_eq!(rt; cache.get(&pool)?.answer, Some(0));
    assert!(rt; cache.clear(&pool, 0)?.is_none());
    assert!(rt; !cache.get_many(&pool, &mut tags)?.answer);
    assert_eq!(rt; cache.handed_out(), 4);
    assert_eq!(rt; cache.taken_back(), 4);
    let mut three = [0u32; 3];
    assert!(rt; cache.get_many(&pool, &mut three)?.answer);
    assert_eq!(rt; cache.handed_out(), 7);
    assert_eq!(rt; cache.taken_back(), 4);
    assert_eq!(rt; cache.get(&pool)?.answer, Some(0));
    Ok(())
}

#[test]
fn several_tags_are_refused_to_a_cache(rt: HostRuntime) -> Result<(), Fail> {
    let (pool, mut hands) = Pool::open(rt.alloc(), Options::new(4, 1), 0u64)?;
    let mut cache = Cache::new(next_hand(&pool, &mut hands)?, 4);
    let mut tags = [7u32; 5];
    let refused = cache.get_many(&pool, &mut tags);
    assert_eq!(rt; refused.err(), Some(TagFault::BadCount));
    assert_eq!(rt; tags, [7, 7, 7, 7, 7]);
    Ok(())
}
