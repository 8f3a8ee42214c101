//! Gets of several tags, all or none.
use crate::tests::pool::excerpts::next_hand;
use std::test::Fail;
use tag_pool::{Kind, Options, Pool, TagFault, Turn, Waiter};

#[test]
fn as_many_tags_are_won_as_there_are_places(rt: HostRuntime) -> Result<(), Fail> {
    let words_of_two = Options::new(8, 1).with_reserved(1).with_shift(1);
    let (pool, mut hands) = Pool::open(rt.alloc(), words_of_two, 0u64)?;
    let mut hand = next_hand(&pool, &mut hands)?;
    let mut tags = [0u32; 5];
    assert!(rt; pool.get_many(&mut hand, &mut tags)?.answer);
    assert_eq!(rt; tags, [1, 2, 3, 4, 5]);
    assert!(rt; pool.get_many(&mut hand, &mut [])?.answer);
    assert_eq!(rt; pool.get(&mut hand)?.answer, Some(6));
    Ok(())
}

/// What it won before the tags ran out is free again, and a hand that waits is told of it.
#[test]
fn a_get_that_falls_short_leaves_its_tags_free(rt: HostRuntime) -> Result<(), Fail> {
    let (pool, mut hands) = Pool::open(rt.alloc(), Options::new(4, 2), 0u64)?;
    let mut waiting = next_hand(&pool, &mut hands)?;
    let mut hand = next_hand(&pool, &mut hands)?;
    let mut tags = [0u32; 3];
    assert_eq!(rt; pool.get(&mut waiting)?.answer, Some(0));
    assert_eq!(rt; pool.get(&mut waiting)?.answer, Some(1));
    pool.list_self(&mut waiting, Kind::Ordinary, Waiter::Sleeper, Turn::Next);
    let got = pool.get_many(&mut hand, &mut tags)?;
    assert!(rt; !got.answer);
    assert_eq!(rt; got.woken.sleepers(), 0b10);
    assert!(rt; pool.get_up(&mut waiting, Kind::Ordinary));
    let mut both = [0u32; 2];
    assert!(rt; pool.get_many(&mut waiting, &mut both)?.answer);
    assert_eq!(rt; pool.get(&mut hand)?.answer, None);
    Ok(())
}

#[test]
fn a_get_of_many_is_refused_for_its_first_fault(rt: HostRuntime) -> Result<(), Fail> {
    let mut options = Options::new(4, 1).with_reserved(1);
    options.life = 2;
    let (pool, mut hands) = Pool::open(rt.alloc(), options, 0u64)?;
    let mut hand = next_hand(&pool, &mut hands)?;
    let mut four = [7u32; 4];
    let too_many = pool.get_many(&mut hand, &mut four);
    assert_eq!(rt; too_many.err(), Some(TagFault::BadCount));
    assert_eq!(rt; four, [7, 7, 7, 7]);
    let mut three = [7u32; 3];
    let spent = pool.get_many(&mut hand, &mut three);
    assert_eq!(rt; spent.err(), Some(TagFault::Spent));
    assert_eq!(rt; three, [7, 7, 7]);
    Ok(())
}
