//! The first example of docs/USING_RATTLE.md.
use std::test::Fail;
use tag_pool::{Options, Pool};

#[test]
fn the_first_example(rt: HostRuntime) -> Result<(), Fail> {
    let alloc = rt.alloc();
    let request = 7;

    let options = Options::new(16, 2).with_reserved(2);
    let (pool, mut hands) = Pool::open(alloc, options, 0u64)?;
    let Some(mut hand) = hands.pop() else {
        return Err(Fail::new("there is no hand"));
    };
    if let Some(tag) = pool.get(&mut hand)?.answer {
        pool.write(&mut hand, tag, request)?;
        assert_eq!(rt; (tag, pool.read(&mut hand, tag)?), (2, request));
        let woken = pool.clear(&mut hand, tag)?;
        assert!(rt; woken.is_none());
        pool.discard();
        return Ok(());
    }
    Err(Fail::new("no tag is free"))
}
