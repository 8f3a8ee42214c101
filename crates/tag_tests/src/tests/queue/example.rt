//! The first example of the README of `tag_queue`.
use std::test::Fail;
use tag_queue::{MAX_CAP, Options, Queue, Ring};

#[test]
fn the_first_example(rt: HostRuntime) -> Result<(), Fail> {
    let alloc = rt.alloc();
    let options = Options::new(16, 2);
    let request = 7;

    let (queue, mut hands) = Queue::open(alloc, options, MAX_CAP, 0u64)?;
    let Some(mut hand) = hands.pop() else {
        return Err(Fail::new("there is no hand"));
    };
    if let Some(tag) = queue.get(&mut hand)? {
        queue.write(&mut hand, tag, request)?;
        assert_eq!(rt; (tag, queue.read(&mut hand, tag)?), (0, request));
        let woken = queue.clear::<Ring>(&mut hand, tag)?;
        assert_eq!(rt; woken, 0);
        return Ok(());
    }
    Err(Fail::new("no tag is free"))
}
