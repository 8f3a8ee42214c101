//! Caches that keep tags only while their user holds another.
use crate::tests::answers::Answer::{Done, Keeps, Tag, Told};
use crate::tests::calls::Call::{Clear, Get, GetReserved, Kept, ListSelf, Post, Take};
use crate::tests::shared::stages::{expect, pool};
use std::test::Fail;
use tag_pool::Waiter::Sleeper;

#[test]
fn the_last_clear_gives_all_back(rt: HostRuntime) -> Result<(), Fail> {
    expect(
        &rt,
        pool(4, 0, 2).with_caches(1, 4).careful(),
        &[
            (0, Get, Tag(0)),
            (0, Clear(0), Told(0)),
            (0, Kept, Keeps(0, 1, 1, 0)),
            (0, Get, Tag(0)),
            (0, Get, Tag(1)),
            (0, Get, Tag(2)),
            (0, Clear(0), Told(0)),
            (0, Clear(2), Told(0)),
            (0, Kept, Keeps(2, 4, 3, 0)),
            (0, Get, Tag(0)),
            (0, Clear(1), Told(0)),
            (0, Kept, Keeps(2, 5, 4, 1)),
            (0, Clear(0), Told(0)),
            (0, Kept, Keeps(0, 5, 5, 1)),
            (1, Get, Tag(0)),
        ],
    )
}

#[test]
fn the_last_post_gives_all_back(rt: HostRuntime) -> Result<(), Fail> {
    expect(
        &rt,
        pool(4, 0, 2).with_caches(1, 4).careful(),
        &[
            (0, Get, Tag(0)),
            (0, Get, Tag(1)),
            (0, Clear(1), Told(0)),
            (0, Kept, Keeps(1, 2, 1, 0)),
            (0, Post(0), Done),
            (0, Kept, Keeps(0, 2, 1, 0)),
            (1, Take(0), Done),
        ],
    )
}

/// A reserved tag is not known to be held, so it does not let a cache keep others.
#[test]
fn a_reserved_tag_does_not_count(rt: HostRuntime) -> Result<(), Fail> {
    expect(
        &rt,
        pool(4, 1, 2).with_caches(1, 4).careful(),
        &[
            (0, GetReserved, Tag(0)),
            (0, Get, Tag(1)),
            (0, Clear(1), Told(0)),
            (0, Kept, Keeps(0, 2, 1, 0)),
        ],
    )
}

/// A hand that came to wait after a tag was kept is told by the next clear.
#[test]
fn a_thread_that_keeps_tags_has_a_clear_to_come(rt: HostRuntime) -> Result<(), Fail> {
    expect(
        &rt,
        pool(2, 0, 2).with_caches(1, 4).careful(),
        &[
            (0, Get, Tag(0)),
            (0, Get, Tag(1)),
            (0, Clear(1), Told(0)),
            (1, ListSelf(Sleeper), Done),
            (0, Kept, Keeps(1, 2, 1, 0)),
            (0, Clear(0), Told(0b10)),
            (0, Kept, Keeps(0, 2, 2, 0)),
        ],
    )
}
