//! Gets of one given tag through a cache.
use crate::tests::answers::Answer::{Keeps, Nothing, Refused, Tag, Told};
use crate::tests::calls::Call::{Clear, Get, GetExactly, Kept};
use crate::tests::shared::stages::{expect, pool};
use std::test::Fail;
use tag_pool::TagFault::{NoSuchTag, Spent};

#[test]
fn a_kept_tag_is_free_for_who_keeps_it(rt: HostRuntime) -> Result<(), Fail> {
    expect(
        &rt,
        pool(8, 0, 2).with_caches(1, 4),
        &[
            (0, Get, Tag(0)),
            (0, Get, Tag(1)),
            (0, Clear(0), Told(0)),
            (0, Clear(1), Told(0)),
            (0, Kept, Keeps(2, 2, 2, 0)),
            (1, GetExactly(1), Nothing),
            (0, GetExactly(1), Tag(1)),
            (0, Kept, Keeps(1, 3, 2, 1)),
            (0, GetExactly(1), Nothing),
            (0, GetExactly(5), Tag(5)),
            (0, GetExactly(8), Refused(NoSuchTag)),
            (0, Get, Tag(0)),
        ],
    )
}

/// A kept tag was won before, so it is got where the life is used up.
#[test]
fn a_kept_tag_takes_nothing_of_the_life(rt: HostRuntime) -> Result<(), Fail> {
    expect(
        &rt,
        pool(4, 0, 1).with_caches(1, 2).with_life(1),
        &[
            (0, GetExactly(2), Tag(2)),
            (0, Clear(2), Told(0)),
            (0, GetExactly(3), Refused(Spent)),
            (0, GetExactly(2), Tag(2)),
            (0, GetExactly(2), Refused(Spent)),
        ],
    )
}
