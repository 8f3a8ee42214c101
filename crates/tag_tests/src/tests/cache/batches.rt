//! Batches, shallow gets, looks and waits through a cache.
use crate::tests::answers::Answer;
use crate::tests::answers::Answer::{Batch, Dumped, Held, Keeps, Refused, Tag, Told};
use crate::tests::calls::Call::{
    Busy, Clear, ClearBoth, ClearMask, Dump, Get, GetBatch, GetShallow, Holds, Kept,
};
use crate::tests::shared::stages::{expect, expect_steps, pool};
use crate::tests::steps::Step::{Apart, Calls, Gets, Present};
use std::test::Fail;
use tag_pool::Kind::Ordinary;
use tag_pool::TagFault::{BadCount, NoSuchTag, NotHeld, TooShallow};

#[test]
fn a_batch_takes_no_kept_tag_and_keeps_none(rt: HostRuntime) -> Result<(), Fail> {
    expect(
        &rt,
        pool(8, 0, 1).with_caches(1, 4),
        &[
            (0, Get, Tag(0)),
            (0, Clear(0), Told(0)),
            (0, GetBatch(2), Batch(2, 3)),
            (0, ClearBoth(0, 1), Refused(NotHeld)),
            (0, ClearBoth(2, 2), Refused(NotHeld)),
            (0, ClearBoth(2, 8), Refused(NoSuchTag)),
            (0, GetBatch(0), Refused(BadCount)),
            (0, ClearBoth(3, 2), Told(0)),
            (0, Kept, Keeps(1, 3, 3, 0)),
        ],
    )
}

/// A mask is cleared as a list is, and refused for a tag that is kept.
#[test]
fn a_mask_takes_no_kept_tag_and_keeps_none(rt: HostRuntime) -> Result<(), Fail> {
    expect(
        &rt,
        pool(8, 2, 1).with_caches(1, 4),
        &[
            (0, Get, Tag(2)),
            (0, Get, Tag(3)),
            (0, Get, Tag(4)),
            (0, Get, Tag(5)),
            (0, Clear(5), Told(0)),
            (0, ClearMask(5, 0), Refused(BadCount)),
            (0, ClearMask(1, 1), Refused(NoSuchTag)),
            (0, ClearMask(7, 2), Refused(NoSuchTag)),
            (0, ClearMask(4, 3), Refused(NotHeld)),
            (0, ClearMask(2, 5), Told(0)),
            (0, Holds(2), Held(false)),
            (0, Holds(3), Held(true)),
            (0, Kept, Keeps(1, 4, 3, 0)),
        ],
    )
}

/// The batch has the last tags that the user is known to hold, so the kept one goes back first.
#[test]
fn a_careful_batch_gives_all_back(rt: HostRuntime) -> Result<(), Fail> {
    expect(
        &rt,
        pool(8, 0, 1).with_caches(1, 4).careful(),
        &[
            (0, Get, Tag(0)),
            (0, Get, Tag(1)),
            (0, Get, Tag(2)),
            (0, Clear(0), Told(0)),
            (0, ClearBoth(2, 1), Told(0)),
            (0, Kept, Keeps(0, 3, 3, 0)),
        ],
    )
}

#[test]
fn a_shallow_get_takes_no_kept_tag(rt: HostRuntime) -> Result<(), Fail> {
    expect(
        &rt,
        pool(8, 0, 1).with_caches(1, 4),
        &[
            (0, Get, Tag(0)),
            (0, Clear(0), Told(0)),
            (0, GetShallow(8), Tag(1)),
            (0, GetShallow(0), Refused(TooShallow)),
            (0, Kept, Keeps(1, 2, 1, 0)),
            (0, Busy, Answer::Busy(2, 3, 0)),
            (0, Dump(Ordinary), Dumped(1, 3, 0xaa, 0xaa)),
        ],
    )
}

/// A cache has the number of its hand, and a kept tag is no other hand's.
#[test]
fn a_cache_is_known_by_its_hand(rt: HostRuntime) -> Result<(), Fail> {
    expect_steps(
        &rt,
        pool(16, 0, 2).with_caches(1, 4),
        &[
            Present(&[0, 1]),
            Gets(0, 2),
            Apart(0, 1),
            Calls(&[(1, Get, Tag(2))]),
        ],
    )
}
