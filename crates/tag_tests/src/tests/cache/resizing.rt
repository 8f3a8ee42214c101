//! Resizes and gathers of tags that caches keep.
use crate::tests::answers::Answer::{Keeps, Tag, Told};
use crate::tests::calls::Call::{Clear, Get, Kept};
use crate::tests::shared::stages::{expect_totals, pool};
use crate::tests::steps::Step::{BringBack, Calls, GatherMisses, Resize, ResizeFails, SendAway};
use crate::tests::totals::totals;
use std::test::Fail;
use tag_pool::ResizeCause;

#[test]
fn kept_tags_are_back_when_the_hands_are_gathered(rt: HostRuntime) -> Result<(), Fail> {
    expect_totals(
        &rt,
        pool(4, 0, 2).with_caches(1, 4),
        &[Calls(&[
            (0, Get, Tag(0)),
            (0, Get, Tag(1)),
            (0, Get, Tag(2)),
            (0, Clear(0), Told(0)),
            (0, Clear(1), Told(0)),
            (0, Get, Tag(0)),
            (0, Clear(0), Told(0)),
            (0, Kept, Keeps(2, 4, 3, 1)),
        ])],
        totals(3, 2, 1, 0),
    )
}

#[test]
fn a_resize_finds_nothing_kept(rt: HostRuntime) -> Result<(), Fail> {
    expect_totals(
        &rt,
        pool(4, 0, 2).with_caches(1, 4),
        &[
            Calls(&[(0, Get, Tag(0)), (0, Get, Tag(1)), (0, Clear(0), Told(0))]),
            // Tag 1 is held, and tag 0 goes back although the resize is refused.
            ResizeFails(100, ResizeCause::InUse(1, 0)),
            Calls(&[
                (0, Kept, Keeps(0, 2, 1, 0)),
                (0, Clear(1), Told(0)),
                (0, Kept, Keeps(1, 2, 2, 0)),
            ]),
            Resize(100),
            Calls(&[
                (0, Kept, Keeps(0, 2, 2, 0)),
                (0, Get, Tag(1)),
                (0, Clear(1), Told(0)),
                (0, Get, Tag(1)),
            ]),
        ],
        totals(3, 2, 1, 0),
    )
}

#[test]
fn a_gather_without_a_hand_gives_what_is_kept_back(rt: HostRuntime) -> Result<(), Fail> {
    expect_totals(
        &rt,
        pool(4, 0, 2).with_caches(1, 4),
        &[
            Calls(&[(0, Get, Tag(0)), (0, Clear(0), Told(0))]),
            SendAway(1),
            GatherMisses(1),
            BringBack,
            Calls(&[(0, Kept, Keeps(0, 1, 1, 0)), (1, Get, Tag(0))]),
        ],
        totals(2, 1, 1, 0),
    )
}
