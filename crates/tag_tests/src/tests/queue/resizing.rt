//! Resizes.
use crate::tests::answers::Answer::{Done, Found, Group, LeftUnwoken, LeftWoken, Tag, Woken};
use crate::tests::calls::Call::{Clear, FinishWait, Get, GetReserved, Post, PrepareWait, Wakes};
use crate::tests::queue::stages::{all_totals, expect_totals, queue, unwaited};
use crate::tests::steps::Step::{BringBack, Calls, Present, Resize, ResizeFails, SendAway};
use crate::tests::totals::totals;
use std::test::Fail;
use tag_queue::ResizeCause;

#[test]
fn waits_forbid_a_resize(rt: HostRuntime) -> Result<(), Fail> {
    expect_totals(
        &rt,
        queue(16, 2),
        &[
            Calls(&[
                (0, Get, Tag(0)),
                (0, Get, Tag(1)),
                (0, Get, Tag(2)),
                (1, PrepareWait, Group(0)),
            ]),
            ResizeFails(8, ResizeCause::InUse(3, 0)),
            Calls(&[
                (0, Clear(0), Woken(0)),
                (0, Clear(1), Woken(1)),
                (1, FinishWait, LeftWoken),
                (0, Clear(2), Woken(0)),
                (1, PrepareWait, Group(1)),
            ]),
            ResizeFails(8, ResizeCause::Waiting(1)),
            Calls(&[(1, FinishWait, LeftUnwoken)]),
            ResizeFails(10_241, ResizeCause::DepthTooLarge),
            Resize(8),
            Calls(&[
                (1, PrepareWait, Group(2)),
                (0, Get, Tag(0)),
                (0, Clear(0), Woken(1)),
                (0, Wakes, Found(3, 3, 3, 1)),
                (1, FinishWait, LeftWoken),
            ]),
        ],
        all_totals(totals(4, 4, 0, 0), (3, 3, 2), 2),
    )
}

#[test]
fn a_resize_without_a_hand_hands_all_back(rt: HostRuntime) -> Result<(), Fail> {
    expect_totals(
        &rt,
        queue(4, 2),
        &[
            SendAway(1),
            Present(&[0]),
            ResizeFails(10_241, ResizeCause::Missing(1)),
            Present(&[0]),
            BringBack,
            Resize(5),
            Present(&[0, 1]),
        ],
        unwaited(0, 0, 0, 0),
    )
}

#[test]
fn held_and_posted_tags_of_both_sets_are_told(rt: HostRuntime) -> Result<(), Fail> {
    expect_totals(
        &rt,
        queue(8, 2).with_reserved(2),
        &[
            Calls(&[
                (0, GetReserved, Tag(0)),
                (0, Get, Tag(2)),
                (0, Get, Tag(3)),
                (0, Post(3), Done),
            ]),
            ResizeFails(8, ResizeCause::InUse(2, 1)),
            Present(&[0, 1]),
        ],
        unwaited(3, 0, 2, 1),
    )
}
