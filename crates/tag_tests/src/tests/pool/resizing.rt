//! Resizes.
use crate::tests::answers::Answer::{Done, Nothing, Tag, Told, Value, WasTold};
use crate::tests::calls::Call::{
    Clear, ClearQuietly, Get, GetReserved, GetUp, ListSelf, Post, Read, Take, Write,
};
use crate::tests::shared::stages::{expect_steps, expect_totals, pool};
use crate::tests::steps::Step::{
    BringBack, Calls, Clears, Gets, Present, Resize, ResizeFails, SendAway,
};
use crate::tests::totals::{FILL, totals};
use std::test::Fail;
use tag_pool::ResizeCause;
use tag_pool::Waiter::{Listener, Sleeper};

#[test]
fn a_resize_keeps_the_reserved_set(rt: HostRuntime) -> Result<(), Fail> {
    expect_totals(
        &rt,
        pool(6, 2, 1),
        &[
            ResizeFails(1, ResizeCause::DepthTooLarge),
            Calls(&[(0, GetReserved, Tag(0)), (0, Write(0, 7), Value(FILL))]),
            ResizeFails(4, ResizeCause::InUse(1, 0)),
            Calls(&[(0, Clear(0), Told(0))]),
            Resize(2),
            // Tag 0 is still set aside, so the first get wins tag 1; the next wins tag 0, whose slot
            // has the value that it had.
            Calls(&[
                (0, Get, Nothing),
                (0, GetReserved, Tag(1)),
                (0, GetReserved, Tag(0)),
                (0, Read(0), Value(7)),
            ]),
        ],
        totals(3, 1, 2, 0),
    )
}

/// Both who sleeps and who listens counts as waiting, also while it is told.
#[test]
fn a_resize_is_refused_for_its_first_cause(rt: HostRuntime) -> Result<(), Fail> {
    expect_steps(
        &rt,
        pool(4, 1, 4),
        &[
            SendAway(3),
            ResizeFails(10_241, ResizeCause::Missing(3)),
            Present(&[0, 1, 2]),
            Calls(&[
                (0, Get, Tag(1)),
                (0, GetReserved, Tag(0)),
                (0, Post(0), Done),
                (1, ListSelf(Sleeper), Done),
                (2, ListSelf(Listener), Done),
                (0, ListSelf(Sleeper), Done),
            ]),
            BringBack,
            ResizeFails(10_241, ResizeCause::DepthTooLarge),
            ResizeFails(0, ResizeCause::DepthTooLarge),
            ResizeFails(8, ResizeCause::InUse(1, 1)),
            Calls(&[(3, Take(0), Done), (3, Clear(0), Told(0))]),
            ResizeFails(8, ResizeCause::InUse(1, 0)),
            Calls(&[(0, ClearQuietly(1), Done)]),
            ResizeFails(8, ResizeCause::Waiting(3)),
            Calls(&[(0, GetUp, WasTold(false)), (2, GetUp, WasTold(false))]),
            ResizeFails(8, ResizeCause::Waiting(1)),
            Calls(&[(1, GetUp, WasTold(false))]),
            Resize(8),
            Present(&[0, 1, 2, 3]),
        ],
    )
}

#[test]
fn a_hint_beyond_the_depth_is_reduced(rt: HostRuntime) -> Result<(), Fail> {
    expect_totals(
        &rt,
        pool(8, 0, 1).in_words(0),
        &[
            Gets(0, 4),
            ResizeFails(2, ResizeCause::InUse(4, 0)),
            Clears(0, 4),
            Resize(2),
            Calls(&[(0, Get, Tag(1)), (0, Get, Tag(0)), (0, Get, Nothing)]),
        ],
        totals(6, 4, 2, 0),
    )
}

#[test]
fn totals_go_on_through_three_depths(rt: HostRuntime) -> Result<(), Fail> {
    // The tags are all free, so the first one is won, and its slot has the initial value.
    let won_and_back = Calls(&[
        (0, Get, Tag(0)),
        (0, Write(0, 5), Value(FILL)),
        (0, Clear(0), Told(0)),
    ]);
    expect_totals(
        &rt,
        pool(64, 0, 1),
        &[
            won_and_back,
            Resize(0),
            Resize(1),
            won_and_back,
            Resize(0),
            Resize(4),
            won_and_back,
            Resize(0),
            Resize(131),
        ],
        totals(3, 3, 0, 0),
    )
}
