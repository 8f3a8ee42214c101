//! Waits, and which hands are woken.
use crate::tests::answers::Answer::{
    Found, Group, LeftUnwoken, LeftWoken, Refused, Tag, Waits, WaitsNot, Woken,
};
use crate::tests::calls::Call::{Clear, FinishWait, Get, GetBlocking, PrepareWait, Wakes};
use crate::tests::queue::stages::{all_totals, expect, expect_totals, queue};
use crate::tests::steps::Step::Calls;
use crate::tests::totals::totals;
use std::test::Fail;
use tag_queue::TagFault::NoSuchTag;

#[test]
fn a_batch_of_completions_wakes_a_waiter(rt: HostRuntime) -> Result<(), Fail> {
    expect_totals(
        &rt,
        queue(16, 2),
        &[Calls(&[
            (0, Get, Tag(0)),
            (0, Get, Tag(1)),
            (0, Get, Tag(2)),
            (0, Clear(0), Woken(0)),
            (1, PrepareWait, Group(0)),
            (0, Clear(1), Woken(0)),
            (0, Clear(2), Woken(1)),
            (1, FinishWait, LeftWoken),
        ])],
        all_totals(totals(3, 3, 0, 0), (2, 2, 1), 1),
    )
}

#[test]
fn a_clear_past_the_cap_wakes_nobody(rt: HostRuntime) -> Result<(), Fail> {
    expect_totals(
        &rt,
        queue(8, 2).with_cap(1),
        &[Calls(&[
            (0, Get, Tag(0)),
            (0, Get, Tag(1)),
            (1, PrepareWait, Group(0)),
            (0, Clear(0), Woken(1)),
            (1, FinishWait, LeftWoken),
            (1, PrepareWait, Group(1)),
            (0, Clear(1), Woken(0)),
            (1, FinishWait, LeftUnwoken),
        ])],
        all_totals(totals(2, 2, 0, 0), (1, 1, 1), 1),
    )
}

#[test]
fn a_wait_is_refused_to_who_stands_and_its_end_to_who_does_not(
    rt: HostRuntime,
) -> Result<(), Fail> {
    expect(
        &rt,
        queue(8, 2),
        &[
            (1, FinishWait, WaitsNot),
            (0, Get, Tag(0)),
            (1, PrepareWait, Group(0)),
            (1, PrepareWait, Waits),
            (1, GetBlocking, Waits),
            (0, Clear(0), Woken(1)),
            (0, Wakes, Found(1, 1, 1, 1)),
            (1, FinishWait, LeftWoken),
            (1, FinishWait, WaitsNot),
            (1, Wakes, Found(1, 1, 1, 0)),
        ],
    )
}

#[test]
fn a_blocking_get_of_a_free_tag_does_not_wait(rt: HostRuntime) -> Result<(), Fail> {
    let none = queue(1, 1).with_reserved(1);
    expect(&rt, none, &[(0, GetBlocking, Refused(NoSuchTag))])?;
    expect(
        &rt,
        queue(1, 1),
        // The next wait is in the first group: no wait was started before.
        &[
            (0, GetBlocking, Tag(0)),
            (0, Clear(0), Woken(0)),
            (0, PrepareWait, Group(0)),
        ],
    )
}
