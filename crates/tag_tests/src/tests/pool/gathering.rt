//! Hands that are missing, that were dropped, and that meet; and the totals of a gather.
use crate::tests::answers::Answer::{Done, Nothing, Tag, Told};
use crate::tests::calls::Call::{Clear, Get, GetReserved, ListSelf, Post};
use crate::tests::shared::stages::{expect_steps, expect_totals, pool};
use crate::tests::steps::Step::{
    Apart, BringBack, Calls, GatherMisses, Lose, Meet, Present, SendAway,
};
use crate::tests::totals::totals;
use std::test::Fail;
use tag_pool::Waiter::Sleeper;

#[test]
fn gather_without_a_hand_is_refused(rt: HostRuntime) -> Result<(), Fail> {
    expect_totals(
        &rt,
        pool(4, 1, 2),
        &[
            SendAway(1),
            SendAway(0),
            GatherMisses(0),
            Present(&[]),
            BringBack,
            GatherMisses(1),
            Present(&[0]),
            BringBack,
            SendAway(0),
            BringBack,
            Present(&[1, 0]),
        ],
        totals(0, 0, 0, 0),
    )
}

#[test]
fn a_refused_gather_succeeds_with_the_missing_hand(rt: HostRuntime) -> Result<(), Fail> {
    expect_totals(
        &rt,
        pool(4, 2, 3),
        &[
            Calls(&[(1, Get, Tag(2)), (1, GetReserved, Tag(0))]),
            SendAway(1),
            SendAway(0),
            BringBack,
            GatherMisses(1),
            Present(&[2, 0]),
            BringBack,
        ],
        totals(2, 0, 2, 0),
    )
}

#[test]
fn a_lost_hand_keeps_its_tags(rt: HostRuntime) -> Result<(), Fail> {
    expect_steps(
        &rt,
        pool(4, 2, 2),
        &[
            Calls(&[(1, Get, Tag(2)), (1, GetReserved, Tag(0))]),
            Lose(1),
            Calls(&[
                (0, Get, Tag(3)),
                (0, Get, Nothing),
                (0, GetReserved, Tag(1)),
                (0, GetReserved, Nothing),
            ]),
            GatherMisses(1),
        ],
    )
}

#[test]
fn two_hands_meet_and_go_on(rt: HostRuntime) -> Result<(), Fail> {
    expect_totals(
        &rt,
        pool(3, 1, 2),
        &[
            Calls(&[(0, Get, Tag(1)), (0, GetReserved, Tag(0))]),
            Apart(0, 0),
            Apart(0, 1),
            Calls(&[(1, Get, Tag(2))]),
            Meet(0),
            Calls(&[(0, Clear(1), Told(0)), (1, Get, Tag(1))]),
        ],
        totals(4, 1, 3, 0),
    )
}

/// Whoever waits is gathered with the others.
#[test]
fn a_gather_adds_up_both_sets(rt: HostRuntime) -> Result<(), Fail> {
    expect_totals(
        &rt,
        pool(6, 2, 2),
        &[Calls(&[
            (0, GetReserved, Tag(0)),
            (0, Get, Tag(2)),
            (0, Get, Tag(3)),
            (0, Get, Tag(4)),
            (1, ListSelf(Sleeper), Done),
            (0, Clear(2), Told(0b10)),
            (0, Post(3), Done),
        ])],
        totals(4, 1, 2, 1),
    )
}
