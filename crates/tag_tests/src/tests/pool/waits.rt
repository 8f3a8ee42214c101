//! Waits round by round, and their ends.
use crate::tests::answers::Answer::{
    CannotWait, Done, Nothing, Over, Sleeps, Tag, TagAndTold, Told, WasTold,
};
use crate::tests::calls::Call::{
    Clear, ClearQuietly, Get, GetBlocking, GetUntil, IsTold, ListSelf, WaitOn,
};
use crate::tests::shared::stages::{Setting, expect, pool};
use std::test::Fail;
use tag_pool::Options;
use tag_pool::Waiter::Sleeper;

#[test]
fn a_wait_goes_on_until_it_wins_a_tag(rt: HostRuntime) -> Result<(), Fail> {
    expect(
        &rt,
        pool(1, 0, 2),
        &[
            (0, Get, Tag(0)),
            (1, WaitOn(false), Sleeps),
            (1, IsTold, WasTold(false)),
            // A sleep may end for no reason.
            (1, WaitOn(false), Sleeps),
            (0, Clear(0), Told(0b10)),
            (1, WaitOn(false), Tag(0)),
            (1, IsTold, WasTold(true)),
            (1, Clear(0), Told(0)),
        ],
    )
}

/// A hand that is told and gives up passes it on, since the tag is still free.
#[test]
fn the_end_of_a_wait_tells_the_next(rt: HostRuntime) -> Result<(), Fail> {
    expect(
        &rt,
        pool(1, 0, 3),
        &[
            (0, Get, Tag(0)),
            (1, WaitOn(false), Sleeps),
            (2, WaitOn(false), Sleeps),
            (1, WaitOn(true), Over(0)),
            (1, WaitOn(false), Sleeps),
            // Hand 2 has waited longer than hand 1, which began anew.
            (0, Clear(0), Told(0b100)),
            (2, WaitOn(true), Over(0b010)),
            (1, WaitOn(false), Tag(0)),
        ],
    )
}

#[test]
fn a_wait_that_wins_a_tag_tells_of_the_others(rt: HostRuntime) -> Result<(), Fail> {
    expect(
        &rt,
        pool(2, 0, 3),
        &[
            (0, Get, Tag(0)),
            (0, Get, Tag(1)),
            (1, WaitOn(false), Sleeps),
            (2, WaitOn(false), Sleeps),
            (0, ClearQuietly(0), Done),
            (0, ClearQuietly(1), Done),
            (1, WaitOn(false), TagAndTold(0, 0b100)),
            (2, GetBlocking, Tag(1)),
        ],
    )
}

#[test]
fn a_get_gives_up_when_its_sleeper_does(rt: HostRuntime) -> Result<(), Fail> {
    expect(
        &rt,
        pool(1, 0, 3),
        &[
            (0, GetUntil(0), Tag(0)),
            (1, GetUntil(0), Over(0)),
            (1, GetUntil(5), Over(0)),
            (2, ListSelf(Sleeper), Done),
            (0, ClearQuietly(0), Done),
            // Whoever finds a tag at once tells nobody, as there is no other.
            (1, GetUntil(0), Tag(0)),
            (1, Clear(0), Told(0b100)),
            (1, GetBlocking, Tag(0)),
        ],
    )
}

/// A round robin get that begins behind the first tag does not try each tag, and nor does one that may win no more.
#[test]
fn a_hand_that_would_not_try_each_tag_cannot_wait(rt: HostRuntime) -> Result<(), Fail> {
    let in_turn = Setting {
        options: Options::new(3, 1).with_round_robin(),
        ..pool(0, 0, 1)
    };
    expect(
        &rt,
        in_turn,
        &[
            (0, Get, Tag(0)),
            (0, WaitOn(false), CannotWait),
            (0, Get, Tag(1)),
            (0, Get, Tag(2)),
            (0, WaitOn(false), Sleeps),
            (0, WaitOn(true), Over(0)),
        ],
    )?;
    expect(
        &rt,
        pool(2, 0, 1).with_life(1),
        &[(0, Get, Tag(0)), (0, WaitOn(false), CannotWait)],
    )
}
