//! Waits for a reserved tag, beside those for ordinary ones.
use crate::tests::answers::Answer::{
    CannotWait, Done, Nothing, NothingAndTold, Over, Refused, Sleeps, Tag, TagAndTold, Told,
    Waiters, WasTold,
};
use crate::tests::calls::Call::{
    Clear, ClearQuietly, FindsReservedWaiters, FindsWaiters, Get, GetExactly, GetReserved,
    GetReservedBlocking, GetReservedUntil, GetUp, GetUpReserved, IsTold, IsToldReserved,
    ListReserved, ListSelf, SeeTo, SeeToAllReserved, SeeToReserved, WaitOn, WaitOnReserved,
};
use crate::tests::shared::stages::{expect, pool};
use std::test::Fail;
use tag_pool::TagFault::{NoReserved, Spent};
use tag_pool::Waiter::{Listener, Sleeper};

/// Tag 2 is free all the while, and so is tag 1 once it is cleared.
#[test]
fn a_wait_for_a_reserved_tag_ends_with_one(rt: HostRuntime) -> Result<(), Fail> {
    expect(
        &rt,
        pool(3, 1, 2),
        &[
            (0, GetReserved, Tag(0)),
            (0, Get, Tag(1)),
            (1, WaitOnReserved(false), Sleeps),
            (0, FindsReservedWaiters, Waiters(true)),
            (0, FindsWaiters, Waiters(false)),
            (0, Clear(1), Told(0)),
            (1, IsToldReserved, WasTold(false)),
            (1, WaitOnReserved(false), Sleeps),
            (0, Clear(0), Told(0b10)),
            (1, IsToldReserved, WasTold(true)),
            (1, WaitOnReserved(false), Tag(0)),
            (0, FindsReservedWaiters, Waiters(false)),
            (1, Clear(0), Told(0)),
        ],
    )
}

#[test]
fn a_clear_tells_those_that_wait_in_its_set(rt: HostRuntime) -> Result<(), Fail> {
    expect(
        &rt,
        pool(2, 1, 5),
        &[
            (0, GetReserved, Tag(0)),
            (0, Get, Tag(1)),
            (1, ListReserved(Sleeper), Done),
            (2, ListSelf(Sleeper), Done),
            (3, ListReserved(Listener), Done),
            (4, ListSelf(Listener), Done),
            (0, Clear(0), Told(0b0_1010)),
            (2, IsTold, WasTold(false)),
            (0, Clear(1), Told(0b1_0100)),
            (1, GetUpReserved, WasTold(true)),
            (3, GetUpReserved, WasTold(true)),
        ],
    )
}

/// Hand 1 may wait in both sets, and is told of each.
#[test]
fn a_hand_waits_in_one_set_and_uses_the_other(rt: HostRuntime) -> Result<(), Fail> {
    expect(
        &rt,
        pool(2, 1, 2),
        &[
            (0, GetReservedBlocking, Tag(0)),
            (1, WaitOnReserved(false), Sleeps),
            (1, Get, Tag(1)),
            (1, Clear(1), Told(0)),
            (0, Get, Tag(1)),
            (1, WaitOn(false), Sleeps),
            (0, Clear(1), Told(0b10)),
            (1, IsToldReserved, WasTold(false)),
            (1, WaitOn(false), Tag(1)),
            (1, IsToldReserved, WasTold(false)),
            (0, Clear(0), Told(0b10)),
            (1, WaitOnReserved(false), Tag(0)),
        ],
    )
}

/// Two cleared tags are set aside, of which the get takes one at most: its sweep makes the others free, so it tells who
/// waits for a reserved tag, and not who waits for an ordinary one.
#[test]
fn a_get_tells_of_the_reserved_tags_that_it_left_free(rt: HostRuntime) -> Result<(), Fail> {
    for (get, answer) in [
        (GetReserved, TagAndTold(1, 0b10)),
        (GetExactly(2), TagAndTold(2, 0b10)),
        (GetExactly(0), NothingAndTold(0b10)),
    ] {
        expect(
            &rt,
            pool(5, 4, 3).in_words(2),
            &[
                (0, GetReserved, Tag(0)),
                (0, GetReserved, Tag(1)),
                (0, GetReserved, Tag(2)),
                (0, GetReserved, Tag(3)),
                (0, Clear(2), Told(0)),
                (0, Clear(1), Told(0)),
                (1, ListReserved(Sleeper), Done),
                (2, ListSelf(Sleeper), Done),
                (0, get, answer),
                (2, GetUp, WasTold(false)),
            ],
        )?;
    }
    Ok(())
}

#[test]
fn who_sees_to_a_set_tells_those_that_wait_in_it(rt: HostRuntime) -> Result<(), Fail> {
    expect(
        &rt,
        pool(3, 2, 4),
        &[
            (0, GetReserved, Tag(0)),
            (0, GetReserved, Tag(1)),
            (1, ListReserved(Sleeper), Done),
            (2, ListReserved(Sleeper), Done),
            (3, ListSelf(Sleeper), Done),
            (0, ClearQuietly(0), Done),
            (0, ClearQuietly(1), Done),
            (1, IsToldReserved, WasTold(false)),
            (0, SeeToReserved(1), Told(0b0010)),
            (1, GetUpReserved, WasTold(true)),
            (1, GetReserved, TagAndTold(0, 0b0100)),
            (1, SeeToAllReserved, Told(0)),
            (2, ListReserved(Sleeper), Done),
            (1, SeeToAllReserved, Told(0b0100)),
            (0, SeeTo(1), Told(0b1000)),
        ],
    )
}

/// A hand that is told and gives up passes it on, since the tag is still free.
#[test]
fn the_end_of_a_wait_for_a_reserved_tag_tells_the_next(rt: HostRuntime) -> Result<(), Fail> {
    expect(
        &rt,
        pool(2, 1, 3),
        &[
            (0, GetReserved, Tag(0)),
            (1, WaitOnReserved(false), Sleeps),
            (2, WaitOnReserved(false), Sleeps),
            (0, Clear(0), Told(0b010)),
            (1, WaitOnReserved(true), Over(0b100)),
            (2, WaitOnReserved(false), Tag(0)),
            (1, GetReserved, Nothing),
        ],
    )
}

#[test]
fn a_get_of_a_reserved_tag_gives_up_when_its_sleeper_does(rt: HostRuntime) -> Result<(), Fail> {
    expect(
        &rt,
        pool(2, 1, 3),
        &[
            (0, GetReservedUntil(0), Tag(0)),
            (1, GetReservedUntil(0), Over(0)),
            (1, GetReservedUntil(5), Over(0)),
            (1, IsToldReserved, WasTold(true)),
            (2, ListReserved(Sleeper), Done),
            (0, ClearQuietly(0), Done),
            // Whoever finds a tag at once tells nobody, as there is no other.
            (1, GetReservedUntil(0), Tag(0)),
            (1, Clear(0), Told(0b100)),
            (1, GetReservedBlocking, Tag(0)),
        ],
    )
}

#[test]
fn nobody_waits_for_a_reserved_tag_in_vain(rt: HostRuntime) -> Result<(), Fail> {
    expect(
        &rt,
        pool(1, 0, 1),
        &[
            (0, GetReservedBlocking, Refused(NoReserved)),
            (0, GetReservedUntil(0), Refused(NoReserved)),
            (0, Get, Tag(0)),
        ],
    )?;
    expect(
        &rt,
        pool(3, 2, 1).with_life(1),
        &[
            (0, GetReserved, Tag(0)),
            (0, GetReservedBlocking, Refused(Spent)),
            (0, GetReservedUntil(0), Refused(Spent)),
            (0, WaitOnReserved(false), CannotWait),
            (0, Get, Tag(2)),
        ],
    )
}
