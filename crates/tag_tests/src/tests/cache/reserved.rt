//! Waits of a cache's hand for a reserved tag. What is kept stays kept meanwhile: it is ordinary.
use crate::tests::answers::Answer::{
    Done, Keeps, Over, Refused, Sleeps, Tag, TagAndTold, Told, WasTold,
};
use crate::tests::calls::Call::{
    Clear, Get, GetReserved, GetReservedBlocking, GetUpReserved, IsToldReserved, Kept,
    ListReserved, ListSelf, SeeToAllReserved, SeeToReserved, WaitOn, WaitOnReserved,
};
use crate::tests::shared::stages::{expect, pool};
use std::test::Fail;
use tag_pool::TagFault::NoReserved;
use tag_pool::Waiter::Sleeper;

/// A kept tag ends a wait for an ordinary one at once, and none for a reserved one.
#[test]
fn a_wait_for_a_reserved_tag_goes_past_the_kept_ones(rt: HostRuntime) -> Result<(), Fail> {
    expect(
        &rt,
        pool(3, 1, 2).with_caches(1, 4),
        &[
            (1, GetReserved, Tag(0)),
            (0, Get, Tag(1)),
            (0, Get, Tag(2)),
            (0, Clear(1), Told(0)),
            (0, Clear(2), Told(0)),
            (0, Kept, Keeps(2, 2, 2, 0)),
            (0, WaitOnReserved(false), Sleeps),
            (0, Kept, Keeps(2, 2, 2, 0)),
            (0, WaitOn(false), Tag(1)),
            (0, Kept, Keeps(1, 3, 2, 1)),
            (0, IsToldReserved, WasTold(false)),
            (1, Clear(0), Told(0b01)),
            (0, WaitOnReserved(false), Tag(0)),
            (0, Kept, Keeps(1, 4, 2, 1)),
        ],
    )
}

#[test]
fn a_wait_of_a_cache_for_a_reserved_tag_is_given_up(rt: HostRuntime) -> Result<(), Fail> {
    expect(
        &rt,
        pool(2, 1, 3).with_caches(2, 4),
        &[
            (2, GetReserved, Tag(0)),
            (0, Get, Tag(1)),
            (0, Clear(1), Told(0)),
            (0, WaitOnReserved(false), Sleeps),
            (1, WaitOnReserved(false), Sleeps),
            (2, Clear(0), Told(0b001)),
            (0, WaitOnReserved(true), Over(0b010)),
            (0, Kept, Keeps(1, 1, 1, 0)),
            (1, GetReservedBlocking, Tag(0)),
        ],
    )
}

/// The clear of a reserved tag, and who sees to reserved tags, give no kept tag back, though somebody waits for one.
#[test]
fn reserved_tags_are_told_and_kept_ones_stay(rt: HostRuntime) -> Result<(), Fail> {
    expect(
        &rt,
        pool(3, 1, 3).with_caches(1, 4),
        &[
            (0, GetReserved, Tag(0)),
            (0, Get, Tag(1)),
            (0, Clear(1), Told(0)),
            (1, ListReserved(Sleeper), Done),
            (2, ListSelf(Sleeper), Done),
            (0, Clear(0), Told(0b010)),
            (0, Kept, Keeps(1, 2, 2, 0)),
            (1, ListReserved(Sleeper), Done),
            (0, SeeToReserved(1), Told(0b010)),
            (1, ListReserved(Sleeper), Done),
            (0, SeeToAllReserved, Told(0b010)),
            (0, Kept, Keeps(1, 2, 2, 0)),
            (1, GetUpReserved, WasTold(true)),
        ],
    )
}

#[test]
fn a_get_by_a_cache_tells_of_reserved_tags(rt: HostRuntime) -> Result<(), Fail> {
    expect(
        &rt,
        pool(3, 2, 2).with_caches(1, 4),
        &[
            (0, GetReserved, Tag(0)),
            (0, GetReserved, Tag(1)),
            (0, Clear(0), Told(0)),
            (0, Clear(1), Told(0)),
            (1, ListReserved(Sleeper), Done),
            (0, GetReserved, TagAndTold(0, 0b10)),
        ],
    )?;
    expect(
        &rt,
        pool(1, 0, 1).with_caches(1, 4),
        &[(0, GetReservedBlocking, Refused(NoReserved))],
    )
}
