//! Clears that keep their tags, and those that do not.
use crate::tests::answers::Answer;
use crate::tests::answers::Answer::{Done, Held, Keeps, Nothing, Refused, Tag, Told, WasTold};
use crate::tests::calls::Call::{
    Busy, Clear, Flush, Get, GetReserved, GetUp, Holds, Kept, ListSelf, Post, Read, Take, Write,
};
use crate::tests::shared::stages::{expect, expect_steps, pool};
use crate::tests::steps::Step::{Calls, Clears, Gets, Meet};
use std::test::Fail;
use tag_pool::TagFault::{NoSuchTag, NotHeld, NotPosted};
use tag_pool::Waiter::{Listener, Sleeper};

/// The second caller, a bare hand, does not find a kept tag.
#[test]
fn a_kept_tag_is_found_by_its_cache_alone(rt: HostRuntime) -> Result<(), Fail> {
    expect(
        &rt,
        pool(4, 0, 2).with_caches(1, 2),
        &[
            (0, Get, Tag(0)),
            (0, Get, Tag(1)),
            (0, Get, Tag(2)),
            (0, Clear(2), Told(0)),
            (0, Kept, Keeps(1, 3, 1, 0)),
            (0, Holds(2), Held(false)),
            (1, Get, Tag(3)),
            (1, Get, Nothing),
            (0, Clear(1), Told(0)),
            (0, Kept, Keeps(2, 3, 2, 0)),
            // As many tags are kept as may be, so these go back and this one is kept.
            (0, Clear(0), Told(0)),
            (0, Kept, Keeps(1, 3, 3, 0)),
            (1, Get, Tag(1)),
            (0, Get, Tag(0)),
            (0, Kept, Keeps(0, 4, 3, 1)),
            (0, Flush, Told(0)),
            (0, Kept, Keeps(0, 4, 3, 1)),
            (1, Get, Tag(2)),
            (1, Kept, Nothing),
        ],
    )
}

#[test]
fn a_kept_tag_is_not_held(rt: HostRuntime) -> Result<(), Fail> {
    expect(
        &rt,
        pool(4, 0, 2).with_caches(1, 2),
        &[
            (0, Get, Tag(0)),
            (0, Clear(0), Told(0)),
            (0, Clear(0), Refused(NotHeld)),
            (0, Read(0), Refused(NotHeld)),
            (0, Write(0, 1), Refused(NotHeld)),
            (0, Post(0), Refused(NotHeld)),
            (0, Take(0), Refused(NotPosted)),
            (1, Clear(0), Refused(NotHeld)),
            (0, Clear(1), Refused(NotHeld)),
            (0, Clear(4), Refused(NoSuchTag)),
            (0, Read(4), Refused(NoSuchTag)),
            (0, Write(4, 1), Refused(NoSuchTag)),
            (0, Post(4), Refused(NoSuchTag)),
            (0, Take(4), Refused(NoSuchTag)),
            (0, Kept, Keeps(1, 1, 1, 0)),
        ],
    )
}

#[test]
fn a_clear_that_finds_a_waiter_gives_all_back(rt: HostRuntime) -> Result<(), Fail> {
    expect(
        &rt,
        pool(4, 0, 2).with_caches(1, 4),
        &[
            (0, Get, Tag(0)),
            (0, Get, Tag(1)),
            (0, Get, Tag(2)),
            (0, Clear(0), Told(0)),
            (1, ListSelf(Sleeper), Done),
            (0, Clear(1), Told(0b10)),
            (0, Kept, Keeps(0, 3, 2, 0)),
            (1, GetUp, WasTold(true)),
            (0, Clear(2), Told(0)),
            (0, Kept, Keeps(1, 3, 3, 0)),
        ],
    )
}

#[test]
fn a_flush_tells(rt: HostRuntime) -> Result<(), Fail> {
    expect(
        &rt,
        pool(4, 0, 2).with_caches(1, 4),
        &[
            (0, Get, Tag(0)),
            (0, Clear(0), Told(0)),
            (1, ListSelf(Listener), Done),
            (0, Flush, Told(0b10)),
            (0, Flush, Told(0)),
            (1, GetUp, WasTold(true)),
        ],
    )
}

#[test]
fn a_cache_for_no_tag_is_a_bare_hand(rt: HostRuntime) -> Result<(), Fail> {
    expect(
        &rt,
        pool(4, 0, 2).with_caches(1, 0),
        &[
            (0, Get, Tag(0)),
            (0, Clear(0), Told(0)),
            (0, Kept, Keeps(0, 1, 1, 0)),
            (1, Get, Tag(0)),
        ],
    )
}

/// 64 tags are kept, and go back for the next one.
#[test]
fn a_cache_keeps_a_window_of_tags(rt: HostRuntime) -> Result<(), Fail> {
    expect_steps(
        &rt,
        pool(128, 0, 2).with_caches(1, 100),
        &[
            Gets(0, 70),
            Clears(0, 70),
            Calls(&[
                (0, Kept, Keeps(6, 70, 70, 0)),
                (0, Get, Tag(64)),
                (0, Get, Tag(65)),
                (0, Kept, Keeps(4, 72, 70, 2)),
            ]),
        ],
    )
}

#[test]
fn reserved_tags_are_not_kept(rt: HostRuntime) -> Result<(), Fail> {
    expect(
        &rt,
        pool(4, 2, 2).with_caches(1, 4),
        &[
            (0, GetReserved, Tag(0)),
            (0, Get, Tag(2)),
            (0, Clear(0), Told(0)),
            (0, Kept, Keeps(0, 2, 1, 0)),
            (0, Clear(2), Told(0)),
            (0, Kept, Keeps(1, 2, 2, 0)),
            (1, GetReserved, Tag(1)),
            (1, GetReserved, Tag(0)),
            (1, GetReserved, Nothing),
            (1, Busy, Answer::Busy(3, 7, 0)),
        ],
    )
}

#[test]
fn two_caches_meet(rt: HostRuntime) -> Result<(), Fail> {
    expect_steps(
        &rt,
        pool(16, 0, 2).with_caches(2, 8),
        &[
            Gets(0, 4),
            Gets(1, 4),
            Clears(0, 2),
            Meet(0),
            Calls(&[
                (1, Get, Tag(8)),
                (0, Get, Tag(0)),
                (1, Holds(0), Held(false)),
                (0, Holds(0), Held(true)),
            ]),
        ],
    )
}
