//! Whom calls tell, and waits that are ended by others. A bit of a mask stands for the hand of that number.
use crate::tests::answers::Answer::{
    BatchAndTold, Done, NothingAndTold, Tag, TagAndLeft, TagAndTold, Told, Waiters, WasTold,
};
use crate::tests::calls::Call::{
    Clear, ClearBoth, ClearMask, ClearQuietly, FindsWaiters, Get, GetBatch, GetExactly, GetQuietly,
    GetReserved, GetShallow, GetUp, IsTold, ListAgain, ListSelf, SeeTo, SeeToAll,
};
use crate::tests::shared::stages::{expect, expect_steps, pool};
use crate::tests::steps::Step::{Calls, Gets};
use std::test::Fail;
use tag_pool::Waiter::{Listener, Sleeper};

#[test]
fn a_clear_tells_a_sleeper_and_a_listener(rt: HostRuntime) -> Result<(), Fail> {
    expect(
        &rt,
        pool(3, 1, 4),
        &[
            (0, GetReserved, Tag(0)),
            (0, Get, Tag(1)),
            (0, Get, Tag(2)),
            (0, FindsWaiters, Waiters(false)),
            (1, ListSelf(Sleeper), Done),
            (2, ListSelf(Sleeper), Done),
            (3, ListSelf(Listener), Done),
            (0, FindsWaiters, Waiters(true)),
            // None of them waits for a reserved tag.
            (0, Clear(0), Told(0)),
            (1, IsTold, WasTold(false)),
            (0, Clear(1), Told(0b1010)),
            (1, IsTold, WasTold(true)),
            (2, IsTold, WasTold(false)),
            (1, GetUp, WasTold(true)),
            (3, GetUp, WasTold(true)),
            (2, GetUp, WasTold(false)),
            (0, Clear(2), Told(0)),
        ],
    )
}

#[test]
fn a_batch_and_a_mask_tell_one_for_each_tag(rt: HostRuntime) -> Result<(), Fail> {
    let listed = Calls(&[
        (1, ListSelf(Sleeper), Done),
        (2, ListSelf(Sleeper), Done),
        (3, ListSelf(Sleeper), Done),
    ]);
    for clear in [ClearBoth(1, 3), ClearMask(1, 0b101)] {
        expect_steps(
            &rt,
            pool(4, 0, 4),
            &[
                Gets(0, 4),
                listed,
                Calls(&[(0, clear, Told(0b0110)), (0, Clear(0), Told(0b1000))]),
            ],
        )?;
    }
    Ok(())
}

/// Two cleared tags are set aside, of which the get takes one: its sweep makes the other free, so it tells who listed
/// itself after the clears.
#[test]
fn a_get_tells_of_the_tags_that_it_left_free(rt: HostRuntime) -> Result<(), Fail> {
    for (get, answer) in [
        (Get, TagAndTold(1, 0b10)),
        (GetShallow(4), TagAndTold(1, 0b10)),
        (GetExactly(2), TagAndTold(2, 0b10)),
        (GetExactly(0), NothingAndTold(0b10)),
        (GetBatch(1), BatchAndTold(1, 1, 0b10)),
    ] {
        expect_steps(
            &rt,
            pool(4, 0, 2).in_words(2),
            &[
                Gets(0, 4),
                Calls(&[
                    (0, Clear(2), Told(0)),
                    (0, Clear(1), Told(0)),
                    (1, ListSelf(Sleeper), Done),
                    (0, get, answer),
                ]),
            ],
        )?;
    }
    Ok(())
}

#[test]
fn quiet_calls_tell_nobody(rt: HostRuntime) -> Result<(), Fail> {
    expect_steps(
        &rt,
        pool(4, 0, 3).in_words(2),
        &[
            Gets(0, 4),
            Calls(&[
                (1, ListSelf(Sleeper), Done),
                (2, ListSelf(Listener), Done),
                (0, ClearQuietly(2), Done),
                (0, ClearQuietly(1), Done),
                (0, ClearQuietly(0), Done),
                (0, GetQuietly, TagAndLeft(0, 2)),
                (1, IsTold, WasTold(false)),
                (0, SeeTo(2), Told(0b110)),
                (0, SeeTo(2), Told(0)),
            ]),
        ],
    )
}

/// Hand 0 clears a tag and tells hand 2, which has waited longest; hand 1 clears the other tag and tells nobody. Hand
/// 2 takes a tag, and so has to tell hand 3.
#[test]
fn who_was_told_and_has_a_tag_sees_to_the_next(rt: HostRuntime) -> Result<(), Fail> {
    expect(
        &rt,
        pool(2, 0, 4),
        &[
            (0, Get, Tag(0)),
            (1, Get, Tag(1)),
            (2, ListSelf(Sleeper), Done),
            (3, ListSelf(Sleeper), Done),
            (0, Clear(0), Told(0b0100)),
            (1, ClearQuietly(1), Done),
            (2, GetUp, WasTold(true)),
            (2, GetQuietly, TagAndLeft(0, 1)),
            (2, SeeToAll, Told(0b1000)),
            (3, GetUp, WasTold(true)),
            (3, Get, Tag(1)),
            (2, ListSelf(Sleeper), Done),
            // No tag is free, so there is nothing to tell.
            (3, SeeToAll, Told(0)),
        ],
    )
}

/// Hand 1 is told first, and again after it listed itself anew with its turn; with the next turn it comes after hand 2.
#[test]
fn who_waits_on_keeps_its_turn(rt: HostRuntime) -> Result<(), Fail> {
    for setting in [pool(3, 0, 3), pool(3, 0, 3).with_caches(3, 1)] {
        expect_steps(
            &rt,
            setting,
            &[
                Gets(0, 3),
                Calls(&[
                    (1, ListSelf(Sleeper), Done),
                    (2, ListSelf(Sleeper), Done),
                    (0, Clear(0), Told(0b010)),
                    (1, ListAgain(Sleeper), Done),
                    (0, Clear(1), Told(0b010)),
                    (1, ListSelf(Sleeper), Done),
                    (0, Clear(2), Told(0b100)),
                ]),
            ],
        )?;
    }
    Ok(())
}
