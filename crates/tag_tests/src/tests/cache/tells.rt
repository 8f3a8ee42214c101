//! Whom a cache tells, and what it keeps then. A bit of a mask stands for the hand of that number.
use crate::tests::answers::Answer;
use crate::tests::answers::Answer::{Done, Keeps, Tag, Told};
use crate::tests::calls::Call;
use crate::tests::calls::Call::{
    Clear, ClearBoth, ClearMask, Get, GetBlocking, Kept, ListSelf, Post, SeeTo, SeeToAll,
};
use crate::tests::shared::stages::{expect, expect_steps, pool};
use crate::tests::steps::Step::{Calls, Clears, Gets};
use std::process::Abort;
use std::sync::Wait;
use std::test::Fail;
use tag_pool::Waiter::{Listener, Sleeper};

/// Hands that list themselves.
const LISTED: [(usize, Call, Answer); 7] = [
    (1, ListSelf(Sleeper), Done),
    (2, ListSelf(Sleeper), Done),
    (3, ListSelf(Sleeper), Done),
    (4, ListSelf(Sleeper), Done),
    (5, ListSelf(Sleeper), Done),
    (6, ListSelf(Sleeper), Done),
    (7, ListSelf(Sleeper), Done),
];

/// Hand 0 gets four tags and clears three, of which its cache keeps up to `most`. Then so many others wait, and it
/// clears the last tag, which tells these hands.
fn expect_told<R: Abort + AllocGlobal + Wait>(
    rt: &R,
    most: u32,
    sleepers: usize,
    told: u64,
) -> Result<(), Fail> {
    let kept = if told == 0 { 4 } else { 0 };
    expect_steps(
        rt,
        pool(4, 0, 8).with_caches(1, most),
        &[
            Gets(0, 4),
            Clears(0, 3),
            Calls(&LISTED[..sleepers.min(7)]),
            Calls(&[(0, Clear(3), Told(told)), (0, Kept, Keeps(kept, 4, 4, 0))]),
        ],
    )
}

#[test]
fn a_clear_tells_one_for_each_tag_that_goes_back(rt: HostRuntime) -> Result<(), Fail> {
    expect_told(&rt, 8, 0, 0)?;
    expect_told(&rt, 8, 1, 0b10)?;
    expect_told(&rt, 8, 7, 0b1_1110)?;
    // One tag is kept before the last clear, and goes back for it before that tells anybody.
    expect_told(&rt, 1, 7, 0b0110)
}

/// Who sees to one tag gives back the three that are kept, and tells as many hands.
#[test]
fn hands_are_told_of_what_was_kept(rt: HostRuntime) -> Result<(), Fail> {
    expect_steps(
        &rt,
        pool(4, 0, 8).with_caches(1, 8),
        &[
            Gets(0, 4),
            Clears(0, 3),
            Calls(&LISTED[..5]),
            Calls(&[(0, SeeTo(1), Told(0b1110)), (0, Kept, Keeps(0, 4, 3, 0))]),
        ],
    )
}

#[test]
fn a_kept_tag_is_returned_at_once(rt: HostRuntime) -> Result<(), Fail> {
    expect(
        &rt,
        pool(1, 0, 1).with_caches(1, 1),
        &[
            (0, GetBlocking, Tag(0)),
            (0, Clear(0), Told(0)),
            (0, Kept, Keeps(1, 1, 1, 0)),
            (0, GetBlocking, Tag(0)),
            (0, Kept, Keeps(0, 2, 1, 1)),
        ],
    )
}

/// A batch and a mask tell for the kept tags too, and so does the post of the last tag that a careful user holds.
#[test]
fn what_goes_back_with_other_tags_is_told(rt: HostRuntime) -> Result<(), Fail> {
    for clear in [ClearBoth(1, 2), ClearMask(1, 3)] {
        expect_steps(
            &rt,
            pool(4, 0, 8).with_caches(1, 8),
            &[
                Gets(0, 4),
                Clears(0, 1),
                Calls(&LISTED),
                Calls(&[(0, clear, Told(0b1110)), (0, Kept, Keeps(0, 4, 3, 0))]),
            ],
        )?;
    }
    expect_steps(
        &rt,
        pool(4, 0, 8).with_caches(1, 8).careful(),
        &[
            Gets(0, 4),
            Clears(0, 3),
            Calls(&LISTED),
            Calls(&[(0, Post(3), Told(0b1110)), (0, Kept, Keeps(0, 4, 3, 0))]),
        ],
    )
}

/// Its user may see to what others left free: all that is kept goes back.
#[test]
fn who_sees_to_others_keeps_nothing(rt: HostRuntime) -> Result<(), Fail> {
    expect_steps(
        &rt,
        pool(4, 0, 8).with_caches(1, 8),
        &[
            Gets(0, 4),
            Clears(0, 2),
            Calls(&[
                (0, SeeTo(1), Told(0)),
                (0, Kept, Keeps(2, 4, 2, 0)),
                (1, ListSelf(Sleeper), Done),
                (2, ListSelf(Listener), Done),
                (0, SeeTo(1), Told(0b110)),
                (0, Kept, Keeps(0, 4, 2, 0)),
                (1, Get, Tag(0)),
                (3, ListSelf(Sleeper), Done),
                (1, SeeToAll, Told(0b1000)),
            ]),
        ],
    )
}
