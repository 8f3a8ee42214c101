//! Scripts of several callers, command by command.
use crate::tests::calls::Answer::{
    Batch, Done, Found, Group, Left, NotResized, NotWaited, Nothing, Refused, Tag, Woken,
};
use crate::tests::calls::Call::{
    Clear, ClearBoth, Get, GetBatch, GetReserved, GetShallow, Leave, Post, Resize, Take, Wait,
    Wakes,
};
use crate::tests::calls::{Answer, Call, open, replay};
use std::process::Abort;
use std::sync::Wait as Blocks;
use std::test::*;
use tag_model::Totals;
use tag_queue::Left::{Unwoken, Woken as ByGrant};
use tag_queue::ResizeCause::{DepthTooLarge, InUse, Waiting};
use tag_queue::{TagFault, WaitFault};

/// Runs a script on a board with this many tags, reserved ones among them, and callers. Each command must have the
/// answer beside it, and the totals at the end must be these.
fn expect<R: Abort + AllocGlobal + Blocks>(
    rt: &R,
    sizes: (u32, u32, u32),
    said: &[(u32, Call, Answer)],
    sums: Totals,
) -> Result<(), Fail> {
    let board = open(rt.alloc(), sizes)?;
    let (wrong, board) = replay(rt, rt.alloc(), board, said)?;
    assert_eq!(rt; wrong, None);
    assert_eq!(rt; board.close(), sums);
    Ok(())
}

fn totals(got: u64, back: u64, held: u64, posted: u64) -> Totals {
    Totals {
        got,
        back,
        held,
        posted,
    }
}

#[test]
fn a_tag_is_handed_over(rt: HostRuntime) -> Result<(), Fail> {
    expect(
        &rt,
        (4, 0, 2),
        &[
            (0, Get, Tag(0)),
            (1, Clear(0), Refused(TagFault::NotHeld)),
            (0, Post(0), Done),
            (1, Take(0), Done),
            (0, Take(0), Refused(TagFault::NotPosted)),
            (0, Clear(0), Refused(TagFault::NotHeld)),
            (1, Clear(0), Woken(0)),
            (0, Clear(4), Refused(TagFault::NoSuchTag)),
        ],
        totals(1, 1, 0, 0),
    )
}

#[test]
fn a_posted_tag_is_counted_at_the_end(rt: HostRuntime) -> Result<(), Fail> {
    expect(
        &rt,
        (18, 2, 2),
        &[
            (0, GetReserved, Tag(0)),
            (1, GetReserved, Tag(1)),
            (0, GetReserved, Nothing),
            (1, Post(1), Done),
            (0, GetBatch(3), Batch(2, 7)),
            (0, ClearBoth(3, 4), Woken(0)),
            (1, Resize(20), NotResized(InUse(2, 1))),
        ],
        totals(5, 2, 2, 1),
    )
}

#[test]
fn waits_are_woken_by_batches(rt: HostRuntime) -> Result<(), Fail> {
    expect(
        &rt,
        (16, 0, 2),
        &[
            (0, Get, Tag(0)),
            (0, Get, Tag(1)),
            (0, Get, Tag(2)),
            (1, Wait, Group(0)),
            (1, Wait, NotWaited(WaitFault::Waiting)),
            (0, Leave, NotWaited(WaitFault::NotWaiting)),
            (0, Clear(0), Woken(0)),
            (0, Clear(1), Woken(1)),
            (0, Clear(2), Woken(0)),
            (0, Wakes, Found(3, 2, 0, 1)),
            (1, Leave, Left(ByGrant)),
            (1, Wait, Group(1)),
            (1, Leave, Left(Unwoken)),
            (0, Get, Tag(3)),
            (0, Clear(3), Woken(0)),
            (0, Wakes, Found(3, 2, 0, 0)),
        ],
        totals(4, 4, 0, 0),
    )
}

#[test]
fn waits_and_tags_in_use_forbid_a_resize(rt: HostRuntime) -> Result<(), Fail> {
    expect(
        &rt,
        (16, 0, 2),
        &[
            (0, Get, Tag(0)),
            (0, Get, Tag(1)),
            (0, Get, Tag(2)),
            (1, Wait, Group(0)),
            (0, Resize(8), NotResized(InUse(3, 0))),
            (0, Clear(0), Woken(0)),
            (0, Clear(1), Woken(1)),
            (1, Leave, Left(ByGrant)),
            (0, Clear(2), Woken(0)),
            (1, Wait, Group(1)),
            (0, Resize(8), NotResized(Waiting(1))),
            (1, Leave, Left(Unwoken)),
            (0, Resize(10_241), NotResized(DepthTooLarge)),
            (0, Resize(8), Done),
            (1, Wait, Group(2)),
            (0, Get, Tag(0)),
            (0, Clear(0), Woken(1)),
            (0, Wakes, Found(3, 3, 3, 1)),
            (1, Leave, Left(ByGrant)),
        ],
        totals(4, 4, 0, 0),
    )
}

#[test]
fn a_resize_keeps_the_reserved_tags(rt: HostRuntime) -> Result<(), Fail> {
    expect(
        &rt,
        (6, 2, 1),
        &[
            (0, Resize(1), NotResized(DepthTooLarge)),
            (0, GetReserved, Tag(0)),
            (0, Resize(4), NotResized(InUse(1, 0))),
            (0, Clear(0), Woken(0)),
            (0, Resize(2), Done),
            (0, Get, Nothing),
            (0, GetShallow(0), Refused(TagFault::TooShallow)),
        ],
        totals(1, 1, 0, 0),
    )
}
