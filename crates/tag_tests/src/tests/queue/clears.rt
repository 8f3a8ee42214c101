//! Clears, and what they count.
use crate::tests::answers::Answer::{Batch, Found, Group, Refused, Tag, Woken};
use crate::tests::calls::Call::{Clear, ClearMask, Get, GetBatch, GetReserved, PrepareWait, Wakes};
use crate::tests::queue::stages::{all_totals, expect, expect_totals, queue};
use crate::tests::steps::Step::{Calls, ClearBatch, Gets};
use crate::tests::totals::totals;
use std::test::Fail;
use tag_queue::QueueTotals;
use tag_queue::TagFault::{NoSuchTag, NotHeld};
use wake_book::GroupTotals;

#[test]
fn a_clear_of_a_tag_that_is_not_held_is_refused(rt: HostRuntime) -> Result<(), Fail> {
    expect(
        &rt,
        queue(4, 2),
        &[
            (0, Get, Tag(0)),
            (1, Clear(0), Refused(NotHeld)),
            (0, Clear(4), Refused(NoSuchTag)),
            (0, Clear(0), Woken(0)),
            (0, Clear(0), Refused(NotHeld)),
        ],
    )
}

#[test]
fn a_batch_clear_counts_all_its_tags_and_charges_one_batch(rt: HostRuntime) -> Result<(), Fail> {
    // Hand 1 is woken, and does not leave the wait.
    let groups = GroupTotals {
        issued: 1,
        used: 0,
        granted: 1,
        waiting: 0,
    };
    let sums = QueueTotals {
        groups,
        ..all_totals(totals(6, 6, 0, 0), (6, 4, 2), 1)
    };
    expect_totals(
        &rt,
        queue(16, 2),
        &[
            Gets(0, 6),
            Calls(&[(1, PrepareWait, Group(0))]),
            ClearBatch(0, &[0, 1, 2, 3, 4], Woken(1)),
            // Two more are open, and one completion charges two of them.
            Calls(&[
                (0, Wakes, Found(5, 2, 0, 1)),
                (0, Clear(5), Woken(0)),
                (0, Wakes, Found(6, 4, 0, 1)),
            ]),
        ],
        sums,
    )
}

#[test]
fn the_tags_of_a_mask_are_counted_together(rt: HostRuntime) -> Result<(), Fail> {
    expect(
        &rt,
        queue(16, 2).in_words(4),
        &[
            (0, GetBatch(16), Batch(0, 0xffff)),
            (1, PrepareWait, Group(0)),
            (0, ClearMask(0, 0b11), Woken(1)),
            (0, Wakes, Found(2, 2, 0, 1)),
        ],
    )
}

#[test]
fn a_clear_of_a_reserved_tag_is_not_counted(rt: HostRuntime) -> Result<(), Fail> {
    expect(
        &rt,
        queue(3, 2).with_reserved(1),
        &[
            (0, GetReserved, Tag(0)),
            (0, Get, Tag(1)),
            (1, PrepareWait, Group(0)),
            (0, Clear(0), Woken(0)),
            (0, Wakes, Found(0, 0, 0, 1)),
            (0, Clear(1), Woken(1)),
            (0, Wakes, Found(1, 1, 1, 1)),
        ],
    )
}
