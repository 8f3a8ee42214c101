//! Clears of the tags of a mask.
use crate::tests::answers::Answer;
use crate::tests::answers::Answer::{Batch, Held, Refused, Tag, Told};
use crate::tests::calls::Call::{Busy, ClearMask, Get, GetBatch, GetReserved, Holds};
use crate::tests::shared::stages::{expect, expect_steps, pool};
use crate::tests::steps::Step;
use crate::tests::steps::Step::{Calls, ClearBatch, Gets};
use std::process::Abort;
use std::sync::Wait;
use std::test::Fail;
use tag_pool::TagFault::{BadCount, NoSuchTag, NotHeld};

#[test]
fn a_mask_clear_takes_what_a_batch_get_answers(rt: HostRuntime) -> Result<(), Fail> {
    expect(
        &rt,
        pool(10, 2, 1).in_words(3),
        &[
            (0, GetBatch(5), Batch(2, 31)),
            (0, ClearMask(2, 0b1010), Told(0)),
            (0, GetBatch(3), Batch(3, 5)),
            (0, ClearMask(2, 31), Told(0)),
            (0, Busy, Answer::Busy(0, 0, 0)),
        ],
    )
}

/// 18 ordinary tags in words of 8, all of them held, of which this step clears 8, 9, 10 and 12.
fn expect_cleared_over_two_words<R: Abort + AllocGlobal + Wait>(
    rt: &R,
    clear: Step<'_>,
) -> Result<(), Fail> {
    expect_steps(
        rt,
        pool(20, 2, 1).in_words(3),
        &[
            Gets(0, 18),
            clear,
            Calls(&[
                (0, Busy, Answer::Busy(14, 0xf_e8fc, 0)),
                // The hint is the last of them, so the search begins in its word.
                (0, Get, Tag(10)),
                (0, Get, Tag(12)),
                (0, Get, Tag(8)),
                (0, Get, Tag(9)),
            ]),
        ],
    )
}

#[test]
fn a_mask_over_two_words_does_what_a_batch_does(rt: HostRuntime) -> Result<(), Fail> {
    expect_cleared_over_two_words(&rt, ClearBatch(0, &[8, 9, 10, 12], Told(0)))?;
    expect_cleared_over_two_words(&rt, Calls(&[(0, ClearMask(8, 0b10111), Told(0))]))?;
    expect_cleared_over_two_words(&rt, Calls(&[(0, ClearMask(0, 0b10111 << 8), Told(0))]))
}

#[test]
fn a_mask_may_begin_below_the_ordinary_tags(rt: HostRuntime) -> Result<(), Fail> {
    expect(
        &rt,
        pool(4, 2, 1),
        &[
            (0, GetReserved, Tag(0)),
            (0, Get, Tag(2)),
            (0, Get, Tag(3)),
            (0, ClearMask(0, 0b1101), Refused(NoSuchTag)),
            (0, ClearMask(1, 0b110), Told(0)),
            (0, Holds(0), Held(true)),
            (0, Holds(2), Held(false)),
            (0, Holds(3), Held(false)),
        ],
    )
}

#[test]
fn a_mask_clear_is_refused_for_its_first_fault(rt: HostRuntime) -> Result<(), Fail> {
    expect(
        &rt,
        pool(4, 1, 1),
        &[
            (0, GetReserved, Tag(0)),
            (0, Get, Tag(1)),
            (0, ClearMask(9, 0), Refused(BadCount)),
            (0, ClearMask(0, 1), Refused(NoSuchTag)),
            (0, ClearMask(0, 3), Refused(NoSuchTag)),
            (0, ClearMask(4, 1), Refused(NoSuchTag)),
            (0, ClearMask(1, 0b1001), Refused(NoSuchTag)),
            (0, ClearMask(1, 1 << 63 | 1), Refused(NoSuchTag)),
            (0, ClearMask(u32::MAX, u64::MAX), Refused(NoSuchTag)),
            (0, ClearMask(1, 3), Refused(NotHeld)),
            (0, ClearMask(1, 2), Refused(NotHeld)),
            (0, ClearMask(1, 1), Told(0)),
            (0, ClearMask(1, 1), Refused(NotHeld)),
        ],
    )
}

#[test]
fn a_mask_of_64_words_comes_back_at_once(rt: HostRuntime) -> Result<(), Fail> {
    expect_steps(
        &rt,
        pool(66, 1, 1).in_words(0),
        &[
            Gets(0, 65),
            Calls(&[
                (0, ClearMask(2, u64::MAX), Told(0)),
                (0, Busy, Answer::Busy(1, 2, 0)),
            ]),
        ],
    )
}
