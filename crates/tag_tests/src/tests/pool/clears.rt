//! Batch clears, and what clears count.
use crate::tests::answers::Answer;
use crate::tests::answers::Answer::{Batch, Refused, Tag, Told};
use crate::tests::calls::Call::{Busy, Clear, ClearBoth, Get, GetBatch, GetReserved, Show};
use crate::tests::shared::stages::{expect, expect_steps, pool};
use crate::tests::steps::Step::{Calls, ClearBatch, Gets};
use std::test::Fail;
use tag_pool::Kind::Ordinary;
use tag_pool::TagFault::{BadCount, NoSuchTag, NotHeld};

#[test]
fn a_batch_clear_is_refused_for_its_first_fault(rt: HostRuntime) -> Result<(), Fail> {
    expect_steps(
        &rt,
        pool(4, 2, 1),
        &[
            Calls(&[(0, GetReserved, Tag(0)), (0, Get, Tag(2))]),
            ClearBatch(0, &[], Refused(BadCount)),
            ClearBatch(0, &[4; 65], Refused(BadCount)),
            ClearBatch(0, &[4; 64], Refused(NoSuchTag)),
            Calls(&[
                (0, ClearBoth(3, 4), Refused(NoSuchTag)),
                (0, ClearBoth(3, 0), Refused(NoSuchTag)),
                (0, ClearBoth(2, 3), Refused(NotHeld)),
                (0, ClearBoth(2, 2), Refused(NotHeld)),
            ]),
            ClearBatch(0, &[2], Told(0)),
            ClearBatch(0, &[2], Refused(NotHeld)),
        ],
    )
}

/// Sums of as many ordinary tags as the words have bits.
fn sums(depth: u32, words: u32, busy: u32, cleared: u32) -> Answer {
    Answer::Shown(depth, busy, cleared, depth / words.max(1), words)
}

#[test]
fn a_clear_sets_aside_and_a_batch_clear_frees(rt: HostRuntime) -> Result<(), Fail> {
    expect_steps(
        &rt,
        pool(8, 0, 1).in_words(2),
        &[
            Gets(0, 8),
            ClearBatch(0, &[3, 5, 0, 7], Told(0)),
            // The hint is the last of the list, so the search begins in its word.
            Calls(&[
                (0, Busy, Answer::Busy(4, 0x56, 0)),
                (0, Show(Ordinary), sums(8, 2, 4, 0)),
                (0, Get, Tag(5)),
                (0, Clear(2), Told(0)),
                (0, Clear(6), Told(0)),
                (0, Show(Ordinary), sums(8, 2, 3, 2)),
                (0, Busy, Answer::Busy(3, 0x32, 0)),
                (0, Get, Tag(7)),
                (0, Get, Tag(6)),
                (0, Get, Tag(0)),
            ]),
        ],
    )
}

#[test]
fn a_batch_of_64_comes_back_at_once(rt: HostRuntime) -> Result<(), Fail> {
    let mut tags = [0u32; 64];
    for tag in 0..64u32 {
        tags[tag as usize] = 63 - tag;
    }
    expect_steps(
        &rt,
        pool(64, 0, 1).in_words(6),
        &[
            Calls(&[(0, GetBatch(64), Batch(0, u64::MAX))]),
            ClearBatch(0, &tags, Told(0)),
            Calls(&[(0, Show(Ordinary), sums(64, 1, 0, 0))]),
        ],
    )
}
