//! Gets by one hand.
use crate::tests::answers::Answer::{Batch, Done, Nothing, Refused, Tag, Told};
use crate::tests::calls::Call::{
    Clear, ClearBoth, Get, GetBatch, GetBlocking, GetReserved, GetShallow, GetUntil, Place,
};
use crate::tests::shared::stages::{Setting, expect, expect_steps, pool};
use crate::tests::steps::Step::{Calls, ClearBatch, Gets};
use std::test::Fail;
use tag_pool::Options;
use tag_pool::TagFault::{BadCount, NoReserved, NoSuchTag, Spent, TooShallow};

/// A setting with other options.
fn with(options: Options) -> Setting {
    Setting {
        options,
        ..pool(0, 0, 1)
    }
}

#[test]
fn a_get_goes_on_past_a_full_word(rt: HostRuntime) -> Result<(), Fail> {
    expect(
        &rt,
        pool(8, 0, 1).in_words(2),
        // After tag 6 the hint wraps to 0, and tag 7 lies behind a full word.
        &[
            (0, Get, Tag(0)),
            (0, Get, Tag(1)),
            (0, Get, Tag(2)),
            (0, Get, Tag(3)),
            (0, Get, Tag(4)),
            (0, Get, Tag(5)),
            (0, Get, Tag(6)),
            (0, Get, Tag(7)),
            (0, Get, Nothing),
            (0, Clear(5), Told(0)),
            (0, Get, Tag(5)),
        ],
    )
}

#[test]
fn a_cleared_tag_comes_back_after_a_sweep(rt: HostRuntime) -> Result<(), Fail> {
    expect(
        &rt,
        pool(4, 0, 1).in_words(2),
        &[
            (0, Get, Tag(0)),
            (0, Get, Tag(1)),
            (0, Clear(0), Told(0)),
            (0, Get, Tag(2)),
            (0, Get, Tag(3)),
            (0, Get, Tag(0)),
            (0, Get, Nothing),
        ],
    )
}

/// It misses a tag below its hint, and then begins at the first tag again.
#[test]
fn a_round_robin_get_begins_behind_the_last_tag(rt: HostRuntime) -> Result<(), Fail> {
    let in_turn = with(Options::new(4, 1).with_shift(2).with_round_robin());
    expect(
        &rt,
        in_turn,
        &[
            (0, Get, Tag(0)),
            (0, Clear(0), Told(0)),
            (0, Get, Tag(1)),
            (0, Clear(1), Told(0)),
            (0, Get, Tag(2)),
            (0, Clear(2), Told(0)),
            (0, Get, Tag(3)),
            (0, Clear(3), Told(0)),
            (0, Get, Tag(0)),
        ],
    )?;
    expect_steps(
        &rt,
        in_turn,
        &[
            Gets(0, 4),
            Calls(&[(0, ClearBoth(0, 1), Told(0)), (0, Get, Tag(0))]),
            ClearBatch(0, &[0], Told(0)),
            Calls(&[(0, Get, Tag(1)), (0, Get, Nothing), (0, Get, Tag(0))]),
        ],
    )
}

#[test]
fn a_shallow_get_has_its_share_of_each_word(rt: HostRuntime) -> Result<(), Fail> {
    expect(
        &rt,
        pool(8, 0, 1).in_words(2),
        &[
            (0, GetShallow(2), Tag(0)),
            (0, GetShallow(2), Tag(4)),
            (0, GetShallow(2), Nothing),
            (0, Get, Tag(1)),
            (0, GetShallow(0), Refused(TooShallow)),
        ],
    )?;
    expect(
        &rt,
        pool(10, 0, 1).in_words(2),
        &[(0, GetShallow(1), Tag(8)), (0, GetShallow(1), Nothing)],
    )
}

#[test]
fn a_batch_get_wins_what_is_free_of_a_run(rt: HostRuntime) -> Result<(), Fail> {
    expect_steps(
        &rt,
        pool(8, 0, 1).in_words(3),
        &[
            Gets(0, 5),
            Calls(&[
                (0, ClearBoth(1, 3), Told(0)),
                (0, GetBatch(3), Batch(1, 5)),
                (0, GetBatch(5), Nothing),
                (0, GetBatch(0), Refused(BadCount)),
                (0, GetBatch(9), Refused(BadCount)),
            ]),
        ],
    )
}

#[test]
fn a_get_is_refused_for_its_first_fault(rt: HostRuntime) -> Result<(), Fail> {
    let brief = Options {
        life: 1,
        ..Options::new(8, 1).with_min_shallow(2)
    };
    expect(
        &rt,
        with(brief),
        &[
            (0, GetReserved, Refused(NoReserved)),
            (0, GetBatch(2), Refused(Spent)),
            (0, Get, Tag(0)),
            (0, Clear(0), Told(0)),
            (0, Get, Refused(Spent)),
            (0, GetShallow(2), Refused(Spent)),
            (0, GetShallow(1), Refused(TooShallow)),
            (0, GetBatch(3), Refused(BadCount)),
            (0, GetBlocking, Refused(Spent)),
            (0, GetUntil(0), Refused(Spent)),
        ],
    )?;
    expect(
        &rt,
        with(brief.with_round_robin()),
        &[
            (0, GetBatch(2), Nothing),
            (0, GetBatch(3), Refused(BadCount)),
        ],
    )
}

/// The life counts for each set by itself.
#[test]
fn reserved_tags_come_first(rt: HostRuntime) -> Result<(), Fail> {
    expect(
        &rt,
        pool(6, 2, 1).with_life(2),
        &[
            (0, GetReserved, Tag(0)),
            (0, GetReserved, Tag(1)),
            (0, GetReserved, Refused(Spent)),
            (0, Get, Tag(2)),
        ],
    )?;
    expect(
        &rt,
        pool(2, 2, 1),
        &[
            (0, Get, Nothing),
            (0, GetBlocking, Refused(NoSuchTag)),
            (0, GetUntil(0), Refused(NoSuchTag)),
            (0, GetReserved, Tag(0)),
            (0, GetReserved, Tag(1)),
            (0, GetReserved, Nothing),
            (0, Clear(1), Told(0)),
            (0, GetReserved, Tag(1)),
        ],
    )
}

#[test]
fn shallow_and_batch_gets_leave_the_reserved_tags(rt: HostRuntime) -> Result<(), Fail> {
    expect(&rt, pool(6, 2, 1), &[(0, GetBatch(2), Refused(BadCount))])?;
    expect(
        &rt,
        pool(6, 2, 1).in_words(6),
        &[
            (0, GetBatch(2), Batch(2, 3)),
            (0, GetShallow(3), Tag(4)),
            (0, GetShallow(3), Nothing),
        ],
    )
}

#[test]
fn hands_placed_apart_begin_in_words_of_their_own(rt: HostRuntime) -> Result<(), Fail> {
    expect(
        &rt,
        pool(12, 4, 2),
        &[
            (1, Place, Done),
            (1, Get, Tag(8)),
            (1, GetReserved, Tag(2)),
            (0, Get, Tag(4)),
            (0, GetReserved, Tag(0)),
        ],
    )
}
