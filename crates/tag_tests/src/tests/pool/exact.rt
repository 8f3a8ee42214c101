//! Gets of one given tag.
use crate::tests::answers::Answer::{Done, Nothing, Refused, Tag, Told};
use crate::tests::calls::Call::{Clear, Get, GetExactly, GetReserved, Post, Take};
use crate::tests::shared::stages::{expect, pool};
use std::test::Fail;
use tag_pool::TagFault::{NoSuchTag, Spent};

#[test]
fn a_given_tag_is_won_if_it_is_free(rt: HostRuntime) -> Result<(), Fail> {
    expect(
        &rt,
        pool(10, 2, 2).in_words(2),
        &[
            (0, GetExactly(9), Tag(9)),
            (1, GetExactly(9), Nothing),
            (0, GetExactly(9), Nothing),
            (0, Get, Tag(2)),
            (1, GetExactly(1), Tag(1)),
            (0, GetExactly(1), Nothing),
            (0, GetReserved, Tag(0)),
        ],
    )
}

/// A tag that was cleared is set aside, until a get sweeps its word. A posted one is not free.
#[test]
fn a_cleared_tag_is_free_and_a_posted_one_is_not(rt: HostRuntime) -> Result<(), Fail> {
    expect(
        &rt,
        pool(8, 0, 2),
        &[
            (0, GetExactly(6), Tag(6)),
            (0, Clear(6), Told(0)),
            (1, GetExactly(6), Tag(6)),
            (1, Post(6), Done),
            (1, GetExactly(6), Nothing),
            (0, Take(6), Done),
            (0, Clear(6), Told(0)),
            (1, GetExactly(6), Tag(6)),
        ],
    )
}

#[test]
fn an_exact_get_is_refused_for_its_first_fault(rt: HostRuntime) -> Result<(), Fail> {
    expect(
        &rt,
        pool(4, 1, 1).with_life(1),
        &[
            (0, GetExactly(4), Refused(NoSuchTag)),
            (0, GetExactly(u32::MAX), Refused(NoSuchTag)),
            (0, GetExactly(3), Tag(3)),
            (0, Clear(3), Told(0)),
            (0, GetExactly(3), Refused(Spent)),
            (0, GetExactly(4), Refused(NoSuchTag)),
            (0, GetExactly(0), Tag(0)),
            (0, GetExactly(0), Refused(Spent)),
        ],
    )
}
