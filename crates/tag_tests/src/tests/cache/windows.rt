//! Windows of tags that move.
use crate::tests::answers::Answer::{Keeps, Tag, Told, Value};
use crate::tests::calls::Call::{Clear, Flush, Get, Kept, Read};
use crate::tests::shared::stages::{expect_steps, pool};
use crate::tests::steps::Step::{Calls, Gets};
use crate::tests::totals::FILL;
use std::test::Fail;

/// The window moves to the tag that is cleared. What is kept in the former one goes back.
#[test]
fn the_window_moves_to_the_tag_that_is_cleared(rt: HostRuntime) -> Result<(), Fail> {
    expect_steps(
        &rt,
        pool(256, 0, 1).with_caches(1, 8),
        &[
            Gets(0, 200),
            Calls(&[
                (0, Clear(5), Told(0)),
                (0, Kept, Keeps(1, 200, 1, 0)),
                (0, Clear(70), Told(0)),
                (0, Kept, Keeps(1, 200, 2, 0)),
                (0, Clear(63), Told(0)),
                (0, Kept, Keeps(1, 200, 3, 0)),
                (0, Read(64), Value(FILL)),
                (0, Get, Tag(63)),
                (0, Flush, Told(0)),
                (0, Clear(71), Told(0)),
                (0, Clear(127), Told(0)),
                (0, Kept, Keeps(2, 201, 5, 1)),
                (0, Clear(62), Told(0)),
                (0, Kept, Keeps(1, 201, 6, 1)),
                (0, Get, Tag(62)),
            ]),
        ],
    )
}

/// If tags are kept only while the user holds another, a clear does not move the window, and a get does.
#[test]
fn a_careful_window_moves_with_gets(rt: HostRuntime) -> Result<(), Fail> {
    expect_steps(
        &rt,
        pool(256, 0, 1).with_caches(1, 8).careful(),
        &[
            Gets(0, 130),
            Calls(&[
                (0, Clear(5), Told(0)),
                (0, Kept, Keeps(0, 130, 1, 0)),
                (0, Clear(129), Told(0)),
                (0, Kept, Keeps(1, 130, 2, 0)),
                (0, Clear(128), Told(0)),
                (0, Kept, Keeps(0, 130, 3, 0)),
            ]),
        ],
    )
}
