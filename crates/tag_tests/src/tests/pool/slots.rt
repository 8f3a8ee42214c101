//! Which tags a hand holds, and their slots.
use crate::tests::answers::Answer::{Done, Held, Noted, Refused, Tag, Told, Value};
use crate::tests::calls::Call::{
    Clear, Get, GetReserved, Holds, Post, PostNoted, Read, ReadNote, Take, Write,
};
use crate::tests::shared::stages::{expect, pool};
use crate::tests::totals::FILL;
use std::test::Fail;
use tag_core::MOST_NOTE;
use tag_pool::TagFault::{NoSuchTag, NotHeld, NotPosted};

#[test]
fn a_hand_tells_which_tags_of_both_sets_it_holds(rt: HostRuntime) -> Result<(), Fail> {
    expect(
        &rt,
        pool(4, 2, 1),
        &[
            (0, GetReserved, Tag(0)),
            (0, Get, Tag(2)),
            (0, Holds(0), Held(true)),
            (0, Holds(1), Held(false)),
            (0, Holds(2), Held(true)),
            (0, Holds(3), Held(false)),
            (0, Clear(0), Told(0)),
            (0, Holds(0), Held(false)),
        ],
    )
}

#[test]
fn tags_at_the_border_have_slots_of_their_own(rt: HostRuntime) -> Result<(), Fail> {
    expect(
        &rt,
        pool(4, 2, 1),
        &[
            (0, GetReserved, Tag(0)),
            (0, GetReserved, Tag(1)),
            (0, Get, Tag(2)),
            (0, Write(1, 7), Value(FILL)),
            (0, Write(2, 8), Value(FILL)),
            (0, Read(1), Value(7)),
            (0, Read(2), Value(8)),
            (0, Read(0), Value(FILL)),
        ],
    )
}

#[test]
fn no_such_tag_comes_before_not_held(rt: HostRuntime) -> Result<(), Fail> {
    expect(
        &rt,
        pool(4, 2, 1),
        &[
            (0, Clear(4), Refused(NoSuchTag)),
            (0, Read(4), Refused(NoSuchTag)),
            (0, Write(4, 1), Refused(NoSuchTag)),
            (0, Post(4), Refused(NoSuchTag)),
            (0, Take(4), Refused(NoSuchTag)),
            (0, Clear(1), Refused(NotHeld)),
            (0, Read(2), Refused(NotHeld)),
            (0, Write(3, 1), Refused(NotHeld)),
            (0, Post(0), Refused(NotHeld)),
            (0, Take(1), Refused(NotPosted)),
            (0, Take(2), Refused(NotPosted)),
        ],
    )
}

#[test]
fn tags_of_both_sets_pass_with_their_values(rt: HostRuntime) -> Result<(), Fail> {
    expect(
        &rt,
        pool(2, 1, 2),
        &[
            (0, GetReserved, Tag(0)),
            (0, Get, Tag(1)),
            (0, Write(0, 5), Value(FILL)),
            (0, Write(1, 6), Value(FILL)),
            (1, Take(0), Refused(NotPosted)),
            (0, Post(0), Done),
            (0, Post(1), Done),
            (1, Take(0), Done),
            (1, Take(1), Done),
            (1, Read(0), Value(5)),
            (1, Read(1), Value(6)),
            (0, Read(0), Refused(NotHeld)),
            (0, Take(1), Refused(NotPosted)),
        ],
    )
}

#[test]
fn any_hand_reads_the_notes_of_posted_tags_of_both_sets(rt: HostRuntime) -> Result<(), Fail> {
    expect(
        &rt,
        pool(4, 2, 2),
        &[
            (0, GetReserved, Tag(0)),
            (0, Get, Tag(2)),
            (0, Get, Tag(3)),
            (1, ReadNote(0), Noted(None)),
            (1, ReadNote(4), Refused(NoSuchTag)),
            (0, PostNoted(1, 7), Refused(NotHeld)),
            (0, PostNoted(0, 7), Done),
            (0, PostNoted(2, MOST_NOTE), Done),
            (0, Post(3), Done),
            (1, ReadNote(0), Noted(Some(7))),
            (1, ReadNote(2), Noted(Some(MOST_NOTE))),
            (0, ReadNote(3), Noted(Some(0))),
            (1, Take(2), Done),
            (0, ReadNote(2), Noted(None)),
            (1, Clear(2), Told(0)),
            (0, ReadNote(2), Noted(None)),
            (0, ReadNote(0), Noted(Some(7))),
        ],
    )
}
