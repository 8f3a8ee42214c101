//! Slots through a cache, and tags that pass from thread to thread.
use crate::tests::answers::Answer::{Done, Keeps, Noted, Refused, Tag, Told, Value};
use crate::tests::calls::Call::{Clear, Get, Kept, Post, PostNoted, Read, ReadNote, Take, Write};
use crate::tests::shared::stages::{expect, pool};
use crate::tests::totals::FILL;
use std::test::Fail;
use tag_pool::TagFault::{NoSuchTag, NotHeld, NotPosted};

#[test]
fn a_kept_tag_keeps_its_value(rt: HostRuntime) -> Result<(), Fail> {
    expect(
        &rt,
        pool(4, 0, 1).with_caches(1, 4),
        &[
            (0, Get, Tag(0)),
            (0, Write(0, 7), Value(FILL)),
            (0, Clear(0), Told(0)),
            (0, Get, Tag(0)),
            (0, Read(0), Value(7)),
            (0, Write(0, 8), Value(7)),
        ],
    )
}

#[test]
fn a_taken_tag_is_kept_like_any_other(rt: HostRuntime) -> Result<(), Fail> {
    expect(
        &rt,
        pool(4, 0, 2).with_caches(1, 4),
        &[
            (0, Get, Tag(0)),
            (0, Write(0, 7), Value(FILL)),
            (0, Post(0), Done),
            (1, Take(0), Done),
            (0, Take(0), Refused(NotPosted)),
            (1, Read(0), Value(7)),
            (1, Post(0), Done),
            (0, Take(0), Done),
            (0, Read(0), Value(7)),
            (0, Clear(0), Told(0)),
            (0, Kept, Keeps(1, 1, 1, 0)),
        ],
    )
}

/// A thread that takes tags from another and clears them keeps at most two, and what it kept before is free again.
#[test]
fn a_thread_that_only_clears_keeps_few(rt: HostRuntime) -> Result<(), Fail> {
    expect(
        &rt,
        pool(4, 0, 2).with_caches(1, 2),
        &[
            (1, Get, Tag(0)),
            (1, Post(0), Done),
            (0, Take(0), Done),
            (0, Clear(0), Told(0)),
            (1, Get, Tag(1)),
            (1, Post(1), Done),
            (0, Take(1), Done),
            (0, Clear(1), Told(0)),
            (0, Kept, Keeps(2, 0, 2, 0)),
            (1, Get, Tag(2)),
            (1, Post(2), Done),
            (0, Take(2), Done),
            (0, Clear(2), Told(0)),
            (0, Kept, Keeps(1, 0, 3, 0)),
            (1, Get, Tag(0)),
            (1, Get, Tag(1)),
        ],
    )
}

#[test]
fn a_kept_tag_has_no_note(rt: HostRuntime) -> Result<(), Fail> {
    expect(
        &rt,
        pool(4, 0, 2).with_caches(1, 4),
        &[
            (0, Get, Tag(0)),
            (0, PostNoted(0, 7), Done),
            (1, ReadNote(0), Noted(Some(7))),
            (0, Take(0), Done),
            (0, Clear(0), Told(0)),
            (1, ReadNote(0), Noted(None)),
            (0, PostNoted(0, 8), Refused(NotHeld)),
            (1, ReadNote(4), Refused(NoSuchTag)),
            (0, Get, Tag(0)),
            (0, PostNoted(0, 8), Done),
            (1, ReadNote(0), Noted(Some(8))),
        ],
    )
}
