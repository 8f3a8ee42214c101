//! Shows, lists and dumps, and how they are written.
use crate::tests::answers::Answer;
use crate::tests::calls::Call::{Busy, Clear, Dump, GetReserved, PeekBusy, PeekShow, Show};
use crate::tests::shared::stages::{expect, expect_steps, pool};
use crate::tests::steps::Step::{Calls, Gets};
use std::test::Fail;
use tag_pool::{Kind, Shown, write_dump, write_show};

#[test]
fn a_show_counts_what_is_busy_and_what_is_aside(rt: HostRuntime) -> Result<(), Fail> {
    let ordinary = Answer::Shown(8, 2, 1, 4, 2);
    let reserved = Answer::Shown(1, 1, 0, 4, 1);
    expect_steps(
        &rt,
        pool(9, 1, 1).in_words(2),
        &[
            Gets(0, 3),
            Calls(&[
                (0, GetReserved, Answer::Tag(0)),
                (0, Clear(2), Answer::Told(0)),
                (0, Show(Kind::Ordinary), ordinary),
                (0, Show(Kind::Reserved), reserved),
                (0, PeekShow(Kind::Ordinary), ordinary),
                (0, PeekShow(Kind::Reserved), reserved),
            ]),
        ],
    )
}

#[test]
fn a_set_without_tags_shows_a_map_without_words(rt: HostRuntime) -> Result<(), Fail> {
    expect(
        &rt,
        pool(8, 0, 1),
        &[
            (0, Show(Kind::Reserved), Answer::Shown(0, 0, 0, 64, 0)),
            (0, Dump(Kind::Reserved), Answer::Dumped(0, 0xaa, 0xaa, 0xaa)),
        ],
    )
}

#[test]
fn busy_tags_of_both_sets_are_listed(rt: HostRuntime) -> Result<(), Fail> {
    expect_steps(
        &rt,
        pool(70, 3, 1),
        &[
            Gets(0, 62),
            Calls(&[
                (0, GetReserved, Answer::Tag(0)),
                (0, Clear(4), Answer::Told(0)),
                (0, Busy, Answer::Busy(62, 0xffff_ffff_ffff_ffe9, 1)),
                (0, PeekBusy, Answer::Busy(62, 0xffff_ffff_ffff_ffe9, 1)),
            ]),
        ],
    )
}

#[test]
fn a_dump_packs_the_low_bit_first(rt: HostRuntime) -> Result<(), Fail> {
    expect_steps(
        &rt,
        pool(10, 0, 1).in_words(2),
        &[
            Gets(0, 10),
            Calls(&[
                (0, Clear(1), Answer::Told(0)),
                (0, Dump(Kind::Ordinary), Answer::Dumped(2, 0xfd, 0x03, 0xaa)),
            ]),
        ],
    )
}

#[test]
fn a_show_is_written_in_five_lines(rt: HostRuntime) -> Result<(), Fail> {
    let shown = Shown {
        depth: 8,
        busy: 2,
        cleared: 1,
        bits_per_word: 4,
        map_nr: 2,
    };
    let mut text = Vec::new(rt.alloc());
    write_show(&shown, &mut text)?;
    let lines = b"depth=8\nbusy=2\ncleared=1\nbits_per_word=4\nmap_nr=2\n";
    assert_eq!(rt; text.as_slice(), lines.as_slice());
    Ok(())
}

#[test]
fn a_dump_is_written_sixteen_bytes_a_line(rt: HostRuntime) -> Result<(), Fail> {
    let mut text = Vec::new(rt.alloc());
    write_dump(&[], &mut text)?;
    write_dump(&[0x01, 0x02], &mut text)?;
    write_dump(&[0xff, 0x00, 0x07], &mut text)?;
    write_dump(&[0xff; 17], &mut text)?;
    let lines =
        b"00000000: 0102\n00000000: ff00 07\n00000000: ffff ffff ffff ffff ffff ffff ffff ffff\n00000010: ff\n";
    assert_eq!(rt; text.as_slice(), lines.as_slice());
    Ok(())
}
