//! The bits of a dump.
use crate::tests::script::scripts::{expect_both, options};
use std::process::Abort;
use std::sync::Wait;
use std::test::*;
use tag_script::ScriptOptions;

/// Takes this many tags of a map, gives some back, and compares the text after the answers.
fn expect_dump<R: Abort + AllocGlobal + Wait>(
    rt: &R,
    map: &ScriptOptions,
    got: u32,
    clears: &[u32],
    dumped: &str,
) -> Result<(), Fail> {
    let mut script = String::new(rt.alloc());
    let mut text = String::new(rt.alloc());
    for tag in 0..got {
        script.push_str("0 get\n")?;
        write!(text, "{tag}\n")?;
    }
    for tag in clears {
        write!(script, "0 clear {tag}\n")?;
        text.push_str("ok\n")?;
    }
    script.push_str("0 dump\n")?;
    text.push_str(dumped)?;
    let back = clears.len();
    let held = (got as usize).saturating_sub(back);
    write!(text, "total got={got} back={back} held={held} posted=0\n")?;
    expect_both(rt, map, &script, &text)
}

#[test]
fn dumps(rt: HostRuntime) -> Result<(), Fail> {
    expect_dump(&rt, &options(1, None), 1, &[], "00000000: 01\n")?;
    expect_dump(&rt, &options(8, None), 8, &[0], "00000000: fe\n")?;
    expect_dump(&rt, &options(10, None), 10, &[1], "00000000: fd03\n")?;
    let three = "00000000: ff00 07\n";
    let rest = [8, 9, 10, 11, 12, 13, 14, 15];
    expect_dump(&rt, &options(19, Some(2)), 19, &rest, three)?;
    let line = "00000000: ffff ffff ffff ffff ffff ffff ffff ffff\n";
    expect_dump(&rt, &options(128, None), 128, &[], line)?;
    let lines = "00000000: ffff ffff ffff ffff ffff ffff ffff ffff\n00000010: ff\n";
    expect_dump(&rt, &options(136, None), 136, &[], lines)?;
    let lines = "00000000: ffff ffff ffff ffff ffff ffff ffff efff\n00000010: ff00 0000 00\n";
    expect_dump(&rt, &options(165, Some(6)), 136, &[116], lines)
}

#[test]
fn a_dump_behind_batches(rt: HostRuntime) -> Result<(), Fail> {
    let script = "0 batch 64\n0 batch 64\n0 get\n0 clear 9\n0 dump\n";
    let text = "mask 18446744073709551615 at 0\nmask 18446744073709551615 at 64\n128\nok\n\
        00000000: fffd ffff ffff ffff ffff ffff ffff ffff\n00000010: 0100\n\
        total got=129 back=1 held=128 posted=0\n";
    expect_both(&rt, &options(140, Some(6)), script, text)
}

#[test]
fn offsets_are_hexadecimal(rt: HostRuntime) -> Result<(), Fail> {
    let script = "0 batch 8\n0 dump\n";
    let text = "mask 255 at 0\n\
        00000000: ff00 0000 0000 0000 0000 0000 0000 0000\n\
        00000010: 0000 0000 0000 0000 0000 0000 0000 0000\n\
        00000020: 0000 0000 0000 0000 0000 0000 0000 0000\n\
        00000030: 0000 0000 0000 0000 0000 0000 0000 0000\n\
        00000040: 0000 0000 0000 0000 0000 0000 0000 0000\n\
        00000050: 0000 0000 0000 0000 0000 0000 0000 0000\n\
        00000060: 0000 0000 0000 0000 0000 0000 0000 0000\n\
        00000070: 0000 0000 0000 0000 0000 0000 0000 0000\n\
        00000080: 0000 0000 0000 0000 0000 0000 0000 0000\n\
        00000090: 0000 0000 0000 0000 0000 0000 0000 0000\n\
        000000a0: 0000 00\ntotal got=8 back=0 held=8 posted=0\n";
    expect_both(&rt, &options(1300, Some(6)), script, text)
}

#[test]
fn a_dump_has_no_number(rt: HostRuntime) -> Result<(), Fail> {
    expect_both(&rt, &options(8, None), "0 dump 1\n", "line 1 refused 1\n")?;
    expect_both(&rt, &options(8, None), "0 dumps\n", "line 1 refused 1\n")
}
