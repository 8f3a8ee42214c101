//! Scripts that are refused: a malformed line, and then the setup.
use crate::tests::script::scripts::{expect, expect_both, options};
use std::test::*;
use tag_lines::MAX_INPUT;
use tag_script::{Ending, ScriptOptions, answer_script};

#[test]
fn plain_setups(rt: HostRuntime) -> Result<(), Fail> {
    let two = ScriptOptions {
        callers: 2,
        ..options(4, None)
    };
    expect(&rt, &two, "0 get\n", "setup refused 5\n")?;
    let reserved = ScriptOptions {
        reserved: 1,
        ..options(4, None)
    };
    expect(&rt, &reserved, "0 get\n", "setup refused 3\n")
}

#[test]
fn a_setup_is_refused_by_its_first_cause(rt: HostRuntime) -> Result<(), Fail> {
    for (tags, reserved, shift, callers, text) in [
        (10_241, 1, Some(7), 0, "setup refused 2\n"),
        (10_240, 1, Some(7), 0, "setup refused 3\n"),
        (10_240, 0, Some(7), 0, "setup refused 4\n"),
        (10_240, 0, Some(6), 0, "setup refused 5\n"),
    ] {
        let refused = ScriptOptions {
            reserved,
            callers,
            ..options(tags, shift)
        };
        expect(&rt, &refused, "", text)?;
    }
    Ok(())
}

#[test]
fn faulty_lines(rt: HostRuntime) -> Result<(), Fail> {
    let two = ScriptOptions {
        callers: 2,
        ..options(4, None)
    };
    for (script, text) in [
        ("0 get x", "line 1 refused 1\n"),
        ("0 clear x", "line 1 refused 2\n"),
        ("5 get", "line 1 refused 3\n"),
    ] {
        expect_both(&rt, &two, script, text)?;
    }
    let nothing = "total got=0 back=0 held=0 posted=0\n";
    expect(&rt, &two, "", "setup refused 5\n")?;
    expect(
        &rt,
        &ScriptOptions {
            plain: false,
            ..two
        },
        "",
        nothing,
    )?;
    expect(&rt, &options(4, None), "", nothing)
}

#[test]
fn malformed_scripts(rt: HostRuntime) -> Result<(), Fail> {
    for (script, text) in [
        ("x get", "line 1 refused 2\n"),
        ("7 clear x", "line 1 refused 2\n"),
        ("0 clear 4294967296", "line 1 refused 2\n"),
        ("01 get", "line 1 refused 3\n"),
        ("00 get", "0\ntotal got=1 back=0 held=1 posted=0\n"),
        (
            "0 clear 4294967295",
            "refused 1\ntotal got=0 back=0 held=0 posted=0\n",
        ),
        ("0 get\n\n0 get", "line 2 refused 1\n"),
        ("0 get\r\n", "line 1 refused 1\n"),
        ("0 clear 0\r\n", "line 1 refused 2\n"),
        ("0\r get\n", "line 1 refused 2\n"),
        ("0\tget\n", "line 1 refused 1\n"),
        ("0 get\n0 get \n0 clear x\n", "line 2 refused 1\n"),
        ("0\n", "line 1 refused 1\n"),
        ("0 clear\n", "line 1 refused 1\n"),
        ("0 show x\n", "line 1 refused 1\n"),
    ] {
        expect_both(&rt, &options(4, None), script, text)?;
    }
    Ok(())
}

/// A command that a plain script does not have is reported as a malformed line.
#[test]
fn a_plain_script_knows_fewer_commands(rt: HostRuntime) -> Result<(), Fail> {
    for script in [
        "0 post 0\n",
        "0 show reserved\n",
        "0 wait\n",
        "0 resize 4\n",
    ] {
        expect(&rt, &options(4, None), script, "line 1 refused 1\n")?;
    }
    Ok(())
}

/// An empty word is reported before an unknown command, a number or a caller.
#[test]
fn an_empty_word_is_told_first(rt: HostRuntime) -> Result<(), Fail> {
    for line in [
        "\n",
        " ",
        "  ",
        " \r",
        " get",
        " 0 get",
        "0  get",
        "0 get ",
        "0 get  ",
        "x  get",
        "7  get",
        "7 get ",
        "4294967296  get",
        " nothing",
        "0  nothing",
        "0 nothing ",
        "0 clear ",
        "0 clear  5",
        "0 clear 5 ",
        "0  clear 5",
        "x clear ",
        "7 clear  x",
        "0 shallow ",
        "0 batch ",
        "0 show ",
        "0 clear-batch ",
        "0 clear-batch 0  1",
        "0 clear-batch 0 1 ",
        "0 clear-batch  0 1",
        "x clear-batch x ",
        "7 clear-batch 0  1",
    ] {
        expect_both(&rt, &options(4, None), line, "line 1 refused 1\n")?;
    }
    expect_both(
        &rt,
        &options(4, None),
        "0 get\n0 clear 0\n0 clear \n0 clear x\n",
        "line 3 refused 1\n",
    )
}

/// A line feed ends a line and a blank ends a word. All other bytes are part of words.
#[test]
fn any_other_byte_stands_in_a_word(rt: HostRuntime) -> Result<(), Fail> {
    for (script, text) in [
        (b"0 get\0".as_slice(), b"line 1 refused 1\n".as_slice()),
        (b"\0 get", b"line 1 refused 2\n"),
        (b"0 clear \0", b"line 1 refused 2\n"),
        (b"0 clear 0\0", b"line 1 refused 2\n"),
        (b"0 clear-batch 0 \xFF", b"line 1 refused 2\n"),
        (b"0 g\xC3\xA9t", b"line 1 refused 1\n"),
        (b"\xFF get", b"line 1 refused 2\n"),
        (b"\xFF\xFE  get", b"line 1 refused 1\n"),
        (b"0\xA0get", b"line 1 refused 1\n"),
    ] {
        assert!(rt; script.len() <= MAX_INPUT);
        let (written, ending) = answer_script(&rt, rt.alloc(), &options(4, None), script)?;
        assert_eq!(rt; written.as_slice(), text, "at {script:?}");
        assert!(rt; ending != Ending::Done, "at {script:?}");
    }
    Ok(())
}

#[test]
fn a_line_is_looked_at_before_the_setup(rt: HostRuntime) -> Result<(), Fail> {
    expect_both(&rt, &options(8, Some(7)), "0 gets\n", "line 1 refused 1\n")
}

#[test]
fn malformed_lists(rt: HostRuntime) -> Result<(), Fail> {
    for (script, text) in [
        ("0 clear-batch", "line 1 refused 1\n"),
        ("0 clear-batch 0 1 x", "line 1 refused 2\n"),
        ("x clear-batch 0 1", "line 1 refused 2\n"),
        ("0 clear-batch 0 4294967296", "line 1 refused 2\n"),
        ("1 clear-batch 0 x", "line 1 refused 2\n"),
        ("1 clear-batch 0 1", "line 1 refused 3\n"),
        ("0 clear-batches 0 1", "line 1 refused 1\n"),
    ] {
        expect_both(&rt, &options(4, None), script, text)?;
    }
    Ok(())
}
