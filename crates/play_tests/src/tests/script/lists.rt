//! Lists of events and their verdicts.
use std::process::Abort;
use std::test::*;
use tag_script::{CheckOptions, Ending, verdict_on};

/// Checks a list, and compares the text and the ending.
fn expect<R: Abort + AllocGlobal>(
    rt: &R,
    options: &CheckOptions,
    list: &str,
    text: &str,
) -> Result<(), Fail> {
    let verdict = verdict_on(rt.alloc(), options, list.as_bytes())?;
    let written = verdict.text(rt.alloc())?;
    assert_eq!(rt; written.as_slice(), text.as_bytes(), "at {list}");
    assert_eq!(rt;
        verdict.ending() == Ending::Done,
        text.starts_with("ok "),
        "at {list}"
    );
    Ok(())
}

fn options(callers: u32) -> CheckOptions {
    CheckOptions {
        tags: 4,
        shift: Some(2),
        callers,
    }
}

#[test]
fn a_tag_is_won_again_only_when_its_sweep_is_spilled(rt: HostRuntime) -> Result<(), Fail> {
    let won_twice = "win 0 0 8\nwin 1 0 8\n";
    expect(&rt, &options(2), won_twice, "event 2 refused 3\n")?;
    let in_a_sweep = "win 0 0 8\nput 0 3\nsweep 1 0\nwin 0 0 8\n";
    expect(&rt, &options(2), in_a_sweep, "event 4 refused 3\n")?;
    let spilled = "win 0 0 8\nput 0 3\nsweep 1 0\nspill 1 0\nwin 1 0 8\n";
    expect(
        &rt,
        &options(2),
        spilled,
        "ok events=5 got=2 back=1 held=1 posted=0\n",
    )?;
    let kept = "win 0 0 12\nput 0 2\nput 0 3\nsweep 1 0\nkeep 1 0 4\nspill 1 0\nwin 0 0 8\n";
    expect(
        &rt,
        &options(2),
        kept,
        "ok events=7 got=4 back=2 held=2 posted=0\n",
    )
}

#[test]
fn the_first_fault_of_a_list_is_told(rt: HostRuntime) -> Result<(), Fail> {
    for (list, text) in [
        ("win 0 0 18446744073709551616\n", "line 1 refused 2\n"),
        ("win 0 0 16\n", "event 1 refused 1\n"),
        ("win 0 1 0\n", "event 1 refused 1\n"),
        ("win 1 0 16\n", "event 1 refused 1\n"),
        ("sweep 1 0\n", "event 1 refused 2\n"),
        ("put 0 3\n", "event 1 refused 4\n"),
        ("keep 0 0 16\n", "event 1 refused 1\n"),
        ("keep 0 0 8\n", "event 1 refused 7\n"),
        ("give 0 0 0\n", "ok events=1 got=0 back=0 held=0 posted=0\n"),
    ] {
        expect(&rt, &options(1), list, text)?;
    }
    expect(&rt, &options(65), "look\n", "setup refused 5\n")
}

#[test]
fn a_line_is_looked_at_before_the_setup_and_before_any_event(rt: HostRuntime) -> Result<(), Fail> {
    expect(&rt, &options(65), "look\nlooks\n", "line 2 refused 1\n")?;
    expect(&rt, &options(1), "put 0 3\nput 0\n", "line 2 refused 1\n")?;
    expect(&rt, &options(1), "put 0 x\nput 0\n", "line 1 refused 2\n")
}

#[test]
fn lines_are_bytes_and_the_last_may_lack_its_end(rt: HostRuntime) -> Result<(), Fail> {
    for (list, text) in [
        ("", "ok events=0 got=0 back=0 held=0 posted=0\n"),
        ("look", "ok events=1 got=0 back=0 held=0 posted=0\n"),
        ("look\nlook", "ok events=2 got=0 back=0 held=0 posted=0\n"),
        (
            "win 00 000 0015",
            "ok events=1 got=4 back=0 held=4 posted=0\n",
        ),
        ("look\r\n", "line 1 refused 1\n"),
        ("put 0 3\r\n", "line 1 refused 2\n"),
        ("put 0 3\0\n", "line 1 refused 2\n"),
        ("look\0\n", "line 1 refused 1\n"),
        ("put 0\t3\n", "line 1 refused 1\n"),
        ("put 0 +3\n", "line 1 refused 2\n"),
        ("put 0 4294967296\n", "line 1 refused 2\n"),
        ("put 0 4294967295\n", "event 1 refused 1\n"),
        ("look\n\nlook\n", "line 2 refused 1\n"),
    ] {
        expect(&rt, &options(1), list, text)?;
    }
    Ok(())
}

/// An empty word is reported before an unknown name or a number.
#[test]
fn an_empty_word_is_told_first(rt: HostRuntime) -> Result<(), Fail> {
    for line in [
        "\n",
        " ",
        "  ",
        " \r",
        " look",
        "look ",
        "nothing ",
        " nothing 0 3",
        " put 0 3",
        "put  0 3",
        "put  3",
        "put 0  3",
        "put 0 ",
        "put 0 3 ",
        "put x ",
        "put 4294967296 ",
        "sweep  0",
        "win 0 0 ",
        "win 0  8",
        "win  0 8",
        "win 0 0 8 ",
        "win x  8",
        "give 0 0  8",
    ] {
        expect(&rt, &options(1), line, "line 1 refused 1\n")?;
    }
    expect(
        &rt,
        &options(1),
        "look\nput 0 \nput 0 x\n",
        "line 2 refused 1\n",
    )
}

#[test]
fn bytes_of_any_value_stand_in_words(rt: HostRuntime) -> Result<(), Fail> {
    for (list, text) in [
        (b"put 0 \xFF".as_slice(), b"line 1 refused 2\n".as_slice()),
        (b"\xFFook", b"line 1 refused 1\n"),
        (b"put \x80  3", b"line 1 refused 1\n"),
    ] {
        let verdict = verdict_on(rt.alloc(), &options(1), list)?;
        let written = verdict.text(rt.alloc())?;
        assert_eq!(rt; written.as_slice(), text, "at {list:?}");
        assert!(rt; verdict.ending() != Ending::Done, "at {list:?}");
    }
    Ok(())
}

#[test]
fn a_setup_is_refused_by_its_first_cause(rt: HostRuntime) -> Result<(), Fail> {
    for (tags, shift, callers, text) in [
        (10_241, Some(7), 0, "setup refused 2\n"),
        (10_240, Some(7), 0, "setup refused 4\n"),
        (10_240, None, 0, "setup refused 5\n"),
        (
            10_240,
            None,
            64,
            "ok events=1 got=0 back=0 held=0 posted=0\n",
        ),
    ] {
        let options = CheckOptions {
            tags,
            shift,
            callers,
        };
        expect(&rt, &options, "look\n", text)?;
    }
    Ok(())
}

#[test]
fn a_mask_has_64_bits(rt: HostRuntime) -> Result<(), Fail> {
    let options = CheckOptions {
        tags: 64,
        shift: Some(6),
        callers: 1,
    };
    let all = "win 0 0 18446744073709551615\ngive 0 0 9223372036854775808\n";
    expect(
        &rt,
        &options,
        all,
        "ok events=2 got=64 back=1 held=63 posted=0\n",
    )
}

#[test]
fn posted_tags_are_taken(rt: HostRuntime) -> Result<(), Fail> {
    let handed_over = "win 0 0 1\npost 0 0\ntake 1 0\ngive 1 0 1\nwin 1 0 2\npost 1 1\n";
    expect(
        &rt,
        &options(2),
        handed_over,
        "ok events=6 got=2 back=1 held=0 posted=1\n",
    )?;
    expect(&rt, &options(1), "take 0 0\n", "event 1 refused 5\n")
}
